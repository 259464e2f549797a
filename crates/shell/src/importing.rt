//! Documents from lines.

use crate::asking::fault_at;
use crate::commands::{Namespace, insert};
use crate::database::Database;
use crate::fault::ShellFault;
use crate::lines::{Line, Lines};
use crate::progress::Watch;
use crate::replies::{is_done, refusal};
use bson::{Document, Value};
use ext_json::LineReader;
use std::alloc::Global;
use std::io::BufRead;
use std::mem;

/// The most documents of one insert.
const MOST_DOCUMENTS: usize = 1_000;

/// The most bytes of the documents of one insert: a message has room for them and the names of their places.
const MOST_BYTES: usize = 1_000_000;

/// The bytes that an element of an array has beside its value: its kind, and a number of at most three digits with its end.
const PLACE_BYTES: usize = 5;

/// Documents that wait for being inserted together.
#[derive(Drop)]
struct Waiting {
    documents: Vec<Value>,
    bytes: usize,
}

impl Waiting {
    fn new(alloc: Global) -> Waiting {
        Waiting {
            documents: Vec::new(alloc),
            bytes: 0,
        }
    }

    /// Whether so many bytes more have no room in one insert.
    fn is_full(&self, bytes: usize) -> bool {
        self.documents.len() >= MOST_DOCUMENTS || self.bytes.saturating_add(bytes) > MOST_BYTES
    }

    /// Puts a document of so many bytes behind the others.
    fn put(&mut self, document: Document, bytes: usize) -> Result<(), ShellFault> {
        self.documents.push(Value::Document(document))?;
        self.bytes = self.bytes.saturating_add(bytes);
        Ok(())
    }
}

/// Inserts the documents that stand in the lines of the input, one a line, in batches of at most 1,000, each of which is one
/// command and one commit. It gives how many they are. A line that is no document ends it, and so does a refused batch; all that
/// came before a wrong line, or in batches before a refused one, stays. Blank lines are passed over.
pub fn import<D: Database>(
    alloc: Global,
    database: &mut D,
    namespace: &str,
    input: &mut impl BufRead,
    watch: &mut impl Watch,
) -> Result<u64, ShellFault>
    requires sound { D.is_sound database.old }
    ensures sound { D.is_sound database.new }
{
    let mut work = Work {
        alloc,
        into: Namespace::of(namespace),
        waiting: Waiting::new(alloc),
        documents: 0,
        bytes: 0,
    };
    let read = work.import_lines(database, input, watch);
    // What stands before a wrong line is inserted all the same.
    work.send(database, watch)?;
    read?;
    Ok(work.documents)
}

/// An import, as far as it is.
#[derive(Drop)]
struct Work<'a> {
    alloc: Global,
    into: Namespace<'a>,
    waiting: Waiting,
    /// How many documents are inserted.
    documents: u64,
    /// How many bytes of the input are read.
    bytes: u64,
}

impl Work<'_> {
    /// Takes each line of the input.
    fn import_lines<D: Database>(
        &mut self,
        database: &mut D,
        input: &mut impl BufRead,
        watch: &mut impl Watch,
    ) -> Result<(), ShellFault>
        requires sound { D.is_sound database.old }
        ensures sound { D.is_sound database.new }
    {
        let mut lines = Lines::new(self.alloc, input);
        let mut reader = LineReader::new(self.alloc);
        let taken = self.take_lines(database, &mut lines, &mut reader, watch);
        drop(reader);
        drop(lines);
        taken
    }

    /// Takes each line as it is read.
    fn take_lines<D: Database, I: BufRead>(
        &mut self,
        database: &mut D,
        lines: &mut Lines<'_, I>,
        reader: &mut LineReader,
        watch: &mut impl Watch,
    ) -> Result<(), ShellFault>
        requires sound { D.is_sound database.old }
        ensures sound { D.is_sound database.new }
    {
        'lines: for _ in 0..u64::MAX {
            let Some(line) = lines.next()? else {
                break;
            };
            self.take_line(database, &line, reader, watch)?;
        }
        Ok(())
    }

    /// Takes a line: its document, if it isn't blank.
    fn take_line<D: Database>(
        &mut self,
        database: &mut D,
        line: &Line<'_>,
        reader: &mut LineReader,
        watch: &mut impl Watch,
    ) -> Result<(), ShellFault>
        requires sound { D.is_sound database.old }
        ensures sound { D.is_sound database.new }
    {
        self.bytes = self.bytes.saturating_add(line.text.len() as u64 + 1);
        match reader.read(line.as_str()?) {
            Ok(Some(document)) => self.take(database, document, watch),
            Ok(None) => Ok(()),
            Err(at) => Err(fault_at(1, at)),
        }
    }

    /// Takes a document. Where it has no room beside those that wait, these are inserted first.
    fn take<D: Database>(
        &mut self,
        database: &mut D,
        document: Document,
        watch: &mut impl Watch,
    ) -> Result<(), ShellFault>
        requires sound { D.is_sound database.old }
        ensures sound { D.is_sound database.new }
    {
        let bytes = document.encoded_len().saturating_add(PLACE_BYTES);
        if self.waiting.is_full(bytes) {
            self.send(database, watch)?;
        }
        self.waiting.put(document, bytes)
    }

    /// Inserts the documents that wait, if there are any.
    fn send<D: Database>(
        &mut self,
        database: &mut D,
        watch: &mut impl Watch,
    ) -> Result<(), ShellFault>
        requires sound { D.is_sound database.old }
        ensures sound { D.is_sound database.new }
    {
        let sent = mem::replace(&mut self.waiting, Waiting::new(self.alloc));
        let count = sent.documents.len() as u64;
        if count == 0 {
            return Ok(());
        }
        let command = insert(self.alloc, &self.into, sent.documents)?;
        let reply = database.reply(&command)?;
        if !is_done(&reply) {
            return Err(refusal(self.alloc, &reply));
        }
        self.documents = self.documents.saturating_add(count);
        watch.done(self.documents, self.bytes);
        Ok(())
    }
}
