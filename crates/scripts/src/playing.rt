//! What a line of a test asks for.

use crate::player::Player;
use bson::{Array, Document, Text, Value};
use bson_bytes::decode;
use page::MemDisk;
use script_disks::{is_sector, put_in_sector, read_sector, with_last_commit};
use script_text::{
    Draft, Fault, Reply, Word, batch_reply, bytes_in, differs, document_in, documents_in, done,
    is_document, number_in, values_in, with_ids,
};
use server::Counts;
use std::alloc::{AllocError, Global};

/// The code of a refusal because the device failed.
const STORAGE_FAILED: i32 = 9005;

/// What `reopen` gives where no fault is said.
const OPENED: &str = "a server";

/// A text as a value.
fn text(alloc: Global, text: &str) -> Result<Value, AllocError> {
    Ok(Value::String(Text::from_str(alloc, text)?))
}

/// An insert of documents into a namespace.
fn insert(alloc: Global, namespace: &str, documents: Array) -> Result<Document, Fault> {
    let (database, collection) = namespace.split_once('.').unwrap_or(("t", namespace));
    let mut command = Document::new(alloc);
    command.push("insert", text(alloc, collection)?)?;
    command.push("documents", Value::Array(documents))?;
    command.push("$db", text(alloc, database)?)?;
    Ok(command)
}

impl Player {
    /// A command as it is sent: with `$db`, where it is to have one.
    fn command_in(&self, text_of_it: &str, gets_database: bool) -> Result<Document, Fault> {
        let mut command = document_in(self.alloc, text_of_it)?;
        if gets_database && command.get("$db").is_none() {
            command.push("$db", text(self.alloc, "t")?)?;
        }
        Ok(command)
    }

    /// Begins a command.
    pub fn ask(&mut self, connection: u8, words: &str, gets_database: bool) -> Result<(), Fault> {
        let command = self.command_in(words, gets_database)?;
        self.begin(Draft::of_command(self.alloc, connection, &command)?)
    }

    /// Inserts documents, which is answered with their number.
    pub fn fill(&mut self, rest: &str) -> Result<(), Fault> {
        let (namespace, documents) = match rest.starts_with('{') {
            true => ("t.c", rest),
            false => rest.split_once(' ').unwrap_or((rest, "")),
        };
        let documents = values_in(self.alloc, documents)?;
        let count = i32::try_from(documents.len()).unwrap_or(i32::MAX);
        let command = insert(self.alloc, namespace, documents)?;
        self.begin(Draft::of_command(self.alloc, 0, &command)?)?;
        let mut reply = Document::new(self.alloc);
        reply.push("n", Value::Int32(count))?;
        self.gives(&done(reply)?)
    }

    /// The next answer is this document.
    pub fn gives(&mut self, wanted: &Document) -> Result<(), Fault> {
        let (reply, _) = self.take_answer()?;
        self.is_answer(wanted, &reply)
    }

    /// An answer is this document.
    fn is_answer(&self, wanted: &Document, reply: &Reply) -> Result<(), Fault> {
        match is_document(self.alloc, wanted, reply.body()) {
            Ok(()) => Ok(()),
            Err(_) if reply.refusal(self.alloc)? == Some(STORAGE_FAILED) => Err(Fault::Refused),
            Err(fault) => Err(fault),
        }
    }

    /// The next answer is the refusal of this number.
    pub fn refuses(&mut self, code: &str) -> Result<(), Fault> {
        let code = number_in(code)?;
        let (reply, _) = self.take_answer()?;
        let came = reply.refusal(self.alloc)?;
        if came == Some(code) {
            return Ok(());
        }
        if came == Some(STORAGE_FAILED) {
            return Err(Fault::Refused);
        }
        let wanted = format!(in self.alloc; "refusal {code}")?;
        let came = format!(in self.alloc; "{}", came.unwrap_or(0))?;
        Err(differs(self.alloc, wanted.as_str(), came.as_str())?)
    }

    /// `! CODE` is the next answer, `! CODE COMMAND` a command and its answer.
    pub fn refusal(&mut self, connection: u8, rest: &str) -> Result<(), Fault> {
        match rest.split_once(' ') {
            None => self.refuses(rest),
            Some((code, command)) => {
                self.ask(connection, command, true)?;
                self.refuses(code)
            }
        }
    }

    /// The next answer gives these documents, and leaves this cursor open.
    pub fn gives_documents(&mut self, cursor: &str, rest: &str) -> Result<(), Fault> {
        let cursor = number_in(cursor)?;
        let documents = values_in(self.alloc, rest)?;
        let (reply, sent) = self.take_answer()?;
        let Some(shape) = &sent.shape else {
            return Err(Fault::Form("that command gives no documents"));
        };
        let wanted = batch_reply(self.alloc, shape, cursor, documents)?;
        self.is_answer(&wanted, &reply)
    }

    /// The same, where only the documents' `_id`s are said.
    pub fn gives_ids(&mut self, cursor: &str, rest: &str) -> Result<(), Fault> {
        let cursor = number_in(cursor)?;
        let ids = values_in(self.alloc, rest)?;
        let (reply, sent) = self.take_answer()?;
        let Some(shape) = &sent.shape else {
            return Err(Fault::Form("that command gives no documents"));
        };
        let wanted = batch_reply(self.alloc, shape, cursor, ids)?;
        let came = with_ids(self.alloc, shape, cursor, reply.body());
        match came {
            Ok(came) => is_document(self.alloc, &wanted, &came),
            Err(_) => self.is_answer(&wanted, &reply),
        }
    }

    /// The next answer is this frame.
    pub fn gives_frame(&mut self, rest: &str) -> Result<(), Fault> {
        let wanted = bytes_in(self.alloc, rest)?;
        let (reply, _) = self.take_answer()?;
        if wanted.as_slice() == reply.frame.as_slice() {
            return Ok(());
        }
        let (document, _) = decode(self.alloc, wanted.get(21..).unwrap_or(&[]))?;
        self.is_answer(&document, &reply)?;
        Err(differs(self.alloc, "this frame", "one with another header")?)
    }

    /// A turn hands out nothing.
    pub fn gives_nothing(&mut self) -> Result<(), Fault> {
        self.is_answered()?;
        self.turn()?;
        self.is_answered()
    }

    /// A connection is closed for this fault.
    pub fn is_closed(&mut self, wanted: &str) -> Result<(), Fault> {
        let fault = self.take_closed()?;
        self.is_same(wanted, fault.name())
    }

    /// What came is what was wanted.
    fn is_same(&self, wanted: &str, came: &str) -> Result<(), Fault> {
        if came == wanted {
            return Ok(());
        }
        Err(differs(self.alloc, wanted, came)?)
    }

    /// The server is closed, and opened again over a device that holds this.
    fn open_over(&mut self, memory: MemDisk) -> Result<(), Fault> {
        self.orders.stop_after(u64::MAX);
        self.orders.fail_at(0, false);
        self.open(memory)
    }

    /// `reopen`: over what its device holds; `reopen FAULT`: that is refused for this fault.
    pub fn reopen(&mut self, wanted: &str) -> Result<(), Fault> {
        self.is_idle()?;
        let memory = self.close()?;
        let came = match self.open_over(memory) {
            Ok(()) => OPENED,
            Err(Fault::File(name)) => name,
            Err(fault) => return Err(fault),
        };
        self.is_same(if wanted.is_empty() { OPENED } else { wanted }, came)
    }

    /// `last`: opens again at the greatest number of a commit.
    pub fn reopen_last(&mut self) -> Result<(), Fault> {
        with_last_commit(self.device()?)?;
        self.reopen("")
    }

    /// `put N BYTES` or `put N+AT BYTES`.
    pub fn put(&mut self, rest: &str) -> Result<(), Fault> {
        let (place, bytes) = rest.split_once(' ').unwrap_or((rest, ""));
        let (number, at) = place.split_once('+').unwrap_or((place, "0"));
        let bytes = bytes_in(self.alloc, bytes)?;
        put_in_sector(self.device()?, number_in(number)?, number_in(at)?, &bytes)
    }

    /// `sector N BYTES`.
    pub fn sector(&mut self, rest: &str) -> Result<(), Fault> {
        let (number, front) = rest.split_once(' ').unwrap_or((rest, ""));
        let front = bytes_in(self.alloc, front)?;
        let came = read_sector(self.device()?, number_in(number)?)?;
        is_sector(self.alloc, &came, &front)
    }

    /// Opens again over what a power cut leaves.
    pub fn cut(&mut self, mask: &str) -> Result<(), Fault> {
        let mask = number_in(mask)?;
        let memory = self.close()?;
        self.open_over(memory.image(mask)?)
    }

    /// So many calls of the device at most since the last line that counted them, or in the opening and since then.
    pub fn calls(&mut self, most: &str) -> Result<(), Fault> {
        let most: u64 = number_in(most)?;
        self.send()?;
        let calls = self.orders.take_calls();
        if calls <= most {
            return Ok(());
        }
        let came = format!(in self.alloc; "{calls}")?;
        Err(differs(self.alloc, "fewer calls of the device", came.as_str())?)
    }

    /// A check of the file counts this, or ends for this fault.
    pub fn checks(&mut self, wanted: &str) -> Result<(), Fault> {
        match self.check() {
            Ok(counts) => self.counts(wanted, counts),
            Err(Fault::File(name)) => self.is_same(wanted, name),
            Err(fault) => Err(fault),
        }
    }

    /// The counts of a check are these.
    fn counts(&self, wanted: &str, counts: Counts) -> Result<(), Fault> {
        let came = format!(in self.alloc;
            "generation {} collections {} documents {} indexes {} pages {} free {}",
            counts.generation,
            counts.collections,
            counts.documents,
            counts.indexes,
            counts.pages,
            counts.free,
        )?;
        self.is_same(wanted, came.as_str())
    }

    /// `fail N` or `fail N lands`.
    pub fn fail(&mut self, rest: &str) -> Result<(), Fault> {
        let (number, manner) = rest.split_once(' ').unwrap_or((rest, ""));
        self.orders.fail_at(number_in(number)?, manner == "lands");
        Ok(())
    }

    /// What changes the message above.
    pub fn change(&mut self, word: Word, rest: &str) -> Result<(), Fault> {
        let alloc = self.alloc;
        let Some(draft) = self.draft.as_mut() else {
            return Err(Fault::Form("there is no message to change"));
        };
        let (front, behind) = rest.split_once(' ').unwrap_or((rest, ""));
        match word {
            Word::With => draft.put_documents(front, &documents_in(alloc, behind)?),
            Word::Flags => {
                draft.set_flags(flags_in(front)?);
                Ok(())
            }
            Word::Bytes => draft.put_bytes(&bytes_in(alloc, rest)?),
            Word::Patch => draft.patch(number_in(front)?, bytes_in(alloc, behind)?),
            _ => {
                draft.piece = Some(number_in(front)?);
                Ok(())
            }
        }
    }
}

/// The flag bits of a message, in digits of ten or, behind `0x`, of sixteen.
fn flags_in(word: &str) -> Result<u32, Fault> {
    match word.strip_prefix("0x") {
        None => number_in(word),
        Some(digits) => match u32::from_str_radix(digits, 16) {
            Ok(flags) => Ok(flags),
            Err(_) => Err(Fault::Form("no flag bits")),
        },
    }
}
