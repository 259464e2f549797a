//! Documents as lines.

use crate::commands::{Namespace, find_all, get_more};
use crate::database::Database;
use crate::fault::ShellFault;
use crate::progress::Watch;
use crate::replies::{Batch, batch_in, is_done, refusal};
use bson::{Document, Value};
use ext_json::{write_canonical, write_relaxed};
use std::alloc::Global;
use std::io::Write;

/// Writes each document of a collection on a line of its own, in ascending order of `_id`: canonical, so that reading it gives the
/// same document, or relaxed. It gives how many they are; a collection that isn't there has none.
pub fn export<D: Database>(
    alloc: Global,
    database: &mut D,
    namespace: &str,
    canonical: bool,
    output: &mut impl Write,
    watch: &mut impl Watch,
) -> Result<u64, ShellFault>
    requires sound { D.is_sound database.old }
    ensures sound { D.is_sound database.new }
{
    let from = Namespace::of(namespace);
    let mut command = find_all(alloc, &from)?;
    let documents = export_from(
        alloc,
        database,
        &from,
        &mut command,
        canonical,
        output,
        watch,
    );
    drop(command);
    documents
}

/// Writes the batches that a command and those after it are answered. It gives how many documents they have.
fn export_from<D: Database>(
    alloc: Global,
    database: &mut D,
    from: &Namespace<'_>,
    command: &mut Document,
    canonical: bool,
    output: &mut impl Write,
    watch: &mut impl Watch,
) -> Result<u64, ShellFault>
    requires sound { D.is_sound database.old }
    ensures sound { D.is_sound database.new }
{
    let mut documents = 0u64;
    'batches: for _ in 0..u64::MAX {
        let (count, cursor) = export_batch(alloc, database, command, canonical, output)?;
        documents = documents.saturating_add(count);
        watch.done(documents, 0);
        if cursor == 0 {
            break;
        }
        *command = get_more(alloc, from, cursor)?;
    }
    Ok(documents)
}

/// Writes the batch that a command is answered. It gives how many documents it has, and the cursor to go on with.
fn export_batch<D: Database>(
    alloc: Global,
    database: &mut D,
    command: &Document,
    canonical: bool,
    output: &mut impl Write,
) -> Result<(u64, i64), ShellFault>
    requires sound { D.is_sound database.old }
    ensures sound { D.is_sound database.new }
{
    let reply = database.reply(command)?;
    let batch = batch_of(alloc, &reply)?;
    write_batch(alloc, batch.documents, canonical, output)?;
    Ok((batch.documents.len() as u64, batch.cursor))
}

/// The batch of a reply, or its refusal.
fn batch_of(alloc: Global, reply: &Document) -> Result<Batch<'_>, ShellFault> {
    if !is_done(reply) {
        return Err(refusal(alloc, reply));
    }
    match batch_in(reply) {
        Some(batch) => Ok(batch),
        None => Err(ShellFault::Reply),
    }
}

/// Writes documents, each on a line.
fn write_batch(
    alloc: Global,
    documents: &[Value],
    canonical: bool,
    output: &mut impl Write,
) -> Result<(), ShellFault> {
    let mut text = Vec::new(alloc);
    for value in documents {
        if let Value::Document(document) = value {
            if canonical {
                write_canonical(&mut text, document)?;
            } else {
                write_relaxed(&mut text, document)?;
            }
            text.push(b'\n')?;
        }
    }
    match output.write_all(&text) {
        Ok(()) => Ok(()),
        Err(_) => Err(ShellFault::Device),
    }
}
