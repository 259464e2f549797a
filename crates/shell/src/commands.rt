//! Commands as documents.

use crate::fault::ShellFault;
use bson::{Array, BuildFault, Document, NoMemory, Text, Value};
use std::alloc::Global;

/// A namespace: a database's name, and a collection's behind the first dot.
#[derive(Clone, Copy)]
pub(crate) struct Namespace<'a> {
    pub database: &'a str,
    pub collection: &'a str,
}

impl<'a> Namespace<'a> {
    /// What a text names. A text without a dot names no collection, which each command refuses.
    pub(crate) fn of(text: &'a str) -> Namespace<'a> {
        match text.split_once('.') {
            Some((database, collection)) => Namespace {
                database,
                collection,
            },
            None => Namespace {
                database: text,
                collection: "",
            },
        }
    }
}

/// A text as a value.
fn text_value(alloc: Global, text: &str) -> Result<Value, NoMemory> {
    Ok(Value::String(Text::from_str(alloc, text)?))
}

/// Puts a field at the end of a command. One that would nest too deep has no room.
fn put(command: &mut Document, name: &str, value: Value) -> Result<(), ShellFault> {
    match command.push(name, value) {
        Ok(()) => Ok(()),
        Err(BuildFault::Memory) => Err(ShellFault::Memory),
        Err(_) => Err(ShellFault::TooLarge),
    }
}

/// Says in which database a command is run, where it doesn't say so itself.
pub(crate) fn run_in(
    alloc: Global,
    command: &mut Document,
    database: &str,
) -> Result<(), ShellFault> {
    if command.get("$db").is_some() {
        return Ok(());
    }
    put(command, "$db", text_value(alloc, database)?)
}

/// Inserts documents.
pub(crate) fn insert(
    alloc: Global,
    into: &Namespace<'_>,
    documents: Vec<Value>,
) -> Result<Document, ShellFault> {
    let mut array = Array::new(alloc);
    for document in documents {
        match array.push(document) {
            Ok(()) => {}
            Err(BuildFault::Memory) => return Err(ShellFault::Memory),
            Err(_) => return Err(ShellFault::TooLarge),
        }
    }
    let mut command = Document::new(alloc);
    put(&mut command, "insert", text_value(alloc, into.collection)?)?;
    put(&mut command, "documents", Value::Array(array))?;
    run_in(alloc, &mut command, into.database)?;
    Ok(command)
}

/// Finds all documents.
pub(crate) fn find_all(alloc: Global, from: &Namespace<'_>) -> Result<Document, ShellFault> {
    let mut command = Document::new(alloc);
    put(&mut command, "find", text_value(alloc, from.collection)?)?;
    run_in(alloc, &mut command, from.database)?;
    Ok(command)
}

/// Asks for the next batch of a cursor.
pub(crate) fn get_more(
    alloc: Global,
    from: &Namespace<'_>,
    cursor: i64,
) -> Result<Document, ShellFault> {
    let mut command = Document::new(alloc);
    put(&mut command, "getMore", Value::Int64(cursor))?;
    put(
        &mut command,
        "collection",
        text_value(alloc, from.collection)?,
    )?;
    run_in(alloc, &mut command, from.database)?;
    Ok(command)
}
