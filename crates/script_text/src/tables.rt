//! Rows of tables: a text or bytes, and what they are as a document.

use crate::byte_text::bytes_in;
use crate::fault::{Fault, differs};
use crate::reply::is_document;
use crate::values::values_in;
use crate::words::Word;
use bson::{Document, Value, encode};
use bson_bytes::{RawDoc, decode};
use std::alloc::Global;
use std::str::from_utf8;

/// What a row is about.
#[derive(Drop)]
pub enum Subject {
    /// A text of MongoDB Extended JSON.
    Text(String),
    /// Bytes of BSON, with a document at their front.
    Bytes(Vec<u8>),
}

/// The text that a JSON string is.
fn text_of(alloc: Global, string: &str) -> Result<String, Fault> {
    match values_in(alloc, string)?.into_items().pop() {
        Some(Value::String(text)) => Ok(String::from_str(alloc, text.as_str())?),
        _ => Err(Fault::Form("no text")),
    }
}

/// What the row of a line is about, if it begins one.
pub fn subject_of(alloc: Global, word: Word, rest: &str) -> Result<Option<Subject>, Fault> {
    match word {
        Word::Json => Ok(Some(Subject::Text(String::from_str(alloc, rest)?))),
        Word::Text => Ok(Some(Subject::Text(text_of(alloc, rest)?))),
        Word::Bson => Ok(Some(Subject::Bytes(bytes_in(alloc, rest)?))),
        _ => Ok(None),
    }
}

/// Whether two texts are one.
fn is_text(alloc: Global, wanted: &str, came: &[u8]) -> Result<(), Fault> {
    if wanted.as_bytes() == came {
        return Ok(());
    }
    Err(differs(alloc, wanted, from_utf8(came).unwrap_or("no text"))?)
}

impl Subject {
    /// The document.
    fn document(&self, alloc: Global) -> Result<Document, Fault> {
        match self {
            Subject::Text(text) => Ok(ext_json::read(alloc, text.as_str())?),
            Subject::Bytes(bytes) => Ok(decode(alloc, bytes)?.0),
        }
    }

    /// The document is these bytes, and they are read as the same document.
    fn is_bytes(&self, alloc: Global, wanted: &[u8]) -> Result<(), Fault> {
        let came = encode(alloc, &self.document(alloc)?)?;
        let (again, length) = decode(alloc, wanted)?;
        let is_same = came.as_slice() == wanted
            && length == wanted.len()
            && encode(alloc, &again)?.as_slice() == wanted
            && RawDoc::new(wanted)?.bytes() == wanted;
        if is_same {
            return Ok(());
        }
        Err(differs(alloc, "these bytes", "others")?)
    }

    /// Its canonical or its relaxed form is this text, which is read as the same document.
    fn is_written(&self, alloc: Global, wanted: &str, is_canonical: bool) -> Result<(), Fault> {
        let document = self.document(alloc)?;
        let mut came = Vec::new(alloc);
        if is_canonical {
            ext_json::write_canonical(&mut came, &document)?;
        } else {
            ext_json::write_relaxed(&mut came, &document)?;
        }
        is_text(alloc, wanted, &came)?;
        is_document(
            alloc,
            &document,
            &encode(alloc, &ext_json::read(alloc, wanted)?)?,
        )
    }

    /// It is refused with this fault.
    fn is_refused(&self, alloc: Global, wanted: &str) -> Result<(), Fault> {
        match self {
            Subject::Text(text) => text_is_refused(alloc, text.as_str(), wanted),
            Subject::Bytes(bytes) => bytes_are_refused(alloc, bytes, wanted),
        }
    }

    /// What a line says of it is so.
    pub fn is(&self, alloc: Global, word: Word, rest: &str) -> Result<(), Fault> {
        match word {
            Word::Is => self.is_bytes(alloc, &bytes_in(alloc, rest)?),
            Word::Canonical => self.is_written(alloc, rest, true),
            Word::Relaxed => self.is_written(alloc, rest, false),
            Word::Fault => self.is_refused(alloc, rest),
            _ => Err(Fault::Form("no row has such a line")),
        }
    }
}

/// A text is refused with this fault, at this line and this column.
fn text_is_refused(alloc: Global, text: &str, wanted: &str) -> Result<(), Fault> {
    match ext_json::read(alloc, text) {
        Ok(_) => Err(differs(alloc, wanted, "a document")?),
        Err(at) => {
            let name = at.fault.name();
            let (line, column) = (at.line, at.column);
            let came = format!(in alloc; "{name} {line} {column}")?;
            is_text(alloc, wanted, came.as_bytes())
        }
    }
}

/// Bytes are refused with this fault, where a document is made of them and where none is.
fn bytes_are_refused(alloc: Global, bytes: &[u8], wanted: &str) -> Result<(), Fault> {
    let made = match decode(alloc, bytes) {
        Ok(_) => "a document",
        Err(fault) => fault.name(),
    };
    is_text(alloc, wanted, made.as_bytes())?;
    let seen = match RawDoc::new(bytes) {
        Ok(_) => "a document",
        Err(fault) => fault.name(),
    };
    is_text(alloc, wanted, seen.as_bytes())
}
