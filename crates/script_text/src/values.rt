//! Values that stand one behind the other, in MongoDB Extended JSON.

use crate::fault::Fault;
use bson::{Array, Document, Pair, Value, encode};
use std::alloc::{AllocError, Global};
use std::str::from_utf8;

/// How far a line was looked through.
#[derive(Clone, Copy)]
struct Place {
    depth: u32,
    // in a text
    is_quoted: bool,
    // behind a backslash
    is_escaped: bool,
}

impl Place {
    /// Goes on behind a byte.
    fn pass(&mut self, byte: u8) {
        if self.is_quoted {
            self.is_quoted = self.is_escaped || byte != b'"';
            self.is_escaped = !self.is_escaped && byte == b'\\';
            return;
        }
        match byte {
            b'"' => self.is_quoted = true,
            b'{' | b'[' => self.depth = self.depth.saturating_add(1),
            b'}' | b']' => self.depth = self.depth.saturating_sub(1),
            _ => {}
        }
    }

    /// Whether a blank here stands between two values.
    fn is_between(&self) -> bool {
        self.depth == 0 && !self.is_quoted
    }
}

/// The array of these values, with commas between them.
fn array_text(alloc: Global, values: &str) -> Result<Vec<u8>, AllocError> {
    let mut out = Vec::from_slice(alloc, b"{\"\": [")?;
    let mut place = Place {
        depth: 0,
        is_quoted: false,
        is_escaped: false,
    };
    // a blank was passed over, and no comma
    let mut is_behind_blank = false;
    for byte in values.trim().bytes() {
        if byte == b' ' && place.is_between() {
            is_behind_blank = true;
            continue;
        }
        let is_comma = byte == b',' || out.last() == Some(&b',');
        if is_behind_blank && !is_comma {
            out.push(b',')?;
        }
        is_behind_blank = false;
        place.pass(byte);
        out.push(byte)?;
    }
    out.extend_from_slice(b"]}")?;
    Ok(out)
}

/// The document that a text is.
pub fn document_in(alloc: Global, text: &str) -> Result<Document, Fault> {
    Ok(ext_json::read(alloc, text)?)
}

/// The values that stand in a text, with blanks or commas between them.
pub fn values_in(alloc: Global, text: &str) -> Result<Array, Fault> {
    let array = array_text(alloc, text)?;
    let Ok(array) = from_utf8(&array) else {
        return Err(Fault::Form("no text"));
    };
    let mut pairs = document_in(alloc, array)?.into_pairs();
    let Some(Pair { name: _, value }) = pairs.pop() else {
        return Err(Fault::Form("no values"));
    };
    match value {
        Value::Array(array) => Ok(array),
        _ => Err(Fault::Form("no values")),
    }
}

/// The bytes of values that are documents, one behind the other.
fn spelled_documents(alloc: Global, values: &[Value]) -> Result<Vec<u8>, Fault> {
    let mut out = Vec::new(alloc);
    for value in values {
        match value {
            Value::Document(document) => out.extend_from_slice(&encode(alloc, document)?)?,
            _ => return Err(Fault::Form("no document")),
        }
    }
    Ok(out)
}

/// The bytes of the documents that stand in a text.
pub fn documents_in(alloc: Global, text: &str) -> Result<Vec<u8>, Fault> {
    // one document by itself may have as many levels as there are, and more than one in an array
    match document_in(alloc, text) {
        Ok(document) => Ok(encode(alloc, &document)?),
        Err(Fault::Memory) => Err(Fault::Memory),
        Err(_) => spelled_documents(alloc, values_in(alloc, text)?.items()),
    }
}
