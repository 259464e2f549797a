//! Messages as a script puts them together (MongoDB wire protocol, OP_MSG).

use crate::fault::Fault;
use bson::{Document, Value, encode};
use std::alloc::{AllocError, Global};

/// The opcode of OP_MSG.
const OP_MSG: u32 = 2013;
/// The bytes of a frame's header.
const HEADER: usize = 16;

/// How a reply with documents names what it gives: the field of its batch, and the namespace.
#[derive(Debug, Drop)]
pub struct Shape {
    pub batch: &'static str,
    pub namespace: String,
}

/// A message that is not sent yet, on a connection.
#[derive(Drop)]
pub struct Draft {
    alloc: Global,
    pub connection: u8,
    shape: Option<Shape>,
    // all its bytes, where the script says them
    raw: Option<Vec<u8>>,
    flags: u32,
    sections: Vec<u8>,
    patches: Vec<(usize, Vec<u8>)>,
    // it comes in pieces of so many bytes
    pub piece: Option<usize>,
}

impl Draft {
    /// A message of which the script says every byte.
    pub fn of_bytes(alloc: Global, connection: u8, bytes: Vec<u8>) -> Draft {
        Draft {
            alloc,
            connection,
            shape: None,
            raw: Some(bytes),
            flags: 0,
            sections: Vec::new(alloc),
            patches: Vec::new(alloc),
            piece: None,
        }
    }

    /// A message with this body.
    pub fn of_command(alloc: Global, connection: u8, command: &Document) -> Result<Draft, Fault> {
        let mut sections = Vec::from_slice(alloc, &[0])?;
        sections.extend_from_slice(&encode(alloc, command)?)?;
        Ok(Draft {
            alloc,
            connection,
            shape: shape_of(alloc, command)?,
            raw: None,
            flags: 0,
            sections,
            patches: Vec::new(alloc),
            piece: None,
        })
    }

    /// Puts documents beside the body, as they are spelled: a section of kind 1.
    pub fn put_documents(&mut self, name: &str, content: &[u8]) -> Result<(), Fault> {
        let size = length(name.len(), content.len()).saturating_add(5);
        self.sections.push(1)?;
        self.sections.extend_from_slice(&size.to_le_bytes())?;
        self.sections.extend_from_slice(name.as_bytes())?;
        self.sections.push(0)?;
        self.sections.extend_from_slice(content)?;
        Ok(())
    }

    /// Puts bytes behind the sections.
    pub fn put_bytes(&mut self, bytes: &[u8]) -> Result<(), Fault> {
        Ok(self.sections.extend_from_slice(bytes)?)
    }

    /// How the documents of its reply are named.
    pub fn into_shape(self) -> Option<Shape> {
        self.shape
    }

    pub fn set_flags(&mut self, flags: u32) {
        self.flags = flags;
    }

    /// Has these bytes in the frame from a place on, in place of its own.
    pub fn patch(&mut self, place: usize, bytes: Vec<u8>) -> Result<(), Fault> {
        Ok(self.patches.push((place, bytes))?)
    }

    /// The bytes of the frame with this number, before they are patched.
    fn unpatched(&mut self, number: u32) -> Result<Vec<u8>, AllocError> {
        if let Some(bytes) = self.raw.take() {
            return Ok(bytes);
        }
        let mut frame = Vec::new(self.alloc);
        let size = length(self.sections.len(), HEADER).saturating_add(4);
        for word in [size, number, 0, OP_MSG, self.flags] {
            frame.extend_from_slice(&word.to_le_bytes())?;
        }
        frame.extend_from_slice(&self.sections)?;
        Ok(frame)
    }

    /// The bytes of the frame; those that the script doesn't say have this number.
    pub fn frame(&mut self, number: u32) -> Result<Vec<u8>, Fault> {
        let mut frame = self.unpatched(number)?;
        for (place, bytes) in self.patches.iter() {
            put_over(&mut frame, *place, bytes.as_slice())?;
        }
        Ok(frame)
    }
}

/// Puts bytes in the place of those that stand in a frame or a sector from a place on.
pub fn put_over(all: &mut [u8], place: usize, bytes: &[u8]) -> Result<(), Fault> {
    let Some((_, rest)) = all.split_at_mut_checked(place) else {
        return Err(Fault::Form("bytes behind the end of the frame or sector"));
    };
    let Some((old, _)) = rest.split_at_mut_checked(bytes.len()) else {
        return Err(Fault::Form("bytes behind the end of the frame or sector"));
    };
    old.copy_from_slice(bytes);
    Ok(())
}

/// Two lengths together.
fn length(one: usize, other: usize) -> u32 {
    u32::try_from(one.saturating_add(other)).unwrap_or(u32::MAX)
}

/// The text at a name.
fn text_at<'a>(command: &'a Document, name: &str) -> Option<&'a str> {
    match command.get(name) {
        Some(Value::String(text)) => Some(text.as_str()),
        _ => None,
    }
}

/// How the documents that a command asks for are named in its reply; `None` where it asks for none.
fn shape_of(alloc: Global, command: &Document) -> Result<Option<Shape>, AllocError> {
    let Some(first) = command.pairs().first() else {
        return Ok(None);
    };
    let (batch, collection) = match first.name.as_str() {
        "getMore" => ("nextBatch", text_at(command, "collection")),
        "listCollections" => ("firstBatch", Some("$cmd.listCollections")),
        name => ("firstBatch", text_at(command, name)),
    };
    let (Some(database), Some(collection)) = (text_at(command, "$db"), collection) else {
        return Ok(None);
    };
    let namespace = format!(in alloc; "{database}.{collection}")?;
    Ok(Some(Shape { batch, namespace }))
}
