//! Documents from text, with the places of faults.

ghost use Rattle.std.specs.Prelude.{◌≡◌};
ghost use Rattle.ext_json.specs.Parsing.{Reads, document_at};

use crate::fault::{ExtJsonFault, FaultAt};
use crate::parsing::take_document;
use crate::tokens::Tokens;
use bson::Document;
use json::Scratch;
use std::alloc::Global;

/// A fault with the place of a byte of a text that begins at a line.
fn fault_at(fault: ExtJsonFault, text: &str, first_line: usize, at: usize) -> FaultAt
    ensures { result.fault ≡ fault }
{
    let mut line = first_line;
    let mut column = 1usize;
    'bytes: for byte in &text.as_bytes()[..at.min(text.len())] {
        if *byte == b'\n' {
            line = line.saturating_add(1);
            column = 1;
        } else if *byte & 0xc0 != 0x80 {
            column = column.saturating_add(1);
        }
    }
    FaultAt {
        fault,
        line,
        column,
    }
}

/// The document that a text is which begins at a line. The scratch is kept from text to text.
#[tactic(auto, unfolding(crate::specs::Parsing::document_at))]
pub(crate) fn read_at(
    alloc: Global,
    scratch: &mut Scratch,
    line: usize,
    text: &str,
) -> Result<Document, FaultAt>
    ensures { Reads result (document_at text.now) }
{
    let Ok(mut tokens) = Tokens::new(text, scratch) else {
        return Err(fault_at(ExtJsonFault::Memory, text, line, 0));
    };
    match take_document(alloc, &mut tokens) {
        Ok(document) => Ok(document),
        Err(fault) => Err(fault_at(fault, text, line, tokens.at())),
    }
}

/// The document that a text is in Extended JSON v2, canonical, relaxed or mixed; or the first fault from the left,
/// with its place.
pub fn read(alloc: Global, text: &str) -> Result<Document, FaultAt>
    ensures { Reads result (document_at text.now) }
{
    let mut scratch = Scratch::new(alloc);
    read_at(alloc, &mut scratch, 1, text)
}
