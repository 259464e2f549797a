//! A document a line.

ghost use Rattle.std.specs.Prelude.{◌≡◌};
ghost use Rattle.ext_json.specs.Lines as spec;
ghost use Rattle.ext_json.specs.Lines.{ReadsLine};

use crate::fault::FaultAt;
use crate::texts::read_at;
use bson::Document;
use json::Scratch;
use std::alloc::Global;

/// Reads documents from lines, one after the other, which its caller hands in.
#[derive(Drop)]
pub struct LineReader {
    alloc: Global,
    scratch: Scratch,
    // how many lines were handed in
    lines: usize,
}

impl LineReader {
    /// A reader of a text of which no line was handed in yet.
    pub fn new(alloc: Global) -> LineReader {
        LineReader {
            alloc,
            scratch: Scratch::new(alloc),
            lines: 0,
        }
    }

    /// The document of the next line; `None` where the line is blank. A fault has the line's number. After a fault
    /// the next line can be read.
    pub fn read(&mut self, line: &str) -> Result<Option<Document>, FaultAt>
        ensures { ReadsLine result line.now }
    {
        self.lines = self.lines.saturating_add(1);
        if is_blank(line.as_bytes()) {
            return Ok(None);
        }
        let document = read_at(self.alloc, &mut self.scratch, self.lines, line)?;
        Ok(Some(document))
    }
}

/// Whether there is nothing but spaces of JSON.
fn is_blank(bytes: &[u8]) -> bool
    ensures { result ≡ spec.is_blank bytes.now }
{
    bytes.iter().all(|byte| *byte == b' ' || *byte == b'\t' || *byte == b'\n' || *byte == b'\r')
}
