//! The lines of an input.

use crate::fault::{LineFault, ShellFault};
use ext_json::ExtJsonFault;
use std::alloc::Global;
use std::io::{BufRead, ErrorKind};

/// The lines of an input, one after the other.
#[derive(Drop)]
pub(crate) struct Lines<'a, R> {
    input: &'a mut R,
    line: Vec<u8>,
    number: u64,
}

/// A line without its end, and its number, from 1.
#[derive(Clone, Copy)]
pub(crate) struct Line<'a> {
    pub number: u64,
    pub text: &'a [u8],
}

impl<'a> Line<'a> {
    /// The line as a text. One that is not UTF-8 is no document.
    pub(crate) fn as_str(&self) -> Result<&'a str, ShellFault> {
        match str::from_utf8(self.text) {
            Ok(text) => Ok(text),
            Err(_) => Err(ShellFault::Line(LineFault {
                line: self.number,
                column: 1,
                fault: ExtJsonFault::Syntax,
            })),
        }
    }

    /// Whether nothing but spaces stands there.
    pub(crate) fn is_blank(&self) -> bool {
        self.text.iter().all(|byte| byte.is_ascii_whitespace())
    }
}

impl<'a, R: BufRead> Lines<'a, R> {
    pub(crate) fn new(alloc: Global, input: &'a mut R) -> Lines<'a, R> {
        Lines {
            input,
            line: Vec::new(alloc),
            number: 0,
        }
    }

    /// The next line, or None at the end of the input.
    pub(crate) fn next(&mut self) -> Result<Option<Line<'_>>, ShellFault> {
        self.line.clear();
        match self.input.read_until(b'\n', &mut self.line) {
            Ok(0) => return Ok(None),
            Ok(_) => {}
            Err(error) if error.kind() == ErrorKind::OutOfMemory => return Err(ShellFault::Memory),
            Err(_) => return Err(ShellFault::Device),
        }
        self.number = self.number.saturating_add(1);
        Ok(Some(Line {
            number: self.number,
            text: without_end(&self.line),
        }))
    }
}

/// A line without the line feed at its end, and a carriage return before it.
fn without_end(line: &[u8]) -> &[u8] {
    let line = match line.split_last() {
        Some((b'\n', front)) => front,
        _ => line,
    };
    match line.split_last() {
        Some((b'\r', front)) => front,
        _ => line,
    }
}
