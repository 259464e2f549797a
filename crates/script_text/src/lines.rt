//! The lines of a script.

use std::alloc::{AllocError, Global};

/// A line, and where it begins in its file. Lines that begin with a blank go on with the one above them.
#[derive(Debug, Drop)]
pub struct Line {
    pub number: usize,
    pub text: String,
}

/// Whether a line says nothing: it is empty or a comment.
fn is_silent(line: &str) -> bool {
    line.trim().is_empty() || line.starts_with('#')
}

/// Puts a line behind the others, or at the end of the last one where it goes on with that.
fn put_line(
    alloc: Global,
    lines: &mut Vec<Line>,
    number: usize,
    line: &str,
) -> Result<(), AllocError> {
    if line.starts_with(' ') {
        if let Some(last) = lines.last_mut() {
            last.text.push_str(" ")?;
            last.text.push_str(line.trim())?;
            return Ok(());
        }
    }
    let text = String::from_str(alloc, line.trim_end())?;
    lines.push(Line { number, text })?;
    Ok(())
}

/// The lines of a script that say something.
pub fn lines_of(alloc: Global, text: &str) -> Result<Vec<Line>, AllocError> {
    let mut lines = Vec::new(alloc);
    let mut number: usize = 0;
    for line in text.lines() {
        number = number.saturating_add(1);
        if !is_silent(line) {
            put_line(alloc, &mut lines, number, line)?;
        }
    }
    Ok(lines)
}
