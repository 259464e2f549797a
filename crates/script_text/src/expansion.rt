//! What stands for long things: parentheses, and `#` for the numbers of a row.

use crate::fault::Fault;
use crate::numbers::{number_in, row_in};
use base64::engine::general_purpose::STANDARD;
use std::alloc::{AllocError, Global};

/// The most parentheses of a line.
const MOST_PARENTHESES: usize = 1_000;

/// A text so many times.
fn repeated(alloc: Global, text: &str, count: usize) -> Result<String, AllocError> {
    let mut out = String::new(alloc);
    for _ in 0..count {
        out.push_str(text)?;
    }
    Ok(out)
}

/// A binary of bytes 0, 1, .. 250, 0, ..
fn binary(alloc: Global, count: usize) -> Result<String, AllocError> {
    let mut bytes = Vec::new(alloc);
    for i in 0..count {
        bytes.push((i % 251) as u8)?;
    }
    let text = STANDARD.encode(alloc, &bytes)?;
    format!(in alloc; "{{\"$binary\": {{\"base64\": \"{text}\", \"subType\": \"00\"}}}}")
}

/// A document of so many levels.
fn nested(alloc: Global, levels: usize) -> Result<String, AllocError> {
    let inner = levels.saturating_sub(1);
    let mut out = repeated(alloc, "{\"a\": ", inner)?;
    out.push_str("{}")?;
    out.push_str(repeated(alloc, "}", inner)?.as_str())?;
    Ok(out)
}

/// A line with this number in place of each `#`.
pub fn with_number(alloc: Global, line: &str, number: i64) -> Result<String, AllocError> {
    let number = format!(in alloc; "{number}")?;
    let mut out = String::new(alloc);
    let mut is_first = true;
    for part in line.split('#') {
        if !is_first {
            out.push_str(number.as_str())?;
        }
        is_first = false;
        out.push_str(part)?;
    }
    Ok(out)
}

/// A text for each number of a row, with commas between.
fn listed(alloc: Global, row: &str, text: &str) -> Result<String, Fault> {
    let mut out = String::new(alloc);
    for number in row_in(alloc, row)?.iter() {
        if !out.is_empty() {
            out.push_str(", ")?;
        }
        out.push_str(with_number(alloc, text, *number)?.as_str())?;
    }
    Ok(out)
}

/// What stands in the place of parentheses with this in them.
fn meaning(alloc: Global, inner: &str) -> Result<String, Fault> {
    let Some((what, count)) = inner.rsplit_once('*') else {
        return listed_in(alloc, inner);
    };
    match what {
        "bin" => Ok(binary(alloc, number_in(count)?)?),
        "nest" => Ok(nested(alloc, number_in(count)?)?),
        _ => repetition(alloc, inner, what, count),
    }
}

/// A row, and behind it a text with `#`.
fn listed_in(alloc: Global, inner: &str) -> Result<String, Fault> {
    match inner.split_once(' ') {
        Some((row, text)) => listed(alloc, row, text),
        None => listed(alloc, inner, "#"),
    }
}

/// `"x"*500`, a text in quotes; `00*500`, digits; anything else is a row in whose text a star stands.
fn repetition(alloc: Global, inner: &str, what: &str, count: &str) -> Result<String, Fault> {
    let is_quoted = what.len() > 1 && what.starts_with('"') && what.ends_with('"');
    if is_quoted {
        let text = what.trim_start_matches('"').trim_end_matches('"');
        let text = repeated(alloc, text, number_in(count)?)?;
        return Ok(format!(in alloc; "\"{text}\"")?);
    }
    match what.contains(' ') {
        true => listed_in(alloc, inner),
        false => Ok(repeated(alloc, what, number_in(count)?)?),
    }
}

/// A line with the innermost of its first parentheses opened, if it has any.
fn opened_once(alloc: Global, line: &str) -> Result<Option<String>, Fault> {
    let Some((front, behind)) = line.split_once(')') else {
        return Ok(None);
    };
    let Some((before, inner)) = front.rsplit_once('(') else {
        return Ok(None);
    };
    let mut out = String::from_str(alloc, before)?;
    out.push_str(meaning(alloc, inner)?.as_str())?;
    out.push_str(behind)?;
    Ok(Some(out))
}

/// A line with all its parentheses opened, innermost first.
pub fn opened(alloc: Global, line: &str) -> Result<String, Fault> {
    let mut text = String::from_str(alloc, line)?;
    for _ in 0..MOST_PARENTHESES {
        match opened_once(alloc, text.as_str())? {
            None => return Ok(text),
            Some(next) => text = next,
        }
    }
    Err(Fault::Form("too many parentheses"))
}
