//! Replies laid out for people.

use crate::fault::ShellFault;
use json::{Pretty, Reader, Scratch, Token};
use std::alloc::Global;

/// A text of JSON with a line for each field and element.
pub(crate) fn laid_out(alloc: Global, text: &str) -> Result<Vec<u8>, ShellFault> {
    let mut scratch = Scratch::new(alloc);
    let Ok(mut reader) = Reader::new(text, &mut scratch) else {
        return Err(ShellFault::Memory);
    };
    let mut out = Pretty::new(alloc);
    for _ in 0..u64::MAX {
        match reader.next() {
            None => break,
            Some(Token::Bad) => return Err(ShellFault::Reply),
            Some(token) => out.token(token)?,
        }
    }
    Ok(out.into_inner())
}
