//! Bytes in a script: hexadecimal digits, and letters in double quotes.

use crate::fault::Fault;
use std::alloc::Global;

/// What a hexadecimal digit counts.
fn digit_of(byte: u8) -> Option<u8> {
    match byte {
        b'0'..=b'9' => Some(byte - b'0'),
        b'a'..=b'f' => Some(byte - b'a' + 10),
        b'A'..=b'F' => Some(byte - b'A' + 10),
        _ => None,
    }
}

/// Puts the bytes of a word: pairs of digits.
fn put_digits(out: &mut Vec<u8>, word: &str) -> Result<(), Fault> {
    let mut high = None;
    for byte in word.bytes() {
        let Some(digit) = digit_of(byte) else {
            return Err(Fault::Form("no hexadecimal digit"));
        };
        match high {
            None => high = Some(digit),
            Some(above) => {
                out.push((above << 4) | digit)?;
                high = None;
            }
        }
    }
    match high {
        None => Ok(()),
        Some(_) => Err(Fault::Form("half a byte")),
    }
}

/// Puts the bytes of words of digits.
fn put_words(out: &mut Vec<u8>, words: &str) -> Result<(), Fault> {
    for word in words.split_whitespace() {
        put_digits(out, word)?;
    }
    Ok(())
}

/// The bytes of a text: what stands in quotes is letters, all else digits with blanks between.
pub fn bytes_in(alloc: Global, text: &str) -> Result<Vec<u8>, Fault> {
    let mut out = Vec::new(alloc);
    let mut is_quoted = false;
    for part in text.split('"') {
        if is_quoted {
            out.extend_from_slice(part.as_bytes())?;
        } else {
            put_words(&mut out, part)?;
        }
        is_quoted = !is_quoted;
    }
    Ok(out)
}
