//! Marks of connections, by their numbers.

use std::alloc::{AllocError, Global};
use std::cmp::Ordering;

/// How many numbers a word has marks of.
const WORD: usize = 64;

/// Which numbers are marked. A round passes over those that aren't, so a thousand connections that say nothing cost next to nothing.
#[derive(Drop)]
pub(crate) struct Marks {
    words: Vec<u64>,
}

impl Marks {
    /// So many numbers, of which none is marked.
    pub fn new(alloc: Global, count: usize) -> Result<Marks, AllocError> {
        let words = Vec::from_elem(alloc, 0, count.div_ceil(WORD))?;
        Ok(Marks { words })
    }

    /// Marks a number.
    pub fn set(&mut self, number: usize) {
        if let Some(word) = self.words.get_mut(number / WORD) {
            *word |= bit(number);
        }
    }

    /// Takes the mark of a number away.
    pub fn clear(&mut self, number: usize) {
        if let Some(word) = self.words.get_mut(number / WORD) {
            *word &= !bit(number);
        }
    }

    /// Whether any number is marked.
    pub fn has_any(&self) -> bool {
        self.words.iter().any(|word| *word != 0)
    }

    /// The least number from this one on that is marked.
    pub fn next(&self, from: usize) -> Option<usize> {
        for (place, word) in self.words.iter().enumerate() {
            let marked = marks_from(*word, place, from);
            if marked != 0 {
                let first = place.saturating_mul(WORD);
                return Some(first.saturating_add(marked.trailing_zeros() as usize));
            }
        }
        None
    }
}

/// The bit of a number in its word.
fn bit(number: usize) -> u64 {
    1 << (number % WORD)
}

/// The marks of the word at a place that are of this number or a greater one.
fn marks_from(word: u64, place: usize, from: usize) -> u64 {
    match place.cmp(&(from / WORD)) {
        Ordering::Less => 0,
        Ordering::Equal => word & (u64::MAX << (from % WORD)),
        Ordering::Greater => word,
    }
}
