//! The names of a path.

ghost use Rattle.std.specs.Prelude.{◌≡◌, ◌-◌, ◌^◌, true, IfOk, min, option_map};
ghost use Rattle.path.specs.Parts.{IsPart, Passes, is_digits, leads_with_zero, number, index_of};

use bson::{NoMemory, Text};
use std::alloc::Global;
use std::marker::Model;

/// One name of a path. It isn't empty, doesn't begin with `$` and has no zero byte.
#[derive(Debug, Drop)]
pub struct Part {
    name: Text,
}

impl Model for Part {
    ghost use Rattle.std.specs.Prelude.{ℕ, List};
    ghost use Rattle.path.specs.Parts.{IsPart};

    ghost Value = { List ℕ };

    ghost view = { λ a. a.name };

    ghost invariant = { λ a. IsPart a.name };
}

impl Part {
    /// The part of this name.
    pub(crate) fn new(alloc: Global, name: &str) -> Result<Part, NoMemory>
        requires { Passes name.now }
        ensures { IfOk result (λ p. p ≡ name.now) }
    {
        Ok(Part {
            name: Text::from_str(alloc, name)?,
        })
    }

    /// The name itself.
    pub fn as_str(&self) -> &str
        ensures name { result.now ≡ self.now }
        ensures lawful { IsPart self.now }
    {
        self.name.as_str()
    }

    /// An equal part of its own.
    pub fn copy(&self) -> Result<Part, NoMemory>
        ensures { IfOk result (λ p. p ≡ self.now) }
    {
        Ok(Part {
            name: self.name.copy()?,
        })
    }

    /// Whether it is decimal digits.
    pub fn is_digits(&self) -> bool
        ensures { result ≡ is_digits self.now }
    {
        are_digits(self.as_str().as_bytes())
    }

    /// The index of an array that it names, where it is `0` or digits without a leading zero: the greatest
    /// `usize` for all that are no less.
    pub fn index(&self) -> Option<usize>
        ensures { result ≡ option_map (min (2 ^ 64 - 1)) (index_of self.now) }
    {
        let bytes = self.as_str().as_bytes();
        if leads_with_zero(bytes) {
            return None;
        }
        if !are_digits(bytes) {
            return None;
        }
        Some(number(bytes))
    }
}

fn are_digits(bytes: &[u8]) -> bool
    ensures { result ≡ is_digits bytes.now }
{
    bytes.iter().all(|b| b'0' <= *b && *b <= b'9')
}

fn leads_with_zero(bytes: &[u8]) -> bool
    ensures { result ≡ leads_with_zero bytes.now }
{
    match bytes {
        [first, _, ..] => *first == b'0',
        _ => false,
    }
}

/// The number that digits write, or the greatest `usize`, where it is no less.
fn number(digits: &[u8]) -> usize
    requires { is_digits digits.now ≡ true }
    ensures { result ≡ min (2 ^ 64 - 1) (number 0 digits.now) }
{
    let mut number = 0usize;
    'digits: for digit in digits {
        number = number
            .saturating_mul(10)
            .saturating_add((*digit - b'0') as usize);
    }
    number
}
