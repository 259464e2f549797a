//! Paths and their reading.

ghost use Rattle.std.specs.Prelude.{◌≡◌, ◌∷◌, IfOk, map};
ghost use Rattle.std.specs.List.{list_any};
ghost use Rattle.path.specs.Parts.{parts_of, path_fault, path_of, is_empty, begins_with_dollar, has_zero, is_front, meets};
ghost use Rattle.outcome.specs.Outcome.{Gives};

use crate::PATH_LIMIT;
use crate::fault::PathFault;
use crate::part::Part;
use bson::NoMemory;
use std::alloc::Global;
use std::marker::Model;

/// A path: one part or more.
#[derive(Debug)]
pub struct Path {
    parts: Vec<Part>,
}

// (written out, so that no crate above proves again that its parts are let go)
impl Drop for Path {
    fn drop(self) {
        let Path { parts: _ } = self;
    }
}

impl Model for Path {
    ghost use Rattle.std.specs.Prelude.{◌≢◌, ℕ, List, []};

    ghost Value = { List (List ℕ) };

    ghost view = { λ a. a.parts.items };

    ghost invariant = { λ a. a.parts.items ≢ [] };
}

/// What stands before, between and behind the dots.
fn split(alloc: Global, text: &str) -> Result<Vec<&str>, NoMemory>
    ensures { IfOk result (λ v. map (λ n. n.now) v.items ≡ parts_of text.now) }
{
    text.split('.').collect(alloc)
}

/// The first of the faults that the text has, found without a list of its parts.
fn fault_of(text: &str) -> Option<PathFault>
    ensures { result ≡ path_fault text.now (parts_of text.now) }
{
    if is_empty(text) {
        return Some(PathFault::Empty);
    }
    if any_is_empty(text) {
        return Some(PathFault::EmptyPart);
    }
    if any_begins_with_dollar(text) {
        return Some(PathFault::Dollar);
    }
    if PATH_LIMIT < text.len() {
        return Some(PathFault::TooLong);
    }
    if any_has_zero(text) {
        return Some(PathFault::Zero);
    }
    None
}

fn any_is_empty(text: &str) -> bool
    ensures { result ≡ list_any is_empty (parts_of text.now) }
{
    text.split('.').any(|part| is_empty(part))
}

fn any_begins_with_dollar(text: &str) -> bool
    ensures { result ≡ list_any begins_with_dollar (parts_of text.now) }
{
    text.split('.').any(|part| begins_with_dollar(part))
}

fn any_has_zero(text: &str) -> bool
    ensures { result ≡ list_any has_zero (parts_of text.now) }
{
    text.split('.').any(|part| has_zero(part))
}

fn is_empty(part: &str) -> bool
    ensures { result ≡ is_empty part.now }
{
    match part.as_bytes() {
        [] => true,
        _ => false,
    }
}

/// Whether a name begins with `$`, as the names of operators do and no part of a path does.
pub fn begins_with_dollar(name: &str) -> bool
    ensures { result ≡ begins_with_dollar name.now }
{
    match name.as_bytes() {
        [first, ..] => *first == b'$',
        [] => false,
    }
}

fn has_zero(part: &str) -> bool
    ensures { result ≡ has_zero part.now }
{
    part.as_bytes().contains(&0)
}

impl Path {
    /// The path that a text writes, or the first of the faults that it has.
    pub fn parse(alloc: Global, text: &str) -> Result<Path, PathFault>
        ensures { Gives PathFault.Memory (λ p. p) result (path_of text.now) }
    {
        if let Some(fault) = fault_of(text) {
            return Err(fault);
        }
        let names = split(alloc, text)?;
        let mut parts = Vec::with_capacity(alloc, names.len())?;
        'names: for name in &names {
            parts.push(Part::new(alloc, name)?)?;
        }
        Ok(Path { parts })
    }

    /// The parts, in order.
    pub fn parts(&self) -> &[Part]
        ensures { result.now ≡ self.now }
    {
        &self.parts
    }

    /// The first part and those behind it.
    pub fn split_first(&self) -> (&Part, &[Part])
        ensures { result.0.now ∷ result.1.now ≡ self.now }
    {
        match self.parts.as_slice() {
            [part, rest @ ..] => (part, rest),
            [] => unreachable!(),
        }
    }

    /// An equal path of its own.
    pub fn copy(&self) -> Result<Path, NoMemory>
        ensures { IfOk result (λ p. p ≡ self.now) }
    {
        let mut parts = Vec::with_capacity(*self.parts.allocator(), self.parts.len())?;
        'parts: for part in &self.parts {
            parts.push(part.copy()?)?;
        }
        Ok(Path { parts })
    }

    /// Whether it is the other path or leads to it.
    pub fn is_front_of(&self, other: &Path) -> bool
        ensures { result ≡ is_front self.now other.now }
    {
        'parts: for (i, part) in self.parts.iter().enumerate() {
            let Some(second) = other.parts.get(i) else {
                return false;
            };
            if part.as_str() != second.as_str() {
                return false;
            }
        }
        true
    }

    /// Whether one of the two paths is the other or leads to it.
    pub fn meets(&self, other: &Path) -> bool
        ensures { result ≡ meets self.now other.now }
    {
        self.is_front_of(other) || other.is_front_of(self)
    }
}
