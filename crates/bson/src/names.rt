//! Names that stood before.

ghost use Rattle.std.specs.Prelude.{◌≡◌, ◌==◌, ◌||◌, ◌≤◌, ℕ, List, [], true, false, not, map, position, IfOk, OnErr};
ghost use Rattle.std.specs.Str.{bytes_eq};
ghost use Rattle.bson.specs.View.{names_of};
ghost use Rattle.bson.specs.Lookup.{stands_in};

use crate::fault::NoMemory;
use crate::value::Pair;
use std::alloc::Global;
use std::collections::BTreeSet;
use std::marker::Model;

/// How many names are compared one by one, before a set is made of those that follow.
const FEW: usize = 24;

/// The names of a document that is read or grows. Looking for one takes as many comparisons as the logarithm of
/// their number, past the first few, which take no memory.
#[derive(Drop)]
pub struct Names<'a> {
    few: [&'a str; FEW],
    // how many of `few` are in use
    count: usize,
    later: BTreeSet<&'a str>,
}

impl<'a> Model for Names<'a> {
    ghost use Rattle.std.specs.Prelude.{◌≤◌, ◌<◌, ◌≡◌, ℕ, List, [], ◌++◌, map, take, length};

    ghost Value = { List (List ℕ) };

    ghost view = { λ a. map (λ n. n.now) (take a.count a.few) ++ map (λ n. n.now) a.later.keys };

    ghost invariant = { λ a. (a.count ≤ 24) × (length a.few ≡ 24)
        × (a.count < 24 → a.later.keys ≡ []) };
}

impl<'a> Names<'a> {
    /// No names.
    pub fn new(alloc: Global) -> Names<'a>
        ensures { result ≡ [] }
    {
        Names {
            few: [""; FEW],
            count: 0,
            later: BTreeSet::new(alloc),
        }
    }

    /// Whether this name is among them.
    pub(crate) fn contains(&self, name: &str) -> bool
        ensures { result ≡ stands_in self.now name.now }
    {
        is_among(&self.few[..self.count], name) || self.later.contains(name)
    }

    /// The names of these pairs.
    pub fn of_pairs(alloc: Global, pairs: &'a [Pair]) -> Result<Names<'a>, NoMemory>
        ensures { IfOk result (λ names. (other : List ℕ)
            → stands_in names other ≡ stands_in (names_of pairs.now) other) }
    {
        let mut names = Names::new(alloc);
        'pairs: for pair in pairs {
            let _is_new = names.insert(pair.name.as_str())?;
        }
        Ok(names)
    }

    /// Takes a name in and gives whether it is new. It is looked for once. An `Err` is for want of memory.
    pub fn insert(&mut self, name: &'a str) -> Result<bool, NoMemory>
        ensures new { IfOk result (λ is_new. is_new ≡ not (stands_in self.old name.now)) }
        ensures absent { OnErr result (stands_in self.old name.now ≡ false) }
        ensures names { IfOk result (λ is_new. (other : List ℕ)
            → stands_in self.new other ≡ (bytes_eq other name.now || stands_in self.old other)) }
    {
        if is_among(&self.few[..self.count], name) {
            return Ok(false);
        }
        if self.count == FEW {
            return Ok(self.later.insert(name)?);
        }
        self.few[self.count] = name;
        self.count += 1;
        Ok(true)
    }
}

fn is_among(names: &[&str], name: &str) -> bool
    ensures { result ≡ stands_in (map (λ n. n.now) names.now) name.now }
{
    for other in names {
        if name == *other {
            return true;
        }
    }
    false
}

/// Where the first zero is, which ends a name.
pub fn first_zero(bytes: &[u8]) -> Option<usize>
    ensures { result ≡ position (λ b. b == 0) bytes.now }
{
    bytes.iter().position(|b| *b == 0)
}
