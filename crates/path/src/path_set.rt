//! Sets of paths none of which meets another.

ghost use Rattle.std.specs.Prelude.{◌≡◌, false, [], OnOk};
ghost use Rattle.std.specs.List.{list_any};
ghost use Rattle.path.specs.Parts.{is_front, meets};
ghost use Rattle.path.specs.PathSets.{HasOneMore};

use crate::parsing::Path;
use bson::NoMemory;
use std::alloc::Global;
use std::collections::BTreeSet;
use std::marker::Model;

/// Paths none of which is another or leads to it. Whether a path meets one of them is told by its two neighbours in order.
#[derive(Drop)]
pub struct PathSet {
    paths: BTreeSet<Path>,
}

impl Model for PathSet {
    ghost use Rattle.std.specs.Prelude.{ℕ, List};
    ghost use Rattle.path.specs.PathSets.{AreApart};

    ghost Value = { List (List (List ℕ)) };

    ghost view = { λ a. a.paths.keys };

    ghost invariant = { λ a. AreApart a.paths.keys };
}

impl PathSet {
    /// No path.
    pub fn new(alloc: Global) -> PathSet
        ensures { result ≡ [] }
    {
        PathSet {
            paths: BTreeSet::new(alloc),
        }
    }

    /// Whether the path leads to one of these or is it.
    fn goes_on(&self, path: &Path) -> bool
        ensures { result ≡ list_any (is_front path.now) self.now }
    {
        match self.paths.range(path..).next() {
            Some(next) => path.is_front_of(next),
            None => false,
        }
    }

    /// Whether one of these leads to the path or is it.
    fn leads_to(&self, path: &Path) -> bool
        ensures { result ≡ list_any (λ p. is_front p path.now) self.now }
    {
        match self.paths.range(..=path).next_back() {
            Some(last) => last.is_front_of(path),
            None => false,
        }
    }

    /// Whether the path meets one of these.
    pub fn meets(&self, path: &Path) -> bool
        ensures { result ≡ list_any (meets path.now) self.now }
    {
        self.goes_on(path) || self.leads_to(path)
    }

    /// Puts a path among these, which it meets none of.
    pub fn put(&mut self, path: Path) -> Result<(), NoMemory>
        requires { list_any (meets path) self.old ≡ false }
        ensures { OnOk result (HasOneMore path self.old self.new) }
    {
        let _new = self.paths.insert(path)?;
        Ok(())
    }
}
