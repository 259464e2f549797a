//! Where the names of a document stand and how deep its values nest, so that an edit need not look through all pairs.

ghost use Rattle.std.specs.Prelude.{◌≡◌, ℕ, List, ◌+◌, ◌<◌, ◌≤◌, ◌^◌, Some, IfOk, OnOk};
ghost use Rattle.bson.specs.Tree.{Tree, Pairs, pair, no_pairs, append};
ghost use Rattle.bson.specs.View.{pairs_of};
ghost use Rattle.bson.specs.Lawful.{IsPairs, Lacks, pairs_levels, levels as levels_in};
ghost use Rattle.bson.specs.Edits.{place, pairs_len, pair_at, with_value};
ghost use Rattle.bson.specs.Overview.{Tells};

use crate::depths::Depths;
use crate::fault::NoMemory;
use crate::value::Pair;
use std::alloc::Global;
use std::collections::BTreeMap;

/// Where the names of a document stand, and how many of its values nest how deep.
#[derive(Debug, Drop)]
pub(crate) struct Overview {
    places: BTreeMap<String, usize>,
    depths: Depths,
}

impl Overview {
    /// The overview of these pairs, which it copies the names of.
    pub(crate) fn of_pairs(alloc: Global, pairs: &[Pair]) -> Result<Box<Overview>, NoMemory>
        requires { IsPairs (pairs_of pairs.now) }
        ensures { IfOk result (λ o. Tells o.value (pairs_of pairs.now)) }
    {
        let mut overview = Overview {
            places: BTreeMap::new(alloc),
            depths: Depths::new(),
        };
        'pairs: for (at, pair) in pairs.iter().enumerate() {
            overview.add(alloc, pair.name.as_str(), at, pair.value.levels())?;
        }
        Ok(Box::new(alloc, overview)?)
    }

    /// The place of a name.
    #[inline(never)]
    pub(crate) fn place(&self, name: &str) -> Option<usize>
        ensures { (ps : Pairs) → Tells self.now ps → result ≡ place ps name.now }
    {
        self.places.get(name).copied()
    }

    /// Takes in a pair that stands behind the others, under a new name.
    pub(crate) fn add(
        &mut self,
        alloc: Global,
        name: &str,
        at: usize,
        levels: u32,
    ) -> Result<(), NoMemory>
        requires { levels ≤ 100 }
        ensures { OnOk result ((ps : Pairs) (t : Tree) → Tells self.old ps → Lacks ps name.now
            → at ≡ pairs_len ps → at + 1 < 2 ^ 64 → levels ≡ levels_in t
            → Tells self.new (append ps (pair name.now t no_pairs))) }
    {
        let name = String::from_str(alloc, name)?;
        self.places.insert(name, at)?;
        self.depths.add(levels);
        Ok(())
    }

    /// Takes in that a value which nests so deep gave way to one that nests so deep.
    pub(crate) fn replace(&mut self, old: u32, new: u32)
        requires { (old ≤ 100) × (new ≤ 100) }
        ensures { (ps : Pairs) (i : ℕ) (name : List ℕ) (u t : Tree) → Tells self.old ps
            → pair_at ps i ≡ Some (name, u) → old ≡ levels_in u → new ≡ levels_in t
            → Tells self.new (with_value ps i t) }
    {
        self.depths.replace(old, new);
    }

    /// How deep the values nest, where that is at most so deep.
    pub(crate) fn deepest(&self, most: u32) -> u32
        requires { most ≤ 100 }
        ensures { (ps : Pairs) → Tells self.now ps → pairs_levels ps ≤ most
            → result ≡ pairs_levels ps }
    {
        self.depths.deepest(most)
    }
}
