//! What a document keeps beside its pairs.

ghost use Rattle.std.specs.Prelude.{◌≡◌, ℕ, List, ◌+◌, ◌<◌, ◌≤◌, ◌^◌, max, Some};
ghost use Rattle.bson.specs.Tree.{Tree, Pairs, pair, no_pairs, append};
ghost use Rattle.bson.specs.View.{pairs_of};
ghost use Rattle.bson.specs.Lawful.{IsPairs, Lacks, pairs_levels, levels as levels_in};
ghost use Rattle.bson.specs.Edits.{pairs_len, pair_at, with_value};
ghost use Rattle.bson.specs.Overview.{levels_of, Fits};

use crate::overview::Overview;
use crate::value::Pair;
use std::alloc::Global;
use std::mem;

/// After how many edits a document with many pairs gets an overview. Making it takes about as long as looking
/// through the pairs for as many names.
const OFTEN: u32 = 32;

/// How deep a document's values nest, and an overview where it has many pairs and is changed often.
#[derive(Debug, Drop)]
pub(crate) enum Beside {
    /// Without an overview, after so many edits.
    Plain {
        levels: u32,
        edits: u32,
    },
    /// With one.
    Many {
        levels: u32,
        overview: Box<Overview>,
    },
}

impl Beside {
    /// How deep the values nest.
    pub(crate) fn levels(&self) -> u32
        ensures { result ≡ levels_of self.now }
    {
        match self {
            Beside::Plain { levels, .. } => *levels,
            Beside::Many { levels, .. } => *levels,
        }
    }

    /// Takes it out, to be put back changed.
    pub(crate) fn take(&mut self) -> Beside
        ensures { result ≡ self.old }
    {
        let plain = Beside::Plain {
            levels: 0,
            edits: 0,
        };
        mem::replace(self, plain)
    }

    /// What stands beside one more pair, behind the others and under a new name, whose value nests so deep. Where
    /// memory runs out for it, the overview goes.
    pub(crate) fn with_pair(self, alloc: Global, name: &str, at: usize, levels: u32) -> Beside
        requires { levels ≤ 100 }
        ensures levels { levels_of result ≡ max (levels_of self) levels }
        ensures fits { (ps : Pairs) (t : Tree) → Fits self ps → Lacks ps name.now
            → at ≡ pairs_len ps → at + 1 < 2 ^ 64 → levels ≡ levels_in t
            → Fits result (append ps (pair name.now t no_pairs)) }
    {
        match self {
            Beside::Plain {
                levels: before,
                edits,
            } => Beside::Plain {
                levels: before.max(levels),
                edits,
            },
            Beside::Many {
                levels: before,
                mut overview,
            } => {
                let deepest = before.max(levels);
                match overview.add(alloc, name, at, levels) {
                    Ok(()) => Beside::Many {
                        levels: deepest,
                        overview,
                    },
                    Err(_) => Beside::Plain {
                        levels: deepest,
                        edits: 0,
                    },
                }
            }
        }
    }

    /// What stands beside these pairs, after a value that nested `old` levels gave way to one of `new`.
    pub(crate) fn with_value(self, pairs: &[Pair], old: u32, new: u32) -> Beside
        requires { (levels_of self ≤ 100) × (old ≤ 100) × (new ≤ 100) }
        ensures levels { (ps : Pairs) (i : ℕ) (name : List ℕ) (u t : Tree)
            → levels_of self ≡ pairs_levels ps → Fits self ps → pair_at ps i ≡ Some (name, u)
            → pairs_of pairs.now ≡ with_value ps i t → old ≡ levels_in u → new ≡ levels_in t
            → levels_of result ≡ pairs_levels (pairs_of pairs.now) }
        ensures fits { (ps : Pairs) (i : ℕ) (name : List ℕ) (u t : Tree)
            → Fits self ps → pair_at ps i ≡ Some (name, u)
            → pairs_of pairs.now ≡ with_value ps i t → old ≡ levels_in u → new ≡ levels_in t
            → Fits result (pairs_of pairs.now) }
    {
        match self {
            Beside::Plain { levels, edits } => Beside::Plain {
                levels: deepest_after(levels, old, new, pairs),
                edits,
            },
            Beside::Many {
                levels,
                mut overview,
            } => {
                overview.replace(old, new);
                let deepest = overview.deepest(levels.max(new));
                Beside::Many {
                    levels: deepest,
                    overview,
                }
            }
        }
    }

    /// What stands beside these pairs, which are many, after an edit is counted. After enough of them an overview is
    /// made; where memory runs out for it, it is left out.
    pub(crate) fn counted(self, alloc: Global, pairs: &[Pair]) -> Beside
        requires { IsPairs (pairs_of pairs.now) }
        ensures levels { levels_of result ≡ levels_of self }
        ensures fits { Fits self (pairs_of pairs.now) → Fits result (pairs_of pairs.now) }
    {
        let Beside::Plain { levels, edits } = self else {
            return self;
        };
        if edits < OFTEN {
            return Beside::Plain {
                levels,
                edits: edits + 1,
            };
        }
        match Overview::of_pairs(alloc, pairs) {
            Ok(overview) => Beside::Many { levels, overview },
            Err(_) => Beside::Plain { levels, edits: 0 },
        }
    }
}

/// How deep the values of these pairs nest.
pub(crate) fn deepest(pairs: &[Pair]) -> u32
    ensures { result ≡ pairs_levels (pairs_of pairs.now) }
{
    let mut levels = 0u32;
    'pairs: for pair in pairs {
        levels = levels.max(pair.value.levels());
    }
    levels
}

/// How deep these nest, after one that nested `old` levels gave way to one of `new` (0 where it only went)
/// and they nested `levels` before. They are looked at only where the one that went may have been the deepest.
pub(crate) fn deepest_after(levels: u32, old: u32, new: u32, pairs: &[Pair]) -> u32
    ensures { (old ≤ new → max levels new ≡ pairs_levels (pairs_of pairs.now))
        → result ≡ pairs_levels (pairs_of pairs.now) }
{
    if old <= new {
        return levels.max(new);
    }
    deepest(pairs)
}
