//! How deep the items of an array nest.

ghost use Rattle.std.specs.Prelude.{◌≡◌, ℕ, ◌+◌, ◌<◌, ◌≤◌, ◌^◌, max, Some, IfOk};
ghost use Rattle.bson.specs.Tree.{Tree, Items, item, no_items, append_items};
ghost use Rattle.bson.specs.View.{items_of};
ghost use Rattle.bson.specs.Lawful.{items_levels, levels as levels_in};
ghost use Rattle.bson.specs.Edits.{items_len, item_at, with_item};
ghost use Rattle.bson.specs.Overview.{nested, CountsItems, FitsItems};

use crate::depths::Depths;
use crate::fault::NoMemory;
use crate::value::Value;
use std::alloc::Global;
use std::mem;

/// After how many edits of many items it is counted how many nest how deep, which takes about as long as looking once
/// through them.
const OFTEN: u32 = 4;

/// How deep an array's items nest, and how many of them how deep where they are many and often replaced.
#[derive(Debug, Drop)]
pub(crate) enum Nesting {
    /// Without the counts, after so many edits.
    Plain { levels: u32, edits: u32 },
    /// With them.
    Counted { levels: u32, depths: Box<Depths> },
}

impl Nesting {
    /// How deep the items nest.
    pub(crate) fn levels(&self) -> u32
        ensures { result ≡ nested self.now }
    {
        match self {
            Nesting::Plain { levels, .. } => *levels,
            Nesting::Counted { levels, .. } => *levels,
        }
    }

    /// Takes it out, to be put back changed.
    pub(crate) fn take(&mut self) -> Nesting
        ensures { result ≡ self.old }
    {
        let plain = Nesting::Plain {
            levels: 0,
            edits: 0,
        };
        mem::replace(self, plain)
    }

    /// With one more item, which nests so deep.
    pub(crate) fn with_one(self, levels: u32) -> Nesting
        requires { levels ≤ 100 }
        ensures levels { nested result ≡ max (nested self) levels }
        ensures fits { (ts : Items) (t : Tree) → FitsItems self ts → items_len ts + 1 < 2 ^ 64
            → levels ≡ levels_in t → FitsItems result (append_items ts (item t no_items)) }
    {
        match self {
            Nesting::Plain {
                levels: before,
                edits,
            } => Nesting::Plain {
                levels: before.max(levels),
                edits,
            },
            Nesting::Counted {
                levels: before,
                mut depths,
            } => {
                depths.add(levels);
                Nesting::Counted {
                    levels: before.max(levels),
                    depths,
                }
            }
        }
    }

    /// That of these items, after one that nested `old` levels gave way to one of `new`.
    pub(crate) fn with_other(self, items: &[Value], old: u32, new: u32) -> Nesting
        requires { (nested self ≤ 100) × (old ≤ 100) × (new ≤ 100) }
        ensures levels { (ts : Items) (i : ℕ) (u t : Tree)
            → nested self ≡ items_levels ts → FitsItems self ts → item_at ts i ≡ Some u
            → items_of items.now ≡ with_item ts i t → old ≡ levels_in u → new ≡ levels_in t
            → nested result ≡ items_levels (items_of items.now) }
        ensures fits { (ts : Items) (i : ℕ) (u t : Tree)
            → FitsItems self ts → item_at ts i ≡ Some u
            → items_of items.now ≡ with_item ts i t → old ≡ levels_in u → new ≡ levels_in t
            → FitsItems result (items_of items.now) }
    {
        match self {
            Nesting::Plain { levels, edits } => Nesting::Plain {
                levels: deepest_after(levels, old, new, items),
                edits,
            },
            Nesting::Counted { levels, mut depths } => {
                depths.replace(old, new);
                let deepest = depths.deepest(levels.max(new));
                Nesting::Counted {
                    levels: deepest,
                    depths,
                }
            }
        }
    }

    /// That of these items, which are many, after an edit is counted. After enough edits it is counted how many nest
    /// how deep; where memory runs out for that, it is left out.
    pub(crate) fn counted(self, alloc: Global, items: &[Value]) -> Nesting
        ensures levels { nested result ≡ nested self }
        ensures fits { FitsItems self (items_of items.now)
            → FitsItems result (items_of items.now) }
    {
        let Nesting::Plain { levels, edits } = self else {
            return self;
        };
        if edits < OFTEN {
            return Nesting::Plain {
                levels,
                edits: edits + 1,
            };
        }
        match depths_of(alloc, items) {
            Ok(depths) => Nesting::Counted { levels, depths },
            Err(_) => Nesting::Plain { levels, edits: 0 },
        }
    }
}

/// How many of these items nest how deep.
fn depths_of(alloc: Global, items: &[Value]) -> Result<Box<Depths>, NoMemory>
    ensures { IfOk result (λ d. CountsItems d.value (items_of items.now)) }
{
    let mut depths = Depths::new();
    'items: for item in items {
        depths.add(item.levels());
    }
    Ok(Box::new(alloc, depths)?)
}

/// How deep these values nest.
pub(crate) fn deepest(items: &[Value]) -> u32
    ensures { result ≡ items_levels (items_of items.now) }
{
    let mut levels = 0u32;
    'items: for item in items {
        levels = levels.max(item.levels());
    }
    levels
}

/// How deep these nest, after one that nested `old` levels gave way to one of `new` (0 where it only went)
/// and they nested `levels` before. They are looked at only where the one that went may have been the deepest.
pub(crate) fn deepest_after(levels: u32, old: u32, new: u32, items: &[Value]) -> u32
    ensures { (old ≤ new → max levels new ≡ items_levels (items_of items.now))
        → result ≡ items_levels (items_of items.now) }
{
    if old <= new {
        return levels.max(new);
    }
    deepest(items)
}
