// Entries in ascending order of their keys, a batch at a time.
ghost use Rattle.std.specs.Prelude.{◌≡◌, ◌++◌, ◌∷◌, [], Ok, ℕ, List, MatchResult, false, true, IfErr};
ghost use Rattle.btree.specs.Fold.{entry_at};
ghost use Rattle.tree_model.specs.Keys.{Entry as MapEntry};
ghost use Rattle.tree_model.specs.Reading.{IsNotFull};
ghost use Rattle.tree_model.specs.Store.{Grows, IsSame, KeepsWord, Store};
ghost use Rattle.tree_model.specs.Tree.{Body, IsTree, entries_of};
ghost use Rattle.tree_model.specs.Calls.{Yields};
ghost use Rattle.btree.specs.declared.scanning.Filling.{Filling};
ghost use Rattle.btree.specs.Scan.{Fills, HasRoom, HoldsBatch, within};

use crate::folding::{Bounds, Fold, fold_entries};
use std::alloc::{AllocError, Global};
use tree_model::{Pages, TreeFault};

/// A key and its value.
#[derive(Drop)]
pub struct Entry {
    pub key: Vec<u8>,
    pub value: Vec<u8>,
}

/// The keys that a scan asks for, from one up to below another, and how many entries it hands out at
/// most.
#[derive(Clone, Copy)]
pub struct Range<'a> {
    pub from: &'a [u8],
    pub to: Option<&'a [u8]>,
    pub limit: usize,
}

/// Some entries in ascending order of their keys, and the key of the next one, from which a further
/// scan goes on.
#[derive(Drop)]
pub struct Batch {
    pub entries: Vec<Entry>,
    pub next: Option<Vec<u8>>,
}

// A batch as far as it is filled.
#[derive(Drop)]
struct Filling {
    alloc: Global,
    limit: usize,
    batch: Batch,
}

impl Filling {
    // Whether an entry has no room, so that its key is noted where it is the first such one.
    fn passes_over(&mut self, key: &[u8]) -> Result<bool, AllocError>
        ensures over { (start : Filling) (all : List MapEntry) (value : List ℕ)
            → Fills start all self.old → result ≡ Ok true
            → Fills start (all ++ entry_at key.now value ∷ []) self.new }
        ensures room { result ≡ Ok false → (self.new ≡ self.old) × HasRoom self.old }
    {
        if self.batch.next.is_some() {
            return Ok(true);
        }
        if self.batch.entries.len() >= self.limit {
            self.batch.next = Some(Vec::from_slice(self.alloc, key)?);
            return Ok(true);
        }
        Ok(false)
    }
}

// Copies of entries, at most so many, and the key of the one behind them.
impl Fold for Filling {
    ghost makes = { Fills };

    fn is_done(&self) -> bool {
        self.batch.next.is_some()
    }

    fn take_key(&mut self, key: &[u8]) -> Result<bool, AllocError> {
        self.passes_over(key)
    }

    fn take(&mut self, key: &[u8], value: &[u8]) -> Result<(), AllocError> {
        if self.passes_over(key)? {
            return Ok(());
        }
        let key = Vec::from_slice(self.alloc, key)?;
        let value = Vec::from_slice(self.alloc, value)?;
        self.batch
            .entries
            .push(Entry { key, value })
            .map_err(AllocError::from)?;
        Ok(())
    }
}

/// The entries of the tree with this root (0 is the empty tree) in a range, at most `limit` of them, in
/// ascending order of their keys. A further scan goes on from the batch's `next`.
pub fn scan<P: Pages>(
    alloc: Global,
    pages: &mut P,
    root: u32,
    range: Range<'_>,
) -> Result<Batch, TreeFault>
    ensures grows { Grows (P.store pages.old) (P.store pages.new) }
    ensures same { KeepsWord (P.store pages.new)
        → IsSame (P.store pages.old) (P.store pages.new) }
    ensures takes { (P.store pages.new).failed_allocations
        ≡ (P.store pages.old).failed_allocations }
    ensures full { IfErr result IsNotFull }
    ensures empty { root ≡ 0 → MatchResult result (HoldsBatch range.entry.limit []) (λ e. ⊥) }
    ensures scans { (d : ℕ) (body : Body d) → IsTree (P.store pages.old) root d body
        → Yields (P.store pages.old) (P.store pages.new)
        (λ batch. HoldsBatch range.entry.limit (within range.entry (entries_of d body)) batch)
        result }
{
    let mut filling = Filling {
        alloc,
        limit: range.limit,
        batch: Batch {
            entries: Vec::new(alloc),
            next: None,
        },
    };
    let bounds = Bounds {
        from: range.from,
        to: range.to,
    };
    fold_entries(alloc, pages, root, bounds, &mut filling)?;
    Ok(filling.batch)
}
