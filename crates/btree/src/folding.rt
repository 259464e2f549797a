// Entries of a range in ascending order of their keys, lent one after the other while their leaf is borrowed.
ghost use Rattle.std.specs.Prelude.{◌≡◌, ◌⊎◌, ◌<◌, ◌≤◌, ◌++◌, ◌∷◌, [], Ok, ℕ, zero, length, List, map, false, true, OnOk, IfErr, MatchOption};
ghost use Rattle.std.specs.Option.{option_map};
ghost use Rattle.tree_model.specs.Keys.{Pair, Rises, entry_of, Entry};
ghost use Rattle.tree_model.specs.Reading.{IsNotFull};
ghost use Rattle.tree_model.specs.Search.{IsChildPlace, IsPlace};
ghost use Rattle.tree_model.specs.Store.{Grows, IsSame, KeepsWord, Store};
ghost use Rattle.tree_model.specs.Tree.{Body, HasChain, HasLinks, IsTree, Shows, entries_of, item_of, next_of, pair_keys};
ghost use Rattle.tree_model.specs.View.{item_in};
ghost use Rattle.tree_model.specs.Calls.{IsPart, Yields};
ghost use Rattle.btree.specs.Fold.{HasTaken, between, entry_at};

use crate::chain::chain_bytes;
use key_order::compare_keys;
use page::{Branch, Cell, Leaf, PageContent, Stored};
use std::alloc::{AllocError, Global};
use std::cmp::Ordering;
use tree_model::{
    Pages, TreeFault, branch_child, branch_key, child_of_key, high_bound, is_within, leaf_cell,
    leaf_key, lies_between, low_bound, place_of_end, place_of_key,
};

/// Keys from one up to below another, or to the end.
#[derive(Clone, Copy)]
pub struct Bounds<'a> {
    pub from: &'a [u8],
    pub to: Option<&'a [u8]>,
}

/// What is made of entries that are lent one after the other, in ascending order of their keys.
pub trait Fold {
    ghost use Rattle.std.specs.Prelude.{List, IfSome};
    ghost use Rattle.tree_model.specs.Keys.{Each, Entry, IsUnder};

    /// What some entries make of it: how it was before them, and how it is behind them.
    ghost makes: { Self → List Entry → Self → Type 0 };

    /// Whether it stays as it is, whatever else may come.
    fn is_done(&self) -> bool
        ensures { result ≡ true → (start : Self) (all more : List Entry)
            → makes start all self.now → makes start (all ++ more) self.now };

    /// The key below which it stays as it is, whatever else may come: what lies below is passed over. `None`: any entry may change it.
    fn next_key(&self) -> Option<&[u8]>
        ensures { IfSome result (λ key. (start : Self) (all more : List Entry)
            → Each (λ x. IsUnder x.key key.now) more
            → makes start all self.now → makes start (all ++ more) self.now) }
    {
        None
    }

    /// Takes the next entry by its key alone, and is true, where its value isn't needed. A value in a chain of pages is
    /// read only where this is false.
    fn take_key(&mut self, key: &[u8]) -> Result<bool, AllocError>
        ensures taken { (start : Self) (all : List Entry) (value : List ℕ)
            → makes start all self.old → result ≡ Ok true
            → makes start (all ++ entry_at key.now value ∷ []) self.new }
        ensures left { (start : Self) (all : List Entry)
            → makes start all self.old → result ≡ Ok false → makes start all self.new };

    /// Takes the next entry.
    fn take(&mut self, key: &[u8], value: &[u8]) -> Result<(), AllocError>
        ensures { (start : Self) (all : List Entry) → makes start all self.old
            → OnOk result (makes start (all ++ entry_at key.now value.now ∷ []) self.new) };
}

// Lends a value that lies in a chain of pages, where it is wanted.
fn lend_chained<P: Pages, F: Fold>(
    alloc: Global,
    pages: &mut P,
    fold: &mut F,
    key: &[u8],
    first: u32,
    len: u32,
) -> Result<(), TreeFault>
    ensures grows { Grows (P.store pages.old) (P.store pages.new) }
    ensures same { KeepsWord (P.store pages.new)
        → IsSame (P.store pages.old) (P.store pages.new) }
    ensures takes { (P.store pages.new).failed_allocations
        ≡ (P.store pages.old).failed_allocations }
    ensures full { IfErr result IsNotFull }
    ensures lent { (start : F) → HasTaken F.makes start fold.old
        → OnOk result (HasTaken F.makes start fold.new) }
    ensures folds { (start : F) (all : List Entry) (links value : List ℕ)
        → HasLinks (P.store pages.old) links value → next_of links ≡ first → length value ≡ len
        → F.makes start all fold.old
        → Yields (P.store pages.old) (P.store pages.new)
        (λ done. F.makes start (all ++ entry_at key.now value ∷ []) fold.new) result }
{
    if fold.take_key(key)? {
        return Ok(());
    }
    let value = chain_bytes(alloc, pages, first, len)?;
    Ok(fold.take(key, &value)?)
}

// Lends the entry of a cell.
fn lend<P: Pages, F: Fold>(
    alloc: Global,
    pages: &mut P,
    fold: &mut F,
    cell: Cell<'_>,
) -> Result<(), TreeFault>
    ensures grows { Grows (P.store pages.old) (P.store pages.new) }
    ensures same { KeepsWord (P.store pages.new)
        → IsSame (P.store pages.old) (P.store pages.new) }
    ensures takes { (P.store pages.new).failed_allocations
        ≡ (P.store pages.old).failed_allocations }
    ensures full { IfErr result IsNotFull }
    ensures lent { (start : F) → HasTaken F.makes start fold.old
        → OnOk result (HasTaken F.makes start fold.new) }
    ensures folds { (start : F) (all : List Entry) (x : Pair) → item_in cell.entry ≡ item_of x
        → HasChain (P.store pages.old) x → F.makes start all fold.old
        → Yields (P.store pages.old) (P.store pages.new)
        (λ done. F.makes start (all ++ entry_of x ∷ []) fold.new) result }
{
    match cell.stored {
        Stored::Inline(bytes) => Ok(fold.take(cell.key, bytes)?),
        Stored::Chained { len, first } => lend_chained(alloc, pages, fold, cell.key, first, len),
    }
}

// The first cell whose key isn't below this one. Most leaves of a range begin within it, so the first cell is looked at first.
fn first_cell(leaf: &Leaf, from: &[u8]) -> usize
    ensures { IsPlace leaf.now from.now result }
{
    if leaf.len() == 0 || compare_keys(leaf_key(leaf, 0), from) != Ordering::Less {
        return 0;
    }
    place_of_key(leaf, from)
}

// The first child in which a key may lie that isn't below this one. Most branches of a range begin within it too.
fn first_child(branch: &Branch, from: &[u8]) -> usize
    requires { 0 < length branch.now }
    ensures { IsChildPlace branch.now from.now result }
{
    if branch.len() == 1 || compare_keys(from, branch_key(branch, 1)) == Ordering::Less {
        return 0;
    }
    child_of_key(branch, from)
}

// The first cell whose key isn't below this one, where the cell at a place is: none, if the last cell is too.
fn cell_behind(leaf: &Leaf, i: usize, key: &[u8]) -> usize
    requires { i < length leaf.now }
    ensures behind { i ≤ result }
    ensures passed { (result ≡ i) ⊎ IsPlace leaf.now key.now result }
{
    let len = leaf.len();
    match compare_keys(leaf_key(leaf, len - 1), key) {
        Ordering::Less => len,
        _ => place_of_key(leaf, key).max(i),
    }
}

// The first cell from a place on that a fold wants which passes over what lies below a key.
fn wanted_cell(leaf: &Leaf, i: usize, key: Option<&[u8]>) -> usize
    requires { i < length leaf.now }
    ensures behind { i ≤ result }
    ensures passed { MatchOption key.entry (result ≡ i)
        (λ k. (result ≡ i) ⊎ IsPlace leaf.now k.now result) }
{
    let Some(key) = key else {
        return i;
    };
    match compare_keys(leaf_key(leaf, i), key) {
        Ordering::Less => cell_behind(leaf, i, key),
        _ => i,
    }
}

// The first child from a place on that such a fold wants.
fn wanted_child(branch: &Branch, i: usize, key: Option<&[u8]>) -> usize
    requires { i < length branch.now }
    ensures behind { i ≤ result }
    ensures within { result < length branch.now }
    ensures passed { MatchOption key.entry (result ≡ i)
        (λ k. (result ≡ i) ⊎ IsChildPlace branch.now k.now result) }
{
    match key {
        Some(key) => child_of_key(branch, key).max(i),
        None => i,
    }
}

// Lends the entries of a leaf.
fn fold_leaf<P: Pages, F: Fold>(
    alloc: Global,
    pages: &mut P,
    leaf: &Leaf,
    bounds: Bounds<'_>,
    fold: &mut F,
) -> Result<(), TreeFault>
    ensures grows { Grows (P.store pages.old) (P.store pages.new) }
    ensures same { KeepsWord (P.store pages.new)
        → IsSame (P.store pages.old) (P.store pages.new) }
    ensures takes { (P.store pages.new).failed_allocations
        ≡ (P.store pages.old).failed_allocations }
    ensures full { IfErr result IsNotFull }
    ensures lent { (start : F) → HasTaken F.makes start fold.old
        → OnOk result (HasTaken F.makes start fold.new) }
    ensures folds { (start : F) (all : List Entry) (pairs : List Pair)
        → leaf.now ≡ map item_of pairs → Rises (pair_keys pairs)
        → Shows (P.store pages.old) zero pairs → F.makes start all fold.old
        → Yields (P.store pages.old) (P.store pages.new)
        (λ done. F.makes start (all ++ between bounds.entry (map entry_of pairs)) fold.new) result }
{
    let end = place_of_end(leaf, bounds.to);
    let mut i = first_cell(leaf, bounds.from);
    'cells: while i < end {
        if fold.is_done() {
            return Ok(());
        }
        let at = wanted_cell(leaf, i, fold.next_key());
        if end <= at {
            return Ok(());
        }
        lend(alloc, pages, fold, leaf_cell(leaf, at))?;
        i = at + 1;
    }
    Ok(())
}

// Lends the entries below a page whose keys lie between the bounds.
fn fold_below<P: Pages, F: Fold>(
    alloc: Global,
    pages: &mut P,
    page: u32,
    level: u32,
    low: &[u8],
    high: Option<&[u8]>,
    bounds: Bounds<'_>,
    fold: &mut F,
) -> Result<(), TreeFault>
    ensures grows { Grows (P.store pages.old) (P.store pages.new) }
    ensures same { KeepsWord (P.store pages.new)
        → IsSame (P.store pages.old) (P.store pages.new) }
    ensures takes { (P.store pages.new).failed_allocations
        ≡ (P.store pages.old).failed_allocations }
    ensures full { IfErr result IsNotFull }
    ensures lent { (start : F) → HasTaken F.makes start fold.old
        → OnOk result (HasTaken F.makes start fold.new) }
    ensures folds { (start : F) (all : List Entry) (d : ℕ) (body : Body d)
        → IsPart (P.store pages.old) page level d low.now
        (option_map (λ b. b.now) high.entry) body → F.makes start all fold.old
        → Yields (P.store pages.old) (P.store pages.new)
        (λ done. F.makes start (all ++ between bounds.entry (entries_of d body)) fold.new) result }
{
    let shared = pages.read(page)?;
    if !lies_between(&shared.image().content, low, high) {
        return Err(TreeFault::Order);
    }
    let branch = match &shared.image().content {
        PageContent::Leaf(leaf) => return fold_leaf(alloc, pages, leaf, bounds, fold),
        PageContent::Branch(branch) => branch,
        _ => return Err(TreeFault::Kind),
    };
    if level >= 31 {
        return Err(TreeFault::Order);
    }
    if branch.len() == 0 {
        return Err(TreeFault::Length);
    }
    let mut i = first_child(branch, bounds.from);
    'children: while i < branch.len() {
        if fold.is_done() {
            return Ok(());
        }
        let at = wanted_child(branch, i, fold.next_key());
        let from = low_bound(branch, at, low);
        let to = high_bound(branch, at, high);
        let child = branch_child(branch, at).page;
        if !is_within(from, bounds.to) {
            return Ok(());
        }
        fold_below(alloc, pages, child, level + 1, from, to, bounds, fold)?;
        i = at + 1;
    }
    Ok(())
}

/// Lends the entries of the tree with this root (0 is the empty tree) whose keys lie between bounds, in ascending
/// order of their keys, until the fold is done. Nothing of a leaf is copied.
pub fn fold_entries<P: Pages, F: Fold>(
    alloc: Global,
    pages: &mut P,
    root: u32,
    bounds: Bounds<'_>,
    fold: &mut F,
) -> Result<(), TreeFault>
    ensures grows { Grows (P.store pages.old) (P.store pages.new) }
    ensures same { KeepsWord (P.store pages.new)
        → IsSame (P.store pages.old) (P.store pages.new) }
    ensures takes { (P.store pages.new).failed_allocations
        ≡ (P.store pages.old).failed_allocations }
    ensures full { IfErr result IsNotFull }
    ensures empty { root ≡ 0 → (result ≡ Ok tt) × (fold.new ≡ fold.old) }
    ensures lent { (start : F) → HasTaken F.makes start fold.old
        → OnOk result (HasTaken F.makes start fold.new) }
    ensures folds { (start : F) (all : List Entry) (d : ℕ) (body : Body d)
        → IsTree (P.store pages.old) root d body → F.makes start all fold.old
        → Yields (P.store pages.old) (P.store pages.new)
        (λ done. F.makes start (all ++ between bounds.entry (entries_of d body)) fold.new) result }
{
    if root == 0 {
        return Ok(());
    }
    fold_below(alloc, pages, root, 0, &[], None, bounds, fold)
}
