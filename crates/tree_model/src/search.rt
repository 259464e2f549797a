// Places of keys among those of a page.
ghost use Rattle.std.specs.Prelude.{◌≡◌, ◌<◌, ◌≤◌, ◌+◌, ◌-◌, ℕ, true, length, slice_index_or, MatchBool};
ghost use Rattle.std.specs.Option.{option_map};
ghost use Rattle.tree_model.specs.Keys.{IsBetween, IsPast, IsWithin};
ghost use Rattle.page.specs.Content.{Pivot, Item, leaf as leaf_content, branch as branch_content};
ghost use Rattle.tree_model.specs.View.{content_in, item_in, pivot_in};
ghost use Rattle.tree_model.specs.Search.{IsPlace, IsEndPlace, IsChildPlace, LieBetween};

use key_order::compare_keys;
use page::{Branch, Cell, Child, Leaf, PageContent};
use std::cmp::Ordering;

/// A cell of a leaf, by its place.
pub fn leaf_cell(leaf: &Leaf, i: usize) -> Cell<'_>
    requires { i < length leaf.now }
    ensures { (d : Item) → item_in result ≡ slice_index_or leaf.now i d }
{
    leaf.cell(i)
}

/// The key of a cell, by its place.
pub fn leaf_key(leaf: &Leaf, i: usize) -> &[u8]
    requires { i < length leaf.now }
    ensures { (d : Item) → result.now ≡ (slice_index_or leaf.now i d).key }
{
    leaf.key(i)
}

/// A child of a branch, by its place.
pub fn branch_child(branch: &Branch, i: usize) -> Child<'_>
    requires { i < length branch.now }
    ensures { (d : Pivot) → pivot_in result ≡ slice_index_or branch.now i d }
{
    branch.child(i)
}

/// The key of a child, by its place.
pub fn branch_key(branch: &Branch, i: usize) -> &[u8]
    requires { i < length branch.now }
    ensures { (d : Pivot) → result.now ≡ (slice_index_or branch.now i d).key }
{
    branch.key(i)
}

/// The first cell whose key isn't below this one.
pub fn place_of_key(leaf: &Leaf, key: &[u8]) -> usize
    ensures { IsPlace leaf.now key.now result }
{
    let mut low = 0;
    let mut high = leaf.len();
    while low < high {
        let middle = low + (high - low) / 2;
        match compare_keys(leaf_key(leaf, middle), key) {
            Ordering::Less => low = middle + 1,
            _ => high = middle,
        }
    }
    low
}

/// The first cell whose key isn't below the bound, if there is one. Most leaves end below it, so the last cell is looked at first.
pub fn place_of_end(leaf: &Leaf, high: Option<&[u8]>) -> usize
    ensures { IsEndPlace leaf.now (option_map (λ b. b.now) high.entry) result }
{
    let len = leaf.len();
    let Some(key) = high else {
        return len;
    };
    if len == 0 {
        return 0;
    }
    if is_within(leaf_key(leaf, len - 1), high) {
        return len;
    }
    place_of_key(leaf, key)
}

/// The child that the key belongs to.
pub fn child_of_key(branch: &Branch, key: &[u8]) -> usize
    requires { 0 < length branch.now }
    ensures { IsChildPlace branch.now key.now result }
{
    let mut low = 0;
    let mut high = branch.len() - 1;
    while low < high {
        let middle = low + (high - low) / 2;
        match compare_keys(key, branch_key(branch, middle + 1)) {
            Ordering::Less => high = middle,
            _ => low = middle + 1,
        }
    }
    low
}

/// Whether the key is below the bound, if there is one.
pub fn is_within(key: &[u8], high: Option<&[u8]>) -> bool
    ensures { MatchBool result (IsWithin (option_map (λ b. b.now) high.entry) key.now)
        (IsPast (option_map (λ b. b.now) high.entry) key.now) }
{
    match high {
        None => true,
        Some(high) => matches!(compare_keys(key, high), Ordering::Less),
    }
}

/// Whether the key lies between the bounds.
pub fn is_between(key: &[u8], low: &[u8], high: Option<&[u8]>) -> bool
    ensures yes { IsBetween low.now (option_map (λ b. b.now) high.entry) key.now → result ≡ true }
    ensures no { result ≡ true → IsBetween low.now (option_map (λ b. b.now) high.entry) key.now }
{
    if let Ordering::Less = compare_keys(key, low) {
        return false;
    }
    match high {
        None => true,
        Some(high) => matches!(compare_keys(key, high), Ordering::Less),
    }
}

fn leaf_between(leaf: &Leaf, low: &[u8], high: Option<&[u8]>) -> bool
    ensures { LieBetween low.now (option_map (λ b. b.now) high.entry) (leaf_content leaf.now)
        → result ≡ true }
{
    let len = leaf.len();
    if len == 0 {
        return true;
    }
    if !is_between(leaf_key(leaf, 0), low, high) {
        return false;
    }
    is_between(leaf_key(leaf, len - 1), low, high)
}

fn branch_between(branch: &Branch, low: &[u8], high: Option<&[u8]>) -> bool
    ensures { LieBetween low.now (option_map (λ b. b.now) high.entry)
        (branch_content branch.now) → result ≡ true }
{
    let len = branch.len();
    if len < 2 {
        return true;
    }
    if !is_between(branch_key(branch, 1), low, high) {
        return false;
    }
    is_between(branch_key(branch, len - 1), low, high)
}

/// Whether the keys of a page whose keys rise lie between the bounds.
pub fn lies_between(content: &PageContent, low: &[u8], high: Option<&[u8]>) -> bool
    ensures { LieBetween low.now (option_map (λ b. b.now) high.entry) (content_in content.now)
        → result ≡ true }
{
    match content {
        PageContent::Leaf(leaf) => leaf_between(leaf, low, high),
        PageContent::Branch(branch) => branch_between(branch, low, high),
        _ => true,
    }
}

/// The low bound of the child at this place.
pub fn low_bound<'a>(branch: &'a Branch, at: usize, low: &'a [u8]) -> &'a [u8]
    requires { at < length branch.now }
    ensures first { at ≡ 0 → result.now ≡ low.now }
    ensures later { (d : Pivot) → 0 < at → result.now ≡ (slice_index_or branch.now at d).key }
{
    if at == 0 { low } else { branch_key(branch, at) }
}

/// The high bound of the child at this place.
pub fn high_bound<'a>(branch: &'a Branch, at: usize, high: Option<&'a [u8]>) -> Option<&'a [u8]>
    requires { at < length branch.now }
    ensures last { length branch.now ≤ at + 1
        → option_map (λ b. b.now) result ≡ option_map (λ b. b.now) high.entry }
    ensures inner { (d : Pivot) → at + 1 < length branch.now
        → option_map (λ b. b.now) result ≡ Some (slice_index_or branch.now (at + 1) d).key }
{
    let len = branch.len();
    if at + 1 < len {
        Some(branch_key(branch, at + 1))
    } else {
        high
    }
}
