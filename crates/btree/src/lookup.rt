// The value at a key.
ghost use Rattle.std.specs.Prelude.{◌≡◌, None, Ok, ℕ, zero, List, map, IfErr};
ghost use Rattle.std.specs.Option.{option_map};
ghost use Rattle.tree_model.specs.Keys.{IsBetween, Pair, Rises, entry_of, find};
ghost use Rattle.tree_model.specs.Reading.{IsNotFull};
ghost use Rattle.tree_model.specs.Store.{Grows, IsSame, KeepsWord, Store};
ghost use Rattle.tree_model.specs.Tree.{Body, IsTree, Shows, entries_of, item_of, pair_keys};
ghost use Rattle.tree_model.specs.View.{item_in};
ghost use Rattle.tree_model.specs.Calls.{IsPart, IsPlaceOf, Looks};

use crate::chain::value_bytes;
use key_order::compare_keys;
use page::{Leaf, PageContent, Stored};
use std::alloc::Global;
use tree_model::{
    Pages, TreeFault, branch_child, child_of_key, high_bound, leaf_cell, lies_between, low_bound,
    place_of_key,
};

// Where the value at the key lies, in a leaf.
fn stored_at<'a>(leaf: &'a Leaf, key: &[u8]) -> Option<Stored<'a>>
    ensures { (pairs : List Pair) → leaf.now ≡ map item_of pairs → Rises (pair_keys pairs)
        → IsPlaceOf (find key.now pairs) result }
{
    let at = place_of_key(leaf, key);
    if at >= leaf.len() {
        return None;
    }
    let cell = leaf_cell(leaf, at);
    if !compare_keys(cell.key, key).is_eq() {
        return None;
    }
    Some(cell.stored)
}

// The value at the key in a leaf.
fn value_in_leaf<P: Pages>(
    alloc: Global,
    pages: &mut P,
    leaf: &Leaf,
    key: &[u8],
) -> Result<Option<Vec<u8>>, TreeFault>
    ensures grows { Grows (P.store pages.old) (P.store pages.new) }
    ensures same { KeepsWord (P.store pages.new)
        → IsSame (P.store pages.old) (P.store pages.new) }
    ensures takes { (P.store pages.new).failed_allocations
        ≡ (P.store pages.old).failed_allocations }
    ensures full { IfErr result IsNotFull }
    ensures looks { (pairs : List Pair) → leaf.now ≡ map item_of pairs → Rises (pair_keys pairs)
        → Shows (P.store pages.old) zero pairs
        → Looks (λ v. v.items) (P.store pages.old) (P.store pages.new) key.now
        (map entry_of pairs) result }
{
    let Some(stored) = stored_at(leaf, key) else {
        return Ok(None);
    };
    let value = value_bytes(alloc, pages, stored)?;
    Ok(Some(value))
}

/// The value at the key, below a page whose keys lie between the bounds.
pub(crate) fn get_below<P: Pages>(
    alloc: Global,
    pages: &mut P,
    page: u32,
    level: u32,
    low: &[u8],
    high: Option<&[u8]>,
    key: &[u8],
) -> Result<Option<Vec<u8>>, TreeFault>
    ensures grows { Grows (P.store pages.old) (P.store pages.new) }
    ensures same { KeepsWord (P.store pages.new)
        → IsSame (P.store pages.old) (P.store pages.new) }
    ensures takes { (P.store pages.new).failed_allocations
        ≡ (P.store pages.old).failed_allocations }
    ensures full { IfErr result IsNotFull }
    ensures looks { (d : ℕ) (body : Body d)
        → IsPart (P.store pages.old) page level d low.now (option_map (λ b. b.now) high.entry) body
        → IsBetween low.now (option_map (λ b. b.now) high.entry) key.now
        → Looks (λ v. v.items) (P.store pages.old) (P.store pages.new) key.now
        (entries_of d body) result }
{
    let shared = pages.read(page)?;
    if !lies_between(&shared.image().content, low, high) {
        return Err(TreeFault::Order);
    }
    let branch = match &shared.image().content {
        PageContent::Leaf(leaf) => return value_in_leaf(alloc, pages, leaf, key),
        PageContent::Branch(branch) => branch,
        _ => return Err(TreeFault::Kind),
    };
    if level >= 31 {
        return Err(TreeFault::Order);
    }
    if branch.len() == 0 {
        return Err(TreeFault::Length);
    }
    let at = child_of_key(branch, key);
    let from = low_bound(branch, at, low);
    let to = high_bound(branch, at, high);
    get_below(
        alloc,
        pages,
        branch_child(branch, at).page,
        level + 1,
        from,
        to,
        key,
    )
}

/// The value at the key, in the tree with this root (0 is the empty tree).
pub fn get<P: Pages>(
    alloc: Global,
    pages: &mut P,
    root: u32,
    key: &[u8],
) -> Result<Option<Vec<u8>>, TreeFault>
    ensures grows { Grows (P.store pages.old) (P.store pages.new) }
    ensures same { KeepsWord (P.store pages.new)
        → IsSame (P.store pages.old) (P.store pages.new) }
    ensures takes { (P.store pages.new).failed_allocations
        ≡ (P.store pages.old).failed_allocations }
    ensures full { IfErr result IsNotFull }
    ensures empty { root ≡ 0 → result ≡ Ok None }
    ensures looks { (d : ℕ) (body : Body d) → IsTree (P.store pages.old) root d body
        → Looks (λ v. v.items) (P.store pages.old) (P.store pages.new) key.now
        (entries_of d body) result }
{
    if root == 0 {
        return Ok(None);
    }
    get_below(alloc, pages, root, 0, &[], None, key)
}
