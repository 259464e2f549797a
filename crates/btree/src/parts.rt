// Writing cells and children into pages.
ghost use Rattle.std.specs.Prelude.{◌≡◌, ◌<◌, ◌≤◌, ◌∷◌, [], ◌^◌, ℕ, None, Option, List, length, map, IfErr, IfOk, MatchResult, OnOk, ◌++◌};
ghost use Rattle.page.specs.Content.{Pivot, Item, branch as branch_content, leaf as leaf_content};
ghost use Rattle.page.specs.Format.{IsFit};
ghost use Rattle.btree.specs.Few.{AreFewPages, IsOnePage, MakesUpTo, WritesUpTo};
ghost use Rattle.btree.specs.Loose.{GoBehind, IsEnough, IsSpread, IsSlot, pivot_slot, bare, bare_pivots, item_slot, slots_of, slots_size};
ghost use Rattle.tree_model.specs.Store.{Store, Grows, KeepsWord};
ghost use Rattle.tree_model.specs.Tree.{Body, Shows, content_of};
ghost use Rattle.btree.specs.Turn.{MayFill, WritesPart, WritesParts};
ghost use Rattle.tree_model.specs.Keys.{Each};
ghost use Rattle.btree.specs.LooseView.{slot_in};
ghost use Rattle.tree_model.specs.View.{pivot_in, content_in, item_in};
ghost use Rattle.tree_model.specs.declared.pages.TreeFault.TheVariants.{Memory};

use crate::cutting::{go_into_page, part_len};
use crate::node::{LooseSlot, Payload, push_loose_slot};
use page::{Branch, Cell, Child, Leaf, PageContent, Stored};
use std::alloc::{AllocError, Global};
use tree_model::{Pages, TreeFault};

// A cell, as a view.
fn cell_of(loose_slot: &LooseSlot) -> Result<Cell<'_>, TreeFault>
    ensures ok { IfOk result (λ cell. item_slot (item_in cell) ≡ slot_in loose_slot.now) }
    ensures err { (item : Item) → slot_in loose_slot.now ≡ item_slot item
        → IfErr result (λ e. e ≡ Memory) }
{
    let key = loose_slot.key.as_slice();
    match &loose_slot.payload {
        Payload::Inline(bytes) => Ok(Cell {
            key,
            stored: Stored::Inline(bytes),
        }),
        Payload::Chained { len, first } => Ok(Cell {
            key,
            stored: Stored::Chained {
                len: *len,
                first: *first,
            },
        }),
        Payload::Page(_) => Err(TreeFault::Kind),
    }
}

// A child, as a view.
fn child_of(loose_slot: &LooseSlot) -> Result<Child<'_>, TreeFault>
    ensures ok { IfOk result (λ child. pivot_slot (pivot_in child) ≡ slot_in loose_slot.now) }
    ensures err { (pivot : Pivot) → slot_in loose_slot.now ≡ pivot_slot pivot
        → IfErr result (λ e. e ≡ Memory) }
{
    match &loose_slot.payload {
        Payload::Page(page) => Ok(Child {
            key: loose_slot.key.as_slice(),
            page: *page,
        }),
        _ => Err(TreeFault::Kind),
    }
}

pub(crate) fn push_cell<'a>(cells: &mut Vec<Cell<'a>>, cell: Cell<'a>) -> Result<(), TreeFault>
    ensures ok { OnOk result
        (map item_in cells.new.items ≡ map item_in cells.old.items ++ item_in cell.entry ∷ []) }
    ensures err { IfErr result (λ e. e ≡ Memory) }
{
    match cells.push(cell) {
        Ok(()) => Ok(()),
        Err(_) => Err(TreeFault::Memory),
    }
}

fn push_child<'a>(children: &mut Vec<Child<'a>>, child: Child<'a>) -> Result<(), TreeFault>
    ensures ok { OnOk result
        (map pivot_in children.new.items ≡ map pivot_in children.old.items ++ pivot_in child.entry
        ∷ []) }
    ensures err { IfErr result (λ e. e ≡ Memory) }
{
    match children.push(child) {
        Ok(()) => Ok(()),
        Err(_) => Err(TreeFault::Memory),
    }
}

// Cells, as views.
fn cells_of(alloc: Global, loose_slots: &[LooseSlot]) -> Result<Vec<Cell<'_>>, TreeFault>
    ensures ok { IfOk result
        (λ cells. map item_slot (map item_in cells.items) ≡ map slot_in loose_slots.now) }
    ensures err { (items : List Item) → map slot_in loose_slots.now ≡ map item_slot items
        → IfErr result (λ e. e ≡ Memory) }
{
    let mut cells = Vec::with_capacity(alloc, loose_slots.len())?;
    for loose_slot in loose_slots {
        let cell = cell_of(loose_slot)?;
        push_cell(&mut cells, cell)?;
    }
    Ok(cells)
}

/// Children, as views.
pub(crate) fn children_of(
    alloc: Global,
    loose_slots: &[LooseSlot],
) -> Result<Vec<Child<'_>>, TreeFault>
    ensures ok { IfOk result
        (λ children. map pivot_slot (map pivot_in children.items) ≡ map slot_in loose_slots.now) }
    ensures err { (pivots : List Pivot) → map slot_in loose_slots.now ≡ map pivot_slot pivots
        → IfErr result (λ e. e ≡ Memory) }
{
    let mut children = Vec::with_capacity(alloc, loose_slots.len())?;
    for loose_slot in loose_slots {
        let child = child_of(loose_slot)?;
        push_child(&mut children, child)?;
    }
    Ok(children)
}

// A leaf of these cells.
fn leaf_of(alloc: Global, loose_slots: &[LooseSlot]) -> Result<PageContent, TreeFault>
    requires some { 0 < length loose_slots.now }
    requires room { GoBehind None 0 (map slot_in loose_slots.now) }
    ensures fit { IfOk result (λ content. IsFit (content_in content)) }
    ensures holds { (items : List Item) → map slot_in loose_slots.now ≡ map item_slot items
        → MatchResult result (λ content. content_in content ≡ leaf_content items)
        (λ e. e ≡ Memory) }
{
    let cells = cells_of(alloc, loose_slots)?;
    let leaf = Leaf::of(alloc, &cells)?;
    Ok(PageContent::Leaf(leaf))
}

// Takes the first child's key away.
fn strip_first(children: &mut [Child<'_>])
    requires { 0 < length children.old }
    ensures { map pivot_in children.new ≡ bare_pivots (map pivot_in children.old) }
{
    let page = children[0].page;
    children[0] = Child { key: &[], page };
}

fn bare_branch(alloc: Global, children: &mut [Child<'_>]) -> Result<Branch, AllocError>
    requires some { 2 ≤ length children.old }
    requires room { GoBehind None 0 (map pivot_slot (map pivot_in children.old)) }
    ensures { IfOk result (λ branch. branch ≡ bare_pivots (map pivot_in children.old)) }
{
    strip_first(children);
    Branch::of(alloc, children)
}

// A branch of these children, the first without its key.
fn branch_of(alloc: Global, loose_slots: &[LooseSlot]) -> Result<PageContent, TreeFault>
    requires some { 2 ≤ length loose_slots.now }
    requires room { GoBehind None 0 (map slot_in loose_slots.now) }
    ensures fit { IfOk result (λ content. IsFit (content_in content)) }
    ensures holds { (pivots : List Pivot) → map slot_in loose_slots.now ≡ map pivot_slot pivots
        → MatchResult result (λ content. content_in content ≡ branch_content (bare_pivots pivots))
        (λ e. e ≡ Memory) }
{
    let mut children = children_of(alloc, loose_slots)?;
    if children.len() < 2 {
        return Err(TreeFault::Length);
    }
    let branch = bare_branch(alloc, &mut children)?;
    Ok(PageContent::Branch(branch))
}

// What a page of these cells or children holds.
fn page_of(alloc: Global, loose_slots: &[LooseSlot]) -> Result<PageContent, TreeFault>
    ensures fit { IfOk result (λ content. IsFit (content_in content)) }
    ensures holds { (d : ℕ) (body : Body d) → map slot_in loose_slots.now ≡ slots_of d body
        → IsEnough d (map slot_in loose_slots.now) → GoBehind None 0 (map slot_in loose_slots.now)
        → MatchResult result (λ content. content_in content ≡ content_of d (bare d body))
        (λ e. e ≡ Memory) }
{
    if !go_into_page(loose_slots) {
        return Err(TreeFault::Order);
    }
    let Some(first) = loose_slots.first() else {
        return Err(TreeFault::Length);
    };
    if !first.is_child() {
        return leaf_of(alloc, loose_slots);
    }
    if loose_slots.len() < 2 {
        return Err(TreeFault::Length);
    }
    branch_of(alloc, loose_slots)
}

pub(crate) fn child_loose_slot(key: Vec<u8>, page: u32) -> LooseSlot
    ensures slot { slot_in result ≡ pivot_slot (record { key = key.items; child = page }) }
    ensures range { page < 2 ^ 32 }
{
    LooseSlot {
        key,
        payload: Payload::Page(page),
    }
}

// Writes cells or children to a page, and gives what stands for it above.
fn write_part<P: Pages>(
    alloc: Global,
    pages: &mut P,
    loose_slots: &[LooseSlot],
) -> Result<LooseSlot, TreeFault>
    ensures grows { Grows (P.store pages.old) (P.store pages.new) }
    ensures one { KeepsWord (P.store pages.new) → MatchResult result (λ loose_slot.
        IsOnePage (P.store pages.old) (P.store pages.new) (map slot_in loose_slots.now)
        (slot_in loose_slot))
        (λ e. MakesUpTo (P.store pages.old) (P.store pages.new) 0) }
    ensures writes { (d : ℕ) (body : Body d) → map slot_in loose_slots.now ≡ slots_of d body
        → IsEnough d (map slot_in loose_slots.now) → GoBehind None 0 (map slot_in loose_slots.now)
        → WritesPart (P.store pages.old) (P.store pages.new) d body result }
{
    let Some(first) = loose_slots.first() else {
        return Err(TreeFault::Length);
    };
    let content = page_of(alloc, loose_slots)?;
    let key = Vec::from_slice(alloc, &first.key)?;
    let page = pages.allocate(content)?;
    Ok(child_loose_slot(key, page))
}

/// Cuts cells or children into parts, writes each to a page, and gives what stands for them above.
pub(crate) fn write_parts<P: Pages>(
    alloc: Global,
    pages: &mut P,
    loose_slots: &[LooseSlot],
    fills: bool,
) -> Result<Vec<LooseSlot>, TreeFault>
    ensures grows { Grows (P.store pages.old) (P.store pages.new) }
    ensures some { 0 < length loose_slots.now → IfOk result (λ above. 0 < length above.items) }
    ensures few { KeepsWord (P.store pages.new) → Each IsSlot (map slot_in loose_slots.now)
        → MatchResult result (λ above. AreFewPages (P.store pages.old) (P.store pages.new)
        (slots_size (map slot_in loose_slots.now)) (map slot_in above.items))
        (λ e. WritesUpTo (P.store pages.old) (P.store pages.new)
        (slots_size (map slot_in loose_slots.now))) }
    ensures writes { (d : ℕ) (low : List ℕ) (high : Option (List ℕ)) (body : Body d)
        → map slot_in loose_slots.now ≡ slots_of d body → IsEnough d (map slot_in loose_slots.now)
        → MayFill d fills → Each IsSlot (map slot_in loose_slots.now) → IsSpread d low high body
        → Shows (P.store pages.old) d body
        → WritesParts (λ v. map slot_in v.items) (P.store pages.old) (P.store pages.new) d low
        high body result }
{
    let mut above = Vec::new(alloc);
    let mut rest = loose_slots;
    while !rest.is_empty() {
        let at = part_len(rest, fills);
        let (part, behind) = rest.split_at(at);
        let loose_slot = write_part(alloc, pages, part)?;
        push_loose_slot(&mut above, loose_slot)?;
        rest = behind;
    }
    Ok(above)
}
