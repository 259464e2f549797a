// Cells and children that were taken out of their pages.
ghost use Rattle.std.specs.Prelude.{◌≡◌, ◌∷◌, [], ℕ, true, List, length, map, ◌++◌, ◌+◌, IfErr, IfOk, OnOk, MatchOption};
ghost use Rattle.page.specs.Content.{Pivot};
ghost use Rattle.btree.specs.Loose.{IsChild, pivot_slot, child, item_slot};
ghost use Rattle.btree.specs.LooseView.{slot_in};
ghost use Rattle.tree_model.specs.declared.pages.TreeFault.TheVariants.{Memory};
ghost use Rattle.tree_model.specs.View.{item_in, pivot_in};

use page::{Cell, Child, Stored};
use std::alloc::{AllocError, Global};
use tree_model::TreeFault;

/// What stands beside a key.
#[derive(Drop)]
pub(crate) enum Payload {
    /// A value.
    Inline(Vec<u8>),
    /// A value in a chain of pages: its length in bytes and the chain's first page.
    Chained { len: u32, first: u32 },
    /// A child's page.
    Page(u32),
}

/// A cell of a leaf or a child of a branch, out of its page.
#[derive(Drop)]
pub(crate) struct LooseSlot {
    pub key: Vec<u8>,
    pub payload: Payload,
}

impl LooseSlot {
    /// Whether it is a child of a branch.
    pub(crate) fn is_child(&self) -> bool
        ensures yes { (page : ℕ) → (slot_in self.now).load ≡ child page → result ≡ true }
        ensures no { result ≡ true → IsChild (slot_in self.now).load }
    {
        matches!(self.payload, Payload::Page(_))
    }
}

/// The page of a child.
pub(crate) fn page_below(loose_slot: &LooseSlot) -> Option<u32>
    ensures { MatchOption result (IsChild (slot_in loose_slot.now).load → ⊥)
        (λ page. (slot_in loose_slot.now).load ≡ child page) }
{
    match &loose_slot.payload {
        Payload::Page(page) => Some(*page),
        _ => None,
    }
}

/// Puts a cell or child behind others.
pub(crate) fn push_loose_slot(
    loose_slots: &mut Vec<LooseSlot>,
    loose_slot: LooseSlot,
) -> Result<(), TreeFault>
    ensures ok { OnOk result
        (map slot_in loose_slots.new.items ≡ map slot_in loose_slots.old.items
        ++ slot_in loose_slot ∷ []) }
    ensures long { OnOk result (length loose_slots.new.items ≡ length loose_slots.old.items + 1) }
    ensures err { IfErr result (λ e. e ≡ Memory) }
{
    match loose_slots.push(loose_slot) {
        Ok(()) => Ok(()),
        Err(_) => Err(TreeFault::Memory),
    }
}

/// A cell out of its page.
pub(crate) fn loose_slot_of_cell(alloc: Global, cell: Cell<'_>) -> Result<LooseSlot, AllocError>
    ensures { IfOk result (λ loose_slot. slot_in loose_slot ≡ item_slot (item_in cell.entry)) }
{
    let key = Vec::from_slice(alloc, cell.key)?;
    match cell.stored {
        Stored::Inline(bytes) => {
            let value = Vec::from_slice(alloc, bytes)?;
            Ok(LooseSlot {
                key,
                payload: Payload::Inline(value),
            })
        }
        Stored::Chained { len, first } => Ok(LooseSlot {
            key,
            payload: Payload::Chained { len, first },
        }),
    }
}

/// A child under a key, out of its page.
pub(crate) fn loose_slot_of_page(
    alloc: Global,
    key: &[u8],
    page: u32,
) -> Result<LooseSlot, AllocError>
    ensures { IfOk result
        (λ loose_slot. slot_in loose_slot ≡ pivot_slot (record { key = key.now; child = page })) }
{
    let key = Vec::from_slice(alloc, key)?;
    Ok(LooseSlot {
        key,
        payload: Payload::Page(page),
    })
}

/// Cells out of their page.
pub(crate) fn loose_slots_of_cells(
    alloc: Global,
    cells: &[Cell<'_>],
) -> Result<Vec<LooseSlot>, AllocError>
    ensures { IfOk result
        (λ loose_slots. map slot_in loose_slots.items ≡ map item_slot (map item_in cells.now)) }
{
    let mut loose_slots = Vec::with_capacity(alloc, cells.len())?;
    for cell in cells {
        let loose_slot = loose_slot_of_cell(alloc, *cell)?;
        loose_slots.push(loose_slot)?;
    }
    Ok(loose_slots)
}

/// Cells or children out of their pages. All stand at one height, `rank`, in the tree.
#[derive(Drop)]
pub(crate) struct LooseNode {
    pub rank: u32,
    pub loose_slots: Vec<LooseSlot>,
    /// Whether cells came behind all that were there, so that the pages before them are filled.
    pub fills: bool,
}
