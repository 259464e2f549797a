//! What a commit writes: pages of the turn, and the list of the file's free pages.
ghost use Rattle.std.specs.Prelude.{◌≡◌, ◌<◌, ◌≤◌, ◌++◌, ◌-◌, ◌^◌, min, IfErr, IfOk, OnOk, length};
ghost use Rattle.std.specs.List.{AllByRecursion};
ghost use Rattle.freelist.specs.Book.{undone};
ghost use Rattle.freelist.specs.FreeList.{first_page, written};
ghost use Rattle.roots.specs.Listed.{list_models};
ghost use Rattle.pager.specs.Order.{merged, pages_at};
ghost use Rattle.pager.specs.Planning.{FallsBack, IsPlanned, PlanFails};
ghost use Rattle.pager.specs.Writing.{retired_all};

use crate::merging::merge;
use crate::writing::{pages_to_write, retire_all};
use freelist::{FreeList, FreePages, NoMemory};
use page::SharedPage;
use roots::{CommitFault, Root, end_of, list_models};
use std::alloc::{AllocError, Global};

/// What a commit writes.
#[derive(Drop)]
pub(crate) struct Plan {
    /// The pages in ascending order, those of the list too.
    pub(crate) written: Vec<SharedPage>,
    /// The list's own pages.
    pub(crate) listed: Vec<u32>,
    /// The first of them, or 0 where there is none.
    pub(crate) free_list: u32,
    /// How many pages the list names.
    pub(crate) free_count: u32,
}

/// Retires in the book what a turn retired, and the own pages of the list that the last root names.
fn retire_both(
    book: &mut FreePages,
    retired: &[u32],
    listed: &[u32],
    version: u64,
) -> Result<(), NoMemory>
    ensures retired { OnOk result
        (book.new ≡ retired_all version (retired.now ++ listed.now) book.old) }
    ensures back { undone (length book.old.turn) book.new ≡ book.old }
    ensures longer { length book.old.turn ≤ length book.new.turn }
{
    retire_all(book, retired, version)?;
    retire_all(book, listed, version)
}

/// Puts the pages of a list among the others that are written.
fn with_list(
    alloc: Global,
    tree: Vec<SharedPage>,
    list: FreeList,
    generation: u64,
) -> Result<Plan, AllocError>
    ensures written { let parts = written list.pages.items list.named.items in
        IfOk result (λ plan.
        plan.written.items ≡ merged tree.items (list_models generation parts)) }
    ensures listed { IfOk result (λ plan. plan.listed.items ≡ list.pages.items) }
    ensures first { let parts = written list.pages.items list.named.items in
        IfOk result (λ plan. plan.free_list ≡ first_page parts) }
    ensures count { IfOk result (λ plan.
        plan.free_count ≡ min (length list.named.items) (2 ^ 32 - 1)) }
{
    let models = list_models(alloc, &list, generation)?;
    let written = merge(alloc, &tree, &models)?;
    Ok(Plan {
        written,
        free_list: list.pages.first().copied().unwrap_or(0),
        free_count: list.named.len().min(u32::MAX as usize) as u32,
        listed: list.pages,
    })
}

/// Plans a commit. At an `Err` what was retired and taken is to be taken back.
fn draft_commit(
    alloc: Global,
    book: &mut FreePages,
    made: &[SharedPage],
    places: &[u32],
    retired: &[u32],
    listed: &[u32],
    root: Root,
) -> Result<Plan, CommitFault>
    requires { AllByRecursion (λ place. place < length made.now) places.now }
    ensures plan { IfOk result (λ plan.
        IsPlanned root (pages_at made.now places.now) (retired.now ++ listed.now) plan
        book.old book.new) }
    ensures back { let pages = retired.now ++ listed.now in
        IfErr result (λ fault. FallsBack root (pages_at made.now places.now) pages fault
        book.old book.new) }
{
    if retire_both(book, retired, listed, root.generation).is_err() {
        return Err(CommitFault::Memory);
    }
    let Ok(tree) = pages_to_write(alloc, book, made, places, root.generation) else {
        return Err(CommitFault::Memory);
    };
    let page_count = root.pages.max(end_of(&tree));
    let Ok(found) = book.write_list(alloc, page_count) else {
        return Err(CommitFault::Memory);
    };
    let Some(list) = found else {
        return Err(CommitFault::Full);
    };
    match with_list(alloc, tree, list, root.generation.saturating_add(1)) {
        Ok(plan) => Ok(plan),
        Err(_) => Err(CommitFault::Memory),
    }
}

/// Retires in the book what a turn retired and the pages of the list that the last root names, takes pages for the next list, and
/// gives what the commit writes. `Full` where no page is free for the list, which is counted. Else an `Err` changes nothing.
pub(crate) fn plan_commit(
    alloc: Global,
    book: &mut FreePages,
    made: &[SharedPage],
    places: &[u32],
    retired: &[u32],
    listed: &[u32],
    root: Root,
) -> Result<Plan, CommitFault>
    requires { AllByRecursion (λ place. place < length made.now) places.now }
    ensures plan { IfOk result (λ plan.
        IsPlanned root (pages_at made.now places.now) (retired.now ++ listed.now) plan
        book.old book.new) }
    ensures err { let pages = retired.now ++ listed.now in
        IfErr result (λ fault. PlanFails root (pages_at made.now places.now) pages fault
        book.old book.new) }
{
    let mark = book.mark();
    match draft_commit(alloc, book, made, places, retired, listed, root) {
        Ok(plan) => Ok(plan),
        Err(fault) => {
            book.undo_to(mark);
            Err(fault)
        }
    }
}
