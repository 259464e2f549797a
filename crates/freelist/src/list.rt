//! The written list of a file's free pages, and how it is read.
ghost use Rattle.std.specs.Prelude.{◌≡◌, ◌≢◌, ◌<◌, ◌≤◌, ◌∷◌, [], ◌++◌, ℕ, Option, Some, Err, IfOk, OnOk, OnErr, IsTrue, length, take, drop, ◌*◌};
ghost use Rattle.freelist.specs.FreeList.{ListContent, list_pages, room_for, written};
ghost use Rattle.freelist.specs.ListReading.{Begins, Marks, Notes, ReadsList, ReadsPart, StepsOn, TellsAll, content_of, free_in, has_unmarked, unmarked};
ghost use Rattle.freelist.specs.ListWriting.{content_at};
ghost use Rattle.freelist.specs.declared.list_fault.ListFault.TheVariants as faults;

use crate::book::NoMemory;
use crate::list_fault::ListFault;
use std::alloc::Global;

/// The most pages that a page of the list names.
const NAMED: usize = 1019;

/// What a page of the list holds: the page that goes on, or 0 at the end, and the pages that it names.
#[derive(Debug, Drop)]
pub struct ListPage {
    pub next: u32,
    pub named: Vec<u32>,
}

/// A list that was read, or is to be written: its own pages, and the pages that it names, each in its order.
#[derive(Debug, Drop)]
pub struct FreeList {
    pub pages: Vec<u32>,
    pub named: Vec<u32>,
}

impl FreeList {
    /// What the list's own page at this place, from 0 on, is to hold. Each page but the last names 1,019.
    pub fn part(&self, alloc: Global, at: usize) -> Result<ListPage, NoMemory>
        requires { at < length self.now.pages.items }
        ensures part { let parts = written self.now.pages.items self.now.named.items in
            IfOk result (λ part. content_at parts at ≡ Some (content_of part)) }
        ensures few { IfOk result (λ part. length part.named.items ≤ 1019) }
    {
        let mut named = Vec::new(alloc);
        named.extend_from_slice(named_at(&self.named, at))?;
        Ok(ListPage {
            next: self.pages.get(at + 1).copied().unwrap_or(0),
            named,
        })
    }

    /// Whether each page from 1 to below the page count is one of three, and none is two of them: in use, the list's own, or
    /// named by it.
    pub fn fills(&self, alloc: Global, page_count: u32, in_use: &[u32]) -> Result<bool, NoMemory>
        ensures { let listed = self.now.pages.items ++ self.now.named.items in
            IfOk result (TellsAll page_count (in_use.now ++ listed)) }
    {
        let mut seen = no_marks(alloc, page_count)?;
        Ok(marks_rest(&mut seen, in_use, self))
    }
}

/// Of the pages that a list names those that its own page at this place does.
fn named_at(named: &[u32], at: usize) -> &[u32]
    ensures { result.now ≡ take 1019 (drop (1019 * at) named.now) }
{
    let from = at.saturating_mul(NAMED).min(named.len());
    let to = (from + NAMED).min(named.len());
    &named[from..to]
}

/// How many pages of its own a list has that names so many.
pub(crate) fn list_pages(count: usize) -> usize
    ensures { result ≡ list_pages count }
{
    count.div_ceil(NAMED)
}

/// The pages of a file, for the reader of its list. What is said of a call holds while the device that keeps them keeps
/// its word after it.
pub trait ListPages {
    /// What each page of the list holds. Another page has no content.
    ghost contents: { Self → ℕ → Option ListContent };

    /// The device has kept its word so far.
    ghost keeps_word: { Self → Type 0 };

    /// Only reads led from the first to the second.
    ghost reads: { Self → Self → Type 0 };

    /// The device failed between the first and the second.
    ghost has_failed: { Self → Self → Type 0 };

    /// No call of the device failed between the first and the second.
    ghost clear: { Self → Self → Type 0 };

    /// The page of this number. Device where the device failed; Damaged where it is no page of a list.
    fn read_part(&mut self, alloc: Global, page: u32) -> Result<ListPage, ListFault>
        ensures reads { reads self.old self.new }
        ensures same { keeps_word self.new
            → keeps_word self.old × (contents self.new ≡ contents self.old) }
        ensures part { keeps_word self.new → ReadsPart (contents self.old) page result }
        ensures device { result ≡ Err faults.Device → has_failed self.old self.new }
        ensures clear { result ≢ Err faults.Device → clear self.old self.new };

    ghost stays: { (x : Self) → reads x x };

    ghost goes_on: { (x y z : Self) → reads x y → reads y z → reads x z };

    ghost failed_later: { (x y z : Self) → reads x y → has_failed y z → has_failed x z };

    ghost stays_clear: { (x : Self) → clear x x };

    ghost clear_on: { (x y z : Self) → clear x y → clear y z → clear x z };
}

/// Marks a page that isn't marked; whether it is one of the file's, and wasn't marked before.
fn mark(seen: &mut [bool], page: u32) -> bool
    ensures marks { Marks result (page ∷ []) seen.old seen.new }
    ensures fewer { IsTrue result → unmarked seen.new < unmarked seen.old }
{
    let at = page as usize;
    if at >= seen.len() {
        return false;
    }
    if seen[at] {
        return false;
    }
    seen[at] = true;
    true
}

/// Marks these pages; whether each of them is one of the file's, and wasn't marked before.
fn mark_all(seen: &mut [bool], pages: &[u32]) -> bool
    ensures marks { Marks result pages.now seen.old seen.new }
    ensures fewer { IsTrue result → unmarked seen.new ≤ unmarked seen.old }
{
    'pages: for page in pages {
        if !mark(seen, *page) {
            return false;
        }
    }
    true
}

/// Whether a page isn't marked.
fn has_unmarked(seen: &[bool]) -> bool
    ensures { result ≡ has_unmarked seen.now }
{
    seen.iter().any(|marked| !*marked)
}

/// Marks these pages and those of a list; whether each page that wasn't marked was one of them, once.
fn marks_rest(seen: &mut [bool], in_use: &[u32], list: &FreeList) -> bool
    ensures { let listed = list.now.pages.items ++ list.now.named.items in
        (page_count : ℕ) → ((n : ℕ) → free_in seen.old n ≡ room_for page_count n)
        → TellsAll page_count (in_use.now ++ listed) result }
{
    if !mark_all(seen, in_use) {
        return false;
    }
    if !mark_all(seen, &list.pages) {
        return false;
    }
    if !mark_all(seen, &list.named) {
        return false;
    }
    !has_unmarked(seen)
}

/// For each page of a file with so many whether it is marked: page 0 alone is.
fn no_marks(alloc: Global, page_count: u32) -> Result<Vec<bool>, NoMemory>
    ensures { IfOk result (λ seen. (n : ℕ) → free_in seen.items n ≡ room_for page_count n) }
{
    let mut seen = vec![in alloc; false; page_count as usize]?;
    if let Some(place) = seen.first_mut() {
        *place = true;
    }
    Ok(seen)
}

/// What was read of a list so far, and for each page of the file whether it stood there. Page 0 counts as one that did.
#[derive(Drop)]
pub(crate) struct Reading {
    seen: Vec<bool>,
    list: FreeList,
}

impl Reading {
    /// Nothing was read yet of the list of a file with so many pages.
    fn begin(alloc: Global, page_count: u32) -> Result<Reading, ListFault>
        ensures begins { IfOk result (Begins page_count) }
        ensures memory { OnErr result (result ≡ Err faults.Memory) }
    {
        Ok(Reading {
            seen: no_marks(alloc, page_count)?,
            list: FreeList {
                pages: Vec::new(alloc),
                named: Vec::new(alloc),
            },
        })
    }

    /// Notes a page of the list's own.
    fn note_page(&mut self, page: u32) -> Result<(), ListFault>
        ensures notes { Notes (page ∷ []) [] self.old self.new result }
        ensures fewer { OnOk result (unmarked self.new.seen.items < unmarked self.old.seen.items) }
    {
        if !mark(&mut self.seen, page) {
            return Err(ListFault::Damaged);
        }
        if self.list.pages.push(page).is_err() {
            return Err(ListFault::Memory);
        }
        Ok(())
    }

    /// Notes pages that the list names.
    fn note_named(&mut self, named: &[u32]) -> Result<(), ListFault>
        ensures notes { Notes [] named.now self.old self.new result }
        ensures fewer { OnOk result (unmarked self.new.seen.items ≤ unmarked self.old.seen.items) }
    {
        if !mark_all(&mut self.seen, named) {
            return Err(ListFault::Damaged);
        }
        self.list.named.extend_from_slice(named)?;
        Ok(())
    }

    /// Reads one page more of the list; which page goes on.
    fn read_next<P: ListPages>(
        &mut self,
        alloc: Global,
        source: &mut P,
        page: u32,
    ) -> Result<u32, ListFault>
        ensures reads { P.reads source.old source.new }
        ensures same { P.keeps_word source.new
            → P.keeps_word source.old × (P.contents source.new ≡ P.contents source.old) }
        ensures steps { P.keeps_word source.new
            → StepsOn (P.contents source.old) page self.old self.new result }
        ensures device { result ≡ Err faults.Device → P.has_failed source.old source.new }
        ensures clear { result ≢ Err faults.Device → P.clear source.old source.new }
        ensures fewer { OnOk result (unmarked self.new.seen.items < unmarked self.old.seen.items) }
    {
        self.note_page(page)?;
        let part = source.read_part(alloc, page)?;
        self.note_named(&part.named)?;
        Ok(part.next)
    }
}

/// Reads the list of a file with so many pages, whose root names the list's first page and says how many pages it
/// names. It ends on any bytes: a list that isn't one is damaged.
pub fn read_list<P: ListPages>(
    alloc: Global,
    source: &mut P,
    page_count: u32,
    first: u32,
    count: u32,
) -> Result<FreeList, ListFault>
    ensures reads { P.reads source.old source.new }
    ensures same { P.keeps_word source.new
        → P.keeps_word source.old × (P.contents source.new ≡ P.contents source.old) }
    ensures list { P.keeps_word source.new
        → ReadsList (P.contents source.old) page_count first count result }
    ensures device { result ≡ Err faults.Device → P.has_failed source.old source.new }
    ensures clear { result ≢ Err faults.Device → P.clear source.old source.new }
{
    let mut reading = Reading::begin(alloc, page_count)?;
    let mut page = first;
    while page != 0 {
        page = reading.read_next(alloc, source, page)?;
    }
    if reading.list.named.len() != count as usize {
        return Err(ListFault::Damaged);
    }
    Ok(reading.list)
}
