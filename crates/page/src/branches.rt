//! Branches: the children of a page of the tree.

ghost use Rattle.std.specs.Prelude.{◌≡◌, ◌<◌, ◌≤◌, ◌+◌, ℕ, length, map, slice_get, take, Some, IfOk};
ghost use Rattle.outcome.specs.Outcome.{Gives};
ghost use Rattle.page.specs.Content.{Content, branch, IsBranch, Pivot, pivot_keys, pivot_pages, pivots_size};
ghost use Rattle.page.specs.ChildPage.{exchanged, page_place, with_child};
ghost use Rattle.page.specs.Format.{branch_in, pivots_bytes, body_and_zeros};
ghost use Rattle.page.specs.CellView.{pivot_of};

use crate::cells::{CellForm, append_children, append_number, branch_child, keys_rise, places_of};
use crate::splicing::{append_places, bytes_with_number};
use crate::{BODY_BYTES, Child, PageFault};
use byteorder::{ByteOrder, LittleEndian};
use std::alloc::{AllocError, Global};
use std::marker::Model;

/// The children of a branch, in ascending order of their keys: the 4,080 bytes behind a page's header, and where in them
/// each child behind the first begins. So looking at a child copies nothing.
#[derive(Debug, Drop)]
pub struct Branch {
    bytes: Vec<u8>,
    places: Vec<u16>,
}

impl Model for Branch {
    ghost use Rattle.std.specs.Prelude.{List};
    ghost use Rattle.page.specs.Content.{Pivot};
    ghost use Rattle.page.specs.Format.{pivots_at};
    ghost use Rattle.page.specs.Kept.{KeepsBranch};

    ghost Value = { List Pivot };

    ghost view = { λ a. pivots_at a.bytes.items a.places.items };

    ghost invariant = { λ a. KeepsBranch a.bytes.items a.places.items };
}

impl Branch {
    /// A branch with these children: at least two, in ascending order of their keys, of which the first is empty, that
    /// find room in 4,080 bytes.
    pub fn of(alloc: Global, children: &[Child<'_>]) -> Result<Branch, AllocError>
        requires { IsBranch (map pivot_of children.now) }
        ensures { IfOk result (λ made. made ≡ map pivot_of children.now) }
    {
        let mut bytes = Vec::with_capacity(alloc, BODY_BYTES)?;
        let mut places = Vec::with_capacity(alloc, children.len() - 1)?;
        append_number(&mut bytes, children[0].page)?;
        append_children(&children[1..], &mut bytes, &mut places)?;
        bytes.resize(BODY_BYTES, 0)?;
        Ok(Branch { bytes, places })
    }

    /// The branch whose page has this count and these bytes behind its header.
    pub(crate) fn read(alloc: Global, count: usize, bytes: &[u8]) -> Result<Branch, PageFault>
        requires { length bytes.now ≡ 4080 }
        ensures { Gives PageFault.Memory (λ found. branch found) result
            (branch_in count bytes.now) }
    {
        if count < 2 {
            return Err(PageFault::Length);
        }
        let places = places_of(alloc, CellForm::Branch, count - 1, 4, bytes)?;
        if !keys_rise(CellForm::Branch, bytes, &[], &places) {
            return Err(PageFault::Order);
        }
        let bytes = Vec::from_slice(alloc, bytes)?;
        Ok(Branch { bytes, places })
    }

    /// How many children there are: at least two.
    pub fn len(&self) -> usize
        ensures count { result ≡ length self.now }
        ensures sound { IsBranch self.now }
    {
        self.places.len() + 1
    }

    /// A child, by its place among the children.
    pub fn child(&self, i: usize) -> Child<'_>
        requires { i < length self.now }
        ensures { slice_get self.now i ≡ Some (pivot_of result) }
    {
        if i == 0 {
            let page = LittleEndian::read_u32(&self.bytes);
            return Child { key: &[], page };
        }
        branch_child(&self.bytes[self.places[i - 1] as usize..])
    }

    /// The page of a child, by its place among the children.
    pub fn page(&self, i: usize) -> u32
        requires { i < length self.now }
        ensures { slice_get (pivot_pages self.now) i ≡ Some result }
    {
        self.child(i).page
    }

    /// The key of a child, by its place among the children; that of the first is empty.
    pub fn key(&self, i: usize) -> &[u8]
        requires { i < length self.now }
        ensures { slice_get (pivot_keys self.now) i ≡ Some result.now }
    {
        self.child(i).key
    }

    /// Where the number of a child's page stands, by its place among the children.
    fn number_place(&self, i: usize) -> usize
        requires { i < length self.now }
        ensures { result ≡ page_place i self.now }
    {
        if i == 0 {
            return 0;
        }
        self.places[i - 1] as usize + 2 + self.key(i).len()
    }

    /// The bytes of all children: the first has its page alone.
    pub fn size(&self) -> usize
        ensures { result ≡ pivots_size self.now }
    {
        self.number_place(self.places.len()) + 4
    }

    /// The branch with another page for a child, by its place among the children. All else is copied as a whole.
    pub fn with_page(&self, alloc: Global, i: usize, page: u32) -> Result<Branch, AllocError>
        requires { i < length self.now }
        ensures { IfOk result (λ made. made ≡ with_child i page self.now) }
    {
        let bytes = bytes_with_number(alloc, &self.bytes, self.number_place(i), page)?;
        let places = Vec::from_slice(alloc, &self.places)?;
        Ok(Branch { bytes, places })
    }

    /// Where a child behind the first begins, by its place among the children, or where the last one ends.
    pub fn start(&self, i: usize) -> usize
        requires some { 0 < i }
        requires within { i ≤ length self.now }
        ensures { result ≡ pivots_size (take i self.now) }
    {
        if i <= self.places.len() {
            return self.places[i - 1] as usize;
        }
        self.size()
    }

    /// The branch with these children in place of those from one place to below another, behind the first child. What stands
    /// before them and behind them is copied as a whole.
    pub fn with_children(
        &self,
        alloc: Global,
        from: usize,
        to: usize,
        children: &[Child<'_>],
    ) -> Result<Branch, AllocError>
        requires some { 0 < from }
        requires order { from ≤ to }
        requires within { to ≤ length self.now }
        requires sound { IsBranch (exchanged from to (map pivot_of children.now) self.now) }
        ensures { IfOk result (λ made.
            made ≡ exchanged from to (map pivot_of children.now) self.now) }
    {
        let stop = self.start(to);
        let size = self.size();
        let mut bytes = Vec::with_capacity(alloc, BODY_BYTES)?;
        let mut places = Vec::with_capacity(alloc, self.places.len() + children.len())?;
        bytes.extend_from_slice(&self.bytes[..self.start(from)])?;
        places.extend_from_slice(&self.places[..from - 1])?;
        append_children(children, &mut bytes, &mut places)?;
        append_places(&self.places[to - 1..], stop, bytes.len(), &mut places)?;
        bytes.extend_from_slice(&self.bytes[stop..size])?;
        bytes.resize(BODY_BYTES, 0)?;
        Ok(Branch { bytes, places })
    }

    /// What stands behind the page's header.
    pub(crate) fn bytes(&self) -> &[u8]
        ensures { result.now ≡ body_and_zeros (pivots_bytes self.now) }
    {
        &self.bytes
    }
}
