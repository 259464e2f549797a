//! Walks through the documents of a collection, a few at a time.

ghost use Rattle.std.specs.Prelude.{◌≡◌, ◌⊎◌, ◌<◌, ◌≤◌, [], IfOk};
ghost use Rattle.collections.specs.Lookups.{ReadsOf};
ghost use Rattle.collections.specs.Walk.{BeginsWalk, GoesOnWalking, HasNext, IsWalk, StepsOn};

use crate::collections::Collections;
use crate::lookups::{documents_of, spelled_of};
use bson::{Document, NoMemory};
use bson_bytes::SpelledDocument;
use btree::{Entry, Range};
use entries::first_key;
use page::Disk;
use path::Refusal;

/// How far a walk through the documents of a collection has come, in ascending order of `_id`.
#[derive(Drop)]
pub struct Walk {
    number: u32,
    /// The key of the next document, None at the end.
    next: Option<Vec<u8>>,
    /// How many documents may still come, so that a walk ends on any disk. No tree has as many as it begins with.
    left: usize,
}

impl<D: Disk> Collections<D> {
    /// A walk through all documents of the collection of a number.
    pub fn walk(&self, number: u32) -> Result<Walk, NoMemory>
        ensures { IfOk result (BeginsWalk D.history self.now number) }
    {
        self.pager.trees_fit();
        Ok(Walk {
            number,
            next: Some(first_key(self.alloc, number, 0)?),
            left: u32::MAX as usize,
        })
    }

    /// The entries of the next documents of a walk, at most so many, and none at its end. What lies behind it may have
    /// changed since.
    fn next_batch(&mut self, walk: &mut Walk, limit: usize) -> Result<Vec<Entry>, Refusal>
        requires { 0 < limit }
        ensures reads { ReadsOf D.history (λ now rest. IsWalk now walk.old rest)
            (λ now rest batch. HasNext limit walk.new now rest batch.items)
            result self.old self.new }
        ensures ends { IfOk result (λ batch. (batch.items ≡ []) ⊎ (walk.new.left < walk.old.left)) }
        ensures left { walk.new.left ≤ walk.old.left }
        ensures number { walk.new.number ≡ walk.old.number }
    {
        let Some(from) = &walk.next else {
            return Ok(Vec::new(self.alloc));
        };
        let to = first_key(self.alloc, walk.number, 1)?;
        let batch = self.entries_in(Range {
            from,
            to: Some(&to),
            limit,
        })?;
        let Some(left) = walk.left.checked_sub(batch.entries.len()) else {
            return Err(Refusal::StorageFailed);
        };
        walk.next = batch.next;
        walk.left = left;
        Ok(batch.entries)
    }

    /// The next documents of a walk, at most so many, and none at its end.
    pub fn next_documents(
        &mut self,
        walk: &mut Walk,
        limit: usize,
    ) -> Result<Vec<Document>, Refusal>
        requires { 0 < limit }
        ensures reads { ReadsOf D.history (λ now rest. IsWalk now walk.old rest)
            (λ now rest batch. StepsOn limit walk.new now rest batch.items)
            result self.old self.new }
        ensures ends { IfOk result (λ batch. (batch.items ≡ []) ⊎ (walk.new.left < walk.old.left)) }
        ensures left { walk.new.left ≤ walk.old.left }
        ensures number { walk.new.number ≡ walk.old.number }
    {
        let batch = self.next_batch(walk, limit)?;
        documents_of(self.alloc, &batch)
    }

    /// The same, kept as their bytes: nothing of them is copied or built.
    pub fn next_spelled(
        &mut self,
        walk: &mut Walk,
        limit: usize,
    ) -> Result<Vec<SpelledDocument>, Refusal>
        requires { 0 < limit }
        ensures reads { ReadsOf D.history (λ now rest. IsWalk now walk.old rest)
            (λ now rest batch. StepsOn limit walk.new now rest batch.items)
            result self.old self.new }
        ensures ends { IfOk result (λ batch. (batch.items ≡ []) ⊎ (walk.new.left < walk.old.left)) }
        ensures left { walk.new.left ≤ walk.old.left }
        ensures number { walk.new.number ≡ walk.old.number }
    {
        let batch = self.next_batch(walk, limit)?;
        spelled_of(self.alloc, batch)
    }
}

/// Whatever becomes of the documents behind it, a walk goes on with those that are still to come.
pub fn goes_on_walking()
    ensures { GoesOnWalking }
{}
