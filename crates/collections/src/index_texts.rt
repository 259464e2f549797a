//! What the entries of an index tell, from one text up to another.

ghost use Rattle.std.specs.Prelude.{◌≡◌, ◌++◌, ◌∷◌, [], ℕ, List, IfOk, IfSome, OnOk, option_map};
ghost use Rattle.std.specs.Option.{option_to_list};
ghost use Rattle.btree.specs.Fold.{between, entry_at};
ghost use Rattle.tree_model.specs.Keys.{Entry};
ghost use Rattle.entries.specs.OtherKeys.{IsEndOf};
ghost use Rattle.entry_model.specs.StateEntries.{key_under};
ghost use Rattle.index.specs.View.{texts_of};
ghost use Rattle.collections.specs.Below.{IsNothing, ReadsBelow};
ghost use Rattle.collections.specs.IndexTexts.{AreFirstTexts, AreNextTexts, AreTextsBetween, IsNumberedIndex, next_behind, text_behind};
ghost use Rattle.collections.specs.Lookups.{IsInTree, LooksUp, ReadsOf};
ghost use Rattle.collections.specs.ReadTexts.{AreTextsRead};
ghost use Rattle.collections.specs.declared.index_texts.TextReading.{TextReading};

use crate::applying::refusal_of;
use crate::collections::Collections;
use bson::NoMemory;
use btree::{Bounds, Fold, fold_entries};
use entries::{end_of, first_key, index_key};
use page::Disk;
use pager::Pager;
use path::Refusal;
use std::alloc::{AllocError, Global};
use tree_model::TreeFault;

/// What a key goes on with from a front.
fn text_behind<'a>(front: &[u8], key: &'a [u8]) -> Option<&'a [u8]>
    ensures { option_map (λ r. r.now) result ≡ text_behind front.now key.now }
{
    if !key.starts_with(front) {
        return None;
    }
    let (_, rest) = key.split_at(front.len());
    Some(rest)
}

/// Puts that behind other texts.
fn push_text(texts: &mut Vec<Vec<u8>>, front: &[u8], key: &[u8]) -> Result<(), NoMemory>
    ensures { OnOk result (texts_of texts.new.items
        ≡ texts_of texts.old.items ++ option_to_list (text_behind front.now key.now)) }
{
    let alloc = *texts.allocator();
    let Some(text) = text_behind(front, key) else {
        return Ok(());
    };
    texts.push(text.to_vec(alloc)?)?;
    Ok(())
}

/// The texts of entries of an index as far as they are read, and the key of the first entry for which there is no room.
#[derive(Drop)]
struct TextReading<'a> {
    alloc: Global,
    /// What stands before each text.
    front: &'a [u8],
    /// So many entries have room.
    most: usize,
    /// So many were read.
    count: usize,
    texts: Vec<Vec<u8>>,
    next: Option<Vec<u8>>,
}

/// Before any entry is read.
fn none_read(alloc: Global, front: &[u8], most: usize) -> TextReading<'_>
    ensures front { result.front.now ≡ front.now }
    ensures most { result.most ≡ most }
    ensures none { AreTextsRead result [] result }
{
    TextReading {
        alloc,
        front,
        most,
        count: 0,
        texts: Vec::new(alloc),
        next: None,
    }
}

impl TextReading<'_> {
    /// Reads the next entry.
    fn read_key(&mut self, key: &[u8]) -> Result<(), NoMemory>
        ensures { (start : TextReading) (all : List Entry) (value : List ℕ)
            → AreTextsRead start all self.old
            → OnOk result (AreTextsRead start (all ++ entry_at key.now value ∷ []) self.new) }
    {
        if self.next.is_some() {
            return Ok(());
        }
        if self.most <= self.count {
            self.next = Some(Vec::from_slice(self.alloc, key)?);
            return Ok(());
        }
        push_text(&mut self.texts, self.front, key)?;
        self.count += 1;
        Ok(())
    }
}

impl Fold for TextReading<'_> {
    ghost makes = { AreTextsRead };

    fn is_done(&self) -> bool {
        self.next.is_some()
    }

    fn take_key(&mut self, key: &[u8]) -> Result<bool, AllocError> {
        self.read_key(key)?;
        Ok(true)
    }

    fn take(&mut self, key: &[u8], _value: &[u8]) -> Result<(), AllocError> {
        self.read_key(key)
    }
}

/// Reads the texts of the entries between bounds of the tree below a root page.
fn read_below<D: Disk>(
    alloc: Global,
    pager: &mut Pager<D>,
    root: u32,
    bounds: Bounds<'_>,
    reading: &mut TextReading<'_>,
) -> Result<(), TreeFault>
    requires { AreTextsRead reading.old [] reading.old }
    ensures { LooksUp D.history root
        (λ entries _. AreTextsRead reading.old (between bounds.entry entries) reading.new)
        result pager.old pager.new }
{
    fold_entries(alloc, pager, root, bounds, reading)
}

/// What the next key goes on with from a front, where there is one and it does.
fn next_behind(
    alloc: Global,
    front: &[u8],
    next: &Option<Vec<u8>>,
) -> Result<Option<Vec<u8>>, NoMemory>
    ensures { IfOk result (λ text. option_map (λ v. v.items) text
        ≡ next_behind front.now (option_map (λ v. v.items) next.now)) }
{
    let Some(key) = next else {
        return Ok(None);
    };
    let Some(text) = text_behind(front, key) else {
        return Ok(None);
    };
    Ok(Some(text.to_vec(alloc)?))
}

/// Texts of entries of an index, in ascending order, and from which text others go on that are left.
#[derive(Drop)]
pub struct NextTexts {
    pub texts: Vec<Vec<u8>>,
    pub next: Option<Vec<u8>>,
}

/// The keys in the tree from one text of an index up to another and all that goes on from it.
#[derive(Drop)]
struct KeyRange {
    from: Vec<u8>,
    to: Option<Vec<u8>>,
}

fn keys_between(
    alloc: Global,
    number: u32,
    index: u32,
    first: &[u8],
    last: &[u8],
) -> Result<KeyRange, NoMemory>
    ensures from { IfOk result (λ keys. keys.from.items ≡ key_under number index first.now) }
    ensures to { IfOk result (λ keys.
        IsEndOf (key_under number index last.now) (option_map (λ v. v.items) keys.to)) }
{
    let until = index_key(alloc, number, index, last)?;
    let to = end_of(alloc, &until)?;
    let from = index_key(alloc, number, index, first)?;
    Ok(KeyRange { from, to })
}

/// Texts of entries of an index, in ascending order, and whether these are all that were asked for.
#[derive(Drop)]
pub struct FirstTexts {
    pub texts: Vec<Vec<u8>>,
    pub are_all: bool,
}

impl<D: Disk> Collections<D> {
    /// Reads the texts of the entries between bounds of the tree below a root page.
    fn read_from(
        &mut self,
        root: u32,
        bounds: Bounds<'_>,
        reading: &mut TextReading<'_>,
    ) -> Result<(), Refusal>
        requires { AreTextsRead reading.old [] reading.old }
        ensures { ReadsBelow D.history root IsNothing (λ now asked. IsInTree
            (λ entries _. AreTextsRead reading.old (between bounds.entry entries) reading.new) now)
            result self.old self.new }
    {
        if self.pager.is_stopped() {
            return Err(Refusal::StorageFailed);
        }
        match read_below(self.alloc, &mut self.pager, root, bounds, reading) {
            Ok(()) => Ok(()),
            Err(fault) => Err(refusal_of(fault)),
        }
    }

    /// The texts of the entries of an index in the tree below a root page, from one text on, in ascending order, at most so many; at the
    /// end those up to another text and all that goes on from it.
    pub(crate) fn texts_from(
        &mut self,
        root: u32,
        number: u32,
        index: u32,
        first: &[u8],
        last: &[u8],
        most: usize,
    ) -> Result<NextTexts, Refusal>
        ensures { ReadsBelow D.history root (IsNumberedIndex number index)
            (λ now at found. AreNextTexts first.now last.now most at
            (option_map (λ v. v.items) found.next) (texts_of found.texts.items))
            result self.old self.new }
    {
        let keys = keys_between(self.alloc, number, index, first, last)?;
        let front = first_key(self.alloc, number, index)?;
        let bounds = Bounds {
            from: &keys.from,
            to: keys.to.as_deref(),
        };
        let mut reading = none_read(self.alloc, &front, most);
        self.read_from(root, bounds, &mut reading)?;
        let TextReading { texts, next, .. } = reading;
        let next = next_behind(self.alloc, &front, &next)?;
        Ok(NextTexts { texts, next })
    }

    /// The texts of the entries of an index from one text up to another and all that goes on from it, in ascending order: the first ones,
    /// at most so many. Texts behind them may be among them.
    pub fn first_texts(
        &mut self,
        number: u32,
        index: u32,
        first: &[u8],
        last: &[u8],
        most: usize,
    ) -> Result<FirstTexts, Refusal>
        ensures { ReadsOf D.history (IsNumberedIndex number index)
            (λ now at found.
            AreFirstTexts first.now last.now at found.are_all (texts_of found.texts.items))
            result self.old self.new }
    {
        let found = self.texts_from(self.root, number, index, first, last, most)?;
        Ok(FirstTexts {
            texts: found.texts,
            are_all: found.next.is_none(),
        })
    }

    /// All of these, where there are at most so many.
    pub fn index_texts(
        &mut self,
        number: u32,
        index: u32,
        first: &[u8],
        last: &[u8],
        most: usize,
    ) -> Result<Option<Vec<Vec<u8>>>, Refusal>
        ensures { ReadsOf D.history (IsNumberedIndex number index)
            (λ now at found. IfSome found
            (λ texts. AreTextsBetween first.now last.now at (texts_of texts.items)))
            result self.old self.new }
    {
        let found = self.first_texts(number, index, first, last, most)?;
        if !found.are_all {
            return Ok(None);
        }
        Ok(Some(found.texts))
    }
}
