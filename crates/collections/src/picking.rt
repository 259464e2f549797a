//! The documents of some `_id`s, lent one after the other while their page is borrowed: what lies between them is passed over.

ghost use Rattle.std.specs.Prelude.{◌≡◌, ◌<◌, ◌+◌, [], IfOk, None, OnOk, drop, length, option_map, take};
ghost use Rattle.entry_model.specs.StateEntries.{key_under};
ghost use Rattle.index.specs.View.{texts_of};
ghost use Rattle.collections.specs.Folding.{HasTaken, IsFolded};
ghost use Rattle.collections.specs.Picking.{IsAskedFor, IsNextKey, IsPassedTo, documents_among, keys_of};
ghost use Rattle.collections.specs.Lookups.{ReadsOf};

use crate::collections::Collections;
use crate::folding::{DocumentFold, Lending};
use bson::NoMemory;
use btree::{Bounds, Fold};
use entries::document_key;
use key_order::compare_keys;
use page::Disk;
use path::Refusal;
use std::alloc::{AllocError, Global};
use std::cmp::Ordering;

/// A fold of documents to which those of some ascending key texts of `_id`s are lent, of which so many are passed: all, once the fold is
/// done. It has the key of the document of the next text.
#[derive(Drop)]
struct Picking<'a, F> {
    number: u32,
    texts: &'a [Vec<u8>],
    passed: usize,
    key: Vec<u8>,
    lending: Lending<F>,
}

/// Makes the key of a document of the collection that of the text at a place, where there is one.
fn set_text(key: &mut Vec<u8>, number: u32, texts: &[Vec<u8>], place: usize) -> Result<(), NoMemory>
    ensures { take 8 key.old.items ≡ key_under number 0 []
        → OnOk result (IsNextKey number key.new.items (drop place (keys_of number texts.now))) }
{
    let Some(text) = texts.get(place) else {
        return Ok(());
    };
    key.truncate(8);
    key.extend_from_slice(text)
}

/// Passes the next text.
fn pass(
    next: &mut Vec<u8>,
    passed: &mut usize,
    number: u32,
    texts: &[Vec<u8>],
) -> Result<(), NoMemory>
    requires { passed.old < length texts.now }
    ensures one { passed.new ≡ passed.old + 1 }
    ensures next { take 8 next.old.items ≡ key_under number 0 [] → OnOk result
        (IsNextKey number next.new.items (drop passed.new (keys_of number texts.now))) }
{
    *passed += 1;
    set_text(next, number, texts, *passed)
}

/// Passes the texts up to that of an entry's key, and says whether this is the last of them.
fn pass_to(
    next: &mut Vec<u8>,
    passed: &mut usize,
    number: u32,
    texts: &[Vec<u8>],
    key: &[u8],
) -> Result<bool, NoMemory>
    ensures { IsNextKey number next.old.items (drop passed.old (keys_of number texts.now))
        → IfOk result (IsPassedTo number key.now (drop passed.old (keys_of number texts.now))
        (drop passed.new (keys_of number texts.now)) next.new.items) }
{
    'texts: while *passed < texts.len() {
        match compare_keys(next, key) {
            Ordering::Less => pass(next, passed, number, texts)?,
            Ordering::Equal => {
                pass(next, passed, number, texts)?;
                return Ok(true);
            }
            Ordering::Greater => return Ok(false),
        }
    }
    Ok(false)
}

impl<F: DocumentFold> Fold for Picking<'_, F> {
    ghost use Rattle.collections.specs.Picking.{Picks};

    ghost makes = { Picks F.makes };

    fn is_done(&self) -> bool {
        self.texts.len() <= self.passed
    }

    fn next_key(&self) -> Option<&[u8]> {
        if self.texts.len() <= self.passed {
            return None;
        }
        Some(&self.key)
    }

    fn take_key(&mut self, key: &[u8]) -> Result<bool, AllocError> {
        if self.texts.len() <= self.passed {
            return Ok(true);
        }
        match compare_keys(&self.key, key) {
            Ordering::Greater => Ok(true),
            _ => Ok(false),
        }
    }

    fn take(&mut self, key: &[u8], value: &[u8]) -> Result<(), AllocError> {
        let next = &mut self.key;
        let is_met = pass_to(next, &mut self.passed, self.number, self.texts, key)?;
        if !is_met {
            return Ok(());
        }
        self.lending.take(key, value)?;
        if self.lending.is_done() {
            self.passed = self.texts.len();
        }
        Ok(())
    }
}

/// All keys.
fn all_keys() -> Bounds<'static>
    ensures from { result.from.now ≡ [] }
    ensures to { option_map (λ b. b.now) result.to ≡ None }
{
    Bounds {
        from: &[],
        to: None,
    }
}

impl<D: Disk> Collections<D> {
    /// Lends the documents of the collection of a number whose `_id`s have one of these ascending key texts to a fold, in ascending order
    /// of `_id`, until it is done, and hands it back. No other is looked at. `StorageFailed` where one is damaged.
    pub fn fold_documents_among<F: DocumentFold + Drop>(
        &mut self,
        number: u32,
        texts: &[Vec<u8>],
        fold: F,
    ) -> Result<F, Refusal>
        requires { F.makes fold [] fold }
        ensures reads { ReadsOf D.history (IsAskedFor number (texts_of texts.now))
            (λ now c done.
            IsFolded F.makes fold (documents_among (texts_of texts.now) c.documents) done)
            result self.old self.new }
        ensures taken { IfOk result (HasTaken F.makes fold) }
    {
        self.pager.trees_fit();
        let mut key = document_key(self.alloc, number, &[])?;
        set_text(&mut key, number, texts, 0)?;
        let mut picking = Picking {
            number,
            texts,
            passed: 0,
            key,
            lending: Lending {
                fold,
                refused: None,
            },
        };
        self.lend_from(self.root, all_keys(), &mut picking)?;
        match picking.lending.refused {
            None => Ok(picking.lending.fold),
            Some(refusal) => Err(refusal),
        }
    }
}
