//! The documents of a collection, lent one after the other while their page is borrowed: nothing of them is copied.

ghost use Rattle.std.specs.Prelude.{◌≡◌, ◌++◌, ◌∷◌, [], true, List, IfErr, IfOk, IfSome, OnOk, Some, None};
ghost use Rattle.std.specs.Option.{option_map};
ghost use Rattle.bson_bytes.specs.Raw.{document_spelled};
ghost use Rattle.bson.specs.Spelling.{frame_of, pairs_bytes};
ghost use Rattle.bson.specs.Tree.{Pairs};
ghost use Rattle.btree.specs.Fold.{HasTaken as HasTakenEntries, between};
ghost use Rattle.entry_model.specs.LawfulState.{IsStorable};
ghost use Rattle.collections.specs.Below.{IsNothing, ReadsBelow};
ghost use Rattle.collections.specs.Folding.{HasTaken, IsFolded, Lends, documents_within, end_under};
ghost use Rattle.collections.specs.Lookups.{IsInTree, IsNumbered, LooksUp, ReadsOf};

use crate::applying::refusal_of;
use crate::collections::Collections;
use bson::NoMemory;
use bson_bytes::RawDoc;
use btree::{Bounds, Fold, fold_entries};
use entries::{document_key, first_key};
use page::Disk;
use pager::Pager;
use path::Refusal;
use std::alloc::{AllocError, Global};
use tree_model::TreeFault;

/// What is made of documents that are lent one after the other, in ascending order of `_id`.
pub trait DocumentFold {
    ghost use Rattle.std.specs.Prelude.{List};
    ghost use Rattle.bson.specs.Tree.{Pairs};

    /// What some documents make of it: how it was before them, and how it is behind them.
    ghost makes: { Self → List Pairs → Self → Type 0 };

    /// Whether it stays as it is, whatever else may come.
    fn is_done(&self) -> bool
        ensures { result ≡ true → (start : Self) (all more : List Pairs)
            → makes start all self.now → makes start (all ++ more) self.now };

    /// Takes the next document. One that may be stored is refused only where memory runs out; a disk may give others.
    fn take(&mut self, document: &RawDoc<'_>) -> Result<(), Refusal>
        ensures takes { (start : Self) (all : List Pairs) → makes start all self.old
            → OnOk result (makes start (all ++ document.now ∷ []) self.new) }
        ensures refuses { IsStorable document.now → IfErr result (λ e. e ≡ Refusal.OutOfMemory) };
}

/// A fold of documents to which entries are lent, and why one of them was refused.
#[derive(Drop)]
pub(crate) struct Lending<F> {
    pub(crate) fold: F,
    pub(crate) refused: Option<Refusal>,
}

/// The document that an entry's value is.
fn document_at<'a>(value: &'a [u8]) -> Option<RawDoc<'a>>
    ensures reads { (d : Pairs) → IsStorable d → value.now ≡ frame_of (pairs_bytes d)
        → result ≡ Some d }
    ensures spelled { IfSome result (λ d. d ≡ document_spelled value.now) }
{
    match RawDoc::new(value) {
        Ok(document) => {
            if document.bytes().len() == value.len() {
                Some(document)
            } else {
                None
            }
        }
        Err(_) => None,
    }
}

/// Lends the document that a value is.
fn lend<F: DocumentFold>(fold: &mut F, value: &[u8]) -> Result<(), Refusal>
    ensures takes { (start : F) (all : List Pairs) → F.makes start all fold.old
        → OnOk result (F.makes start (all ++ document_spelled value.now ∷ []) fold.new) }
    ensures refuses { (d : Pairs) → IsStorable d → value.now ≡ frame_of (pairs_bytes d)
        → IfErr result (λ e. e ≡ Refusal.OutOfMemory) }
{
    match document_at(value) {
        Some(document) => fold.take(&document),
        None => Err(Refusal::StorageFailed),
    }
}

impl<F: DocumentFold> Fold for Lending<F> {
    ghost makes = { Lends F.makes };

    fn is_done(&self) -> bool {
        self.refused.is_some() || self.fold.is_done()
    }

    fn take_key(&mut self, _key: &[u8]) -> Result<bool, AllocError> {
        Ok(false)
    }

    fn take(&mut self, _key: &[u8], value: &[u8]) -> Result<(), AllocError> {
        if self.refused.is_none() {
            self.refused = lend(&mut self.fold, value).err();
        }
        Ok(())
    }
}

/// Lends the entries between bounds of the tree below a root page.
fn lend_below<D: Disk, F: Fold>(
    alloc: Global,
    pager: &mut Pager<D>,
    root: u32,
    bounds: Bounds<'_>,
    fold: &mut F,
) -> Result<(), TreeFault>
    requires { F.makes fold.old [] fold.old }
    ensures looks { LooksUp D.history root
        (λ entries _. F.makes fold.old (between bounds.entry entries) fold.new)
        result pager.old pager.new }
    ensures taken { OnOk result (HasTakenEntries F.makes fold.old fold.new) }
{
    fold_entries(alloc, pager, root, bounds, fold)
}

/// Below which key the entries of documents lie whose texts are below this one, or of all documents.
fn end_key(alloc: Global, number: u32, text: Option<&[u8]>) -> Result<Vec<u8>, NoMemory>
    ensures { IfOk result (λ key. key.items
        ≡ end_under number (option_map (λ b. b.now) text.entry)) }
{
    match text {
        Some(text) => document_key(alloc, number, text),
        None => first_key(alloc, number, 1),
    }
}

impl<D: Disk> Collections<D> {
    /// Lends the entries between bounds of the tree below a root page.
    pub(crate) fn lend_from<F: Fold>(
        &mut self,
        root: u32,
        bounds: Bounds<'_>,
        fold: &mut F,
    ) -> Result<(), Refusal>
        requires { F.makes fold.old [] fold.old }
        ensures reads { ReadsBelow D.history root IsNothing (λ now asked. IsInTree
            (λ entries _. F.makes fold.old (between bounds.entry entries) fold.new) now)
            result self.old self.new }
        ensures taken { OnOk result (HasTakenEntries F.makes fold.old fold.new) }
    {
        if self.pager.is_stopped() {
            return Err(Refusal::StorageFailed);
        }
        match lend_below(self.alloc, &mut self.pager, root, bounds, fold) {
            Ok(()) => Ok(()),
            Err(fault) => Err(refusal_of(fault)),
        }
    }

    /// Lends the documents of the collection of a number, in the tree below a root page, whose `_id`s' key texts lie within bounds to
    /// a fold.
    pub(crate) fn fold_from<F: DocumentFold + Drop>(
        &mut self,
        root: u32,
        number: u32,
        texts: Bounds<'_>,
        fold: F,
    ) -> Result<F, Refusal>
        requires { F.makes fold [] fold }
        ensures reads { ReadsBelow D.history root (λ now c. IsNumbered now c number)
            (λ now c done. F.makes fold (documents_within texts.entry c.documents) done)
            result self.old self.new }
        ensures taken { IfOk result (HasTaken F.makes fold) }
    {
        let from = document_key(self.alloc, number, texts.from)?;
        let to = end_key(self.alloc, number, texts.to)?;
        let mut lending = Lending {
            fold,
            refused: None,
        };
        let bounds = Bounds {
            from: &from,
            to: Some(&to),
        };
        self.lend_from(root, bounds, &mut lending)?;
        match lending.refused {
            None => Ok(lending.fold),
            Some(refusal) => Err(refusal),
        }
    }

    /// Lends the documents of the collection of a number whose `_id`s' key texts lie within bounds to a fold, in ascending order of
    /// `_id`, until it is done, and hands it back. `StorageFailed` where one is damaged.
    pub fn fold_documents_within<F: DocumentFold + Drop>(
        &mut self,
        number: u32,
        texts: Bounds<'_>,
        fold: F,
    ) -> Result<F, Refusal>
        requires { F.makes fold [] fold }
        ensures reads { ReadsOf D.history (λ now c. IsNumbered now c number)
            (λ now c done. IsFolded F.makes fold (documents_within texts.entry c.documents) done)
            result self.old self.new }
        ensures taken { IfOk result (HasTaken F.makes fold) }
    {
        self.pager.trees_fit();
        self.fold_from(self.root, number, texts, fold)
    }
}
