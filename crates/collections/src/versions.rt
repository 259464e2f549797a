//! Versions of the collections: what is pinned can be read, whatever is changed and committed meanwhile.

ghost use Rattle.std.specs.Prelude.{◌≡◌, [], IfOk};
ghost use Rattle.std.specs.Option.{option_map};
ghost use Rattle.collections.specs.Folding.{HasTaken, IsFolded, documents_within};
ghost use Rattle.collections.specs.IndexTexts.{AreReadNext, IsNumberedIndex};
ghost use Rattle.collections.specs.Lookups.{IsNumbered, IsPlaceOf, stored_at};
ghost use Rattle.collections.specs.Versions.{PinsNow, ReadsVersion, UnpinsVersion};
ghost use Rattle.index.specs.View.{texts_of};

use crate::collections::Collections;
use crate::folding::DocumentFold;
use crate::index_texts::NextTexts;
use bson::NoMemory;
use bson_bytes::SpelledDocument;
use btree::Bounds;
use page::Disk;
use pager::Version;
use path::Refusal;

impl<D: Disk> Collections<D> {
    /// Pins the collections as they are now, with what the turn has changed. They may be pinned several times. An `Err` leaves all as
    /// it was.
    pub fn pin(&mut self) -> Result<Version, NoMemory>
        ensures { PinsNow D.history result self.old self.new }
    {
        self.pager.trees_fit();
        self.pager.pin(self.root)
    }

    /// Ends a pin of a version. The pages that waited for it alone are free.
    pub fn unpin(&mut self, version: Version)
        ensures { UnpinsVersion D.history version self.old self.new }
    {
        self.pager.unpin(version);
    }

    /// The document of that `_id` in a version's collection of a number, if there is one, kept as its bytes.
    pub fn document_in(
        &mut self,
        version: Version,
        number: u32,
        id: &[u8],
    ) -> Result<Option<SpelledDocument>, Refusal>
        ensures { ReadsVersion D.history version (IsPlaceOf number id.now)
            (λ now place found. found ≡ stored_at place) result self.old self.new }
    {
        self.document_from(version.root, number, id)
    }

    /// Lends the documents of a version's collection of a number whose `_id`s' key texts lie within bounds to a fold, in ascending
    /// order of `_id`, until it is done, and hands it back. `StorageFailed` where one is damaged.
    pub fn fold_documents_in<F: DocumentFold + Drop>(
        &mut self,
        version: Version,
        number: u32,
        texts: Bounds<'_>,
        fold: F,
    ) -> Result<F, Refusal>
        requires { F.makes fold [] fold }
        ensures reads { ReadsVersion D.history version (λ now c. IsNumbered now c number)
            (λ now c done. IsFolded F.makes fold (documents_within texts.entry c.documents) done)
            result self.old self.new }
        ensures taken { IfOk result (HasTaken F.makes fold) }
    {
        self.fold_from(version.root, number, texts, fold)
    }

    /// The texts of the entries of an index of a version's collection of a number, from one text on, in ascending order, at most so
    /// many, and the text from which the others go on. At the end those up to another text and all that goes on from it; texts behind
    /// that may be among them.
    pub fn next_texts_in(
        &mut self,
        version: Version,
        number: u32,
        index: u32,
        first: &[u8],
        last: &[u8],
        most: usize,
    ) -> Result<NextTexts, Refusal>
        ensures { ReadsVersion D.history version (IsNumberedIndex number index)
            (λ now at found. AreReadNext first.now last.now most at
            (option_map (λ v. v.items) found.next) (texts_of found.texts.items))
            result self.old self.new }
    {
        self.texts_from(version.root, number, index, first, last, most)
    }
}
