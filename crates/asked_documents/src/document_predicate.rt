//! Which documents are looked for.

ghost use Rattle.std.specs.Prelude.{◌≡◌, ◌∷◌, [], true, Bool, List, IfOk, IfSome, OnOk, get_or, length};
ghost use Rattle.bson.specs.Tree.{Pairs};
ghost use Rattle.filter.specs.Condition.{Conditions};
ghost use Rattle.filter.specs.Matches.{matches};
ghost use Rattle.index.specs.View.{texts_of};
ghost use Rattle.asked_documents.specs.ById.{ArePut, TellIdsBeside, one_matches};
ghost use Rattle.asked_documents.specs.Asking.{AsksMatching};

use bson::NoMemory;
use bson_bytes::RawDoc;
use filter::Filter;
use std::alloc::Global;

/// Which documents are looked for: those that one of some filters matches, and others that are told by their `_id`s.
pub trait DocumentPredicate {
    /// Whether this one is.
    ghost selects: { Self → Pairs → Bool };

    /// The filters.
    ghost filters: { Self → List Conditions };

    /// Whether one that stays its bytes is. No more of it is read than has to be.
    fn selects_raw(&self, alloc: Global, document: &RawDoc<'_>) -> Result<bool, NoMemory>
        ensures { IfOk result (λ answer. answer ≡ selects self.now document.now) };

    /// How many filters there are.
    fn filter_count(&self) -> usize
        ensures { result ≡ length (filters self.now) };

    /// The filter at a place, if there is one; behind the last it may be any.
    fn filter_at(&self, at: usize) -> Option<&Filter>
        ensures { IfSome result (λ f. f.now ≡ get_or (filters self.now) at f.now) };

    /// Puts key texts of `_id`s behind others, one of which each of them has that no filter matches; false where they can't be told.
    fn put_ids(&self, alloc: Global, ids: &mut Vec<Vec<u8>>) -> Result<bool, NoMemory>
        ensures put { OnOk result (ArePut (texts_of ids.old.items) (texts_of ids.new.items)) }
        ensures tells { IfOk result (λ told. told ≡ true
            → TellIdsBeside (selects self.now) (one_matches (filters self.now))
            (texts_of ids.new.items)) };

    /// A filter that matches each of them, if there is one.
    fn asked_filter(&self) -> Option<&Filter>
        ensures { IfSome result (λ f. AsksMatching (selects self.now) f.now) };
}

impl DocumentPredicate for Filter {
    ghost selects = { matches };

    ghost filters = { λ a. a ∷ [] };

    fn selects_raw(&self, alloc: Global, document: &RawDoc<'_>) -> Result<bool, NoMemory> {
        self.matches_raw(alloc, document)
    }

    fn filter_count(&self) -> usize {
        1
    }

    fn filter_at(&self, _at: usize) -> Option<&Filter> {
        Some(self)
    }

    fn put_ids(&self, _alloc: Global, _ids: &mut Vec<Vec<u8>>) -> Result<bool, NoMemory> {
        Ok(true)
    }

    fn asked_filter(&self) -> Option<&Filter> {
        Some(self)
    }
}
