//! Key texts of `_id`s among which one is looked for.

ghost use Rattle.std.specs.Prelude.{◌≡◌, IfOk};
ghost use Rattle.database_model.specs.Documents.{key_of};
ghost use Rattle.index.specs.Changes.{is_among};
ghost use Rattle.index.specs.KeyTexts.{ascending_set};
ghost use Rattle.index.specs.View.{texts_of};
ghost use Rattle.value_order.specs.KeyText.{tree_text};

use bson::NoMemory;
use bson_bytes::RawDoc;
use planner::ascending;
use std::alloc::Global;
use std::marker::Model;
use stored_documents::read_id;
use value_order::group_text;

/// Texts in ascending order, each once, so that one is found by halving.
#[derive(Drop)]
pub struct IdSet {
    ascending: Vec<Vec<u8>>,
}

impl Model for IdSet {
    ghost use Rattle.std.specs.Prelude.{ℕ, List};
    ghost use Rattle.index.specs.Changes.{IsAscending};
    ghost use Rattle.index.specs.View.{texts_of};

    ghost Value = { List (List ℕ) };

    ghost use Rattle.std.specs.Coded.{coded_list, coded_ℕ};

    ghost coded = { coded_list (coded_list coded_ℕ) };

    ghost view = { λ a. texts_of a.ascending.items };

    ghost invariant = { λ a. IsAscending (texts_of a.ascending.items) };
}

impl IdSet {
    /// These.
    pub(crate) fn of(ids: Vec<Vec<u8>>) -> IdSet
        ensures { result ≡ ascending_set (texts_of ids.items) }
    {
        IdSet {
            ascending: ascending(ids),
        }
    }

    /// They, in ascending order, each once.
    pub fn texts(&self) -> &[Vec<u8>]
        ensures { texts_of result.now ≡ self.now }
    {
        &self.ascending
    }

    pub(crate) fn into_texts(self) -> Vec<Vec<u8>>
        ensures { texts_of result.items ≡ self }
    {
        self.ascending
    }

    /// Whether there is none.
    pub fn is_empty(&self) -> bool {
        self.ascending.is_empty()
    }

    /// Whether the text is one of them.
    fn contains(&self, text: &[u8]) -> bool
        ensures { result ≡ is_among self.now text.now }
    {
        self.ascending
            .binary_search_by(|other| other.as_slice().cmp(text))
            .is_ok()
    }

    /// Whether that of a document's `_id` is.
    pub fn has_id_of(&self, alloc: Global, document: &RawDoc<'_>) -> Result<bool, NoMemory>
        ensures { IfOk result
            (λ answer. answer ≡ is_among self.now (tree_text (key_of document.now))) }
    {
        let id = read_id(alloc, document)?;
        let text = group_text(alloc, &id)?;
        Ok(self.contains(&text))
    }
}
