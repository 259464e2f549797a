//! The list by which a cursor goes on that holds no documents: the key texts of their `_id`s.

ghost use Rattle.std.specs.Prelude.{◌≡◌, ◌<◌, ◌^◌, ℕ, List, drop, length, map};

use crate::rest::Rest;
use pager::Version;
use projection::Projection;
use std::marker::Model;

/// The key texts of the `_id`s of documents that are still to be given, in the order in which they come.
#[derive(Drop)]
pub struct TextList {
    texts: Vec<Vec<u8>>,
    /// How many of the documents were given.
    given: usize,
}

impl Model for TextList {
    ghost use Rattle.std.specs.Prelude.{◌≤◌, ℕ, List, length, map, drop};
    ghost use Rattle.std.specs.Coded.{coded_ℕ, coded_list};

    ghost Value = { List (List ℕ) };

    ghost coded = { coded_list (coded_list coded_ℕ) };

    ghost view = { λ a. map (λ v. v.items) (drop a.given a.texts.items) };

    ghost invariant = { λ a. a.given ≤ length a.texts.items };
}

impl TextList {
    pub fn new(texts: Vec<Vec<u8>>) -> TextList
        ensures { result ≡ map (λ v. v.items) texts.items }
    {
        TextList { texts, given: 0 }
    }

    /// Those that are left.
    pub fn left(&self) -> &[Vec<u8>]
        ensures texts { map (λ v. v.items) result.now ≡ self.now }
        ensures few { length result.now < 2 ^ 64 }
    {
        &self.texts[self.given..]
    }

    /// So many of the documents were given.
    fn give(&mut self, count: usize)
        ensures { self.new ≡ drop count self.old }
    {
        let left = self.texts.len() - self.given;
        self.given += count.min(left);
    }
}

/// Documents of a pinned version of the collections that are looked up one by one, and given.
#[derive(Drop)]
pub struct PinnedList {
    /// What is pinned for them.
    pub version: Version,
    /// The number of their collection.
    pub number: u32,
    /// What is given of each document.
    pub projection: Projection,
    pub texts: TextList,
    /// What is still to be given, as the projection leaves it.
    pub rest: Rest,
}

impl PinnedList {
    ghost use Rattle.cursors.specs.View.{list_of};
    ghost use Rattle.cursors.specs.Changes.{onwards};

    /// So many of the documents were given.
    pub(crate) fn go_on(&mut self, count: usize)
        ensures list { (from : List ℕ) → list_of self.new ≡ onwards count from (list_of self.old) }
        ensures rest { self.new.rest.value ≡ drop count self.old.rest.value }
    {
        self.rest.give(count);
        self.texts.give(count);
    }
}
