//! Documents that a cursor keeps as their bytes.

ghost use Rattle.std.specs.Prelude.{◌≡◌, ◌<◌, ◌≤◌, ◌^◌, All, IfOk, length, map, drop, unwrap_or};
ghost use Rattle.projection.specs.Projection.{project};
ghost use Rattle.database_model.specs.Cursors.{batch_of, batch_reply};
ghost use Rattle.database_model.specs.Lawful.{IsWithin};
ghost use Rattle.database_model.specs.Refusals.{ok_reply};
ghost use Rattle.replies.specs.View.{batch_name, IsSendable};

use bson::NoMemory;
use bson_bytes::SpelledDocument;
use projection::Projection;
use replies::{BatchKind, batch_reply};
use std::alloc::Global;
use std::marker::Model;

/// Documents that a cursor keeps until it has given them.
#[derive(Drop)]
pub struct KeptDocuments {
    documents: Vec<SpelledDocument>,
    /// How many of the documents were given.
    given: usize,
    /// What is given of each.
    projection: Projection,
}

impl Model for KeptDocuments {
    ghost use Rattle.std.specs.Prelude.{◌≤◌, List, length, map, drop};
    ghost use Rattle.std.specs.Coded.{coded_list};
    ghost use Rattle.bson.specs.Tree.{Pairs};
    ghost use Rattle.bson.specs.TreeCode.{coded_pairs};
    ghost use Rattle.projection.specs.Projection.{project};

    ghost Value = { List Pairs };

    ghost coded = { coded_list coded_pairs };

    ghost view = { λ a. map (project a.projection) (drop a.given a.documents.items) };

    ghost invariant = { λ a. a.given ≤ length a.documents.items };
}

impl KeptDocuments {
    pub(crate) fn new(documents: Vec<SpelledDocument>, projection: Projection) -> KeptDocuments
        ensures { result ≡ map (project projection) documents.items }
    {
        KeptDocuments {
            documents,
            given: 0,
            projection,
        }
    }

    /// How many are left.
    pub(crate) fn left(&self) -> usize
        ensures { result ≡ length self.now }
    {
        self.documents.len() - self.given
    }

    /// The reply with the next ones, and how many they are.
    pub(crate) fn batch(
        &self,
        alloc: Global,
        namespace: &str,
        number: u64,
        most: Option<usize>,
    ) -> Result<(SpelledDocument, usize), NoMemory>
        requires within { All IsWithin self.now }
        requires short { length namespace.now ≤ 255 }
        requires number { number < 2 ^ 63 }
        ensures count { IfOk result
            (λ r. r.1 ≡ batch_of (unwrap_or most (length self.now)) self.now) }
        ensures reply { IfOk result (λ r. r.0 ≡ ok_reply (batch_reply (batch_name BatchKind.Next)
            r.1 self.now number namespace.now)) }
        ensures sendable { IfOk result (λ r. IsSendable r.0) }
    {
        let left = &self.documents[self.given..];
        batch_reply(
            alloc,
            BatchKind::Next,
            namespace,
            number,
            &self.projection,
            left,
            most.unwrap_or(left.len()),
        )
    }

    /// So many of them were given.
    pub(crate) fn give(&mut self, count: usize)
        requires { count ≤ length self.old }
        ensures { self.new ≡ drop count self.old }
    {
        self.given += count;
    }
}
