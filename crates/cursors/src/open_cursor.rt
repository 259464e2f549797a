//! One open cursor.

ghost use Rattle.std.specs.Prelude.{◌≡◌, ◌≢◌, ◌==◌, ◌<◌, ◌≤◌, ◌^◌, All, length, None, IfOk, not, is_some, option_map};
ghost use Rattle.database_model.specs.Lawful.{IsWithin};
ghost use Rattle.database_model.specs.Refusals.{ok_reply};
ghost use Rattle.database_model.specs.Cursors.{batch_reply, new_cursor, is_cursor};
ghost use Rattle.database_model.specs.GetMore.{batch_len_of};
ghost use Rattle.database_model.specs.KillCursors.{is_asked};
ghost use Rattle.replies.specs.View.{batch_name, IsSendable};
ghost use Rattle.cursors.specs.Changes.{after, onwards, pinned_by, rested};
ghost use Rattle.cursors.specs.Ending.{is_ended};
ghost use Rattle.cursors.specs.View.{rest_in, walk_in};

use crate::ending::Ends;
use crate::source::Source;
use bson::NoMemory;
use bson_bytes::SpelledDocument;
use pager::Version;
use replies::{BatchKind, ConnId};
use std::alloc::Global;
use std::marker::Model;

/// Documents that a connection has not been given yet.
#[derive(Drop)]
pub struct OpenCursor {
    number: u64,
    connection: ConnId,
    namespace: String,
    /// Whether it was opened or advanced in the running turn.
    touched: bool,
    source: Source,
}

impl Model for OpenCursor {
    ghost use Rattle.std.specs.Prelude.{string_bytes};
    ghost use Rattle.database_model.specs.Lawful.{IsOpenCursor};
    ghost use Rattle.cursors.specs.Held as held;
    ghost use Rattle.cursors.specs.HeldCode.{held_cursor_code};
    ghost use Rattle.cursors.specs.View.{rest_in, walk_in};

    ghost Value = { held.HeldCursor };

    ghost coded = { held_cursor_code };

    ghost view = { λ a. record {
      cursor = record {
        number = a.number;
        connection = a.connection;
        namespace = string_bytes a.namespace;
        rest = rest_in a.source;
        touched = a.touched;
      };
      walk = walk_in a.source;
    } };

    ghost invariant = { λ a. IsOpenCursor (record {
      number = a.number;
      connection = a.connection;
      namespace = string_bytes a.namespace;
      rest = rest_in a.source;
      touched = a.touched;
    }) };
}

impl OpenCursor {
    pub(crate) fn new(
        alloc: Global,
        number: u64,
        connection: ConnId,
        namespace: &str,
        source: Source,
    ) -> Result<OpenCursor, NoMemory>
        requires number { number < 2 ^ 63 }
        requires within { All IsWithin (rest_in source) }
        ensures { IfOk result (λ c. c ≡ record {
          cursor = new_cursor number connection namespace.now (rest_in source);
          walk = walk_in source;
        }) }
    {
        Ok(OpenCursor {
            number,
            connection,
            namespace: String::from_str(alloc, namespace)?,
            touched: true,
            source,
        })
    }

    /// Whether it belongs to this connection.
    pub(crate) fn is_of(&self, connection: ConnId) -> bool
        ensures { result ≡ (self.now.cursor.connection == connection) }
    {
        self.connection.number() == connection.number()
    }

    /// Whether a connection has it, in this namespace, under this id.
    pub(crate) fn has_id(&self, connection: ConnId, namespace: &str, id: &i64) -> bool
        ensures { result ≡ is_cursor connection namespace.now id.now self.now.cursor }
    {
        self.is_of(connection) && namespace == self.namespace.as_str() && *id == self.number as i64
    }

    /// Whether a connection asks for its end, by one of these ids.
    fn is_asked(&self, connection: ConnId, namespace: &str, ids: &[i64]) -> bool
        ensures { result ≡ is_asked connection namespace.now ids.now self.now.cursor }
    {
        ids.iter().any(|id| self.has_id(connection, namespace, id))
    }

    /// Whether it is one of those that are to end.
    pub(crate) fn is_ended(&self, ends: &Ends<'_>) -> bool
        ensures { result ≡ is_ended ends.now self.now.cursor }
    {
        match *ends {
            Ends::Asked(connection, namespace, ids) => self.is_asked(connection, namespace, ids),
            Ends::Of(connection) => self.is_of(connection),
            Ends::Touched => self.touched,
        }
    }

    pub(crate) fn number(&self) -> u64
        ensures number { result ≡ self.now.cursor.number }
        ensures below { result < 2 ^ 63 }
    {
        self.number
    }

    /// Whether it keeps its documents.
    pub(crate) fn keeps(&self) -> bool
        ensures { result ≡ not (is_some self.now.walk) }
    {
        match &self.source {
            Source::Kept(_) => true,
            _ => false,
        }
    }

    /// What it goes on by.
    pub(crate) fn source(&self) -> &Source
        ensures rest { rest_in result.now ≡ self.now.cursor.rest }
        ensures walk { walk_in result.now ≡ self.now.walk }
        ensures within { All IsWithin self.now.cursor.rest }
    {
        &self.source
    }

    /// The version that it has pinned.
    pub(crate) fn pinned(&self) -> Option<Version>
        ensures { result ≡ pinned_by self.now }
    {
        match &self.source {
            Source::Kept(_) => None,
            Source::Pinned(walk) => Some(walk.version),
            Source::Listed(list) => Some(list.version),
            Source::Ordered(order) => Some(order.version),
        }
    }

    /// How many documents are left of one that keeps them.
    pub(crate) fn left(&self) -> usize
        requires { self.now.walk ≡ None }
        ensures { result ≡ length self.now.cursor.rest }
    {
        match &self.source {
            Source::Kept(kept) => kept.left(),
            _ => unreachable!("it keeps its documents"),
        }
    }

    /// The reply with the next documents of one that keeps them, and how many they are.
    pub(crate) fn batch(
        &self,
        alloc: Global,
        namespace: &str,
        most: Option<usize>,
    ) -> Result<(SpelledDocument, usize), NoMemory>
        requires kept { self.now.walk ≡ None }
        requires short { length namespace.now ≤ 255 }
        ensures count { IfOk result (λ r. r.1 ≡ batch_len_of self.now.cursor most) }
        ensures reply { IfOk result (λ r. r.0 ≡ ok_reply (batch_reply (batch_name BatchKind.Next)
            r.1 self.now.cursor.rest self.now.cursor.number namespace.now)) }
        ensures sendable { IfOk result (λ r. IsSendable r.0) }
    {
        match &self.source {
            Source::Kept(kept) => kept.batch(alloc, namespace, self.number, most),
            _ => unreachable!("it keeps its documents"),
        }
    }

    /// One that keeps its documents gave so many.
    pub(crate) fn give(&mut self, count: usize)
        requires kept { self.old.walk ≡ None }
        requires there { count ≤ length self.old.cursor.rest }
        ensures { self.new ≡ after self.old count None }
    {
        match &mut self.source {
            Source::Kept(kept) => kept.give(count),
            _ => unreachable!("it keeps its documents"),
        }
        self.touched = true;
    }

    /// One that reads a pinned version gave so many, and goes on from a key text.
    pub(crate) fn go_on(&mut self, count: usize, from: Vec<u8>)
        requires { self.old.walk ≢ None }
        ensures { self.new ≡ after self.old count
            (option_map (onwards count from.items) self.old.walk) }
    {
        self.source.go_on(count, from);
        self.touched = true;
    }

    /// The turn is over.
    pub(crate) fn rest(&mut self)
        ensures { self.new ≡ rested self.old }
    {
        self.touched = false;
    }
}
