//! The open cursors.
//!
//! What later commands do to a collection isn't seen by a cursor: it keeps the bytes of its documents, or
//! reads a version of the collections that is pinned for it.

ghost use Rattle.std.specs.Prelude.{◌≡◌, ◌≢◌, ◌==◌, ◌<◌, ◌≤◌, ◌^◌, ◌+◌, ◌++◌, [], ◌∷◌, false, true, All, length, map, None, Some, remove, OnOk, OnErr, IfOk, IfErr, IfSome, IfNone, not, is_some, option_map};
ghost use Rattle.std.specs.List.{filter, list_any, position};
ghost use Rattle.projection.specs.Projection.{project};
ghost use Rattle.database_model.specs.World.{at_rest, count_of};
ghost use Rattle.database_model.specs.Lawful.{IsWithin};
ghost use Rattle.database_model.specs.Refusals.{ok_reply};
ghost use Rattle.database_model.specs.Cursors.{batch_reply, is_refused, new_cursor, is_cursor, cursor_at, advanced};
ghost use Rattle.database_model.specs.GetMore.{batch_len_of};
ghost use Rattle.database_model.specs.KillCursors.{has_cursor};
ghost use Rattle.replies.specs.FirstBatch.{IsFirstBatch, IsNoBatch};
ghost use Rattle.replies.specs.View.{batch_name, projected, IsSendable};
ghost use Rattle.cursors.specs.Held.{cursors_of, held_at, table_of};
ghost use Rattle.cursors.specs.Changes.{advanced_kept, all_at_rest, gone_on, onwards, opened, pinned_by, rested, without};
ghost use Rattle.cursors.specs.Ending.{first_ended, given_back, left};
ghost use Rattle.cursors.specs.View.{list_of, order_of, rest_in, walk_in, walk_of};

use crate::ending::Ends;
use crate::kept::KeptDocuments;
use crate::list::PinnedList;
use crate::open_cursor::OpenCursor;
use crate::order::PinnedOrder;
use crate::source::Source;
use crate::walk::PinnedWalk;
use bson::NoMemory;
use bson_bytes::SpelledDocument;
use pager::Version;
use path::Refusal;
use projection::Projection;
use replies::{BatchKind, ConnId, Gives, batch_reply};
use std::alloc::Global;
use std::marker::Model;

/// The most cursors of one connection.
const MOST_CURSORS: usize = 16;

/// The number of the last cursor that may be opened.
const LAST_NUMBER: u64 = 9_223_372_036_854_775_807;

/// How many of these a connection has.
fn count_in(cursors: &[OpenCursor], connection: ConnId) -> usize
    ensures { result
        ≡ length (filter (λ h. h.cursor.connection == connection) cursors.now) }
{
    cursors
        .iter()
        .filter(|cursor| cursor.is_of(connection))
        .count()
}

/// Where a connection's cursor of this id and namespace stands among these.
fn place_in(cursors: &[OpenCursor], connection: ConnId, namespace: &str, id: &i64) -> Option<usize>
    ensures { result
        ≡ position (λ h. is_cursor connection namespace.now id.now h.cursor) cursors.now }
{
    cursors
        .iter()
        .position(|cursor| cursor.has_id(connection, namespace, id))
}

/// Whether a connection's cursor of this id and namespace is among these.
fn is_in(cursors: &[OpenCursor], connection: ConnId, namespace: &str, id: &i64) -> bool
    ensures { result
        ≡ list_any (λ h. is_cursor connection namespace.now id.now h.cursor) cursors.now }
{
    cursors
        .iter()
        .any(|cursor| cursor.has_id(connection, namespace, id))
}

/// The turn is over for all of these.
fn rest_all(cursors: &mut [OpenCursor])
    ensures { cursors.new ≡ map rested cursors.old }
{
    'cursors: for cursor in cursors.iter_mut() {
        cursor.rest();
    }
}

/// The open cursors in the order in which they were opened, and the number of the next one.
pub struct Cursors {
    list: Vec<OpenCursor>,
    next: u64,
}

// (written out, so that no crate above proves again that what cursors hold is let go)
impl Drop for Cursors {
    fn drop(self) {
        let Cursors { list: _, next: _ } = self;
    }
}

impl Model for Cursors {
    ghost use Rattle.cursors.specs.Held as held;
    ghost use Rattle.cursors.specs.HeldCode.{held_code};

    ghost Value = { held.Held };

    ghost coded = { held_code };

    ghost view = { λ a. record { list = a.list.items; next = a.next } };
}

impl Cursors {
    pub fn new(alloc: Global) -> Cursors
        ensures { result ≡ record { list = []; next = 1 } }
    {
        Cursors {
            list: Vec::new(alloc),
            next: 1,
        }
    }

    /// How many cursors a connection has.
    fn count_of(&self, connection: ConnId) -> usize
        ensures { result ≡ count_of connection (cursors_of self.now) }
    {
        count_in(&self.list, connection)
    }

    /// The number of the next cursor; `None` where the connection may open none.
    pub fn next_number(&self, connection: ConnId) -> Option<u64>
        ensures some { IfSome result (λ number. number ≡ self.now.next) }
        ensures below { IfSome result (λ number. number < 2 ^ 63) }
        ensures free { IfSome result
            (λ _. is_refused connection (cursors_of self.now) self.now.next ≡ false) }
        ensures none { IfNone result
            (is_refused connection (cursors_of self.now) self.now.next ≡ true) }
    {
        if MOST_CURSORS <= self.count_of(connection) || LAST_NUMBER < self.next {
            return None;
        }
        Some(self.next)
    }

    /// Opens a cursor. An `Err` leaves all as it was.
    fn open(&mut self, connection: ConnId, namespace: &str, source: Source) -> Result<(), NoMemory>
        requires number { self.old.next < 2 ^ 63 }
        requires within { All IsWithin (rest_in source) }
        ensures ok { OnOk result (self.new
            ≡ opened self.old connection namespace.now (rest_in source) (walk_in source)) }
        ensures table { OnOk result (table_of self.new ≡ record {
          list = cursors_of self.old
              ++ new_cursor self.old.next connection namespace.now (rest_in source) ∷ [];
          next = self.old.next + 1;
        }) }
        ensures err { OnErr result (self.new ≡ self.old) }
    {
        let alloc = *self.list.allocator();
        let number = self.next;
        let cursor = OpenCursor::new(alloc, number, connection, namespace, source)?;
        self.list.push(cursor)?;
        self.next = number + 1;
        Ok(())
    }

    /// Opens a cursor that keeps documents, of which a projection is given. An `Err` leaves all as it was.
    pub fn open_kept(
        &mut self,
        connection: ConnId,
        namespace: &str,
        documents: Vec<SpelledDocument>,
        projection: Projection,
    ) -> Result<(), NoMemory>
        requires number { self.old.next < 2 ^ 63 }
        requires within { All IsWithin (map (project projection) documents.items) }
        ensures ok { OnOk result (self.new ≡ opened self.old connection namespace.now
            (map (project projection) documents.items) None) }
        ensures table { OnOk result (table_of self.new ≡ record {
          list = cursors_of self.old
              ++ new_cursor self.old.next connection namespace.now
              (map (project projection) documents.items) ∷ [];
          next = self.old.next + 1;
        }) }
        ensures err { OnErr result (self.new ≡ self.old) }
    {
        let kept = KeptDocuments::new(documents, projection);
        self.open(connection, namespace, Source::Kept(kept))
    }

    /// Opens a cursor that goes on by a walk through a pinned version. An `Err` leaves all as it was.
    pub fn open_pinned(
        &mut self,
        connection: ConnId,
        namespace: &str,
        walk: PinnedWalk,
    ) -> Result<(), NoMemory>
        requires number { self.old.next < 2 ^ 63 }
        requires within { All IsWithin walk.rest.value }
        ensures ok { OnOk result (self.new ≡ opened self.old connection namespace.now
            walk.rest.value (Some (walk_of walk))) }
        ensures table { OnOk result (table_of self.new ≡ record {
          list = cursors_of self.old
              ++ new_cursor self.old.next connection namespace.now walk.rest.value ∷ [];
          next = self.old.next + 1;
        }) }
        ensures err { OnErr result (self.new ≡ self.old) }
    {
        self.open(connection, namespace, Source::Pinned(walk))
    }

    /// Opens a cursor that goes on by a list of documents of a pinned version. An `Err` leaves all as it was.
    pub fn open_listed(
        &mut self,
        connection: ConnId,
        namespace: &str,
        list: PinnedList,
    ) -> Result<(), NoMemory>
        requires number { self.old.next < 2 ^ 63 }
        requires within { All IsWithin list.rest.value }
        ensures ok { OnOk result (self.new ≡ opened self.old connection namespace.now
            list.rest.value (Some (list_of list))) }
        ensures table { OnOk result (table_of self.new ≡ record {
          list = cursors_of self.old
              ++ new_cursor self.old.next connection namespace.now list.rest.value ∷ [];
          next = self.old.next + 1;
        }) }
        ensures err { OnErr result (self.new ≡ self.old) }
    {
        self.open(connection, namespace, Source::Listed(list))
    }

    /// Opens a cursor that goes on in the order of an index of a pinned version. An `Err` leaves all as it was.
    pub fn open_ordered(
        &mut self,
        connection: ConnId,
        namespace: &str,
        order: PinnedOrder,
    ) -> Result<(), NoMemory>
        requires number { self.old.next < 2 ^ 63 }
        requires within { All IsWithin order.rest.value }
        ensures ok { OnOk result (self.new ≡ opened self.old connection namespace.now
            order.rest.value (Some (order_of order))) }
        ensures table { OnOk result (table_of self.new ≡ record {
          list = cursors_of self.old
              ++ new_cursor self.old.next connection namespace.now order.rest.value ∷ [];
          next = self.old.next + 1;
        }) }
        ensures err { OnErr result (self.new ≡ self.old) }
    {
        self.open(connection, namespace, Source::Ordered(order))
    }

    /// The reply with a first batch of documents of which a projection is given, and how many they are.
    /// `TooMany` where others are left and the connection may open no cursor.
    pub fn first_batch<T: Gives>(
        &self,
        connection: ConnId,
        namespace: &str,
        projection: &Projection,
        documents: &[T],
        most: usize,
    ) -> Result<(SpelledDocument, usize), Refusal>
        requires within { All IsWithin (projected projection.now (map T.document documents.now)) }
        requires short { length namespace.now ≤ 255 }
        ensures batch { IfOk result (λ r. IsFirstBatch (table_of self.now) connection namespace.now
            (projected projection.now (map T.document documents.now)) most r.1 r.0) }
        ensures sendable { IfOk result (λ r. IsSendable r.0) }
        ensures refuses { IfErr result (IsNoBatch (table_of self.now) connection
            (projected projection.now (map T.document documents.now)) most) }
    {
        let alloc = *self.list.allocator();
        let number = self.next_number(connection);
        let (reply, count) = batch_reply(
            alloc,
            BatchKind::First,
            namespace,
            number.unwrap_or(0),
            projection,
            documents,
            most,
        )?;
        if documents.len() <= count {
            return Ok((reply, count));
        }
        if number.is_none() {
            return Err(Refusal::TooMany);
        }
        Ok((reply, count))
    }

    /// Where a connection's cursor of this id and namespace stands.
    pub fn place_of(&self, connection: ConnId, namespace: &str, id: &i64) -> Option<usize>
        ensures { result
            ≡ position (is_cursor connection namespace.now id.now) (cursors_of self.now) }
    {
        place_in(&self.list, connection, namespace, id)
    }

    /// Whether a connection has a cursor of this id and namespace.
    pub fn has(&self, connection: ConnId, namespace: &str, id: &i64) -> bool
        ensures { result ≡ has_cursor connection namespace.now (cursors_of self.now) id.now }
    {
        is_in(&self.list, connection, namespace, id)
    }

    /// The number of the cursor at a place.
    pub fn number_at(&self, at: usize) -> u64
        requires { at < length self.now.list }
        ensures number { result ≡ (held_at self.now at).cursor.number }
        ensures below { result < 2 ^ 63 }
    {
        let cursor = &self.list[at];
        cursor.number()
    }

    /// Whether the cursor at a place keeps its documents.
    pub fn keeps_at(&self, at: usize) -> bool
        requires { at < length self.now.list }
        ensures { result ≡ not (is_some (held_at self.now at).walk) }
    {
        let cursor = &self.list[at];
        cursor.keeps()
    }

    /// What the cursor at a place goes on by.
    pub fn source_at(&self, at: usize) -> &Source
        requires { at < length self.now.list }
        ensures rest { rest_in result.now ≡ (held_at self.now at).cursor.rest }
        ensures walk { walk_in result.now ≡ (held_at self.now at).walk }
        ensures within { All IsWithin (held_at self.now at).cursor.rest }
    {
        let cursor = &self.list[at];
        cursor.source()
    }

    /// The reply with the next batch of the cursor at a place, which keeps its documents, and how many go
    /// into it.
    #[tactic(auto, using(crate::specs::TableLaws::cursor_in_table))]
    pub fn batch(
        &self,
        at: usize,
        namespace: &str,
        most: Option<usize>,
    ) -> Result<(SpelledDocument, usize), NoMemory>
        requires there { at < length self.now.list }
        requires kept { (held_at self.now at).walk ≡ None }
        requires short { length namespace.now ≤ 255 }
        ensures count { IfOk result
            (λ r. r.1 ≡ batch_len_of (cursor_at (cursors_of self.now) at) most) }
        ensures reply { IfOk result (λ r. r.0 ≡ ok_reply (batch_reply (batch_name BatchKind.Next)
            r.1 (cursor_at (cursors_of self.now) at).rest
            (cursor_at (cursors_of self.now) at).number namespace.now)) }
        ensures sendable { IfOk result (λ r. IsSendable r.0) }
    {
        let alloc = *self.list.allocator();
        let cursor = &self.list[at];
        cursor.batch(alloc, namespace, most)
    }

    /// The cursor at a place, which keeps its documents, gave so many and has others left.
    #[tactic(auto, using(crate::specs::TableLaws::gone_on_in_table))]
    fn give(&mut self, at: usize, count: usize)
        requires there { at < length self.old.list }
        requires kept { (held_at self.old at).walk ≡ None }
        requires more { count < length (held_at self.old at).cursor.rest }
        ensures walks { self.new ≡ gone_on self.old at count None }
        ensures table { table_of self.new ≡ record (table_of self.old) {
          list = advanced (cursors_of self.old) at count;
        } }
    {
        let cursor = &mut self.list[at];
        cursor.give(count);
    }

    /// The cursor at a place, which keeps its documents, gave so many. With its last one it ends.
    pub fn advance(&mut self, at: usize, count: usize)
        requires there { at < length self.old.list }
        requires kept { (held_at self.old at).walk ≡ None }
        ensures walks { self.new ≡ advanced_kept self.old at count }
        ensures table { table_of self.new ≡ record (table_of self.old) {
          list = advanced (cursors_of self.old) at count;
        } }
    {
        if count < self.list[at].left() {
            self.give(at, count);
            return;
        }
        let _pinned = self.end_at(at);
    }

    /// The cursor at a place, which reads a pinned version, gave so many documents and has others left: it
    /// goes on from a key text.
    pub fn go_on(&mut self, at: usize, count: usize, from: Vec<u8>)
        requires there { at < length self.old.list }
        requires pinned { (held_at self.old at).walk ≢ None }
        ensures { self.new ≡ gone_on self.old at count
            (option_map (onwards count from.items) (held_at self.old at).walk) }
    {
        let cursor = &mut self.list[at];
        cursor.go_on(count, from);
    }

    /// Ends the cursor at a place, and gives the version that it had pinned.
    pub fn end_at(&mut self, at: usize) -> Option<Version>
        requires { at < length self.old.list }
        ensures pinned { result ≡ pinned_by (held_at self.old at) }
        ensures left { self.new ≡ without self.old at }
        ensures table { table_of self.new ≡ record (table_of self.old) {
          list = remove (cursors_of self.old) at;
        } }
    {
        let cursor = self.list.remove(at);
        cursor.pinned()
    }

    /// Where the first of the cursors stands that are to end.
    fn first_ended(&self, ends: &Ends<'_>) -> Option<usize>
        ensures { result ≡ first_ended ends.now self.now }
    {
        self.list.iter().position(|cursor| cursor.is_ended(ends))
    }

    /// Ends the first of the cursors that are to end, and gives the version that it had pinned. `None`: there
    /// is none.
    pub fn end_first(&mut self, ends: &Ends<'_>) -> Option<Option<Version>>
        ensures pinned { result ≡ given_back self.old (first_ended ends.now self.old) }
        ensures left { self.new ≡ left self.old (first_ended ends.now self.old) }
    {
        match self.first_ended(ends) {
            Some(at) => Some(self.end_at(at)),
            None => None,
        }
    }

    /// Ends a turn that is done.
    pub fn commit(&mut self)
        ensures walks { self.new ≡ all_at_rest self.old }
        ensures table { table_of self.new ≡ record (table_of self.old) {
          list = map at_rest (cursors_of self.old);
        } }
    {
        rest_all(&mut self.list);
    }
}
