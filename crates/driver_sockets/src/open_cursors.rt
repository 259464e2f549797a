//! The cursors that drivers have open: which connection owns each, and which socket opened it.

ghost use Rattle.std.specs.Prelude.{◌≡◌, IfOk, IfSome, true, option_map};
ghost use Rattle.drivers.specs.Answering.{kill_command};
ghost use Rattle.driver_sockets.specs.Cursors.{owner_in, counted, counts_from, counts_of, is_to_end, first_to_end};
ghost use Rattle.driver_sockets.specs.Lending.{is_at_rest};

use crate::lending::{COUNT, Lending};
use bson::{Array, BuildFault, Document, NoMemory, Text, Value};
use replies::ConnId;
use std::alloc::Global;

/// An open cursor: its number, the connection that owns it, the socket that opened it (none once that has ended), and its
/// collection.
#[derive(Drop)]
pub struct OpenCursor {
    pub id: i64,
    pub owner: ConnId,
    pub opener: Option<usize>,
    pub database: Text,
    pub collection: Text,
}

/// The open cursors.
pub struct OpenCursors {
    /// In the order in which they were opened.
    pub list: Vec<OpenCursor>,
}

// (written out, so that no crate above proves again that the parts are let go)
impl Drop for OpenCursors {
    fn drop(self) {
        let OpenCursors { list: _ } = self;
    }
}

impl OpenCursors {
    /// None is open.
    pub fn new(alloc: Global) -> OpenCursors {
        OpenCursors {
            list: Vec::new(alloc),
        }
    }

    /// The connection that owns a cursor.
    pub(crate) fn owner_of(&self, id: i64) -> Option<ConnId>
        ensures { result ≡ owner_in id self.now.list.items }
    {
        owner_in(&self.list, id)
    }

    /// How many cursors each connection owns.
    pub(crate) fn counts(&self) -> [usize; COUNT]
        ensures { result ≡ counts_of self.now.list.items }
    {
        let mut counts = [0usize; COUNT];
        count_all(&mut counts, &self.list);
        counts
    }

    /// A cursor was opened.
    pub(crate) fn open(&mut self, cursor: OpenCursor) -> Result<(), NoMemory> {
        self.list.push(cursor)?;
        Ok(())
    }

    /// A cursor has ended.
    pub(crate) fn end(&mut self, id: i64) {
        self.list.retain(|cursor| cursor.id != id);
    }

    /// All cursors of a connection have ended.
    pub fn end_all(&mut self, owner: ConnId) {
        self.list
            .retain(|cursor| cursor.owner.number() != owner.number());
    }

    /// A socket has ended: its cursors are to end.
    pub fn abandon(&mut self, socket: usize) {
        for cursor in self.list.iter_mut() {
            if cursor.opener == Some(socket) {
                cursor.opener = None;
            }
        }
    }

    /// The first cursor of a socket that has ended, owned by a connection that is at rest.
    pub fn abandoned(&self, lending: &Lending) -> Option<&OpenCursor>
        ensures first { option_map (λ c. c.now) result
            ≡ first_to_end lending.now.loans self.now.list.items }
        ensures rest { IfSome result (λ c. is_at_rest lending.now.loans c.now.owner ≡ true) }
    {
        first_to_end(&self.list, lending)
    }
}

/// The connection that owns the cursor of a number, among these.
fn owner_in(list: &[OpenCursor], id: i64) -> Option<ConnId>
    ensures { result ≡ owner_in id list.now }
{
    'cursors: for (number, cursor) in list.iter().enumerate() {
        let _ = number;
        if cursor.id == id {
            return Some(cursor.owner);
        }
    }
    None
}

/// Whether a cursor is to end now: its socket has ended, and its owner is at rest.
fn is_to_end(cursor: &OpenCursor, lending: &Lending) -> bool
    ensures { result ≡ is_to_end lending.now.loans cursor.now }
{
    cursor.opener.is_none() && lending.is_at_rest(cursor.owner)
}

/// The first cursor that is to end now, among these.
fn first_to_end<'a>(list: &'a [OpenCursor], lending: &Lending) -> Option<&'a OpenCursor>
    ensures first { option_map (λ c. c.now) result ≡ first_to_end lending.now.loans list.now }
    ensures rest { IfSome result (λ c. is_at_rest lending.now.loans c.now.owner ≡ true) }
{
    'cursors: for (number, cursor) in list.iter().enumerate() {
        let _ = number;
        if is_to_end(cursor, lending) {
            return Some(cursor);
        }
    }
    None
}

/// A connection has one cursor more.
fn count_one(counts: &mut [usize; COUNT], owner: ConnId)
    ensures { counts.new ≡ counted counts.old owner }
{
    let number = usize::from(owner.number());
    counts[number] = counts[number].saturating_add(1);
}

/// Connections have these cursors more.
fn count_all(counts: &mut [usize; COUNT], list: &[OpenCursor])
    ensures { counts.new ≡ counts_from counts.old list.now }
{
    'cursors: for (number, cursor) in list.iter().enumerate() {
        let _ = number;
        count_one(counts, cursor.owner);
    }
}

/// The command that ends a cursor. An `Err`: memory ran out.
pub fn end_command(alloc: Global, cursor: &OpenCursor) -> Result<Document, BuildFault>
    ensures { IfOk result
        (λ d. d ≡ kill_command cursor.now.database cursor.now.collection cursor.now.id) }
{
    let mut ids = Array::new(alloc);
    ids.push(Value::Int64(cursor.id))?;
    let mut command = Document::new(alloc);
    command.push("killCursors", Value::String(cursor.collection.copy()?))?;
    command.push("cursors", Value::Array(ids))?;
    command.push("$db", Value::String(cursor.database.copy()?))?;
    Ok(command)
}
