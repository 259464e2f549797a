//! A batch that is spelled document by document: as many as go into one.

ghost use Rattle.std.specs.Prelude.{◌≡◌, ◌++◌, ◌<◌, ◌≤◌, ◌^◌, IfOk, List, OnOk, if◌then◌else◌, length};
ghost use Rattle.std.specs.Fmt.{decimal};
ghost use Rattle.bson.specs.Lawful.{IsDocument};
ghost use Rattle.bson.specs.Spelling.{element, frame_of, pairs_bytes};
ghost use Rattle.bson.specs.Tree.{Pairs};
ghost use Rattle.projection.specs.Projection.{project};
ghost use Rattle.database_model.specs.Cursors.{cursor_reply};
ghost use Rattle.database_model.specs.Lawful.{IsWithin};
ghost use Rattle.database_model.specs.Refusals.{ok_reply};
ghost use Rattle.replies.specs.OpenBatch.{HasGiven, IsBegun, IsOffered, IsOpen};
ghost use Rattle.replies.specs.View.{batch_name, IsSendable};

use crate::BATCH_LIMIT;
use crate::batch_spelling::{BatchKind, end, put, put_number, put_text};
use crate::giving::Gives;
use bson::{Kind, NoMemory, Value, begin_frame, put_head};
use bson_bytes::{SpelledDocument, laws};
use itoa::Buffer;
use projection::Projection;
use std::alloc::Global;

/// The bytes that a reply begins with room for: a batch of a few short documents takes no more.
const FIRST_ROOM: usize = 1_024;

/// Puts a document as the item of an array at this index.
fn put_item<T: Gives>(
    out: &mut Vec<u8>,
    index: usize,
    projection: &Projection,
    document: &T,
) -> Result<(), NoMemory>
    requires { IsWithin (project projection.now (T.document document.now)) }
    ensures bytes { OnOk result (out.new.items ≡ out.old.items ++ element 3 (decimal index)
        (frame_of (pairs_bytes (project projection.now (T.document document.now))))) }
    ensures readable { OnOk result (IsDocument (project projection.now (T.document document.now))) }
{
    let mut buffer = Buffer::new();
    put_head(out, Kind::Document, buffer.format(index))?;
    document.put_onto(out, projection)
}

/// A reply with a batch, as far as it is spelled: documents are put into it one by one, as many as fit within so many
/// documents and `BATCH_LIMIT` bytes of the array, but at least one where any may go.
#[derive(Drop)]
pub struct OpenBatch {
    /// The reply up to the last document.
    out: Vec<u8>,
    kind: BatchKind,
    /// Where the document of the cursor begins, and the array in it.
    cursor_start: usize,
    array_start: usize,
    /// How many documents it has.
    count: usize,
    most: usize,
    /// So many bytes more may go into the array.
    room: usize,
}

impl OpenBatch {
    /// A batch of at most so many documents, which has none yet.
    pub fn begin(alloc: Global, kind: BatchKind, most: usize) -> Result<OpenBatch, NoMemory>
        ensures { IfOk result (IsBegun kind most) }
    {
        let mut out = Vec::with_capacity(alloc, FIRST_ROOM)?;
        let _start = begin_frame(&mut out)?;
        put_head(&mut out, Kind::Document, "cursor")?;
        let cursor_start = begin_frame(&mut out)?;
        put_head(&mut out, Kind::Array, kind.name())?;
        let array_start = begin_frame(&mut out)?;
        // The array's length and its closing zero take five bytes.
        let room = BATCH_LIMIT - 5;
        Ok(OpenBatch {
            out,
            kind,
            cursor_start,
            array_start,
            count: 0,
            most,
            room,
        })
    }

    /// How many documents it has.
    pub fn count(&self) -> usize
        ensures { result ≡ self.now.count }
    {
        self.count
    }

    /// Puts what a projection leaves of a document into the batch, if it goes into it, and says whether it did.
    pub fn offer<T: Gives>(
        &mut self,
        projection: &Projection,
        document: &T,
    ) -> Result<bool, NoMemory>
        requires { IsWithin (project projection.now (T.document document.now)) }
        ensures { IfOk result (λ is_taken. IsOffered self.old
            (project projection.now (T.document document.now)) is_taken self.new) }
    {
        if self.most <= self.count {
            return Ok(false);
        }
        let start = self.out.len();
        put_item(&mut self.out, self.count, projection, document)?;
        let size = self.out.len() - start;
        if 0 < self.count && self.room < size {
            self.out.truncate(start);
            return Ok(false);
        }
        self.room = self.room.saturating_sub(size);
        self.count += 1;
        Ok(true)
    }

    /// Ends the reply. Where others are left it says the cursor's number.
    pub fn end(
        self,
        is_done: bool,
        number: u64,
        namespace: &str,
    ) -> Result<SpelledDocument, NoMemory>
        requires has_some { IsOpen self }
        requires short { length namespace.now ≤ 255 }
        requires number { number < 2 ^ 63 }
        ensures reply { IfOk result (λ d. (ds : List Pairs) → HasGiven self ds
            → d ≡ ok_reply (cursor_reply (batch_name self.kind) ds
            (if is_done then 0 else number) namespace.now)) }
        ensures sendable { IfOk result (λ d. IsSendable d) }
    {
        let mut out = self.out;
        end(&mut out, self.array_start)?;
        put_number(&mut out, is_done, number)?;
        put_text(&mut out, "ns", namespace)?;
        end(&mut out, self.cursor_start)?;
        put(&mut out, "ok", &Value::Int32(1))?;
        end(&mut out, 0)?;
        laws::spelled_once();
        Ok(SpelledDocument::new(out))
    }
}
