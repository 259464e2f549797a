//! The reply with a batch, spelled at once: stored documents go out without being built again.

ghost use Rattle.std.specs.Prelude.{◌≡◌, ◌++◌, ◌+◌, ◌^◌, ◌<◌, ◌≤◌, All, IfOk, OnOk, length, map, take, drop, if◌then◌else◌, codes};
ghost use Rattle.bson.specs.View.{tree};
ghost use Rattle.bson.specs.Spelling.{type_byte, element, frame_of, tree_bytes};
ghost use Rattle.database_model.specs.Lawful.{IsWithin};
ghost use Rattle.database_model.specs.Refusals.{long, words, ok_reply};
ghost use Rattle.database_model.specs.Cursors.{batch_of, batch_reply};
ghost use Rattle.replies.specs.View.{projected, batch_name, IsSendable};

use crate::batch::put_batch;
use crate::giving::Gives;
use crate::open_batch::OpenBatch;
use bson::{EncodeFault, Kind, NoMemory, Value, end_frame, put_head, put_string, put_value};
use bson_bytes::SpelledDocument;
use projection::Projection;
use std::alloc::{AllocError, Global};

/// Which batch of a cursor a reply holds.
#[derive(Clone, Copy, Debug, Drop)]
pub enum BatchKind {
    First,
    Next,
}

impl BatchKind {
    /// The name of the batch in a reply.
    pub(crate) fn name(self) -> &'static str
        ensures { result.now ≡ batch_name self }
    {
        match self {
            BatchKind::First => "firstBatch",
            BatchKind::Next => "nextBatch",
        }
    }
}

/// Puts an element behind what stands in `out`.
pub(crate) fn put(out: &mut Vec<u8>, name: &str, value: &Value) -> Result<(), NoMemory>
    requires { length (tree_bytes (tree value.now)) ≤ 1048576 }
    ensures { OnOk result (out.new.items ≡ out.old.items
        ++ element (type_byte (tree value.now)) name.now (tree_bytes (tree value.now))) }
{
    put_head(out, value.kind(), name)?;
    match put_value(out, value) {
        Ok(()) => Ok(()),
        Err(EncodeFault::Memory) => Err(AllocError),
        Err(EncodeFault::TooLarge) => unreachable!("it is short"),
    }
}

/// Puts an element that is a text behind what stands in `out`.
#[tactic(auto, unfolding(bson::specs::Spelling::tree_bytes))]
pub(crate) fn put_text(out: &mut Vec<u8>, name: &str, text: &str) -> Result<(), NoMemory>
    requires { length text.now ≤ 255 }
    ensures { OnOk result (out.new.items
        ≡ out.old.items ++ element 2 name.now (tree_bytes (words text.now))) }
{
    put_head(out, Kind::String, name)?;
    match put_string(out, text) {
        Ok(()) => Ok(()),
        Err(EncodeFault::Memory) => Err(AllocError),
        Err(EncodeFault::TooLarge) => unreachable!("it is short"),
    }
}

/// Ends the document or array that begins at a place.
pub(crate) fn end(out: &mut Vec<u8>, start: usize) -> Result<(), NoMemory>
    requires room { start + 4 ≤ length out.old.items }
    requires short { length out.old.items < start + 1048576 }
    ensures { OnOk result (out.new.items
        ≡ take start out.old.items ++ frame_of (drop (start + 4) out.old.items)) }
{
    match end_frame(out, start) {
        Ok(()) => Ok(()),
        Err(EncodeFault::Memory) => Err(AllocError),
        Err(EncodeFault::TooLarge) => unreachable!("a reply is within its limit"),
    }
}

/// A cursor's number as a reply says it: 0 where it has no document left.
fn id_value(is_done: bool, number: u64) -> Value
    requires { number < 2 ^ 63 }
    ensures { tree result ≡ long (if is_done then 0 else number) }
{
    if is_done {
        Value::Int64(0)
    } else {
        Value::Int64(number as i64)
    }
}

/// Puts the cursor's number, or 0 where it has no document left, behind what stands in `out`.
pub(crate) fn put_number(out: &mut Vec<u8>, is_done: bool, number: u64) -> Result<(), NoMemory>
    requires { number < 2 ^ 63 }
    ensures { let id = long (if is_done then 0 else number) in OnOk result (out.new.items
        ≡ out.old.items ++ element (type_byte id) (codes "id") (tree_bytes id)) }
{
    put(out, "id", &id_value(is_done, number))
}

/// The reply with the first of these documents, each as a projection leaves it, and how many they are. Where others are
/// left it says the cursor's number.
pub fn batch_reply<T: Gives>(
    alloc: Global,
    kind: BatchKind,
    namespace: &str,
    number: u64,
    projection: &Projection,
    documents: &[T],
    most: usize,
) -> Result<(SpelledDocument, usize), NoMemory>
    requires within { All IsWithin (projected projection.now (map T.document documents.now)) }
    requires short { length namespace.now ≤ 255 }
    requires number { number < 2 ^ 63 }
    ensures count { IfOk result (λ r. r.1
        ≡ batch_of most (projected projection.now (map T.document documents.now))) }
    ensures reply { IfOk result (λ r. r.0 ≡ ok_reply (batch_reply (batch_name kind) r.1
        (projected projection.now (map T.document documents.now)) number namespace.now)) }
    ensures sendable { IfOk result (λ r. IsSendable r.0) }
{
    let mut batch = OpenBatch::begin(alloc, kind, most)?;
    let count = put_batch(&mut batch, projection, documents)?;
    let is_done = documents.len() <= count;
    let reply = batch.end(is_done, number, namespace)?;
    Ok((reply, count))
}

/// The reply that gives documents in one batch, as far as they go into it.
pub fn whole_reply<T: Gives>(
    alloc: Global,
    namespace: &str,
    documents: &[T],
) -> Result<SpelledDocument, NoMemory>
    requires within { All IsWithin (map T.document documents.now) }
    requires short { length namespace.now ≤ 255 }
    ensures reply { let ds = map T.document documents.now in
        IfOk result (λ d. d ≡ ok_reply (batch_reply (batch_name BatchKind.First)
        (batch_of (length ds) ds) ds 0 namespace.now)) }
    ensures sendable { IfOk result (λ d. IsSendable d) }
{
    let all = Projection::new(alloc);
    let (reply, _) = batch_reply(
        alloc,
        BatchKind::First,
        namespace,
        0,
        &all,
        documents,
        documents.len(),
    )?;
    Ok(reply)
}
