//! Frames of answers.

ghost use Rattle.std.specs.Prelude.{◌≡◌, ◌≤◌, ◌+◌, length, option_map, IfOk};
ghost use Rattle.bson.specs.Limits.{message_limit};
ghost use Rattle.bson.specs.Spelling.{frame_of, pairs_bytes};
ghost use Rattle.drivers.specs.Framing.{begun_head, query_head, query_reply, frame, framed, IsShort};

use crate::step::Step;
use bson::{Document, EncodeFault, NoMemory, encode_onto};
use driver_messages::Form;
use op_msg::reply;
use std::alloc::{AllocError, Global};

/// The bytes of an OP_REPLY beside its document.
const REPLY_BYTES: u32 = 36;
/// The flag of an OP_REPLY by which a server says that it may wait for documents.
const AWAIT_CAPABLE: u32 = 8;
/// The flag of an OP_REPLY to a query that failed.
const QUERY_FAILURE: u32 = 2;

/// What an OP_REPLY says of its documents: of no cursor, from the first one on, one.
const ONE_DOCUMENT: [u8; 16] = [0, 0, 0, 0, 0, 0, 0, 0, 0, 0, 0, 0, 1, 0, 0, 0];

/// A frame of so many bytes, up to its opcode.
fn begun_frame(alloc: Global, len: u32, reply_no: u32, request_id: u32) -> Result<Vec<u8>, NoMemory>
    ensures { IfOk result (λ v. v.items ≡ begun_head len reply_no request_id) }
{
    let mut frame = Vec::with_capacity(alloc, len as usize)?;
    frame.extend_from_slice(&len.to_le_bytes())?;
    frame.extend_from_slice(&reply_no.to_le_bytes())?;
    frame.extend_from_slice(&request_id.to_le_bytes())?;
    Ok(frame)
}

/// An OP_REPLY up to its document, with room for one of this length.
fn begun_reply(
    alloc: Global,
    flags: u32,
    reply_no: u32,
    request_id: u32,
    body_len: usize,
) -> Result<Vec<u8>, NoMemory>
    requires { body_len + 36 ≤ message_limit }
    ensures { IfOk result (λ v. v.items ≡ query_head flags reply_no request_id body_len) }
{
    let len = body_len as u32 + REPLY_BYTES;
    let mut frame = begun_frame(alloc, len, reply_no, request_id)?;
    frame.extend_from_slice(&1u32.to_le_bytes())?;
    frame.extend_from_slice(&flags.to_le_bytes())?;
    frame.extend_from_slice(&ONE_DOCUMENT)?;
    Ok(frame)
}

/// An OP_REPLY with these flags.
#[tactic(auto, unfolding(crate::specs::Framing::query_reply))]
fn query_reply(
    alloc: Global,
    flags: u32,
    reply_no: u32,
    request_id: u32,
    document: &Document,
) -> Result<Vec<u8>, NoMemory>
    requires { length (frame_of (pairs_bytes document.now)) + 36 ≤ message_limit }
    ensures { IfOk result (λ v. v.items ≡ query_reply flags reply_no request_id document.now) }
{
    let mut frame = begun_reply(alloc, flags, reply_no, request_id, document.encoded_len())?;
    match encode_onto(&mut frame, document) {
        Ok(()) => Ok(frame),
        Err(EncodeFault::Memory) => Err(AllocError),
        Err(EncodeFault::TooLarge) => unreachable!(),
    }
}

/// The frame of a reply to a message of this form.
fn frame(
    alloc: Global,
    form: Form,
    reply_no: u32,
    request_id: u32,
    document: &Document,
) -> Result<Vec<u8>, NoMemory>
    requires { length (frame_of (pairs_bytes document.now)) + 36 ≤ message_limit }
    ensures { IfOk result (λ v. v.items ≡ frame form reply_no request_id document.now) }
{
    match form {
        Form::Message => reply(alloc, reply_no, request_id, document),
        Form::Command => query_reply(alloc, AWAIT_CAPABLE, reply_no, request_id, document),
        Form::Query => query_reply(alloc, AWAIT_CAPABLE, reply_no, request_id, document),
    }
}

/// The frame by which a message of this form and number is answered, if it is: a reply with a number of its own. It fails for want of
/// memory alone.
pub fn framed(
    alloc: Global,
    form: Form,
    reply_no: u32,
    request_id: u32,
    step: &Step,
) -> Result<Option<Vec<u8>>, NoMemory>
    requires { IsShort step.now }
    ensures { IfOk result
        (λ x. option_map (λ v. v.items) x ≡ framed form reply_no request_id step.now) }
{
    match step {
        Step::Ask(_) => Ok(None),
        Step::AskOwner(_, _) => Ok(None),
        Step::Reply(document) => Ok(Some(frame(alloc, form, reply_no, request_id, document)?)),
        Step::Fail(document) => {
            let frame = query_reply(alloc, QUERY_FAILURE, reply_no, request_id, document)?;
            Ok(Some(frame))
        }
        Step::Silent => Ok(None),
    }
}
