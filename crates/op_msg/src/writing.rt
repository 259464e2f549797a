//! Replies.

ghost use Rattle.std.specs.Prelude.{◌≡◌, ◌≤◌, ◌+◌, length, IfOk};
ghost use Rattle.bson.specs.Spelling.{frame_of, pairs_bytes};
ghost use Rattle.bson.specs.declared.TheConstants.{MESSAGE_LIMIT};
ghost use Rattle.op_msg.specs.Request.{head_bytes, frame_bytes, reply_bytes, respelled};

use bson::{Document, EncodeFault, NoMemory, encode_onto};
use std::alloc::{AllocError, Global};

/// The bytes of a frame beside its body: the header, the flags, and the kind of the section.
pub const FRAME_BYTES: u32 = 21;

/// The frame of a reply (MongoDB wire protocol, OP_MSG): its own number, that of the request, and one body. An `Err`
/// comes only where memory ran out.
pub fn reply(
    alloc: Global,
    reply_no: u32,
    request_id: u32,
    document: &Document,
) -> Result<Vec<u8>, NoMemory>
    requires { length (frame_of (pairs_bytes document.now)) + FRAME_BYTES ≤ MESSAGE_LIMIT }
    ensures { IfOk result (λ v. v.items ≡ reply_bytes reply_no request_id document.now) }
{
    let mut frame = begun_frame(alloc, reply_no, request_id, document.encoded_len())?;
    match encode_onto(&mut frame, document) {
        Ok(()) => Ok(frame),
        Err(EncodeFault::Memory) => Err(AllocError),
        Err(EncodeFault::TooLarge) => unreachable!(),
    }
}

/// The frame of a reply whose body is spelled already.
pub fn spelled_reply(
    alloc: Global,
    reply_no: u32,
    request_id: u32,
    body: &[u8],
) -> Result<Vec<u8>, NoMemory>
    requires { length body.now + FRAME_BYTES ≤ MESSAGE_LIMIT }
    ensures { IfOk result (λ v. v.items ≡ frame_bytes reply_no request_id body.now) }
{
    let mut frame = begun_frame(alloc, reply_no, request_id, body.len())?;
    frame.extend_from_slice(body)?;
    Ok(frame)
}

/// Puts another body into a frame, one that is no longer than its own. It takes no memory.
pub fn respell(frame: &mut Vec<u8>, body: &[u8])
    requires room { length body.now + FRAME_BYTES ≤ length frame.old.items }
    requires limit { length body.now + FRAME_BYTES ≤ MESSAGE_LIMIT }
    ensures { frame.new.items ≡ respelled frame.old.items body.now }
{
    frame.truncate(body.len() + FRAME_BYTES as usize);
    put_body(frame, body);
}

/// Puts a body into the frame that has just the room.
#[tactic(auto, using(crate::proofs::Respelling::written))]
fn put_body(frame: &mut [u8], body: &[u8])
    requires room { length body.now + FRAME_BYTES ≡ length frame.old }
    requires limit { length body.now + FRAME_BYTES ≤ MESSAGE_LIMIT }
    ensures body { frame.new ≡ respelled frame.old body.now }
    ensures same { length frame.new ≡ length frame.old }
{
    let len = body.len() as u32 + FRAME_BYTES;
    frame[..4].copy_from_slice(&len.to_le_bytes());
    frame[21..].copy_from_slice(body);
}

/// A frame up to its body, with room for a body of this length.
fn begun_frame(
    alloc: Global,
    reply_no: u32,
    request_id: u32,
    body_len: usize,
) -> Result<Vec<u8>, NoMemory>
    requires { body_len + FRAME_BYTES ≤ MESSAGE_LIMIT }
    ensures { IfOk result (λ v. v.items ≡ head_bytes reply_no request_id body_len) }
{
    let len = body_len as u32 + FRAME_BYTES;
    let head = [
        len.to_le_bytes(),
        reply_no.to_le_bytes(),
        request_id.to_le_bytes(),
        2013u32.to_le_bytes(),
        0u32.to_le_bytes(),
    ];
    let mut frame = Vec::with_capacity(alloc, len as usize)?;
    frame.extend_from_slice(head.as_flattened())?;
    frame.push(0)?;
    Ok(frame)
}
