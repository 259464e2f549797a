//! The message at the front of bytes.

ghost use Rattle.std.specs.Prelude.{◌≡◌, ◌≤◌, ℕ, List, length, take, drop, option_map, IfOk, IfSome};
ghost use Rattle.op_msg.specs.Frame.{frame_of, front, is_no_length, number_at};
ghost use Rattle.op_msg.specs.View.{Finds, frame_in};
ghost use Rattle.op_msg.specs.Whole.{AreWhole, EndsAt, IsBegun};

use crate::fault::FrameFault;
use crate::sections::{read_body, read_number};
use bson::MESSAGE_LIMIT;

/// The flag of a message with a checksum behind its sections.
const CHECKSUM: u32 = 1;

/// The flag of a message that wants no reply.
const MORE_TO_COME: u32 = 2;

/// A message before its body is read.
#[derive(Drop)]
pub(crate) struct Message<'a> {
    pub number: u32,
    pub more_to_come: bool,
    pub body: &'a [u8],
    /// All sections, the body among them.
    pub sections: &'a [u8],
}

/// The message at the front of bytes, and how many bytes it has.
#[derive(Drop)]
pub(crate) struct Front<'a> {
    pub message: Message<'a>,
    pub len: usize,
}

/// A whole message.
#[tactic(auto, unfolding(crate::specs::Frame::frame_of))]
fn read_frame(bytes: &[u8]) -> Result<Message<'_>, FrameFault>
    requires { 26 ≤ length bytes.now }
    ensures { Finds frame_in result (frame_of bytes.now) }
{
    if read_number(bytes, 12) != 2013 {
        return Err(FrameFault::Opcode);
    }
    let flags = read_number(bytes, 16) % 0x1_0000;
    if CHECKSUM + MORE_TO_COME < flags {
        return Err(FrameFault::Flags);
    }
    if flags % MORE_TO_COME == CHECKSUM {
        return Err(FrameFault::Checksum);
    }
    let (_, sections) = bytes.split_at(20);
    let body = read_body(sections)?;
    Ok(Message {
        number: read_number(bytes, 4),
        more_to_come: flags == MORE_TO_COME,
        body,
        sections,
    })
}

/// Whether no message has this length.
fn is_no_length(len: usize) -> bool
    ensures { result ≡ is_no_length len }
{
    len < 26 || MESSAGE_LIMIT < len
}

/// How many of so many bytes, which begin with the length of a message, are that message, if it is whole; all of them
/// where it is the length of none.
pub(crate) fn message_end(len: usize, count: usize) -> Option<usize>
    ensures { (bytes : List ℕ) → 4 ≤ length bytes → number_at 0 bytes ≡ len
        → length bytes ≡ count → EndsAt result bytes }
{
    if is_no_length(len) {
        return Some(count);
    }
    if count < len { None } else { Some(len) }
}

/// How many bytes the message at the front has, if it is whole; all of them where its length is that of none.
fn front_end(bytes: &[u8]) -> Option<usize>
    ensures { EndsAt result bytes.now }
{
    if bytes.len() < 4 {
        return None;
    }
    message_end(read_number(bytes, 0) as usize, bytes.len())
}

/// How many of these bytes are whole messages, or all where a fault stands behind some of them.
pub(crate) fn whole_len(bytes: &[u8]) -> usize
    ensures within { result ≤ length bytes.now }
    ensures whole { AreWhole (take result bytes.now) }
    ensures rest { IsBegun (drop result bytes.now) }
{
    let mut len = 0;
    'messages: while let Some(end) = front_end(&bytes[len..]) {
        len += end;
    }
    len
}

/// The message at the front, or nothing where it is not whole yet.
#[tactic(auto, unfolding(crate::specs::Frame::front))]
pub(crate) fn read_front(bytes: &[u8]) -> Result<Option<Front<'_>>, FrameFault>
    ensures front { Finds (option_map (λ x. (frame_in x.message, drop x.len bytes.now))) result
        (front bytes.now) }
    ensures within { IfOk result (λ x. IfSome x (λ f. f.len ≤ length bytes.now)) }
{
    if bytes.len() < 4 {
        return Ok(None);
    }
    let len = read_number(bytes, 0) as usize;
    if is_no_length(len) {
        return Err(FrameFault::Length);
    }
    if bytes.len() < len {
        return Ok(None);
    }
    let (whole, _) = bytes.split_at(len);
    let message = read_frame(whole)?;
    Ok(Some(Front { message, len }))
}
