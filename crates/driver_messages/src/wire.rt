//! Messages of the MongoDB wire protocol, read.

ghost use Rattle.std.specs.Prelude.{◌≡◌, ◌≤◌, ◌+◌, ℕ, List, length, drop, Result, Ok, IfOk, IfSome};
ghost use Rattle.outcome.specs.Outcome.{Gives, GivesExactly};
ghost use Rattle.bson.specs.Tree.{Pairs};
ghost use Rattle.bson_bytes.specs.Decoding.{document_at};
ghost use Rattle.bson_bytes.specs.Raw.{only_document};
ghost use Rattle.bson_bytes.specs.declared.fault.BsonFault.{BsonFault};
ghost use Rattle.op_msg.specs.Frame.{Frame, number_at};
ghost use Rattle.op_msg.specs.Request.{IsRequest};
ghost use Rattle.driver_messages.specs.Incoming.{is_no_opcode, whole_at, named_or_invalid, body_fault, body_or_fault, message_in, as_sent, has_foreign, read_message, form_of, document_sent, document_again, query_of, read_query, read_whole};
ghost use Rattle.driver_messages.specs.WireView.{found_in};

use crate::foreign::Foreign;
use crate::message::{BodyFault, Form, Message};
use crate::place::Place;
use crate::sections::foreign_in_sections;
use crate::seeking::foreign_in;
use crate::stream_fault::StreamFault;
use crate::with_integers::{command_with_integers, with_integers};
use bson::{Document, MESSAGE_LIMIT, NoMemory};
use bson_bytes::{BsonFault, decode, read_name};
use op_msg::{Request, request_at_front};
use std::alloc::Global;

/// The bytes of a message's document.
#[derive(Clone, Copy)]
enum Spelled<'a> {
    /// The sections of an OP_MSG.
    Sections(&'a [u8]),
    /// The document of an OP_QUERY.
    Document(&'a [u8]),
}

/// The number in the four bytes at a place.
fn read_number(bytes: &[u8], place: usize) -> u32
    requires { place + 4 ≤ length bytes.now }
    ensures { result ≡ number_at place bytes.now }
{
    let (_, bytes) = bytes.split_at(place);
    u32::from_le_bytes([bytes[0], bytes[1], bytes[2], bytes[3]])
}

/// How many bytes the message at the front has, or nothing where it isn't whole yet.
#[tactic(auto, unfolding(crate::specs::Incoming::whole_at))]
pub(crate) fn read_len(bytes: &[u8]) -> Result<Option<usize>, StreamFault>
    ensures gives { GivesExactly (λ x. x) result (whole_at bytes.now) }
    ensures within { IfOk result (λ x. IfSome x (λ n. (26 ≤ n) × (n ≤ length bytes.now))) }
{
    if bytes.len() < 16 {
        return Ok(None);
    }
    let len = read_number(bytes, 0) as usize;
    if len < 26 || MESSAGE_LIMIT < len {
        return Err(StreamFault::Length);
    }
    let opcode = read_number(bytes, 12);
    if opcode != 2004 && opcode != 2013 {
        return Err(StreamFault::Opcode);
    }
    if bytes.len() < len {
        return Ok(None);
    }
    Ok(Some(len))
}

/// The first value of a foreign type in these bytes.
fn found_in(alloc: Global, spelled: Spelled<'_>) -> Result<Option<Foreign>, NoMemory>
    ensures { IfOk result (λ x. x ≡ found_in spelled.entry) }
{
    match spelled {
        Spelled::Sections(bytes) => foreign_in_sections(alloc, bytes),
        Spelled::Document(bytes) => foreign_in(alloc, Place::new(alloc), bytes),
    }
}

/// Why these bytes are no document, of which this is the first fault.
fn body_fault(alloc: Global, fault: BsonFault, spelled: Spelled<'_>) -> Result<BodyFault, NoMemory>
    ensures { IfOk result (λ f. f ≡ body_fault fault (found_in spelled.entry)) }
{
    match fault {
        BsonFault::TypeByte => match found_in(alloc, spelled)? {
            Some(foreign) => Ok(BodyFault::Foreign(foreign)),
            None => Ok(BodyFault::Invalid),
        },
        _ => Ok(BodyFault::Invalid),
    }
}

/// A message's document, or why it has none.
fn body_or_fault(
    alloc: Global,
    body: Result<Document, BsonFault>,
    spelled: Spelled<'_>,
) -> Result<Result<Document, BodyFault>, StreamFault>
    ensures { (planned : Result Pairs BsonFault) → Gives BsonFault.Memory (λ d. d) body planned
        → Gives StreamFault.Memory (λ x. x) result
        (Ok (body_or_fault (found_in spelled.entry) planned)) }
{
    match body {
        Ok(document) => Ok(Ok(document)),
        Err(BsonFault::Memory) => Err(StreamFault::Memory),
        Err(fault) => Ok(Err(body_fault(alloc, fault, spelled)?)),
    }
}

/// The message that an OP_MSG was read as.
fn message_of(alloc: Global, whole: &[u8], request: Request) -> Result<Message, StreamFault>
    requires { 20 ≤ length whole.now }
    ensures { (frame : Frame) → IsRequest frame request
        → Gives StreamFault.Memory (λ m. m) result (Ok (message_in whole.now frame)) }
{
    let (_, sections) = whole.split_at(20);
    let body = body_or_fault(alloc, request.body, Spelled::Sections(sections))?;
    Ok(Message {
        number: request.request_id,
        form: Form::Message,
        more_to_come: request.more_to_come,
        body,
    })
}

/// A whole OP_MSG, as it stands.
fn read_as_sent(alloc: Global, whole: &[u8]) -> Result<Message, StreamFault>
    requires { 20 ≤ length whole.now }
    ensures { Gives StreamFault.Memory (λ m. m) result (as_sent whole.now) }
{
    match request_at_front(alloc, whole) {
        Ok(Some(request)) => message_of(alloc, whole, request),
        Ok(None) => Err(StreamFault::Length),
        Err(fault) => Err(StreamFault::Frame(fault)),
    }
}

/// Whether a value of a type that the database doesn't have stands in place of a document.
fn has_foreign(body: &Result<Document, BodyFault>) -> bool
    ensures { result ≡ has_foreign body.now }
{
    match body {
        Err(BodyFault::Foreign(_)) => true,
        _ => false,
    }
}

/// A whole OP_MSG. Where it has a value of a type that the database doesn't have it is read again, with whole
/// doubles that are numbers of the command itself as integers.
fn read_message(alloc: Global, whole: &[u8]) -> Result<Message, StreamFault>
    requires { 26 ≤ length whole.now }
    ensures { Gives StreamFault.Memory (λ m. m) result (read_message whole.now) }
{
    let message = read_as_sent(alloc, whole)?;
    if !has_foreign(&message.body) {
        return Ok(message);
    }
    let respelled = with_integers(alloc, whole)?;
    read_as_sent(alloc, &respelled)
}

/// The document of an OP_QUERY.
fn read_document(alloc: Global, bytes: &[u8]) -> Result<Document, BsonFault>
    ensures { Gives BsonFault.Memory (λ d. d) result (only_document (document_at bytes.now)) }
{
    match decode(alloc, bytes) {
        Ok((document, _)) => Ok(document),
        Err(fault) => Err(fault),
    }
}

/// The document of an OP_QUERY as it stands, or why it has none.
fn document_sent(alloc: Global, bytes: &[u8]) -> Result<Result<Document, BodyFault>, StreamFault>
    ensures { Gives StreamFault.Memory (λ x. x) result (Ok (document_sent bytes.now)) }
{
    let document = read_document(alloc, bytes);
    body_or_fault(alloc, document, Spelled::Document(bytes))
}

/// The document of an OP_QUERY, or why it has none. Where a value has a type that the database doesn't have it is
/// read again, with whole doubles that are numbers of the command itself as integers.
fn document_again(alloc: Global, bytes: &[u8]) -> Result<Result<Document, BodyFault>, StreamFault>
    ensures { Gives StreamFault.Memory (λ x. x) result
        (Ok (document_again bytes.now (document_sent bytes.now))) }
{
    let body = document_sent(alloc, bytes)?;
    if !has_foreign(&body) {
        return Ok(body);
    }
    let respelled = command_with_integers(alloc, bytes)?;
    document_sent(alloc, &respelled)
}

fn form_of(name: &str) -> Form
    ensures { result ≡ form_of name.now }
{
    if name == "admin.$cmd" {
        return Form::Command;
    }
    Form::Query
}

/// An OP_QUERY to a collection of this name.
fn query_of(alloc: Global, number: u32, name: &str, bytes: &[u8]) -> Result<Message, StreamFault>
    ensures { Gives StreamFault.Memory (λ m. m) result
        (Ok (query_of number name.now bytes.now)) }
{
    let body = document_again(alloc, bytes)?;
    Ok(Message {
        number,
        form: form_of(name),
        more_to_come: false,
        body,
    })
}

/// A whole OP_QUERY.
fn read_query(alloc: Global, whole: &[u8]) -> Result<Message, StreamFault>
    requires { 26 ≤ length whole.now }
    ensures { Gives StreamFault.Memory (λ m. m) result (read_query whole.now) }
{
    let (_, behind) = whole.split_at(20);
    let Ok((name, behind)) = read_name(behind) else {
        return Err(StreamFault::Query);
    };
    if behind.len() < 8 {
        return Err(StreamFault::Query);
    }
    let (_, bytes) = behind.split_at(8);
    query_of(alloc, read_number(whole, 4), name, bytes)
}

/// A whole message.
#[tactic(auto, unfolding(crate::specs::Incoming::read_whole))]
pub(crate) fn read_whole(alloc: Global, whole: &[u8]) -> Result<Message, StreamFault>
    requires { 26 ≤ length whole.now }
    ensures { Gives StreamFault.Memory (λ m. m) result (read_whole whole.now) }
{
    if read_number(whole, 12) == 2013 {
        return read_message(alloc, whole);
    }
    read_query(alloc, whole)
}
