//! What a message is read as.

ghost use Rattle.std.specs.Prelude.{◌≡◌, [], ◌∷◌, OnOk, OnErr, IfOk};
ghost use Rattle.outcome.specs.Outcome.{Gives, Does};
ghost use Rattle.bson.specs.Tree.{Pairs};
ghost use Rattle.bson.specs.View.{pairs_of};
ghost use Rattle.bson.specs.Lawful.{NoZero, IsDocument};
ghost use Rattle.op_msg.specs.Frame.{front, part_at, each_in, sections_in, sequences_of};
ghost use Rattle.op_msg.specs.Request.{IsRequest, IsRead, document_in, body_of, array_of, with_sequence, with_sequences};
ghost use Rattle.op_msg.specs.View.{frame_in, sequence_of, section_of, with_document, HasName, joined, IsJoining};

use crate::fault::FrameFault;
use crate::first_message::{Message, read_front};
use crate::sections::{Section, Sequence, SequenceNames, read_part, read_section};
use bson::{Array, BuildFault, Document, Names, Pair, Text, Value};
use bson_bytes::{BsonFault, NamedParts, decode, decode_inner};
use std::alloc::Global;

/// What a message says of itself before its body is read: its number, and whether it wants no reply.
#[derive(Clone, Copy, Debug, PartialEq, Eq)]
pub struct Head {
    pub request_id: u32,
    pub more_to_come: bool,
}

/// A message that was taken: its number, whether it wants no reply, and its body, which has an array for each section of
/// kind 1 behind the fields of the section of kind 0. The body is an `Err` where bytes are no document (of the body's own
/// bytes first, then of the sections in their order), where a field has the name of a section already (`Repeated`), where
/// the whole would nest more than 100 levels (`Deep`), or where memory ran out for it.
#[derive(Drop)]
pub struct Request {
    pub request_id: u32,
    pub more_to_come: bool,
    pub body: Result<Document, BsonFault>,
}

/// The document that the bytes of a body are.
fn read_document(alloc: Global, bytes: &[u8]) -> Result<Document, BsonFault>
    ensures { Gives BsonFault.Memory (λ d. d) result (document_in bytes.now) }
{
    match decode(alloc, bytes) {
        Ok((document, _)) => Ok(document),
        Err(fault) => Err(fault),
    }
}

/// Puts a document behind those of an array that is a field of a message's document.
fn push_document(alloc: Global, array: &mut Array, bytes: &[u8]) -> Result<(), BsonFault>
    ensures { Does BsonFault.Memory result array.new (with_document array.old bytes.now) }
{
    let (document, _) = decode_inner(alloc, 2, bytes)?;
    match array.push(document) {
        Ok(()) => Ok(()),
        Err(BuildFault::Memory) => Err(BsonFault::Memory),
        Err(BuildFault::Name) => unreachable!(),
        Err(BuildFault::Repeated) => unreachable!(),
        Err(BuildFault::Deep) => unreachable!(),
    }
}

/// The array of documents that stand one behind the other.
fn read_array(alloc: Global, bytes: &[u8]) -> Result<Array, BsonFault>
    ensures { Gives BsonFault.Memory (λ a. a) result (array_of (each_in part_at bytes.now).0) }
{
    let mut array = Array::new(alloc);
    let mut rest = bytes;
    'documents: while let Ok((part, after)) = read_part(rest) {
        push_document(alloc, &mut array, part)?;
        rest = after;
    }
    Ok(array)
}

/// Puts the array of a section of kind 1 behind the fields that sections added, where no field has its name.
fn add_sequence<'a>(
    alloc: Global,
    names: &mut Names<'a>,
    added: &mut Vec<Pair>,
    sequence: Sequence<'a>,
) -> Result<(), BsonFault>
    requires { NoZero sequence.name.now }
    ensures does { (ps : Pairs) → IsJoining ps names.old added.old.items
        → Does BsonFault.Memory result (joined ps added.new.items)
        (with_sequence (joined ps added.old.items) (sequence_of sequence.entry)) }
    ensures joining { OnOk result ((ps : Pairs) → IsJoining ps names.old added.old.items
        → IsJoining ps names.new added.new.items) }
{
    let Ok(is_new) = names.insert(sequence.name) else {
        return Err(BsonFault::Memory);
    };
    if !is_new {
        return Err(BsonFault::Repeated);
    }
    let array = match read_array(alloc, sequence.documents) {
        Ok(array) => array,
        Err(fault) => return Err(fault),
    };
    let _levels = array.levels();
    let Ok(name) = Text::from_str(alloc, sequence.name) else {
        return Err(BsonFault::Memory);
    };
    let _text = name.as_str();
    added.push(Pair {
        name,
        value: Value::Array(array),
    })?;
    Ok(())
}

/// Puts what a section has behind the fields that sections added: nothing of a body.
fn add_section<'a>(
    alloc: Global,
    names: &mut Names<'a>,
    added: &mut Vec<Pair>,
    section: Section<'a>,
) -> Result<(), BsonFault>
    requires { HasName (section_of section) }
    ensures does { (ps : Pairs) → IsJoining ps names.old added.old.items
        → Does BsonFault.Memory result (joined ps added.new.items) (with_sequences
        (joined ps added.old.items) (sequences_of (section_of section.entry ∷ []))) }
    ensures joining { OnOk result ((ps : Pairs) → IsJoining ps names.old added.old.items
        → IsJoining ps names.new added.new.items) }
{
    match section {
        Section::Body(_) => Ok(()),
        Section::Sequence(sequence) => add_sequence(alloc, names, added, sequence),
    }
}

/// The fields that sections add to those of a body: an array for each section of kind 1.
fn read_added(alloc: Global, fields: &[Pair], sections: &[u8]) -> Result<Vec<Pair>, BsonFault>
    requires { IsDocument (pairs_of fields.now) }
    ensures gives { Gives BsonFault.Memory (λ v. joined (pairs_of fields.now) v.items) result
        (with_sequences (pairs_of fields.now) (sequences_of (sections_in sections.now).0)) }
    ensures lawful { IfOk result (λ v. IsDocument (joined (pairs_of fields.now) v.items)) }
{
    let Ok(mut names) = Names::of_pairs(alloc, fields) else {
        return Err(BsonFault::Memory);
    };
    let mut added = Vec::new(alloc);
    let mut rest = sections;
    'sections: while let Ok((section, after)) = read_section(rest) {
        add_section(alloc, &mut names, &mut added, section)?;
        rest = after;
    }
    Ok(added)
}

/// The document of these fields and of those behind them.
fn join_fields(mut fields: Vec<Pair>, mut added: Vec<Pair>) -> Result<Document, BsonFault>
    requires { IsDocument (joined (pairs_of fields.items) added.items) }
    ensures joined { IfOk result (λ d. d ≡ joined (pairs_of fields.items) added.items) }
    ensures memory { OnErr result (result ≡ Err BsonFault.Memory) }
{
    match fields.append(&mut added) {
        Ok(()) => Ok(Document::from_pairs(fields)),
        Err(_) => Err(BsonFault::Memory),
    }
}

/// The document of a message: the one of its body, with an array for each section of kind 1.
fn read_joined(alloc: Global, message: &Message<'_>) -> Result<Document, BsonFault>
    ensures { Gives BsonFault.Memory (λ d. d) result (body_of (frame_in message.now)) }
{
    let document = read_document(alloc, message.body)?;
    if SequenceNames::split_name(message.sections).is_none() {
        return Ok(document);
    }
    let fields = document.into_pairs();
    let added = read_added(alloc, &fields, message.sections)?;
    join_fields(fields, added)
}

/// The message, with its document read.
pub(crate) fn read_request(alloc: Global, message: &Message<'_>) -> Request
    ensures { IsRequest (frame_in message.now) result }
{
    Request {
        request_id: message.number,
        more_to_come: message.more_to_come,
        body: read_joined(alloc, message),
    }
}

/// The message at the front of bytes, if it is whole: the one that a stream of these would give first. Where memory ran out
/// for its body, that is `Err(BsonFault::Memory)`.
pub fn request_at_front(alloc: Global, bytes: &[u8]) -> Result<Option<Request>, FrameFault>
    ensures { IsRead (front bytes.now) result }
{
    match read_front(bytes)? {
        Some(front) => Ok(Some(read_request(alloc, &front.message))),
        None => Ok(None),
    }
}
