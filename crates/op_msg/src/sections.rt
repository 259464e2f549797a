//! The sections of a message.

ghost use Rattle.std.specs.Prelude.{◌≡◌, ◌<◌, ◌≤◌, ◌+◌, ◌^◌, ℕ, List, [], ◌∷◌, true, false, length, take};
ghost use Rattle.op_msg.specs.Frame.{number_at, part_at, name_at, each_in, is_more, sequence_in, section_at, sections_in, names_of, has_twice, body_of_all};
ghost use Rattle.op_msg.specs.Frame.{Section as Parts};
ghost use Rattle.bson.specs.Lookup.{stands_in};
ghost use Rattle.op_msg.specs.View.{Finds, sequence_of, section_of, body_with};

use crate::fault::FrameFault;
use bson_bytes::{NamedParts, count_distinct};

/// A section of kind 1: the name of an array, and its documents, one behind the other.
#[derive(Clone, Copy)]
pub(crate) struct Sequence<'a> {
    pub name: &'a str,
    pub documents: &'a [u8],
}

/// A section behind its kind.
#[derive(Clone, Copy)]
pub(crate) enum Section<'a> {
    /// The bytes of a body.
    Body(&'a [u8]),
    /// Documents beside the body.
    Sequence(Sequence<'a>),
}

/// The number in the four bytes at a place.
pub(crate) fn read_number(bytes: &[u8], place: usize) -> u32
    requires { place + 4 ≤ length bytes.now }
    ensures { result ≡ number_at place bytes.now }
{
    let (_, bytes) = bytes.split_at(place);
    u32::from_le_bytes([bytes[0], bytes[1], bytes[2], bytes[3]])
}

/// Bytes that begin with their own length, as a document does, and what follows them.
#[tactic(auto, unfolding(crate::specs::Frame::part_at))]
pub(crate) fn read_part(bytes: &[u8]) -> Result<(&[u8], &[u8]), FrameFault>
    ensures { Finds (λ x. (x.0.now, x.1.now)) result (part_at bytes.now) }
{
    if bytes.len() < 4 {
        return Err(FrameFault::Section);
    }
    let len = read_number(bytes, 0) as usize;
    if len < 5 {
        return Err(FrameFault::Section);
    }
    if bytes.len() < len {
        return Err(FrameFault::Section);
    }
    Ok(bytes.split_at(len))
}

/// A name, which the first zero ends, and what follows it.
fn read_name(bytes: &[u8]) -> Result<(&str, &[u8]), FrameFault>
    ensures { Finds (λ x. (x.0.now, x.1.now)) result (name_at bytes.now) }
{
    match bson_bytes::read_name(bytes) {
        Ok(found) => Ok(found),
        Err(_) => Err(FrameFault::Section),
    }
}

/// Whether bytes are left behind documents that stand one behind the other.
fn leaves_bytes(bytes: &[u8]) -> bool
    ensures { result ≡ is_more (each_in part_at bytes.now).1 }
{
    let mut rest = bytes;
    'documents: while let Ok((_, after)) = read_part(rest) {
        rest = after;
    }
    !rest.is_empty()
}

/// What a section of kind 1 holds behind its size.
fn read_sequence(bytes: &[u8]) -> Result<Sequence<'_>, FrameFault>
    ensures { Finds sequence_of result (sequence_in bytes.now) }
{
    let (name, documents) = read_name(bytes)?;
    if leaves_bytes(documents) {
        return Err(FrameFault::Section);
    }
    Ok(Sequence { name, documents })
}

/// The section at the front, and what follows it.
#[tactic(auto, unfolding(crate::specs::Frame::section_at))]
pub(crate) fn read_section(bytes: &[u8]) -> Result<(Section<'_>, &[u8]), FrameFault>
    ensures { Finds (λ x. (section_of x.0, x.1.now)) result (section_at bytes.now) }
{
    let Some((kind, after)) = bytes.split_first() else {
        return Err(FrameFault::Section);
    };
    if *kind == 0 {
        let (body, rest) = read_part(after)?;
        return Ok((Section::Body(body), rest));
    }
    if *kind == 1 {
        let (part, rest) = read_part(after)?;
        let (_, inside) = part.split_at(4);
        let sequence = read_sequence(inside)?;
        return Ok((Section::Sequence(sequence), rest));
    }
    Err(FrameFault::Section)
}

/// The names of sections of kind 1.
pub(crate) struct SequenceNames;

impl NamedParts for SequenceNames {
    ghost use Rattle.op_msg.specs.Frame.{sections_in, names_of};

    ghost names = { λ bytes. names_of (sections_in bytes).0 };

    fn split_name(bytes: &[u8]) -> Option<(&[u8], &[u8])> {
        let mut rest = bytes;
        'sections: while let Ok((section, after)) = read_section(rest) {
            match section {
                Section::Sequence(sequence) => return Some((sequence.name.as_bytes(), after)),
                Section::Body(_) => rest = after,
            }
        }
        None
    }
}

/// Whether one of the first so many sections of kind 1 has this name.
fn has_name(bytes: &[u8], most: usize, name: &[u8]) -> bool
    ensures { result ≡ stands_in (take most (names_of (sections_in bytes.now).0)) name.now }
{
    let mut left = most;
    let mut rest = bytes;
    'names: while let Some((other, after)) = SequenceNames::split_name(rest) {
        if left == 0 {
            return false;
        }
        if name == other {
            return true;
        }
        left -= 1;
        rest = after;
    }
    false
}

/// Whether a name is one of the first so many, which are looked at where it isn't known to be new.
fn is_repeated(is_new: bool, bytes: &[u8], earlier: usize, name: &[u8]) -> bool
    requires { is_new ≡ true
        → stands_in (take earlier (names_of (sections_in bytes.now).0)) name.now ≡ false }
    ensures { result ≡ stands_in (take earlier (names_of (sections_in bytes.now).0)) name.now }
{
    if is_new {
        return false;
    }
    has_name(bytes, earlier, name)
}

/// Whether a name stands twice among those of sections of kind 1, where there are so many. One that isn't known to be new
/// is looked for among the names before it: one of a few dozen, or the first that stands twice.
fn has_name_twice(sequences: usize, bytes: &[u8]) -> bool
    requires { sequences ≡ length (names_of (sections_in bytes.now).0) }
    ensures { result ≡ has_twice (names_of (sections_in bytes.now).0) }
{
    if sequences < 2 {
        return false;
    }
    let distinct = count_distinct::<SequenceNames>(bytes);
    let mut count = 0usize;
    let mut rest = bytes;
    'names: while let Some((name, after)) = SequenceNames::split_name(rest) {
        if is_repeated(count < distinct, bytes, count, name) {
            return true;
        }
        count += 1;
        rest = after;
    }
    false
}

/// What was found among the first sections.
#[derive(Clone, Copy)]
struct Found<'a> {
    /// The first body.
    body: Option<&'a [u8]>,
    has_more_bodies: bool,
    /// How many sections of kind 1 there are.
    sequences: usize,
}

impl<'a> Found<'a> {
    /// What is found with one section more.
    fn with_section(self, section: Section<'a>) -> Found<'a>
        requires { self.sequences + 1 < 2 ^ 64 }
        ensures body { (others : List Parts) → body_with result others
            ≡ body_with self.entry (section_of section.entry ∷ others) }
        ensures sequences { result.sequences
            ≡ self.entry.sequences + length (names_of (section_of section.entry ∷ [])) }
    {
        match section {
            Section::Body(body) => Found {
                body: Some(self.body.unwrap_or(body)),
                has_more_bodies: self.body.is_some(),
                sequences: self.sequences,
            },
            Section::Sequence(_) => Found {
                body: self.body,
                has_more_bodies: self.has_more_bodies,
                sequences: self.sequences + 1,
            },
        }
    }

    /// The one body.
    fn only_body(self) -> Result<&'a [u8], FrameFault>
        ensures { Finds (λ b. b.now) result (body_with self.entry []) }
    {
        let Some(body) = self.body else {
            return Err(FrameFault::NoBody);
        };
        if self.has_more_bodies {
            return Err(FrameFault::TwoBodies);
        }
        Ok(body)
    }
}

/// The one body in the sections.
pub(crate) fn read_body(bytes: &[u8]) -> Result<&[u8], FrameFault>
    ensures { Finds (λ b. b.now) result (body_of_all (sections_in bytes.now)) }
{
    let mut found = Found {
        body: None,
        has_more_bodies: false,
        sequences: 0,
    };
    let mut rest = bytes;
    'sections: while let Ok((section, after)) = read_section(rest) {
        found = found.with_section(section);
        rest = after;
    }
    if !rest.is_empty() {
        return Err(FrameFault::Section);
    }
    if has_name_twice(found.sequences, bytes) {
        return Err(FrameFault::Section);
    }
    found.only_body()
}
