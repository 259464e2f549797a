//! Key texts: bytes that order as the keys do, in either direction, and none of which begins another.

ghost use Rattle.std.specs.Prelude.{◌≡◌, ◌≤◌, ◌<◌, ◌++◌, ◌==◌, length, [], ◌∷◌, IfOk, IsErrOf, position};
ghost use Rattle.std.specs.Int.{w32, w64, to_be_bytes};
ghost use Rattle.bson.specs.View.{tree, pairs_of, items_of};
ghost use Rattle.value_order.specs.KeyText.{escaped_text, sortable_bits, content_text, pairs_text, items_text, tree_text, key_text, complement, directed_text};
ghost use Rattle.value_order.specs.Order.{class};
ghost use Rattle.value_order.specs.View.{key_of};
ghost use Rattle.value_order.specs.Limits.{key_limit};
ghost use Rattle.value_order.specs.Writing.{IsPut};

use crate::KEY_LIMIT;
use crate::classes::class;
use bson::{Binary, NoMemory, Pair, Value};
use std::alloc::{AllocError, Global};

/// Whether keys rise or fall in the order of their texts.
#[derive(Clone, Copy, Debug, PartialEq, Eq)]
pub enum Direction {
    Ascending,
    Descending,
}

/// What a sort or an index has for a document: a value, or that an empty array or nothing stands there. Nothing
/// counts as null.
#[derive(Clone, Copy)]
pub enum KeyPart<'a> {
    Nothing,
    EmptyArray,
    Value(&'a Value),
}

/// Why there is no key text.
#[derive(Clone, Copy, Debug, PartialEq, Eq)]
pub enum KeyFault {
    /// The text has more than 500 bytes.
    TooLong = 1,
    /// Memory ran out.
    Memory,
}

impl KeyFault {
    ghost use Rattle.value_order.specs.Faults.{key_fault_name};

    /// The fault's word.
    pub fn name(self) -> &'static str
        ensures { result.now ≡ key_fault_name self }
    {
        match self {
            KeyFault::TooLong => "TooLong",
            KeyFault::Memory => "Memory",
        }
    }
}

impl From<AllocError> for KeyFault {
    ghost use Rattle.value_order.specs.declared.texts.KeyFault.TheVariants.{Memory};

    ghost from_gives = { λ _ e. e ≡ Memory };

    fn from(_error: AllocError) -> KeyFault {
        KeyFault::Memory
    }
}

/// A limit that no bytes pass.
const NO_LIMIT: usize = usize::MAX;

/// Puts bytes behind others, unless more than the limit would stand there.
fn put(out: &mut Vec<u8>, limit: usize, bytes: &[u8]) -> Result<(), KeyFault>
    requires { length out.old.items ≤ limit }
    ensures { IsPut limit bytes.now out.old.items out.new.items result }
{
    if limit - out.len() < bytes.len() {
        return Err(KeyFault::TooLong);
    }
    out.extend_from_slice(bytes)?;
    Ok(())
}

/// Puts bytes and then others.
fn put_both(out: &mut Vec<u8>, limit: usize, bytes: &[u8], others: &[u8]) -> Result<(), KeyFault>
    requires { length out.old.items ≤ limit }
    ensures { IsPut limit (bytes.now ++ others.now) out.old.items out.new.items result }
{
    put(out, limit, bytes)?;
    put(out, limit, others)
}

/// Where the first zero byte is.
fn first_zero(bytes: &[u8]) -> Option<usize>
    ensures { result ≡ position (λ b. b == 0) bytes.now }
{
    bytes.iter().position(|byte| *byte == 0)
}

/// A string with its zero bytes marked and its end. What stands between zero bytes is put at once.
fn put_escaped(out: &mut Vec<u8>, limit: usize, bytes: &[u8]) -> Result<(), KeyFault>
    requires { length out.old.items ≤ limit }
    ensures { IsPut limit (escaped_text bytes.now) out.old.items out.new.items result }
{
    let mut rest = bytes;
    'runs: while let Some(end) = first_zero(rest) {
        let (run, _) = rest.split_at(end);
        put_both(out, limit, run, &[0x00, 0xff])?;
        let (_, behind) = rest.split_at(end + 1);
        rest = behind;
    }
    put_both(out, limit, rest, &[0x00, 0x00])
}

/// A signed number of 64 bits with its top bit turned.
fn sortable_bits(number: i64) -> u64
    ensures { result ≡ sortable_bits number }
{
    if number < 0 {
        (number - i64::MIN) as u64
    } else {
        number as u64 + (1 << 63)
    }
}

/// A binary: its length in four bytes, its subtype, its bytes.
fn put_binary(out: &mut Vec<u8>, limit: usize, binary: &Binary) -> Result<(), KeyFault>
    requires { length out.old.items ≤ limit }
    ensures { IsPut limit
        (to_be_bytes w32 (length binary.now.bytes) ++ binary.now.subtype ∷ binary.now.bytes)
        out.old.items out.new.items result }
{
    let bytes = binary.bytes.as_slice();
    let [_, _, _, _, a, b, c, d] = (bytes.len() as u64).to_be_bytes();
    put(out, limit, &[a, b, c, d, binary.subtype.byte()])?;
    put(out, limit, bytes)
}

/// What stands behind the class of a value.
#[cycle(writing)]
fn put_content(out: &mut Vec<u8>, limit: usize, value: &Value) -> Result<(), KeyFault>
    requires { length out.old.items ≤ limit }
    ensures { IsPut limit (content_text (tree value.now)) out.old.items out.new.items result }
{
    match value {
        Value::Int32(number) => put(out, limit, &sortable_bits(i64::from(*number)).to_be_bytes()),
        Value::Int64(number) | Value::Date(number) => put(
            out,
            limit,
            &sortable_bits(*number).to_be_bytes(),
        ),
        Value::Timestamp(number) => put(out, limit, &number.to_be_bytes()),
        Value::Bool(truth) => put(out, limit, &[u8::from(*truth)]),
        Value::String(text) => put_escaped(out, limit, text.as_str().as_bytes()),
        Value::ObjectId(id) => put(out, limit, id.bytes()),
        Value::Binary(binary) => put_binary(out, limit, binary),
        Value::Document(document) => put_pairs(out, limit, document.pairs()),
        Value::Array(array) => put_items(out, limit, array.items()),
        Value::Null | Value::MinKey | Value::MaxKey => Ok(()),
    }
}

/// A value's class and what stands behind it.
#[cycle(writing)]
fn put_value(out: &mut Vec<u8>, limit: usize, value: &Value) -> Result<(), KeyFault>
    requires { length out.old.items ≤ limit }
    ensures { IsPut limit (tree_text (tree value.now)) out.old.items out.new.items result }
{
    put(out, limit, &[class(value)])?;
    put_content(out, limit, value)
}

/// The class of a pair's value, its name and what ends it.
fn put_head(out: &mut Vec<u8>, limit: usize, pair: &Pair) -> Result<(), KeyFault>
    requires { length out.old.items ≤ limit }
    ensures { IsPut limit (class (tree pair.now.value) ∷ (pair.now.name ++ 0 ∷ []))
        out.old.items out.new.items result }
{
    put(out, limit, &[class(&pair.value)])?;
    put(out, limit, pair.name.as_str().as_bytes())?;
    put(out, limit, &[0x00])
}

#[cycle(writing)]
fn put_pairs(out: &mut Vec<u8>, limit: usize, pairs: &[Pair]) -> Result<(), KeyFault>
    requires { length out.old.items ≤ limit }
    ensures { IsPut limit (pairs_text (pairs_of pairs.now)) out.old.items out.new.items result }
{
    'pairs: for pair in pairs {
        put_head(out, limit, pair)?;
        put_value(out, limit, &pair.value)?;
    }
    put(out, limit, &[0x00])
}

#[cycle(writing)]
fn put_items(out: &mut Vec<u8>, limit: usize, items: &[Value]) -> Result<(), KeyFault>
    requires { length out.old.items ≤ limit }
    ensures { IsPut limit (items_text (items_of items.now)) out.old.items out.new.items result }
{
    'items: for item in items {
        put_value(out, limit, item)?;
    }
    put(out, limit, &[0x00])
}

fn put_key(out: &mut Vec<u8>, limit: usize, key: &KeyPart<'_>) -> Result<(), KeyFault>
    requires { length out.old.items ≤ limit }
    ensures { IsPut limit (key_text (key_of key.now)) out.old.items out.new.items result }
{
    match key {
        KeyPart::Nothing => put(out, limit, &[0x20]),
        KeyPart::EmptyArray => put(out, limit, &[0x18]),
        KeyPart::Value(value) => put_value(out, limit, value),
    }
}

/// The text of a key in a direction, which has at most 500 bytes.
pub fn key_text(alloc: Global, key: &KeyPart<'_>, direction: Direction) -> Result<Vec<u8>, KeyFault>
    ensures text { IfOk result (λ v. v.items ≡ directed_text direction (key_of key.now)) }
    ensures short { IfOk result (λ v. length v.items ≤ key_limit) }
    ensures long { IsErrOf result KeyFault.TooLong
        → key_limit < length (directed_text direction (key_of key.now)) }
{
    let mut text = Vec::with_capacity(alloc, SHORT_TEXT)?;
    put_key(&mut text, KEY_LIMIT, key)?;
    if direction == Direction::Descending {
        invert(&mut text);
    }
    Ok(text)
}

/// Complements every byte.
fn invert(text: &mut [u8])
    ensures { text.new ≡ complement text.old }
{
    'bytes: for byte in text.iter_mut() {
        *byte = 0xff - *byte;
    }
}

/// Room for the text of a number, a date or a short string.
const SHORT_TEXT: usize = 24;

/// The ascending text of a value, however long it is: equal for values that the order calls equal.
pub fn group_text(alloc: Global, value: &Value) -> Result<Vec<u8>, NoMemory>
    ensures { IfOk result (λ v. v.items ≡ tree_text (tree value.now)) }
{
    let mut text = Vec::with_capacity(alloc, SHORT_TEXT)?;
    match put_value(&mut text, NO_LIMIT, value) {
        Ok(()) => Ok(text),
        Err(KeyFault::Memory) => Err(AllocError),
        Err(KeyFault::TooLong) => unreachable!(),
    }
}
