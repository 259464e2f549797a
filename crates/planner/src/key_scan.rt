//! What stands in the entry of an index behind its key: the text of an `_id`.

ghost use Rattle.std.specs.Prelude.{◌≡◌, false, option_map};
ghost use Rattle.value_order.specs.declared.texts.Direction.TheVariants.{Ascending, Descending};
ghost use Rattle.planner.specs.KeyScan.{plain, behind, behind_name, behind_string, behind_binary, behind_scalar, behind_value, behind_pairs, behind_items, id_text};

use index::IndexSpec;
use memchr::memchr;
use value_order::Direction;

/// A byte of a text in a direction, as the ascending text has it.
fn plain(direction: Direction, byte: u8) -> u8
    ensures { result ≡ plain direction byte }
{
    match direction {
        Direction::Ascending => byte,
        Direction::Descending => 0xff - byte,
    }
}

/// What stands behind so many bytes.
fn behind(count: usize, text: &[u8]) -> Option<&[u8]>
    ensures { option_map (λ r. r.now) result ≡ behind count text.now }
{
    if text.len() < count {
        return None;
    }
    Some(&text[count..])
}

/// What stands behind a name and the zero that ends it.
fn behind_name(direction: Direction, text: &[u8]) -> Option<&[u8]>
    ensures { option_map (λ r. r.now) result ≡ behind_name direction text.now }
{
    let mut rest = text;
    'bytes: while let Some((byte, after)) = rest.split_first() {
        if plain(direction, *byte) == 0 {
            return Some(after);
        }
        rest = after;
    }
    None
}

/// What stands behind a string of an ascending text and the two zeros that end it. A zero and another byte are in it.
fn behind_ascending_string(text: &[u8]) -> Option<&[u8]>
    ensures { option_map (λ r. r.now) result ≡ behind_string Ascending false text.now }
{
    let mut rest = text;
    'zeros: while let Some(at) = memchr(0, rest) {
        let Some((_, behind)) = rest[at..].split_first() else {
            return None;
        };
        let Some((byte, after)) = behind.split_first() else {
            return None;
        };
        if *byte == 0 {
            return Some(after);
        }
        rest = after;
    }
    None
}

/// The same of a descending one, where each byte is taken from 255.
fn behind_descending_string(text: &[u8]) -> Option<&[u8]>
    ensures { option_map (λ r. r.now) result ≡ behind_string Descending false text.now }
{
    let mut rest = text;
    let mut after_zero = false;
    'bytes: while let Some((byte, after)) = rest.split_first() {
        let is_zero = plain(Direction::Descending, *byte) == 0;
        if is_zero && after_zero {
            return Some(after);
        }
        after_zero = is_zero;
        rest = after;
    }
    None
}

/// What stands behind a string and the two zeros that end it.
fn behind_string(direction: Direction, text: &[u8]) -> Option<&[u8]>
    ensures { option_map (λ r. r.now) result ≡ behind_string direction false text.now }
{
    match direction {
        Direction::Ascending => behind_ascending_string(text),
        Direction::Descending => behind_descending_string(text),
    }
}

/// What stands behind a binary's length, subtype and bytes.
fn behind_binary(direction: Direction, text: &[u8]) -> Option<&[u8]>
    ensures { option_map (λ r. r.now) result ≡ behind_binary direction text.now }
{
    let (front, rest) = text.split_first_chunk::<4>()?;
    let [a, b, c, d] = *front;
    let count = u32::from_be_bytes([
        plain(direction, a),
        plain(direction, b),
        plain(direction, c),
        plain(direction, d),
    ]);
    behind(count as usize + 1, rest)
}

/// What stands behind the class of a value that holds no other.
fn behind_scalar(direction: Direction, class: u8, text: &[u8]) -> Option<&[u8]>
    ensures { option_map (λ r. r.now) result ≡ behind_scalar direction class text.now }
{
    match class {
        0x30 => behind(8, text),
        0x40 => behind_string(direction, text),
        0x70 => behind_binary(direction, text),
        0x80 => behind(12, text),
        0x90 => behind(1, text),
        0xa0 => behind(8, text),
        0xb0 => behind(8, text),
        _ => Some(text),
    }
}

/// What stands behind the text of a value that takes so many steps at most.
#[cycle(scanning)]
fn behind_value(direction: Direction, steps: usize, text: &[u8]) -> Option<&[u8]>
    ensures { option_map (λ r. r.now) result ≡ behind_value direction steps text.now }
{
    if steps == 0 {
        return None;
    }
    let (byte, rest) = text.split_first()?;
    let class = plain(direction, *byte);
    if class == 0x50 {
        return behind_pairs(direction, steps - 1, rest);
    }
    if class == 0x60 {
        return behind_items(direction, steps - 1, rest);
    }
    behind_scalar(direction, class, rest)
}

/// What stands behind the pairs of a document and the zero that ends them.
#[cycle(scanning)]
fn behind_pairs(direction: Direction, steps: usize, text: &[u8]) -> Option<&[u8]>
    ensures { option_map (λ r. r.now) result ≡ behind_pairs direction steps text.now }
{
    if steps == 0 {
        return None;
    }
    let (byte, rest) = text.split_first()?;
    if plain(direction, *byte) == 0 {
        return Some(rest);
    }
    let named = behind_name(direction, rest)?;
    let after = behind_value(direction, steps - 1, named)?;
    behind_pairs(direction, steps - 1, after)
}

/// What stands behind the items of an array and the zero that ends them.
#[cycle(scanning)]
fn behind_items(direction: Direction, steps: usize, text: &[u8]) -> Option<&[u8]>
    ensures { option_map (λ r. r.now) result ≡ behind_items direction steps text.now }
{
    if steps == 0 {
        return None;
    }
    let (byte, rest) = text.split_first()?;
    if plain(direction, *byte) == 0 {
        return Some(rest);
    }
    let after = behind_value(direction, steps - 1, text)?;
    behind_items(direction, steps - 1, after)
}

/// The text of the `_id` in the text of an entry, which stands behind the key of the entry in the index.
pub fn id_text<'a>(index: &IndexSpec, text: &'a [u8]) -> Option<&'a [u8]>
    ensures { option_map (λ r. r.now) result ≡ id_text index.now.fields text.now }
{
    let mut rest = text;
    'fields: for field in index.fields() {
        rest = behind_value(field.direction(), text.len(), rest)?;
    }
    Some(rest)
}
