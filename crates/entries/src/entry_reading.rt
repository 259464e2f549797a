//! Collections and documents from the entries that they are kept as.

ghost use Rattle.std.specs.Prelude.{◌≡◌, ◌≤◌, ℕ, List, [], Some, false, IfOk, IfSome, IsUtf8, option_map, string_bytes};
ghost use Rattle.bson.specs.Spelling.{Spells, frame_of, pairs_bytes};
ghost use Rattle.bson.specs.Tree.{Pairs};
ghost use Rattle.value_order.specs.KeyText.{tree_text};
ghost use Rattle.entries.specs.Escaping.{unescaped};
ghost use Rattle.entry_model.specs.LawfulState.{IsStorable};
ghost use Rattle.entry_model.specs.State.{words};
ghost use Rattle.entry_model.specs.StateEntries.{key_under};

use crate::entry_keys::catalogue_key;
use bson::{Document, NoMemory};
use bson_bytes::{BsonFault, decode};
use std::alloc::{AllocError, Global};

/// The document that bytes spell, all of them.
pub(crate) fn spelled_document(alloc: Global, bytes: &[u8]) -> Result<Option<Document>, NoMemory>
    ensures reads { IfOk result (λ found. (d : Pairs) → Spells bytes.now d → found ≡ Some d) }
    ensures only { IfOk result (λ found. IfSome found (λ d. Spells bytes.now d)) }
{
    match decode(alloc, bytes) {
        Ok((document, len)) => {
            if len != bytes.len() {
                return Ok(None);
            }
            Ok(Some(document))
        }
        Err(fault) => match fault {
            BsonFault::Memory => Err(AllocError),
            _ => Ok(None),
        },
    }
}

/// The document of an entry's value.
pub fn document_in(alloc: Global, value: &[u8]) -> Result<Option<Document>, NoMemory>
    ensures reads { IfOk result (λ found. (d : Pairs) → IsStorable d
        → value.now ≡ frame_of (pairs_bytes d) → found ≡ Some d) }
    ensures only { IfOk result (λ found. IfSome found (λ d. Spells value.now d)) }
{
    spelled_document(alloc, value)
}

/// The string that was escaped so.
fn unescaped(alloc: Global, text: &[u8]) -> Result<Vec<u8>, NoMemory>
    ensures { IfOk result (λ name. name.items ≡ unescaped false text.now) }
{
    let mut name = Vec::with_capacity(alloc, text.len())?;
    let mut zero = false;
    'text: for byte in text {
        if zero {
            if *byte != 0xff {
                break;
            }
            name.push(0)?;
            zero = false;
        } else if *byte == 0 {
            zero = true;
        } else {
            name.push(*byte)?;
        }
    }
    Ok(name)
}

/// The bytes before a name in its key in the catalogue: two numbers, and the class of strings.
const NAME_START: usize = 9;

/// The namespace whose key in the catalogue this is.
pub fn namespace_in(alloc: Global, key: &[u8]) -> Result<Option<String>, NoMemory>
    ensures reads { IfOk result (λ found. (name : List ℕ) → IsUtf8 name
        → key.now ≡ key_under 0 0 (tree_text (words name))
        → option_map (λ s. string_bytes s) found ≡ Some name) }
    ensures only { IfOk result (λ found. IfSome found (λ s. key.now
        ≡ key_under 0 0 (tree_text (words (string_bytes s))))) }
{
    if key.len() < NAME_START {
        return Ok(None);
    }
    let (_, text) = key.split_at(NAME_START);
    let bytes = unescaped(alloc, text)?;
    let Ok(name) = String::from_utf8(bytes) else {
        return Ok(None);
    };
    let spelled = catalogue_key(alloc, name.as_str())?;
    if spelled.as_slice() != key {
        return Ok(None);
    }
    Ok(Some(name))
}
