//! A document's bytes written piece by piece, for who need not build the document (BSON 1.1, bsonspec.org).

ghost use Rattle.std.specs.Prelude.{◌≡◌, ◌+◌, ◌<◌, ◌≤◌, ◌++◌, ◌∷◌, [], length, take, drop, IfOk, OnOk, IsErrOf};
ghost use Rattle.bson.specs.Kinds.{kind_byte};
ghost use Rattle.bson.specs.Limits.{message_limit};
ghost use Rattle.bson.specs.Spelling.{frame_of};

use crate::fault::{EncodeFault, NoMemory};
use crate::kind::Kind;
use crate::writing::{fill_length, put_name};

/// Begins a document or an array behind what stands in `out`, and says where. Its elements follow, then `end_frame`.
pub fn begin_frame(out: &mut Vec<u8>) -> Result<usize, NoMemory>
    ensures start { IfOk result (λ start. start ≡ length out.old.items) }
    ensures bytes { OnOk result (out.new.items ≡ out.old.items ++ 0 ∷ 0 ∷ 0 ∷ 0 ∷ []) }
{
    let start = out.len();
    out.extend_from_slice(&[0; 4])?;
    Ok(start)
}

/// Ends the document or array that begins at a place: what stands behind its four first bytes are its elements.
/// `TooLarge` where it has more bytes than a message may hold.
pub fn end_frame(out: &mut Vec<u8>, start: usize) -> Result<(), EncodeFault>
    requires { start + 4 ≤ length out.old.items }
    ensures ok { OnOk result (out.new.items
        ≡ take start out.old.items ++ frame_of (drop (start + 4) out.old.items)) }
    ensures large { IsErrOf result EncodeFault.TooLarge
        → message_limit < length (frame_of (drop (start + 4) out.old.items)) }
{
    out.push(0)?;
    fill_length(out, start)
}

/// Puts the type and the name of an element behind what stands in `out`. The bytes of its value follow.
pub fn put_head(out: &mut Vec<u8>, kind: Kind, name: &str) -> Result<(), NoMemory>
    ensures { OnOk result
        (out.new.items ≡ out.old.items ++ (kind_byte kind ∷ (name.now ++ 0 ∷ []))) }
{
    put_name(out, kind.type_byte(), name)
}
