//! The values that the catalogue and documents have.

ghost use Rattle.std.specs.Prelude.{◌≡◌, ◌≤◌, [], IfOk, length};
ghost use Rattle.bson.specs.Spelling.{Spells, frame_of, pairs_bytes};
ghost use Rattle.entry_model.specs.StateEntries.{catalogue_value};

use bson::{Document, EncodeFault, NoMemory, encode};
use std::alloc::{AllocError, Global};

/// The bytes of a document that is no larger than a stored one.
pub(crate) fn document_bytes(alloc: Global, document: &Document) -> Result<Vec<u8>, NoMemory>
    requires { length (frame_of (pairs_bytes document.now)) ≤ 65535 }
    ensures { IfOk result (λ bytes. Spells bytes.items document.now) }
{
    match encode(alloc, document) {
        Ok(bytes) => Ok(bytes),
        Err(EncodeFault::Memory) => Err(AllocError),
        Err(EncodeFault::TooLarge) => unreachable!("it is within the limit"),
    }
}

/// What the catalogue says of a collection without indexes, `{n: NUMBER, x: []}`: 20 bytes, of which the number's alone differ.
pub(crate) fn plain_bytes(number: u32) -> [u8; 20]
    requires { number ≤ 1000 }
    ensures { result ≡ frame_of (pairs_bytes (catalogue_value number [])) }
{
    let n = number.to_le_bytes();
    [
        20, 0, 0, 0, 0x10, b'n', 0, n[0], n[1], n[2], n[3], 0x04, b'x', 0, 5, 0, 0, 0, 0, 0,
    ]
}
