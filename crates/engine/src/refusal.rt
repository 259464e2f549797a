//! What bytes that are no document are refused with.

ghost use Rattle.std.specs.Prelude.{◌≡◌, ◌≢◌};

use bson_bytes::BsonFault;
use path::Refusal;

/// What bytes that are no document are refused with.
pub fn body_refusal(fault: BsonFault) -> Refusal
    ensures memory { fault ≡ BsonFault.Memory → result ≡ Refusal.OutOfMemory }
    ensures other { fault ≢ BsonFault.Memory → result ≡ Refusal.InvalidBSON }
{
    match fault {
        BsonFault::Memory => Refusal::OutOfMemory,
        _ => Refusal::InvalidBSON,
    }
}
