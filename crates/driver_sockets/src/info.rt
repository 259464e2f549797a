//! What is to be known of the server for a message that a turn begins.

ghost use Rattle.std.specs.Prelude.{◌≡◌, ◌<◌, ◌/◌, ◌^◌, pos};
ghost use Rattle.driver_sockets.specs.Info.{below_or_zero, ids_of, info_of, after_ids};

use bson::MESSAGE_LIMIT;
use drivers::{FreshIds, ServerInfo};

/// The most bytes of a document.
const MOST_DOCUMENT_BYTES: i32 = 65_535;
/// How many object ids a message may need: one for each of its statements, which have 5 bytes at least of its 1,048,576.
const MOST_IDS: u64 = 262_144;

/// Seconds by milliseconds; 0 where they are too many for 32 bits.
fn seconds_of(time: u64) -> u32
    ensures { result ≡ below_or_zero (2 ^ 32) (time / 1000) }
{
    let seconds = time / 1000;
    if seconds < 4_294_967_296 {
        seconds as u32
    } else {
        0
    }
}

/// The number of a socket, as a handshake tells it; 0 where it is too great.
fn connection_of(number: usize) -> i32
    ensures { result ≡ pos (below_or_zero (2 ^ 31) number) }
{
    if number < 2_147_483_648 {
        number as i32
    } else {
        0
    }
}

/// The object ids of a message. Those of the next one begin behind them.
fn fresh_ids(next_id: &mut u64, time: u64) -> FreshIds
    ensures ids { result ≡ ids_of time next_id.old }
    ensures behind { next_id.new ≡ after_ids next_id.old }
{
    let number = *next_id;
    *next_id = number.wrapping_add(MOST_IDS);
    FreshIds {
        seconds: seconds_of(time),
        number,
    }
}

/// What is to be known of the server for a message of a socket, by the milliseconds since 1970, with object ids of its own.
pub fn next_info(next_id: &mut u64, number: usize, time: u64) -> ServerInfo
    requires { time < 2 ^ 63 }
    ensures info { result ≡ info_of number time next_id.old }
    ensures behind { next_id.new ≡ after_ids next_id.old }
{
    let ids = fresh_ids(next_id, time);
    ServerInfo {
        most_document_bytes: MOST_DOCUMENT_BYTES,
        most_message_bytes: MESSAGE_LIMIT as i32,
        connection: connection_of(number),
        time: time as i64,
        ids,
    }
}
