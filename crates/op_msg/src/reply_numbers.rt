//! The numbers of replies.

ghost use Rattle.std.specs.Prelude.{◌≡◌};
ghost use Rattle.op_msg.specs.ReplyNumbers.{next_number};

/// The number of the next reply: one more than the last, and 1 behind the greatest int32.
pub fn next_number(last: u32) -> u32
    ensures { result ≡ next_number last }
{
    if last < 2_147_483_647 { last + 1 } else { 1 }
}
