//! Bytes that are all zero.

ghost use Rattle.std.specs.Prelude.{◌≡◌};
ghost use Rattle.page.specs.Format.{are_zeros};

/// Whether all bytes are zero: the first is, and each other is what the one before it is, which one comparison of
/// two slices tells.
pub fn is_all_zero(bytes: &[u8]) -> bool
    ensures { result ≡ are_zeros bytes.now }
{
    if bytes.is_empty() {
        return true;
    }
    let others = &bytes[1..];
    let before = &bytes[..others.len()];
    bytes[0] == 0 && others == before
}
