//! A name that is looked up in a table.

ghost use Rattle.std.specs.Prelude.{◌≡◌};
ghost use Rattle.std.specs.Str.{bytes_eq};
ghost use Rattle.driver_replies.specs.Tables.{named};

/// Whether a name is this word. Most words of a table have another length, which is asked first.
#[inline(always)]
fn is_word(name: &str, word: &str) -> bool
    ensures { result ≡ bytes_eq name.now word.now }
{
    name.len() == word.len() && name == word
}

/// What stands beside a name in a table.
pub fn named<T: Copy>(rows: &[(&str, T)], name: &str) -> Option<T>
    ensures { result ≡ named rows.now name.now }
{
    'rows: for (word, value) in rows {
        if is_word(name, word) {
            return Some(*value);
        }
    }
    None
}
