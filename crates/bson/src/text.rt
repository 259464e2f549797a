//! Text, which contracts see as its bytes.

ghost use Rattle.std.specs.Prelude.{◌≡◌, ◌≤◌, IfOk, IsUtf8, length, string_bytes, take};

use std::alloc::{AllocError, Global};
use std::marker::Model;

/// The most bytes that stand in a text itself: most names of fields do, and nothing is allocated for them.
const MOST_INSIDE: usize = 30;

/// Where the bytes of a text stand.
#[derive(Debug, Drop)]
enum Place {
    /// In the text itself: so many of these.
    Inside(u8, [u8; MOST_INSIDE]),
    /// In an allocation.
    Outside(String),
}

/// A text of its own, in UTF-8. It may hold a zero byte.
#[derive(Debug)]
pub struct Text {
    place: Place,
}

// (written out, so that no crate above proves again that the parts are let go)
impl Drop for Text {
    fn drop(self) {
        let Text { place: _ } = self;
    }
}

impl Model for Text {
    ghost use Rattle.std.specs.Prelude.{ℕ, List, IsUtf8};
    ghost use Rattle.bson.specs.Texts.{bytes_at, IsPlace};

    ghost Value = { List ℕ };

    ghost view = { λ a. bytes_at a.place };

    ghost invariant = { λ a. IsPlace a.place × IsUtf8 (bytes_at a.place) };
}

/// As many bytes as stand in a text, the first of which are these.
fn put_inside(bytes: &[u8]) -> [u8; MOST_INSIDE]
    requires { length bytes.now ≤ 30 }
    ensures front { take (length bytes.now) result ≡ bytes.now }
    ensures len { length result ≡ 30 }
{
    let mut inside = [0u8; MOST_INSIDE];
    inside[..bytes.len()].copy_from_slice(bytes);
    inside
}

impl Text {
    /// A copy of this text.
    pub fn from_str(alloc: Global, text: &str) -> Result<Text, AllocError>
        ensures { IfOk result (λ t. t ≡ text.now) }
    {
        let bytes = text.as_bytes();
        let place = if bytes.len() <= MOST_INSIDE {
            Place::Inside(bytes.len() as u8, put_inside(bytes))
        } else {
            Place::Outside(String::from_str(alloc, text)?)
        };
        Ok(Text { place })
    }

    /// The text itself, which is not copied.
    pub fn from_string(text: String) -> Text
        ensures { result ≡ string_bytes text }
    {
        Text {
            place: Place::Outside(text),
        }
    }

    /// The whole text.
    pub fn as_str(&self) -> &str
        ensures value { result.now ≡ self.now }
        ensures utf8 { IsUtf8 self.now }
    {
        match &self.place {
            Place::Inside(len, bytes) => unsafe {
                str::from_utf8_unchecked(&bytes[..*len as usize])
            },
            Place::Outside(text) => text.as_str(),
        }
    }

    /// An equal text of its own.
    pub fn copy(&self) -> Result<Text, AllocError>
        ensures { IfOk result (λ t. t ≡ self.now) }
    {
        let place = match &self.place {
            Place::Inside(len, bytes) => Place::Inside(*len, *bytes),
            Place::Outside(text) => Place::Outside(text.clone()?),
        };
        Ok(Text { place })
    }
}
