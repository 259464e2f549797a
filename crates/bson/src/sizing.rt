//! How long spellings are, without making them.

ghost use Rattle.std.specs.Prelude.{◌≡◌, ◌+◌, length};
ghost use Rattle.bson.specs.View.{tree};
ghost use Rattle.bson.specs.Lawful.{IsLeaf};
ghost use Rattle.bson.specs.Spelling.{tree_bytes, pairs_bytes, items_bytes, frame_of};
ghost use Rattle.bson.specs.Sizing.{capped_len};

use crate::value::{Array, Document, Value};
use itoa::Buffer;

#[tactic(auto, unfolding(crate::specs::Spelling::tree_bytes))]
fn scalar_len(value: &Value) -> usize
    requires { IsLeaf (tree value.now) }
    ensures { result ≡ capped_len (length (tree_bytes (tree value.now))) }
{
    match value {
        Value::Document(_) | Value::Array(_) => unreachable!(),
        Value::String(text) => text.as_str().len().saturating_add(5),
        Value::Binary(binary) => binary.bytes.as_slice().len().saturating_add(5),
        Value::ObjectId(id) => id.bytes().len(),
        Value::Bool(_) => 1,
        Value::Int32(_) => 4,
        Value::Date(_) | Value::Timestamp(_) | Value::Int64(_) => 8,
        Value::Null | Value::MinKey | Value::MaxKey => 0,
    }
}

impl Value {
    /// How many bytes the value takes in a document, without its type and its name; the greatest `usize`
    /// where that is more.
    #[cycle(sizes)]
    #[tactic(auto, unfolding(crate::specs::Spelling::tree_bytes))]
    pub fn encoded_len(&self) -> usize
        ensures { result ≡ capped_len (length (tree_bytes (tree self.now))) }
    {
        match self {
            Value::Document(document) => document.encoded_len(),
            Value::Array(array) => array.encoded_len(),
            _ => scalar_len(self),
        }
    }
}

impl Document {
    /// How many bytes the document's spelling has; the greatest `usize` where that is more.
    #[cycle(sizes)]
    pub fn encoded_len(&self) -> usize
        ensures { result ≡ capped_len (length (frame_of (pairs_bytes self.now))) }
    {
        let mut len = 5usize;
        'pairs: for pair in &self.pairs {
            let name_len = pair.name.as_str().len();
            let value_len = pair.value.encoded_len();
            len = len
                .saturating_add(2)
                .saturating_add(name_len)
                .saturating_add(value_len);
        }
        len
    }
}

impl Array {
    /// How many bytes the array's spelling has, with the names `0`, `1` and so on of its items; the
    /// greatest `usize` where that is more.
    #[cycle(sizes)]
    pub fn encoded_len(&self) -> usize
        ensures { result ≡ capped_len (length (frame_of (items_bytes 0 self.now))) }
    {
        let mut len = 5usize;
        'items: for (i, item) in self.items.iter().enumerate() {
            let mut buffer = Buffer::new();
            let name_len = buffer.format(i).len();
            let value_len = item.encoded_len();
            len = len
                .saturating_add(2)
                .saturating_add(name_len)
                .saturating_add(value_len);
        }
        len
    }
}
