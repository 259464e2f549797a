//! Texts that fields hold.

ghost use Rattle.std.specs.Prelude.{◌≡◌, option_map};
ghost use Rattle.bson.specs.View.{tree};
ghost use Rattle.driver_replies.specs.Texts.{text_or_none, collection_of};

use bson::{Document, Value};

/// A text, or the empty one where a value is none.
pub fn text_or_none(value: Option<&Value>) -> &str
    ensures { result.now ≡ text_or_none (option_map (λ v. tree v.now) value.entry) }
{
    match value {
        Some(Value::String(text)) => text.as_str(),
        _ => "",
    }
}

/// The text beside the name of a command, which is that of its collection.
pub fn collection_of(body: &Document) -> &str
    ensures { result.now ≡ collection_of body.now }
{
    match body.pairs().first() {
        Some(pair) => text_or_none(Some(&pair.value)),
        None => "",
    }
}
