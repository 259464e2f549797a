//! The one place of a document that the path of an edit names.

ghost use Rattle.std.specs.Prelude.{◌≡◌, option_map};
ghost use Rattle.bson.specs.Tree.{document};
ghost use Rattle.bson.specs.View.{tree};
ghost use Rattle.path.specs.Place.{child, value_at, is_array, passes_array};

use crate::parsing::Path;
use crate::part::Part;
use crate::reaching::item_of_part;
use bson::{Document, Value};

/// The field of a document, or the element of an array, that a part names.
fn child<'a>(value: &'a Value, part: &Part) -> Option<&'a Value>
    ensures { option_map (λ v. tree v.now) result ≡ child part.now (tree value.now) }
{
    match value {
        Value::Document(document) => document.get(part.as_str()),
        Value::Array(array) => item_of_part(array.items(), part),
        _ => None,
    }
}

/// What stands at the path, which goes on in a document by its field and in an array by the element that the part
/// numbers, as an edit does.
pub fn value_at<'a>(source: &'a Document, path: &Path) -> Option<&'a Value>
    ensures { option_map (λ v. tree v.now) result ≡ value_at path.now (document source.now) }
{
    let (part, rest) = path.split_first();
    match source.get(part.as_str()) {
        Some(value) => value_below(value, rest),
        None => None,
    }
}

fn value_below<'a>(value: &'a Value, parts: &[Part]) -> Option<&'a Value>
    ensures { option_map (λ v. tree v.now) result ≡ value_at parts.now (tree value.now) }
{
    let mut value = value;
    'parts: for part in parts {
        match child(value, part) {
            Some(inner) => value = inner,
            None => return None,
        }
    }
    Some(value)
}

fn is_array(value: &Value) -> bool
    ensures { result ≡ is_array (tree value.now) }
{
    match value {
        Value::Array(_) => true,
        _ => false,
    }
}

/// Whether the path leads through an array: whether one stands on its way with parts left.
pub fn passes_array(source: &Document, path: &Path) -> bool
    ensures { result ≡ passes_array path.now (document source.now) }
{
    let (part, rest) = path.split_first();
    match source.get(part.as_str()) {
        Some(value) => array_below(value, rest),
        None => false,
    }
}

fn array_below(value: &Value, parts: &[Part]) -> bool
    ensures { result ≡ passes_array parts.now (tree value.now) }
{
    let mut value = value;
    'parts: for part in parts {
        if is_array(value) {
            return true;
        }
        match child(value, part) {
            Some(inner) => value = inner,
            None => return false,
        }
    }
    false
}
