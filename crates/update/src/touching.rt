//! Edits that change nothing. Of a document that was edited often it is known where its names stand, and edits alone are
//! counted: so what looks for many names, and changes nothing where one isn't there, makes such an edit in place of it.

ghost use Rattle.std.specs.Prelude.{◌≡◌};
ghost use Rattle.bson.specs.View.{tree};

use bson::{Document, Value};
use path::{Part, Path, put_field, take_field};

/// An edit that changes nothing. After some edits a document of many fields knows where its names stand, and
/// then misses one that it lacks without a look at all.
pub(crate) fn touch(document: &mut Document)
    ensures { document.new ≡ document.old }
{
    let _levels = document.levels();
    if document.is_empty() {
        return;
    }
    match document.replace_at(0, Value::Null) {
        Ok(value) => match document.replace_at(0, value) {
            Ok(_) => {}
            Err(_) => unreachable!(),
        },
        Err(_) => unreachable!(),
    }
}

/// The value, in which an edit that changes nothing was made in each document on the way.
#[cycle(touching)]
fn touch_inside(value: Value, parts: &[Part]) -> Value
    ensures { tree result ≡ tree value }
{
    let [part, rest @ ..] = parts else {
        return value;
    };
    match value {
        Value::Document(document) => Value::Document(touch_in_field(document, part, rest)),
        other => other,
    }
}

#[cycle(touching)]
fn touch_in_field(document: Document, part: &Part, rest: &[Part]) -> Document
    ensures { result ≡ document }
{
    let mut document = document;
    let Some(at) = document.position(part.as_str()) else {
        touch(&mut document);
        return document;
    };
    let old = take_field(&mut document, at);
    let same = touch_inside(old, rest);
    put_field(&mut document, at, same);
    document
}

/// The document, in which an edit that changes nothing was made in each document on the way: of those that were edited
/// often it is known where their names stand.
pub(crate) fn touch_at(document: Document, path: &Path) -> Document
    ensures { result ≡ document }
{
    let (part, rest) = path.split_first();
    touch_in_field(document, part, rest)
}
