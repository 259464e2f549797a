//! Which paths of an index meet an array in a document.

ghost use Rattle.std.specs.Prelude.{◌≡◌};
ghost use Rattle.bson.specs.Tree.{document};
ghost use Rattle.bson.specs.View.{tree};
ghost use Rattle.path.specs.Place.{is_array};
ghost use Rattle.index.specs.IndexKeys.{meets_array, field_meets_array, is_multikey, has_parallel_arrays, noted};

use crate::definition::{IndexField, IndexSpec};
use bson::{Document, Value};
use path::Part;

/// Whether an array stands on the way down the parts by documents, or at their end.
fn meets_array(value: &Value, parts: &[Part]) -> bool
    ensures { result ≡ meets_array parts.now (tree value.now) }
{
    let mut value = value;
    'parts: for part in parts {
        match value {
            Value::Document(document) => match document.get(part.as_str()) {
                Some(inner) => value = inner,
                None => return false,
            },
            Value::Array(_) => return true,
            _ => return false,
        }
    }
    is_array(value)
}

fn is_array(value: &Value) -> bool
    ensures { result ≡ is_array (tree value.now) }
{
    match value {
        Value::Array(_) => true,
        _ => false,
    }
}

impl IndexField {
    /// Whether an array stands on the path in this document.
    fn meets_array(&self, source: &Document) -> bool
        ensures { result ≡ field_meets_array source.now self.now }
    {
        let (part, rest) = self.path().split_first();
        match source.get(part.as_str()) {
            Some(value) => meets_array(value, rest),
            None => false,
        }
    }
}

impl IndexSpec {
    /// Whether a stored document makes the index multikey: an array stands on one of its paths, on the way or at its
    /// end, an empty one too.
    pub fn is_multikey_with(&self, source: &Document) -> bool
        ensures { result ≡ is_multikey self.now.fields source.now }
    {
        self.fields().iter().any(|field| field.meets_array(source))
    }

    /// Notes that it is multikey, where a document that is stored makes it so.
    pub fn note_arrays(&mut self, document: &Document)
        ensures { self.new ≡ noted document.now self.old }
    {
        if self.is_multikey_with(document) {
            self.set_multi();
        }
    }

    /// Whether an array stands on two of its paths.
    pub(crate) fn has_parallel_arrays(&self, source: &Document) -> bool
        ensures { result ≡ has_parallel_arrays self.now.fields source.now }
    {
        1 < self
            .fields()
            .iter()
            .filter(|field| field.meets_array(source))
            .count()
    }
}
