//! What values of paths are asked of.

ghost use Rattle.std.specs.Prelude.{◌≡◌, IfOk};
ghost use Rattle.bson.specs.Tree.{document};
ghost use Rattle.bson.specs.View.{tree};
ghost use Rattle.aggregate.specs.Found.{found_of};
ghost use Rattle.aggregate_model.specs.PathValue.{path_value};

use crate::path_value::{Found, of_value, path_value};
use bson::{Document, NoMemory, Value};
use bson_bytes::RawDoc;
use path::{Part, Path};
use std::alloc::Global;

/// A document of which paths give values: one that was built, or one that stays its bytes.
pub(crate) trait PathSource {
    ghost use Rattle.bson.specs.Tree.{Pairs};

    /// The document.
    ghost source: { Self → Pairs };

    /// The value of a path.
    fn value_at<'a>(&'a self, alloc: Global, path: &Path) -> Result<Found<'a>, NoMemory>
        ensures { IfOk result (λ f.
            found_of f ≡ path_value path.now (document (source self.now))) };
}

impl PathSource for Document {
    ghost source = { λ d. d };

    fn value_at<'a>(&'a self, alloc: Global, path: &Path) -> Result<Found<'a>, NoMemory> {
        path_value(alloc, self, path)
    }
}

/// No more of it is read than the value that the path begins with.
impl PathSource for RawDoc<'_> {
    ghost source = { λ d. d };

    fn value_at<'a>(&'a self, alloc: Global, path: &Path) -> Result<Found<'a>, NoMemory> {
        let (part, rest) = path.split_first();
        match self.get(part.as_str()) {
            Some(value) => of_made(alloc, value.value(alloc)?, rest),
            None => Ok(Found::Missing),
        }
    }
}

/// What is left of a path gives of a value that nobody else has.
fn of_made<'a>(alloc: Global, value: Value, parts: &[Part]) -> Result<Found<'a>, NoMemory>
    ensures { IfOk result (λ f. found_of f ≡ path_value parts.now (tree value)) }
{
    if parts.is_empty() {
        return Ok(Found::Made(value));
    }
    match of_value(alloc, &value, parts)?.into_value()? {
        Some(found) => Ok(Found::Made(found)),
        None => Ok(Found::Missing),
    }
}
