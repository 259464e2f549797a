//! Fields that stages make in documents.

ghost use Rattle.std.specs.Prelude.{◌≡◌};
ghost use Rattle.bson.specs.Lawful.{IsName};
ghost use Rattle.bson.specs.View.{tree};
ghost use Rattle.outcome.specs.Outcome.{Gives};
ghost use Rattle.aggregate_model.specs.Fields.{set_field};

use bson::{BuildFault, Document, MOST_LEVELS, Value};
use path::Refusal;

/// The document with this value at a name: in the name's place, or at the end where it is new. `BadValue` where it
/// would nest more than 100 levels.
pub(crate) fn set_field(document: Document, name: &str, value: Value) -> Result<Document, Refusal>
    requires { IsName name.now }
    ensures { Gives Refusal.OutOfMemory (λ d. d) result (set_field name.now (tree value) document) }
{
    let mut document = document;
    if MOST_LEVELS <= value.levels() {
        return Err(Refusal::BadValue);
    }
    match document.set(name, value) {
        Ok(()) => Ok(document),
        Err(BuildFault::Memory) => Err(Refusal::OutOfMemory),
        Err(BuildFault::Deep) => unreachable!(),
        Err(BuildFault::Name) => unreachable!(),
        Err(BuildFault::Repeated) => unreachable!(),
    }
}
