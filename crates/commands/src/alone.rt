//! Commands whose value names a collection, and which have no further fields.

ghost use Rattle.std.specs.Prelude.{string_bytes};
ghost use Rattle.bson.specs.View.{tree, pairs_of};
ghost use Rattle.outcome.specs.Outcome.{Gives};
ghost use Rattle.command_model.specs.Alone.{read_alone};

use crate::fields::{CommonFields, read_fields};
use crate::names::namespace_of;
use crate::values::text_in;
use bson::{Pair, Value};
use path::Refusal;
use std::alloc::Global;

/// The namespace of the collection that a command's value names, where it has no further fields.
pub(crate) fn read_alone(
    alloc: Global,
    collection: &Value,
    pairs: &[Pair],
) -> Result<String, Refusal>
    ensures { Gives Refusal.OutOfMemory (λ s. string_bytes s) result
        (read_alone (tree collection.now) (pairs_of pairs.now)) }
{
    let name = text_in(collection)?;
    let found = read_fields(alloc, CommonFields::new(), pairs)?;
    namespace_of(alloc, found.database()?, name)
}
