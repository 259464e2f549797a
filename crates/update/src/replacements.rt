//! Replacements: updates without operators.

ghost use Rattle.std.specs.Prelude.{◌≡◌, IfOk, option_map};
ghost use Rattle.bson.specs.Tree.{pair};
ghost use Rattle.bson.specs.View.{tree};
ghost use Rattle.outcome.specs.Outcome.{Gives};
ghost use Rattle.update_model.specs.Fronts.{MayStand};
ghost use Rattle.update_model.specs.Replacements.{replace};
ghost use Rattle.update_model.specs.Stored.{id_name, without, first_pair};

use crate::stored::ID;
use bson::{Document, NoMemory, Pair, Text, Value};
use path::Refusal;
use std::alloc::Global;
use std::cmp::Ordering;
use value_order::compare;

/// A copy of the document with this `_id` first in place of its own.
fn copy_with_id(alloc: Global, id: Option<&Value>, new: &Document) -> Result<Document, NoMemory>
    requires { MayStand id_name (option_map (λ v. tree v.now) id) }
    ensures { IfOk result (λ d. d
        ≡ first_pair id_name (option_map (λ v. tree v.now) id.entry) (without new.now id_name)) }
{
    let mut pairs = Vec::with_capacity(alloc, new.len())?;
    if let Some(id) = id {
        let name = Text::from_str(alloc, ID)?;
        let value = id.copy()?;
        pairs.push(Pair { name, value })?;
    }
    'pairs: for pair in new.pairs() {
        if ID != pair.name.as_str() {
            let name = pair.name.copy()?;
            let value = pair.value.copy()?;
            pairs.push(Pair { name, value })?;
        }
    }
    Ok(Document::from_pairs(pairs))
}

/// A copy of the new document with the old one's `_id`. `ImmutableField` where it has another one.
pub(crate) fn replace(alloc: Global, new: &Document, old: &Document) -> Result<Document, Refusal>
    ensures { Gives Refusal.OutOfMemory (λ d. d) result (replace new.now old.now) }
{
    let (_new_levels, _old_levels) = (new.levels(), old.levels());
    let given = new.get(ID);
    let Some(kept) = old.get(ID) else {
        return Ok(copy_with_id(alloc, given, new)?);
    };
    if let Some(id) = given {
        match compare(kept, id) {
            Ordering::Equal => {}
            Ordering::Less | Ordering::Greater => return Err(Refusal::ImmutableField),
        }
    }
    Ok(copy_with_id(alloc, Some(kept), new)?)
}
