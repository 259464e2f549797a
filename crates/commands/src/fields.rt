//! The fields of commands and statements, read in the order written.

ghost use Rattle.std.specs.Prelude.{◌≡◌};
ghost use Rattle.bson.specs.View.{tree, pairs_of};
ghost use Rattle.outcome.specs.Outcome.{or_refused, Gives, Does};
ghost use Rattle.command_model.specs.Fields.{read_fields, common_field, no_common};

use crate::values::text_in;
use bson::{Pair, Value};
use path::Refusal;
use std::alloc::Global;
use std::marker::Model;

/// The fields of a command or a statement that were met so far.
pub(crate) trait Fields<'a>: Drop {
    ghost use Rattle.std.specs.Prelude.{ℕ, List, Result};
    ghost use Rattle.bson.specs.Tree.{Tree};
    ghost use Rattle.path.specs.declared.refusal.Refusal.{Refusal};

    /// What one field more makes of them.
    ghost field: { Self → List ℕ → Tree → Result Self Refusal };

    /// Reads one field. `FailedToParse` where there is none of that name, else what its value is refused with.
    fn read_field(&mut self, alloc: Global, name: &str, value: &'a Value) -> Result<(), Refusal>
        ensures { Does Refusal.OutOfMemory result self.new
            (field self.old name.now (tree value.now)) };
}

/// Reads fields in the order written, up to the first that is refused.
pub(crate) fn read_fields<'a, F: Fields<'a>>(
    alloc: Global,
    mut fields: F,
    pairs: &'a [Pair],
) -> Result<F, Refusal>
    ensures { Gives Refusal.OutOfMemory (λ f. f) result
        (read_fields F.field fields (pairs_of pairs.now)) }
{
    'pairs: for pair in pairs {
        fields.read_field(alloc, pair.name.as_str(), &pair.value)?;
    }
    Ok(fields)
}

/// The fields that every command may have: its database `$db`, and a `comment` that is read over.
#[derive(Drop)]
pub(crate) struct CommonFields<'a> {
    pub(crate) database: Option<&'a str>,
}

impl<'a> Model for CommonFields<'a> {
    ghost use Rattle.std.specs.Prelude.{option_map};
    ghost use Rattle.command_model.specs.Fields as fields;

    ghost Value = { fields.CommonFields };

    ghost view = { λ a. record { database = option_map (λ s. s.now) a.database } };
}

impl<'a> CommonFields<'a> {
    pub(crate) fn new() -> CommonFields<'a>
        ensures { result ≡ no_common }
    {
        CommonFields { database: None }
    }

    /// The name of the database; `FailedToParse` where the field is missing.
    pub(crate) fn database(&self) -> Result<&'a str, Refusal>
        ensures { Gives Refusal.OutOfMemory (λ s. s.now) result
            (or_refused self.now.database Refusal.FailedToParse) }
    {
        match self.database {
            Some(database) => Ok(database),
            None => Err(Refusal::FailedToParse),
        }
    }
}

impl<'a> Fields<'a> for CommonFields<'a> {
    ghost field = { common_field };

    fn read_field(&mut self, _alloc: Global, name: &str, value: &'a Value) -> Result<(), Refusal> {
        if name == "$db" {
            self.database = Some(text_in(value)?);
            Ok(())
        } else if name == "comment" {
            Ok(())
        } else {
            Err(Refusal::FailedToParse)
        }
    }
}
