//! Names of fields that stages make.

ghost use Rattle.std.specs.Prelude.{◌≡◌, IfOk};
ghost use Rattle.bson.specs.Lawful.{IsName};
ghost use Rattle.outcome.specs.Outcome.{Gives};
ghost use Rattle.aggregate_model.specs.Names.{is_unfit, field_name};

use bson::{NoMemory, Text};
use path::Refusal;
use std::alloc::Global;
use std::marker::Model;

/// The name of a field that a stage makes.
#[derive(Drop)]
pub struct FieldName {
    name: Text,
}

impl Model for FieldName {
    ghost use Rattle.std.specs.Prelude.{ℕ, List};
    ghost use Rattle.bson.specs.Lawful.{IsName};

    ghost Value = { List ℕ };

    ghost view = { λ a. a.name };

    ghost invariant = { λ a. IsName a.name };
}

/// Whether a field that is made may not be called so.
fn is_unfit(name: &str) -> bool
    ensures { result ≡ is_unfit name.now }
{
    let bytes = name.as_bytes();
    match bytes {
        [] => true,
        [b'$', ..] => true,
        _ => bytes.contains(&b'.') || bytes.contains(&0),
    }
}

impl FieldName {
    /// The name, where a field that is made may be called so.
    pub(crate) fn read(alloc: Global, name: &str) -> Result<FieldName, Refusal>
        ensures { Gives Refusal.OutOfMemory (λ n. n) result (field_name name.now) }
    {
        if is_unfit(name) {
            return Err(Refusal::FailedToParse);
        }
        Ok(FieldName {
            name: Text::from_str(alloc, name)?,
        })
    }

    /// The name, which a document may have.
    pub fn as_str(&self) -> &str
        ensures name { result.now ≡ self.now }
        ensures lawful { IsName self.now }
    {
        self.name.as_str()
    }

    /// An equal name of its own.
    pub(crate) fn copy(&self) -> Result<FieldName, NoMemory>
        ensures { IfOk result (λ n. n ≡ self.now) }
    {
        Ok(FieldName {
            name: self.name.copy()?,
        })
    }
}
