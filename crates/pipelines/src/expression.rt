//! What a group is made of for each document.

ghost use Rattle.std.specs.Prelude.{◌≡◌, IfOk};
ghost use Rattle.bson.specs.View.{tree};
ghost use Rattle.outcome.specs.Outcome.{Gives};
ghost use Rattle.aggregate_model.specs.Expression.{read_expression};
ghost use Rattle.pipelines.specs.GroupView.{expression_of};

use crate::operands::{dollar_path, source_path};
use bson::{NoMemory, Value};
use path::{Path, Refusal};
use std::alloc::Global;

/// A constant, or the value of `"$path"`.
#[derive(Drop)]
pub enum Expression {
    Constant(Value),
    Source(Path),
}

impl Expression {
    /// A constant that is no document and no array, or a text that begins with `$`. `FailedToParse` for all else.
    pub(crate) fn read(alloc: Global, value: &Value) -> Result<Expression, Refusal>
        ensures { Gives Refusal.OutOfMemory expression_of result
            (read_expression (tree value.now)) }
    {
        match value {
            Value::Document(_) => Err(Refusal::FailedToParse),
            Value::Array(_) => Err(Refusal::FailedToParse),
            Value::String(text) => match dollar_path(text.as_str()) {
                Some(name) => Ok(Expression::Source(source_path(alloc, name)?)),
                None => Ok(Expression::Constant(value.copy()?)),
            },
            _ => Ok(Expression::Constant(value.copy()?)),
        }
    }

    /// An equal expression of its own.
    pub(crate) fn copy(&self) -> Result<Expression, NoMemory>
        ensures { IfOk result (λ e. expression_of e ≡ expression_of self.now) }
    {
        match self {
            Expression::Constant(value) => Ok(Expression::Constant(value.copy()?)),
            Expression::Source(path) => Ok(Expression::Source(path.copy()?)),
        }
    }
}
