//! What an expression is for a document.

ghost use Rattle.std.specs.Prelude.{◌≡◌, IfOk};
ghost use Rattle.aggregate_model.specs.Expression.{expression_value};
ghost use Rattle.aggregate.specs.Found.{found_of};
ghost use Rattle.pipelines.specs.GroupView.{expression_of};

use crate::path_source::PathSource;
use crate::path_value::Found;
use bson::NoMemory;
use pipelines::Expression;
use std::alloc::Global;

/// A constant, or the value of a path.
pub(crate) fn expression_value<'a, S: PathSource>(
    alloc: Global,
    expression: &'a Expression,
    document: &'a S,
) -> Result<Found<'a>, NoMemory>
    ensures { IfOk result (λ f. found_of f
        ≡ expression_value (expression_of expression.now) (S.source document.now)) }
{
    match expression {
        Expression::Constant(value) => Ok(Found::There(value)),
        Expression::Source(path) => document.value_at(alloc, path),
    }
}
