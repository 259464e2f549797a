//! The names of the accumulators.
//!
//! One more accumulator is one more entry here; what it makes of values stands in crate `aggregate`.

ghost use Rattle.std.specs.Prelude.{◌≡◌};
ghost use Rattle.aggregate_model.specs.Accumulators.{accumulator_named};

use aggregate_model::Accumulator;

/// The accumulator that is called so.
pub(crate) fn accumulator_named(name: &str) -> Option<Accumulator>
    ensures { result ≡ accumulator_named name.now }
{
    match name {
        _ if name == "$sum" => Some(Accumulator::Sum),
        _ if name == "$min" => Some(Accumulator::Least),
        _ if name == "$max" => Some(Accumulator::Greatest),
        _ if name == "$first" => Some(Accumulator::First),
        _ if name == "$last" => Some(Accumulator::Last),
        _ if name == "$push" => Some(Accumulator::Push),
        _ => None,
    }
}
