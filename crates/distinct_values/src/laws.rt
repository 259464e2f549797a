//! A law of the definitions, as a contract.

ghost use Rattle.distinct_values.specs.Laws.{EachOnce};

/// The values are those that were found, each once, in their order.
pub fn each_once()
    ensures { EachOnce }
{}
