//! Laws of the definitions and rows worked by hand, as contracts.

ghost use Rattle.sort.specs.Rows.{SortRows};
ghost use Rattle.sort.specs.SortLaws.{OrdersStably, SortsInParts, SortsByFirstKey};

/// The order of values of every class, in both directions.
pub fn sort_rows()
    ensures { SortRows }
{}

/// A sort leaves the same documents, none below an earlier one, and those that tie in the order given.
pub fn orders_stably()
    ensures { OrdersStably }
{}

/// The first documents in order are told by the first ones of some of them, in order, and by all others: so a sort of
/// which the first ones are wanted needs no others of what it has seen.
pub fn sorts_in_parts()
    ensures { SortsInParts }
{}

/// A document's key at a field is one of the keys that it has there, and none of them precedes it.
pub fn sorts_by_first_key()
    ensures { SortsByFirstKey }
{}
