//! Laws of the definitions and rows worked by hand, as contracts.

ghost use Rattle.filter.specs.Rows.{MatchRows, RefusalRows};

/// What filters hold of.
pub fn match_rows()
    ensures { MatchRows }
{}

/// The first misuses of filters.
pub fn refusal_rows()
    ensures { RefusalRows }
{}
