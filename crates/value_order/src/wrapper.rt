//! Values as keys of ordered collections.

ghost use Rattle.std.specs.Cmp.{partial_order_from_agreeing_total, eq_by_cmp_equiv, partial_equiv_from_equiv, on_total};
ghost use Rattle.std.specs.Ordering.{as_partial_cmp, eq_by_cmp};
ghost use Rattle.value_order.specs.Wrapped.{order_cmp, order_total};
ghost use Rattle.std.proofs.Common.{refl};

use crate::order::compare;
use bson::Value;
use std::cmp::Ordering;

/// A value that compares by the order of values: `==` holds of what the order calls equal, as of int32 5 and int64 5.
#[derive(Clone, Copy)]
pub struct Order<'a>(pub &'a Value);

impl Ord for Order<'_> {
    ghost cmp = { order_cmp };

    ghost total = { order_total };

    ghost matches_partial_cmp = { λ a b. refl };

    ghost matches_eq = { λ a b. refl };

    fn cmp(&self, other: &Self) -> Ordering {
        compare(self.0, other.0)
    }
}

impl PartialOrd for Order<'_> {
    ghost partial_cmp = { as_partial_cmp order_cmp };

    ghost laws = { partial_order_from_agreeing_total order_cmp order_total (λ a b. refl)
        (λ a b. refl) };

    fn partial_cmp(&self, other: &Self) -> Option<Ordering> {
        Some(self.cmp(other))
    }
}

impl PartialEq for Order<'_> {
    ghost eq = { eq_by_cmp order_cmp };

    ghost laws = { partial_equiv_from_equiv (eq_by_cmp_equiv order_total) };

    fn eq(&self, other: &Self) -> bool {
        compare(self.0, other.0) == Ordering::Equal
    }
}

impl Eq for Order<'_> {
    ghost laws = { eq_by_cmp_equiv order_total };
}
