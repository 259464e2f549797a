//! Values as keys of an ordered set.

ghost use Rattle.std.specs.Prelude.{◌≡◌, ◌≤◌};
ghost use Rattle.std.specs.Cmp.{partial_order_from_agreeing_total, eq_by_cmp_equiv, partial_equiv_from_equiv};
ghost use Rattle.std.specs.Ordering.{as_partial_cmp, eq_by_cmp};
ghost use Rattle.std.proofs.Common.{refl};
ghost use Rattle.bson.specs.Lawful.{levels};
ghost use Rattle.bson.specs.View.{tree};
ghost use Rattle.value_order.specs.Order.{compare};
ghost use Rattle.value_order.specs.TotalLaws.{compare_total};

use bson::Value;
use std::cmp::Ordering;
use std::marker::Model;

/// A value that compares by the order of values, nested no deeper than one in an array in a reply.
#[derive(Drop)]
pub(crate) struct Ordered {
    value: Value,
}

impl Model for Ordered {
    ghost use Rattle.std.specs.Prelude.{◌≤◌};
    ghost use Rattle.bson.specs.Lawful.{levels};
    ghost use Rattle.bson.specs.Tree.{Tree};
    ghost use Rattle.bson.specs.TreeCode.{coded_tree};
    ghost use Rattle.bson.specs.View.{tree};

    ghost Value = { Tree };

    ghost coded = { coded_tree };

    ghost view = { λ a. tree a.value };

    ghost invariant = { λ a. levels (tree a.value) ≤ 98 };
}

impl Ordered {
    /// The value, to be compared.
    pub fn new(value: Value) -> Ordered
        requires { levels (tree value) ≤ 98 }
        ensures { result ≡ tree value }
    {
        Ordered { value }
    }

    /// The value itself.
    pub fn into_value(self) -> Value
        ensures same { tree result ≡ self }
        ensures flat { levels (tree result) ≤ 98 }
    {
        self.value
    }
}

impl Ord for Ordered {
    ghost cmp = { compare };

    ghost total = { compare_total };

    ghost matches_partial_cmp = { λ a b. refl };

    ghost matches_eq = { λ a b. refl };

    fn cmp(&self, other: &Self) -> Ordering {
        value_order::compare(&self.value, &other.value)
    }
}

impl PartialOrd for Ordered {
    ghost partial_cmp = { as_partial_cmp compare };

    ghost laws = { partial_order_from_agreeing_total compare compare_total (λ a b. refl)
        (λ a b. refl) };

    fn partial_cmp(&self, other: &Self) -> Option<Ordering> {
        Some(self.cmp(other))
    }
}

impl PartialEq for Ordered {
    ghost eq = { eq_by_cmp compare };

    ghost laws = { partial_equiv_from_equiv (eq_by_cmp_equiv compare_total) };

    fn eq(&self, other: &Self) -> bool {
        self.cmp(other) == Ordering::Equal
    }
}

impl Eq for Ordered {
    ghost laws = { eq_by_cmp_equiv compare_total };
}
