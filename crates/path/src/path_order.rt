//! Paths in order: part by part, each by its bytes.

ghost use Rattle.std.specs.Prelude.{◌≡◌};
ghost use Rattle.std.specs.Cmp.{partial_order_from_agreeing_total, eq_by_cmp_equiv, partial_equiv_from_equiv};
ghost use Rattle.std.specs.Ordering.{as_partial_cmp, eq_by_cmp};
ghost use Rattle.std.proofs.Common.{refl};
ghost use Rattle.path.specs.PathOrder.{path_cmp, path_total};

use crate::parsing::Path;
use crate::part::Part;
use std::cmp::Ordering;

fn compare(a: &[Part], b: &[Part]) -> Ordering
    ensures { result ≡ path_cmp a.now b.now }
{
    'parts: for (i, part) in a.iter().enumerate() {
        let Some(second) = b.get(i) else {
            return Ordering::Greater;
        };
        match part.as_str().cmp(second.as_str()) {
            Ordering::Less => return Ordering::Less,
            Ordering::Equal => {}
            Ordering::Greater => return Ordering::Greater,
        }
    }
    a.len().cmp(&b.len())
}

/// A path stands before those that it leads to.
impl Ord for Path {
    ghost cmp = { path_cmp };

    ghost total = { path_total };

    ghost matches_partial_cmp = { λ a b. refl };

    ghost matches_eq = { λ a b. refl };

    fn cmp(&self, other: &Self) -> Ordering {
        compare(self.parts(), other.parts())
    }
}

impl PartialOrd for Path {
    ghost partial_cmp = { as_partial_cmp path_cmp };

    ghost laws = { partial_order_from_agreeing_total path_cmp path_total (λ a b. refl)
        (λ a b. refl) };

    fn partial_cmp(&self, other: &Self) -> Option<Ordering> {
        Some(self.cmp(other))
    }
}

impl PartialEq for Path {
    ghost eq = { eq_by_cmp path_cmp };

    ghost laws = { partial_equiv_from_equiv (eq_by_cmp_equiv path_total) };

    fn eq(&self, other: &Self) -> bool {
        compare(self.parts(), other.parts()) == Ordering::Equal
    }
}

impl Eq for Path {
    ghost laws = { eq_by_cmp_equiv path_total };
}
