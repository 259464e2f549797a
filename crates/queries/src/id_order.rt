//! Sorts that ask for the order in which a collection's documents stand.

ghost use Rattle.std.specs.Prelude.{◌≡◌};
ghost use Rattle.queries.specs.IdOrder.{keeps_id_order};

use candidate_ids::is_id;
use sort::Sort;

/// Whether a sort leaves documents in ascending order of `_id` as they are: it has no field, or its first one is `_id`, ascending.
pub fn keeps_id_order(sort: &Sort) -> bool
    ensures { result ≡ keeps_id_order sort.now }
{
    match sort.fields().first() {
        Some(field) => is_id(&field.path) && !field.descending,
        None => true,
    }
}
