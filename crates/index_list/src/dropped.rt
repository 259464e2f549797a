//! Which indexes are dropped.

ghost use Rattle.std.specs.Prelude.{◌≡◌, Err, IfErr, Ok, OnOk};
ghost use Rattle.std.specs.List.{list_any, position};
ghost use Rattle.command_model.specs.DropIndexes.{named};
ghost use Rattle.commands.specs.View.{dropped_of};
ghost use Rattle.database_model.specs.DropIndexes.{is_dropped, left_by, remaining};

use crate::new_indexes::ID_INDEX;
use commands::DroppedIndexes;
use index::IndexSpec;
use path::Refusal;

/// Whether an index is one of those that are dropped.
fn is_dropped(index: &IndexSpec, dropped: &DroppedIndexes<'_>) -> bool
    ensures { result ≡ is_dropped (dropped_of dropped.now) index.now }
{
    match dropped {
        DroppedIndexes::Named(name) => index.name() == *name,
        DroppedIndexes::All => true,
    }
}

/// Where the first of these indexes stands that is dropped.
pub fn first_dropped(indexes: &[IndexSpec], dropped: &DroppedIndexes<'_>) -> Option<usize>
    ensures { result ≡ position (is_dropped (dropped_of dropped.now)) indexes.now }
{
    indexes.iter().position(|index| is_dropped(index, dropped))
}

/// Whether one of these indexes has a name.
fn has_name(indexes: &[IndexSpec], name: &str) -> bool
    ensures { result ≡ list_any (is_dropped (named name.now)) indexes.now }
{
    indexes.iter().any(|index| index.name() == name)
}

/// Whether the index of a name may be dropped: not that on `_id`, and one that is there.
fn check_name(indexes: &[IndexSpec], name: &str) -> Result<(), Refusal>
    ensures may { OnOk result (left_by (named name.now) indexes.now
        ≡ Ok (remaining (named name.now) indexes.now)) }
    ensures refused { IfErr result (λ e. left_by (named name.now) indexes.now ≡ Err e) }
{
    if name == ID_INDEX {
        return Err(Refusal::BadValue);
    }
    if !has_name(indexes, name) {
        return Err(Refusal::IndexNotFound);
    }
    Ok(())
}

/// Whether indexes may be dropped, all or the one of a name.
pub fn check_dropped(indexes: &[IndexSpec], dropped: &DroppedIndexes<'_>) -> Result<(), Refusal>
    ensures may { OnOk result (left_by (dropped_of dropped.now) indexes.now
        ≡ Ok (remaining (dropped_of dropped.now) indexes.now)) }
    ensures refused { IfErr result (λ e. left_by (dropped_of dropped.now) indexes.now ≡ Err e) }
{
    match dropped {
        DroppedIndexes::Named(name) => check_name(indexes, name),
        DroppedIndexes::All => Ok(()),
    }
}
