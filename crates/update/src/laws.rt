//! Laws of the definitions, as contracts.

ghost use Rattle.update_model.specs.Laws.{KeepsId, ChangesNothing, SetStands, KeepsOthers};
ghost use Rattle.update_model.specs.Laws.{GivesStored, RefusesByName};

/// No update changes `_id`.
pub fn keeps_id()
    ensures { KeepsId }
{}

/// Edits that meet nothing give the same document.
pub fn changes_nothing()
    ensures { ChangesNothing }
{}

/// What `$set` wrote stands at its path, and is among what the path reaches.
pub fn set_stands()
    ensures { SetStands }
{}

/// An edit leaves what stands at each path that meets none of its own. Where nothing stood there, it makes nulls at
/// most.
pub fn keeps_others()
    ensures { KeepsOthers }
{}

/// What an update gives may be stored, and its `_id` stands first.
pub fn gives_stored()
    ensures { GivesStored }
{}

/// An update that is applied is refused by one of eight refusals.
pub fn refuses_by_name()
    ensures { RefusesByName }
{}
