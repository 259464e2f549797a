//! Laws of the definitions, as contracts.

ghost use Rattle.path.specs.Laws.{WritesOnlyThere, CutsOnlyThere};
ghost use Rattle.path.specs.PlaceLaws.{WriteStands, WriteKeepsOthers, CutKeepsOthers, CutAbsent};
ghost use Rattle.path.specs.Rows.{ReachRows, EditRows};

/// A write changes the value at its path, and nothing else but the documents and nulls that are made on the way.
pub fn writes_only_there()
    ensures { WritesOnlyThere }
{}

/// A removal takes away what stands at its path, and nothing else.
pub fn cuts_only_there()
    ensures { CutsOnlyThere }
{}

/// What was written stands at its path, and is among what the path reaches.
pub fn write_stands()
    ensures { WriteStands }
{}

/// A write leaves what stands at each path that its own neither leads to nor comes from. Where nothing stood there, it
/// makes nulls at most.
pub fn write_keeps_others()
    ensures { WriteKeepsOthers }
{}

/// A removal leaves what stands at each path that its own neither leads to nor comes from.
pub fn cut_keeps_others()
    ensures { CutKeepsOthers }
{}

/// A removal where nothing stands changes nothing.
pub fn cut_absent()
    ensures { CutAbsent }
{}

/// What paths reach in small documents, worked by hand.
pub fn reach_rows()
    ensures { ReachRows }
{}

/// What edits make of small documents, worked by hand.
pub fn edit_rows()
    ensures { EditRows }
{}
