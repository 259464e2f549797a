//! Laws of indexes that are made and dropped document by document, as contracts.

ghost use Rattle.entries.specs.IndexBuilding.{DropsIndexOfAll, GoOnFurther, GoWhereTheyLead, MakesIndexOfAll, PutsOneMore, RemovesOneMore};

/// Edits that go on by some and then by others go on by all of them.
pub fn go_on_further()
    ensures { GoOnFurther }
{}

/// Edits that go on by others lead where these lead on.
pub fn go_where_they_lead()
    ensures { GoWhereTheyLead }
{}

/// Entries of one document more in an index are put.
pub fn puts_one_more()
    ensures { PutsOneMore }
{}

/// Entries of one document more in an index are removed.
pub fn removes_one_more()
    ensures { RemovesOneMore }
{}

/// Puts of the entries of all documents, one document after the other, and of the catalogue's new entry make an index.
pub fn makes_index_of_all()
    ensures { MakesIndexOfAll }
{}

/// Removals of them and that put drop it.
pub fn drops_index_of_all()
    ensures { DropsIndexOfAll }
{}
