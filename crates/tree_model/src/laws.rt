//! Laws of trees and their changes, each the contract of a function that does nothing.

ghost use Rattle.tree_model.specs.Laws.{EntriesAreFew, OldTreesStay, PagesAreFew, PagesStayOnce};

/// A tree stays below its root, whatever is made and retired later.
pub fn old_trees_stay()
    ensures { OldTreesStay }
{}

/// Where a tree reaches each page once, so does the tree that a change makes of it.
pub fn pages_stay_once()
    ensures { PagesStayOnce }
{}

/// A tree has at most 680 entries for each page that it reaches.
pub fn entries_are_few()
    ensures { EntriesAreFew }
{}

/// A tree that reaches each page once reaches no more than there are.
pub fn pages_are_few()
    ensures { PagesAreFew }
{}
