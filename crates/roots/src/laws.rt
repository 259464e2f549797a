//! Laws of the definitions, and the numbers that this crate fixes.
ghost use Rattle.std.specs.Prelude.{◌≡◌, ℕ, List};
ghost use Rattle.tree_model.specs.Keys.{Entry};
ghost use Rattle.roots.specs.HeldFile.{HoldsOneFile, ListTellsBook, NamesTheRest, NoListIsTree, ReachedDecides};
ghost use Rattle.roots.specs.Image.{StandsFor};
ghost use Rattle.roots.specs.Listed.{WrittenListIsThere, WrittenListIsRead};
ghost use Rattle.roots.specs.Numbers.{open_fault_number, commit_fault_number};

use crate::{CommitFault, LEAST_LIMIT, MAX_PAGES, OpenFault};

/// An image stands for one list of entries at most.
pub fn one_state()
    ensures { (image : ℕ → List ℕ) (a b : List Entry)
        → StandsFor image a → StandsFor image b → a ≡ b }
{}

/// Pages of a list that are written hold it.
pub fn written_list_is_there()
    ensures { WrittenListIsThere }
{}

/// A list that was made, and whose pages are written, is what whoever reads the file gets.
pub fn written_list_is_read()
    ensures { WrittenListIsRead }
{}

/// A file whose root names no list is its tree.
pub fn no_list_is_tree()
    ensures { NoListIsTree }
{}

/// A root has one tree and one list at most.
pub fn holds_one_file()
    ensures { HoldsOneFile }
{}

/// A list that fits the tree names just the pages that the root doesn't reach, each once.
pub fn names_the_rest()
    ensures { NamesTheRest }
{}

/// The book that the walk opens is the one that such a list tells.
pub fn list_tells_book()
    ensures { ListTellsBook }
{}

/// What the pages hold that a root reaches decides what the file holds.
pub fn reached_decides()
    ensures { ReachedDecides }
{}

/// A file has at most 1,048,576 pages, and at least 16 may be asked for.
pub fn constants()
    ensures { (MAX_PAGES ≡ 1048576) × (LEAST_LIMIT ≡ 16) }
{}

/// The number of a fault of an opening.
pub fn open_fault_number(fault: OpenFault) -> u8
    ensures { result ≡ open_fault_number fault }
{
    fault as u8
}

/// The number of a fault of a commit.
pub fn commit_fault_number(fault: CommitFault) -> u8
    ensures { result ≡ commit_fault_number fault }
{
    fault as u8
}
