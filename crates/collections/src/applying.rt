//! Edits of the collections' tree.
ghost use Rattle.std.specs.Prelude.{◌≡◌};
ghost use Rattle.tree_model.specs.Store.{Grows};
ghost use Rattle.collections.specs.Applying.{ChangesTree, refusal_of};
ghost use Rattle.collections.specs.Calls.{Applies};
ghost use Rattle.pager.specs.View.{store_of};

use crate::collections::Collections;
use crate::remembered::forget_tree;
use btree::change;
use entries::Edits;
use page::Disk;
use pager::Pager;
use path::Refusal;
use std::alloc::Global;
use tree_model::TreeFault;

/// What a command says where a page wasn't read or written.
pub(crate) fn refusal_of(fault: TreeFault) -> Refusal
    ensures { result ≡ refusal_of fault }
{
    match fault {
        TreeFault::Memory => Refusal::OutOfMemory,
        TreeFault::Full => Refusal::Full,
        _ => Refusal::StorageFailed,
    }
}

/// The root page of a tree after edits.
fn changed_root<D: Disk>(
    alloc: Global,
    pager: &mut Pager<D>,
    root: u32,
    edits: &Edits,
) -> Result<u32, TreeFault>
    ensures grows { Grows (store_of D.history pager.old) (store_of D.history pager.new) }
    ensures changes { ChangesTree D.history edits.now root result pager.old pager.new }
{
    let Ok(list) = edits.tree_edits(alloc) else {
        return Err(TreeFault::Memory);
    };
    change(alloc, pager, root, &list)
}

impl<D: Disk> Collections<D> {
    /// Puts edits into the tree, all of them or none.
    pub fn apply(&mut self, edits: &Edits) -> Result<(), Refusal>
        ensures { Applies D.history edits.now result self.old self.new }
    {
        if self.pager.is_stopped() {
            return Err(Refusal::StorageFailed);
        }
        if edits.is_empty() {
            return Ok(());
        }
        forget_tree(&mut self.remembered);
        let mark = self.pager.mark();
        match changed_root(self.alloc, &mut self.pager, self.root, edits) {
            Ok(root) => {
                self.root = root;
                Ok(())
            }
            Err(fault) => {
                self.pager.undo_to(mark);
                Err(refusal_of(fault))
            }
        }
    }
}
