//! The documents that a walk is still to give, as contracts know them. They take no memory.

ghost use Rattle.std.specs.Prelude.{◌≡◌, List, drop};
ghost use Rattle.std.specs.Borrow.{ftrue};
ghost use Rattle.std.specs.Coded.{coded_list};
ghost use Rattle.bson.specs.Tree.{Pairs};
ghost use Rattle.bson.specs.TreeCode.{coded_pairs};

use std::marker::Model;

/// The documents that a walk is still to give: they are in the file, and no code holds them.
#[derive(Drop)]
pub struct Rest {
    pub ghost value: { List Pairs } by { coded_list coded_pairs },
}

impl Model for Rest {
    ghost also_owns = { λ _. ftrue };
}

impl Rest {
    /// Any documents may be left.
    fn any() -> Rest
        ghost rest: { List Pairs }
        ensures { result.value ≡ rest }
    {
        Rest {}
    }

    /// Those that the caller chooses by what is passed.
    pub fn of<A>(with: &A) -> Rest
        ghost rest: { List Pairs }
        ensures { result.value ≡ rest }
    {
        Rest::any()
    }

    /// Others are left, by what was left and what is passed.
    fn set<A>(&mut self, with: &A)
        ghost to: { List Pairs }
        ensures { self.new.value ≡ to }
    {
        *self = Rest::any();
    }

    /// So many of them were given.
    pub fn give(&mut self, count: usize)
        ensures { self.new.value ≡ drop count self.old.value }
    {
        self.set(&count);
    }
}
