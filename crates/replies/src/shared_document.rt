//! Documents with several owners.

ghost use Rattle.std.specs.Prelude.{◌≡◌, IfOk};

use bson::{Document, NoMemory};
use sort::AsDocument;
use std::alloc::Global;
use std::marker::Model;
use std::rc::Rc;

/// A document with several owners: the collection that has it, what undoes a change of that collection, and cursors. So
/// taking it away, putting it back and giving it later copies nothing.
#[derive(Drop)]
pub struct SharedDocument {
    document: Rc<Document>,
}

impl Model for SharedDocument {
    ghost use Rattle.bson.specs.Tree.{Pairs};
    ghost use Rattle.bson.specs.TreeCode.{coded_pairs};

    ghost Value = { Pairs };

    ghost coded = { coded_pairs };

    ghost view = { λ a. a.document.value };
}

impl SharedDocument {
    pub fn new(alloc: Global, document: Document) -> Result<SharedDocument, NoMemory>
        ensures { IfOk result (λ shared. shared ≡ document) }
    {
        let document = Rc::new(alloc, document)?;
        Ok(SharedDocument { document })
    }

    pub fn document(&self) -> &Document
        ensures { result.now ≡ self.now }
    {
        self.document.as_ref()
    }

    /// One more owner.
    pub fn share(&self) -> Result<SharedDocument, NoMemory>
        ensures { IfOk result (λ shared. shared ≡ self.now) }
    {
        let document = self.document.clone()?;
        Ok(SharedDocument { document })
    }
}

impl AsDocument for SharedDocument {
    ghost document = { λ a. a };

    fn as_document(&self) -> &Document {
        self.document()
    }
}
