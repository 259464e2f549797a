//! What lends a document.

ghost use Rattle.std.specs.Prelude.{◌≡◌};

use bson::Document;

/// What lends a document: the document itself, or what has it together with others.
pub trait AsDocument {
    ghost use Rattle.bson.specs.Tree.{Pairs};

    /// The document that is lent.
    ghost document: { Self → Pairs };

    fn as_document(&self) -> &Document
        ensures { result.now ≡ document self.now };
}

impl AsDocument for Document {
    ghost document = { λ a. a };

    fn as_document(&self) -> &Document {
        self
    }
}

impl<'a, T: AsDocument> AsDocument for &'a T {
    ghost document = { λ a. T.document a.now };

    fn as_document(&self) -> &Document {
        (*self).as_document()
    }
}
