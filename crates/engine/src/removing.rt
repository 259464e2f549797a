//! Documents that are taken out of their collection, noted as edits of the file.

ghost use Rattle.std.specs.Prelude.{[], ◌∷◌, map};
ghost use Rattle.engine.specs.TakingOut.{Removes};

use bson::Document;
use entries::{Catalogued, Edits, Keyed};
use path::Refusal;
use sort::AsDocument;
use std::alloc::Global;
use stored_documents::id_text;

/// Notes that a document is taken out of a collection, with its entries in the collection's indexes.
fn note_one(
    alloc: Global,
    edits: &mut Edits,
    home: &Catalogued,
    document: &Document,
) -> Result<(), Refusal>
    ensures { Removes home.now (document.now ∷ []) result edits.old edits.new }
{
    let id = id_text(alloc, document)?;
    let keyed = Keyed::new(alloc, &home.indexes, document)?;
    Ok(edits.delete_document(home.number, &home.indexes, &id, document, &keyed.keys)?)
}

/// Notes that documents are taken out of a collection, each with its entries in the collection's indexes.
pub(crate) fn note_removed<T: AsDocument>(
    alloc: Global,
    edits: &mut Edits,
    home: &Catalogued,
    documents: &[T],
) -> Result<(), Refusal>
    ensures { Removes home.now (map T.document documents.now) result edits.old edits.new }
{
    'documents: for document in documents {
        note_one(alloc, edits, home, document.as_document())?;
    }
    Ok(())
}
