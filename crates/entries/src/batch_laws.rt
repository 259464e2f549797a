//! Laws of what a reader of batches finds from a key on, as contracts.

ghost use Rattle.entries.specs.Batches.{AllDocuments, GoesOnBehind, ListsDocumentsFrom};

/// From a key on stand the entries of the documents that aren't below it.
pub fn lists_documents_from()
    ensures { ListsDocumentsFrom }
{}

/// From the first key on these are all of a collection's documents.
pub fn all_documents()
    ensures { AllDocuments }
{}

/// Behind some entries the rest stands from the key of the next one on.
pub fn goes_on_behind()
    ensures { GoesOnBehind }
{}
