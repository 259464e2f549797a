//! Laws of the entries that a state is kept as, and of the edits that lead from one state to the next, as contracts.

ghost use Rattle.entry_model.specs.KeptLaws.{KeptWithDocument, KeptWithoutDocument, KeptWithIndex, KeptWithoutIndex, KeptNoted};
ghost use Rattle.entry_model.specs.StateReads.{FindsCollection, FindsDocument, ListsCollections, ListsDocuments, ListsIndex, TellsDocument};
ghost use Rattle.entries.specs.StateRows.{FirstIsLawful, FirstState};
ghost use Rattle.entry_model.specs.StateLaws.{SpelledOnce, SpellsOne, EntriesFit, LeadsOn, OrderIsFree, EditsSwap, MakesCollection, MakesLawful, DropsCollection, DropsLawful, StaysLawful, InsertsDocument, DeletesDocument, ReplacesDocument, MakesIndex, DropsIndex, NotesIndexes};
ghost use Rattle.entries.specs.OtherKeys.{TellsOtherKey, TellsOtherPut};

/// The entries of a state, byte by byte.
pub fn first_state()
    ensures { FirstState }
{}

/// That state is lawful.
pub fn first_is_lawful()
    ensures { FirstIsLawful }
{}

/// A lawful state is spelled by one map.
pub fn spelled_once()
    ensures { SpelledOnce }
{}

/// A map spells one lawful state at most.
pub fn spells_one()
    ensures { SpellsOne }
{}

/// Entries of a lawful state are short enough for the tree.
pub fn entries_fit()
    ensures { EntriesFit }
{}

/// At the key of a name stands what the catalogue says of its collection.
pub fn finds_collection()
    ensures { FindsCollection }
{}

/// At the key of an `_id` stands its document.
pub fn finds_document()
    ensures { FindsDocument }
{}

/// The catalogue's entries are the collections', in their order.
pub fn lists_collections()
    ensures { ListsCollections }
{}

/// The entries of a collection's index 0 are its documents', in their order.
pub fn lists_documents()
    ensures { ListsDocuments }
{}

/// The entries under the number of an index are those of all documents in it.
pub fn lists_index()
    ensures { ListsIndex }
{}

/// An entry of an index tells a document that has its key.
pub fn tells_document()
    ensures { TellsDocument }
{}

/// Edits that lead to a state and edits that lead on from there lead on together.
pub fn leads_on()
    ensures { LeadsOn }
{}

/// Edits in the order of their keys, of several at one key the last, do what they do in any order.
pub fn order_is_free()
    ensures { OrderIsFree }
{}

/// Two edits of different keys may change places.
pub fn edits_swap()
    ensures { EditsSwap }
{}

/// A put of its entry in the catalogue makes an empty collection.
pub fn makes_collection()
    ensures { MakesCollection }
{}

/// Removals of all its entries drop a collection.
pub fn drops_collection()
    ensures { DropsCollection }
{}

/// A lawful state with a collection more is lawful, where its name and its number are new.
pub fn makes_lawful()
    ensures { MakesLawful }
{}

/// A lawful state without a collection is lawful.
pub fn drops_lawful()
    ensures { DropsLawful }
{}

/// A lawful state with a collection in place of another of its name and number is lawful.
pub fn stays_lawful()
    ensures { StaysLawful }
{}

/// Puts of a document's entries insert it.
pub fn inserts_document()
    ensures { InsertsDocument }
{}

/// Removals of a document's entries delete it.
pub fn deletes_document()
    ensures { DeletesDocument }
{}

/// Removals of the entries for keys that are only the old document's, and puts of the new one's entry and of those for
/// keys that are only its own, replace a document.
pub fn replaces_document()
    ensures { ReplacesDocument }
{}

/// Puts of an entry for each key of each document and of the catalogue's new entry make an index.
pub fn makes_index()
    ensures { MakesIndex }
{}

/// Removals of these and a put of the catalogue's new entry drop it.
pub fn drops_index()
    ensures { DropsIndex }
{}

/// A put of the catalogue's new entry notes indexes anew.
pub fn notes_indexes()
    ensures { NotesIndexes }
{}

/// A collection within the limits stays so with a document that may stand in it.
pub fn kept_with_document()
    ensures { KeptWithDocument }
{}

/// It does so without one of its documents.
pub fn kept_without_document()
    ensures { KeptWithoutDocument }
{}

/// It does so with an index of its documents.
pub fn kept_with_index()
    ensures { KeptWithIndex }
{}

/// It does so without one of its indexes.
pub fn kept_without_index()
    ensures { KeptWithoutIndex }
{}

/// It does so with its indexes noted for a document.
pub fn kept_noted()
    ensures { KeptNoted }
{}

/// An entry for a key and another `_id` stands in an index where a document of another `_id` has the key.
pub fn tells_other_key()
    ensures { TellsOtherKey }
{}

/// So it is of entries that were put for an index that is being made.
pub fn tells_other_put()
    ensures { TellsOtherPut }
{}
