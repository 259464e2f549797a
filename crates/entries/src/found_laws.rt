//! Laws of what is found in a state, as contracts.

ghost use Rattle.entries.specs.EditList.{PutWhatTheyHave};
ghost use Rattle.entry_model.specs.FoundLaws.{FieldIsKey, FindsPut, FoundCollection, FoundDocument, PutTwice, ShortIsKey, StoredIsKey, WithoutPut};

/// A collection that is found is within the limits.
pub fn found_collection()
    ensures { FoundCollection }
{}

/// A document that is found may be stored, and has that `_id`.
pub fn found_document()
    ensures { FoundDocument }
{}

/// A collection that was put is found.
pub fn finds_put()
    ensures { FindsPut }
{}

/// A collection that was put twice stands once.
pub fn put_twice()
    ensures { PutTwice }
{}

/// A collection that was put and goes leaves what goes without it.
pub fn without_put()
    ensures { WithoutPut }
{}

/// The `_id` of a stored document is a key.
pub fn stored_is_key()
    ensures { StoredIsKey }
{}

/// A field of a document that a message has room for is a key.
pub fn field_is_key()
    ensures { FieldIsKey }
{}

/// A value with a short key text is a key.
pub fn short_is_key()
    ensures { ShortIsKey }
{}

/// Edits put what they have for a key, and leave what stands at another.
pub fn put_what_they_have()
    ensures { PutWhatTheyHave }
{}
