//! What the catalogue says of a collection with indexes, written and read.

ghost use Rattle.std.specs.Prelude.{◌≡◌, ◌≤◌, ◌∷◌, [], IfOk, OnErr, OnOk, length};
ghost use Rattle.std.specs.List.{AllByRecursion};
ghost use Rattle.bson.specs.Spelling.{frame_of, pairs_bytes};
ghost use Rattle.bson.specs.View.{items_of};
ghost use Rattle.index.specs.Definition.{IsDefinition};
ghost use Rattle.entries.specs.EditList.{with_edit};
ghost use Rattle.entries.specs.Indexed.{GoesOnBy, NotesIndexesOf, catalogue_put};
ghost use Rattle.entry_model.specs.StateEntries.{catalogue_value, definition_items};

use crate::edits::Edits;
use crate::entry_keys::catalogue_key;
use crate::entry_values::document_bytes;
use bson::{Array, Document, NoMemory, Value};
use index::{IndexSpec, put_field};
use std::alloc::Global;

/// The definitions of indexes, as the items of an array.
fn definition_values(alloc: Global, indexes: &[IndexSpec]) -> Result<Vec<Value>, NoMemory>
    ensures items { IfOk result (λ v. items_of v.items ≡ definition_items indexes.now) }
    ensures lawful { IfOk result (λ _. AllByRecursion IsDefinition indexes.now) }
{
    let mut values = Vec::with_capacity(alloc, indexes.len())?;
    'indexes: for index in indexes {
        let _number = index.number();
        values.push(Value::Document(index.document(alloc)?))?;
    }
    Ok(values)
}

/// What the catalogue says of a collection with these indexes.
fn catalogue_document(
    alloc: Global,
    number: u32,
    indexes: &[IndexSpec],
) -> Result<Document, NoMemory>
    requires { number ≤ 1000 }
    ensures document { IfOk result (λ document. document ≡ catalogue_value number indexes.now) }
    ensures lawful { IfOk result (λ _. AllByRecursion IsDefinition indexes.now) }
{
    let values = definition_values(alloc, indexes)?;
    let mut document = Document::new(alloc);
    put_field(&mut document, "n", Value::Int32(number as i32))?;
    put_field(&mut document, "x", Value::Array(Array::from_items(values)))?;
    Ok(document)
}

/// The bytes of that.
pub(crate) fn indexed_bytes(
    alloc: Global,
    number: u32,
    indexes: &[IndexSpec],
) -> Result<Vec<u8>, NoMemory>
    requires number { number ≤ 1000 }
    requires few { length indexes.now ≤ 16 }
    ensures bytes { IfOk result (λ bytes. bytes.items
        ≡ frame_of (pairs_bytes (catalogue_value number indexes.now))) }
    ensures short { IfOk result (λ bytes. length bytes.items ≤ 65535) }
{
    let document = catalogue_document(alloc, number, indexes)?;
    document_bytes(alloc, &document)
}

impl Edits {
    /// Notes what the catalogue is to say of a collection: its number and these indexes, as with one more, one less, or one
    /// that is multikey from now on.
    pub fn put_indexes(
        &mut self,
        namespace: &str,
        number: u32,
        indexes: &[IndexSpec],
    ) -> Result<(), NoMemory>
        requires name { length namespace.now ≤ 255 }
        requires number { number ≤ 1000 }
        requires few { length indexes.now ≤ 16 }
        ensures ok { OnOk result (self.new
            ≡ with_edit (catalogue_put namespace.now number indexes.now) self.old) }
        ensures err { OnErr result (self.new ≡ self.old) }
        ensures continues { OnOk result (GoesOnBy self.old
            (catalogue_put namespace.now number indexes.now ∷ []) self.new) }
        ensures leads { OnOk result
            (NotesIndexesOf self.old self.new namespace.now number indexes.now) }
    {
        let alloc = self.allocator();
        let key = catalogue_key(alloc, namespace)?;
        let bytes = indexed_bytes(alloc, number, indexes)?;
        self.note(key, Some(bytes))
    }
}
