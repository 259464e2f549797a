//! `insert`: documents are stored, all or none.

ghost use Rattle.std.specs.Prelude.{◌≡◌, ◌≤◌, IfOk, length};
ghost use Rattle.std.specs.Option.{unwrap_or};
ghost use Rattle.command_model.specs.Insert.{documents_at};
ghost use Rattle.database_model.specs.Documents.{insert_all, insert_one};
ghost use Rattle.database_model.specs.Insert.{inserted, run_insert};
ghost use Rattle.page.specs.History.{KeepsWord};
ghost use Rattle.engine.specs.Durable.{disk_history, has_changes, IsSound};
ghost use Rattle.engine.specs.Performing.{RunsCommand};
ghost use Rattle.collections.specs.Lookups.{IsWithinLimits};
ghost use Rattle.engine.specs.Storing.{IsAny, Notes};
ghost use Rattle.replies.specs.View.{IsSendable};
ghost use Rattle.engine.specs.View.{world};
ghost use Rattle.engine.specs.Writing.{ChangesCollections};

use crate::engine::Engine;
use bson::Document;
use entries::{Catalogued, Edits};
use page::Disk;
use path::Refusal;
use replies::insert_reply;
use stored_documents::stored;

/// The document as it is stored: its copy with `_id` first, or itself where that stands first.
fn as_stored<'a>(moved: &'a Option<Document>, document: &'a Document) -> &'a Document
    ensures { result.now ≡ unwrap_or moved.now document.now }
{
    match moved {
        Some(moved) => moved,
        None => document,
    }
}

impl<D: Disk> Engine<D> {
    /// Stores documents, all or none.
    pub(crate) fn insert(
        &mut self,
        namespace: &str,
        documents: &[&Document],
    ) -> Result<Document, Refusal>
        requires few { length documents.now ≤ 1000 }
        requires some { 1 ≤ length documents.now }
        requires short { length namespace.now ≤ 255 }
        requires sound { IsSound D.history self.old }
        ensures performs { RunsCommand D.history
            (run_insert (world self.old)
            (record { namespace = namespace.now; documents = documents_at documents.now }))
            result self.old self.new }
        ensures has_changes { KeepsWord (disk_history D.history self.new)
            → (world self.new).collections ≡ (world self.old).collections
            → has_changes self.new ≡ has_changes self.old }
        ensures sendable { IfOk result (λ d. IsSendable d) }
    {
        let reply = insert_reply(self.alloc, documents.len())?;
        self.store(namespace, documents)?;
        Ok(reply)
    }

    /// Stores documents in the collection of a name, which is made where it is missing.
    fn store(&mut self, namespace: &str, documents: &[&Document]) -> Result<(), Refusal>
        requires short { length namespace.now ≤ 255 }
        requires sound { IsSound D.history self.old }
        ensures { ChangesCollections D.history
            (inserted (world self.old).collections namespace.now (documents_at documents.now))
            result self.old self.new }
    {
        let mut edits = Edits::new(self.alloc);
        let mut home = self.target(&mut edits, namespace)?;
        self.note_documents(&mut edits, namespace, &mut home, documents)?;
        self.write(&edits, &(namespace, documents))
    }

    /// Notes that documents are stored, in their order, up to the first that is refused.
    fn note_documents(
        &mut self,
        edits: &mut Edits,
        namespace: &str,
        home: &mut Catalogued,
        documents: &[&Document],
    ) -> Result<(), Refusal>
        requires sound { IsSound D.history self.old }
        requires short { length namespace.now ≤ 255 }
        requires limits { IsWithinLimits home.old }
        ensures { Notes D.history namespace.now IsAny
            (λ c. insert_all c (documents_at documents.now))
            home.old home.new edits.old edits.new result self.old self.new }
    {
        'documents: for document in documents {
            self.note_document(edits, namespace, home, document)?;
        }
        Ok(())
    }

    /// Notes that a document is stored; the first refusal of it otherwise.
    fn note_document(
        &mut self,
        edits: &mut Edits,
        namespace: &str,
        home: &mut Catalogued,
        document: &Document,
    ) -> Result<(), Refusal>
        requires sound { IsSound D.history self.old }
        requires short { length namespace.now ≤ 255 }
        requires limits { IsWithinLimits home.old }
        ensures notes { Notes D.history namespace.now IsAny (λ c. insert_one c document.now)
            home.old home.new edits.old edits.new result self.old self.new }
        ensures limits { IsWithinLimits home.new }
    {
        let moved = stored(self.alloc, document)?;
        let document = as_stored(&moved, document);
        self.enter(edits, namespace, home, None, document)
    }
}
