//! Documents that commands write enter their collection, as edits of the file.

ghost use Rattle.std.specs.Prelude.{◌≡◌, ◌≤◌, [], IfOk, length, option_map};
ghost use Rattle.collections.specs.Lookups.{IsWithinLimits};
ghost use Rattle.entries.specs.KeyedDocuments.{AreKeyed};
ghost use Rattle.entry_model.specs.LawfulState.{IsStorable};
ghost use Rattle.engine.specs.Durable.{IsSound};
ghost use Rattle.engine.specs.Looking.{LooksOf};
ghost use Rattle.engine.specs.Storing.{AreNoted, IsBeside, IsFull, MayEnter, Notes, TellsDuplicate, TellsTaken, entering};
ghost use Rattle.engine.specs.Trying.{MayRefuse};
ghost use Rattle.statements.specs.Updating.{MayBePut};
ghost use Rattle.engine.specs.View.{world};
ghost use Rattle.database_model.specs.Documents.{key_of};
ghost use Rattle.database_model.specs.World.{collection_of};
ghost use Rattle.value_order.specs.KeyText.{tree_text};

use crate::engine::Engine;
use bson::Document;
use entries::{Catalogued, Edits, Keyed};
use page::Disk;
use path::Refusal;
use stored_documents::id_text;

impl<D: Disk> Engine<D> {
    /// The collection of a name, as the catalogue has it. Where it is missing, the edits make it; `TooMany` where it would be
    /// one too many.
    pub(crate) fn target(
        &mut self,
        edits: &mut Edits,
        namespace: &str,
    ) -> Result<Catalogued, Refusal>
        requires none { edits.old ≡ [] }
        requires short { length namespace.now ≤ 255 }
        requires sound { IsSound D.history self.old }
        ensures tries { MayRefuse D.history
            (λ home. AreNoted (world self.old).collections namespace.now home edits.new
            (collection_of (world self.old).collections namespace.now))
            (IsFull (world self.old).collections namespace.now)
            result self.old self.new }
        ensures limits { IfOk result IsWithinLimits }
    {
        if let Some(home) = self.catalogued(namespace)? {
            return Ok(home);
        }
        let number = self.new_number()?;
        edits.put_collection(namespace, number)?;
        Ok(Catalogued {
            number,
            indexes: Vec::new(self.alloc),
        })
    }

    /// Whether a document may not enter: its `_id` is there, if it is to be new, or one of its keys in a unique index.
    fn is_duplicate(
        &mut self,
        edits: &Edits,
        home: &Catalogued,
        id: &[u8],
        keyed: &Keyed<'_>,
        is_new: bool,
    ) -> Result<bool, Refusal>
        requires sound { IsSound D.history self.old }
        requires keyed { AreKeyed home.now.indexes.items keyed.now }
        ensures { LooksOf D.history (IsBeside home.now edits.now id.now keyed.now)
            (TellsDuplicate is_new keyed.now) result self.old self.new }
    {
        if !is_new {
            return self.is_taken(edits, home, id, keyed);
        }
        if self.file.has_noted(edits, home.number, id)? {
            return Ok(true);
        }
        self.is_taken(edits, home, id, keyed)
    }

    /// Whether another document has one of its keys in a unique index.
    fn is_taken(
        &mut self,
        edits: &Edits,
        home: &Catalogued,
        id: &[u8],
        keyed: &Keyed<'_>,
    ) -> Result<bool, Refusal>
        requires sound { IsSound D.history self.old }
        requires keyed { AreKeyed home.now.indexes.items keyed.now }
        ensures { LooksOf D.history (IsBeside home.now edits.now id.now keyed.now)
            (TellsTaken keyed.now) result self.old self.new }
    {
        self.file
            .is_taken(edits, home.number, &home.indexes, &keyed.keys, id)
    }

    /// Notes that a document is written to the collection of a name, in place of the one that is passed, or as a new one, with
    /// its entries in the indexes.
    ///
    /// The first of these refusals: `KeyTooLong`, `CannotIndexParallelArrays`, each in any of the indexes, `DuplicateKey` where
    /// it is new and its `_id` is there, or where another document has one of its keys in a unique index.
    pub(crate) fn enter(
        &mut self,
        edits: &mut Edits,
        namespace: &str,
        home: &mut Catalogued,
        replaced: Option<&Document>,
        document: &Document,
    ) -> Result<(), Refusal>
        requires sound { IsSound D.history self.old }
        requires short { length namespace.now ≤ 255 }
        requires limits { IsWithinLimits home.old }
        requires puttable { MayBePut document.now }
        ensures notes { Notes D.history namespace.now
            (MayEnter (option_map (λ d. d.now) replaced.entry) document.now)
            (entering (option_map (λ d. d.now) replaced.entry) document.now)
            home.old home.new edits.old edits.new result self.old self.new }
        ensures limits { IsWithinLimits home.new }
    {
        let id = id_text(self.alloc, document)?;
        let keyed = Keyed::new(self.alloc, &home.indexes, document)?;
        self.enter_keyed(edits, namespace, home, replaced, &id, &keyed)
    }

    /// The same of a document whose `_id` has this key text, and that has these keys.
    fn enter_keyed(
        &mut self,
        edits: &mut Edits,
        namespace: &str,
        home: &mut Catalogued,
        replaced: Option<&Document>,
        id: &[u8],
        keyed: &Keyed<'_>,
    ) -> Result<(), Refusal>
        requires sound { IsSound D.history self.old }
        requires short { length namespace.now ≤ 255 }
        requires limits { IsWithinLimits home.old }
        requires storable { IsStorable keyed.now.document.now }
        requires text { id.now ≡ tree_text (key_of keyed.now.document.now) }
        requires keyed { AreKeyed home.old.indexes.items keyed.now }
        ensures notes { Notes D.history namespace.now
            (MayEnter (option_map (λ d. d.now) replaced.entry) keyed.now.document.now)
            (entering (option_map (λ d. d.now) replaced.entry) keyed.now.document.now)
            home.old home.new edits.old edits.new result self.old self.new }
        ensures limits { IsWithinLimits home.new }
    {
        if self.is_duplicate(edits, home, id, keyed, replaced.is_none())? {
            return Err(Refusal::DuplicateKey);
        }
        match replaced {
            None => Ok(edits.enter_document(namespace, home, id, None, keyed)?),
            Some(old) => {
                let old = Keyed::new(self.alloc, &home.indexes, old)?;
                let entered = edits.enter_document(namespace, home, id, Some(&old), keyed);
                drop(old);
                Ok(entered?)
            }
        }
    }
}
