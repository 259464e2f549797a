//! `listIndexes`: what defines the indexes of a collection.

ghost use Rattle.std.specs.Prelude.{◌≡◌, ◌≤◌, IfOk, length};
ghost use Rattle.std.specs.List.{AllByRecursion};
ghost use Rattle.index.specs.Definition.{IsDefinition};
ghost use Rattle.engine.specs.Durable.{has_changes, IsSound};
ghost use Rattle.database_model.specs.ListIndexes.{described_all, described_id, described_index, indexes_reply, run_list_indexes};
ghost use Rattle.engine.specs.Performing.{RunsReadingCommand};
ghost use Rattle.database_model.specs.Refusals.{ok_reply};
ghost use Rattle.replies.specs.View.{IsSendable};
ghost use Rattle.engine.specs.View.{world};

use crate::engine::Engine;
use bson::{Document, NoMemory, Value};
use bson_bytes::SpelledDocument;
use index::IndexSpec;
use page::Disk;
use path::Refusal;
use replies::{described_document, put, whole_reply};
use std::alloc::Global;

/// What is said of the index on `_id`, which every collection has.
fn described_id(alloc: Global) -> Result<Document, NoMemory>
    ensures { IfOk result (λ d. d ≡ described_id) }
{
    let mut key = Document::new(alloc);
    put(&mut key, "_id", Value::Int32(1))?;
    described_document(alloc, key, "_id_", true)
}

/// What is said of an index.
fn described_index(alloc: Global, index: &IndexSpec) -> Result<Document, NoMemory>
    ensures { IfOk result (λ d. d ≡ described_index index.now) }
{
    let key = index.key(alloc)?;
    described_document(alloc, key, index.name(), index.is_unique())
}

/// What is said of the index on `_id`, and of each of these.
fn described_all(alloc: Global, indexes: &[IndexSpec]) -> Result<Vec<Document>, NoMemory>
    ensures all { IfOk result (λ v. v.items ≡ described_all indexes.now) }
    ensures lawful { IfOk result (λ _. AllByRecursion IsDefinition indexes.now) }
{
    let mut described = Vec::new(alloc);
    described.push(described_id(alloc)?)?;
    'indexes: for index in indexes {
        let _number = index.number();
        described.push(described_index(alloc, index)?)?;
    }
    Ok(described)
}

/// The reply that lists these indexes of a collection, all in one batch.
fn indexes_reply(
    alloc: Global,
    namespace: &str,
    indexes: &[IndexSpec],
) -> Result<SpelledDocument, NoMemory>
    requires short { length namespace.now ≤ 255 }
    requires few { length indexes.now ≤ 16 }
    ensures reply { IfOk result (λ d. d ≡ ok_reply (indexes_reply namespace.now indexes.now)) }
    ensures sendable { IfOk result (λ d. IsSendable d) }
{
    let described = described_all(alloc, indexes)?;
    whole_reply(alloc, namespace, &described)
}

impl<D: Disk> Engine<D> {
    /// Lists the indexes of a collection; `NamespaceNotFound` where there is none of its name.
    pub(crate) fn list_indexes(&mut self, namespace: &str) -> Result<SpelledDocument, Refusal>
        requires short { length namespace.now ≤ 255 }
        requires sound { IsSound D.history self.old }
        ensures performs { RunsReadingCommand D.history
            (run_list_indexes (world self.old) (record { namespace = namespace.now }))
            result self.old self.new }
        ensures has_changes { has_changes self.new ≡ has_changes self.old }
        ensures sendable { IfOk result (λ d. IsSendable d) }
    {
        let Some(home) = self.catalogued(namespace)? else {
            return Err(Refusal::NamespaceNotFound);
        };
        Ok(indexes_reply(self.alloc, namespace, &home.indexes)?)
    }
}
