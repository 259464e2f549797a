//! `listCollections`: the names of a database's collections.

ghost use Rattle.std.specs.Prelude.{◌≡◌, ◌++◌, ◌≤◌, All, IfOk, length, map, option_map, string_bytes};
ghost use Rattle.collections.specs.Lookups.{name_of};
ghost use Rattle.database_model.specs.ListCollections.{name_in, names_behind, names_in, listed, run_list_collections};
ghost use Rattle.engine.specs.Durable.{has_changes, IsSound};
ghost use Rattle.engine.specs.Looking.{Looks};
ghost use Rattle.engine.specs.Performing.{RunsReadingCommand};
ghost use Rattle.database_model.specs.Lawful.{IsWithin};
ghost use Rattle.replies.specs.View.{IsSendable};
ghost use Rattle.engine.specs.View.{world};

use crate::engine::Engine;
use bson::{Document, NoMemory};
use bson_bytes::SpelledDocument;
use collections::Name;
use page::Disk;
use path::Refusal;
use replies::{listed_document, whole_reply};
use std::alloc::Global;
use walks::are_within;

/// The name of a collection without its database, where the namespace begins with this.
fn name_in<'a>(database: &str, namespace: &'a str) -> Option<&'a str>
    ensures { option_map (λ s. s.now) result ≡ name_in database.now namespace.now }
{
    namespace.strip_prefix(database)
}

/// What is said of the collections whose namespaces begin with this.
fn listed_in(alloc: Global, database: &str, names: &[Name]) -> Result<Vec<Document>, NoMemory>
    ensures { IfOk result (λ v. v.items
        ≡ map listed (names_behind database.now (map name_of names.now))) }
{
    let mut listed = Vec::new(alloc);
    'names: for of in names {
        if let Some(name) = name_in(database, of.namespace.as_str()) {
            listed.push(listed_document(alloc, name)?)?;
        }
    }
    Ok(listed)
}

/// A database's name and what stands behind it.
fn joined(alloc: Global, database: &str, behind: &str) -> Result<String, NoMemory>
    ensures { IfOk result (λ s. string_bytes s ≡ database.now ++ behind.now) }
{
    let mut joined = String::from_str(alloc, database)?;
    joined.push_str(behind)?;
    Ok(joined)
}

impl<D: Disk> Engine<D> {
    /// What is said of the collections whose namespaces begin with this. Where that is over the limits of documents, a disk gave
    /// their names.
    fn listed(&mut self, front: &str) -> Result<Vec<Document>, Refusal>
        requires { IsSound D.history self.old }
        ensures looks { Looks D.history
            (λ now found. found.items ≡ map listed (names_in front.now now))
            result self.old self.new }
        ensures within { IfOk result (λ found. All IsWithin found.items) }
    {
        let names = self.file.names()?;
        let listed = listed_in(self.alloc, front, &names)?;
        if !are_within(&listed) {
            return Err(Refusal::StorageFailed);
        }
        Ok(listed)
    }

    /// Lists the collections of a database, all in one batch.
    pub(crate) fn list_collections(&mut self, database: &str) -> Result<SpelledDocument, Refusal>
        requires short { length database.now ≤ 63 }
        requires sound { IsSound D.history self.old }
        ensures performs { RunsReadingCommand D.history
            (run_list_collections (world self.old) (record { database = database.now }))
            result self.old self.new }
        ensures has_changes { has_changes self.new ≡ has_changes self.old }
        ensures sendable { IfOk result (λ d. IsSendable d) }
    {
        let front = joined(self.alloc, database, ".")?;
        let namespace = joined(self.alloc, database, ".$cmd.listCollections")?;
        let listed = self.listed(front.as_str())?;
        Ok(whole_reply(self.alloc, namespace.as_str(), &listed)?)
    }
}
