//! `find` of documents that are looked up or sorted: the first batch is given of those that were
//! read, and a cursor keeps a list of the `_id`s of the others.

ghost use Rattle.std.specs.Prelude.{◌≡◌, ◌≤◌, ◌≢◌, [], false, All, IfOk, Some, length, map};
ghost use Rattle.database_model.specs.Cursors.{batch_of, first_batch};
ghost use Rattle.database_model.specs.Find.{given, query_result, run_find};
ghost use Rattle.database_model.specs.Lawful.{IsWithin};
ghost use Rattle.database_model.specs.World.{documents_of};
ghost use Rattle.engine.specs.Durable.{disk_history, file_of, has_changes, IsSound};
ghost use Rattle.engine.specs.Performing.{RunsReadingCommand};
ghost use Rattle.engine.specs.View.{world};
ghost use Rattle.engine.specs.Walking.{AreIdsAsked, AreOf};
ghost use Rattle.index.specs.View.{texts_of};
ghost use Rattle.page.specs.History.{KeepsWord};
ghost use Rattle.pinned_cursors.specs.Turns.{Releases};
ghost use Rattle.projection.specs.Projection.{project};
ghost use Rattle.pinned_cursors.specs.Opening.{that_keep};
ghost use Rattle.replies.specs.View.{projected, IsSendable, Runs};

use crate::engine::Engine;
use crate::find::{enough, window};
use bson_bytes::SpelledDocument;
use commands::Query;
use cursors::Rest;
use entries::Catalogued;
use opening::GhostState;
use page::Disk;
use path::Refusal;
use pinned_cursors::{FirstAsked, ListLeft, give_first, open_listed};
use projection::Projection;
use replies::ConnId;
use walks::listed_texts;

/// So many documents that a sort gives are kept while they are sorted; of more the `_id`s and what the sort looks at alone.
const FEW: usize = 1_024;

/// What a projection leaves of documents.
fn rest_of<'a>(projection: &'a Projection, documents: &'a [SpelledDocument]) -> Rest
    ensures { result.value ≡ map (project projection.now) documents.now }
{
    Rest::of(&(projection, documents))
}

/// What a query gives of the documents of the collection of a name.
pub(crate) fn all_asked<'a>(told: &'a GhostState, namespace: &'a str, query: &'a Query) -> Rest
    ensures { result.value
        ≡ query_result query.now (documents_of told.now.value.now namespace.now) }
{
    Rest::of(&(told, namespace, query))
}

impl<D: Disk> Engine<D> {
    /// Finds documents that a query asks for in another order than that of their `_id`s.
    pub(crate) fn find_sorted(
        &mut self,
        connection: ConnId,
        namespace: &str,
        query: &Query,
        most: usize,
    ) -> Result<SpelledDocument, Refusal>
        requires short { length namespace.now ≤ 255 }
        requires sound { IsSound D.history self.old }
        ensures performs { RunsReadingCommand D.history
            (run_find (world self.old) connection
            (record { namespace = namespace.now; query = query.now; batch_size = Some most }))
            result self.old self.new }
        ensures has_changes { has_changes self.new ≡ has_changes self.old }
        ensures keep { that_keep self.new.cursors ≡ that_keep self.old.cursors }
        ensures sendable { IfOk result (λ d. IsSendable d) }
    {
        let Some(home) = self.catalogued(namespace)? else {
            return self.give_none(connection, namespace, query, most);
        };
        let needed = enough(query);
        if needed <= FEW {
            let found = self.ordered(&home, query, needed)?;
            return self.give_listed(connection, namespace, &home, query, found, most);
        }
        let ids = self.ordered_ids(&home, query, needed)?;
        let asked = window(ids, query.skip, query.limit)?;
        self.give_ids(connection, namespace, &home, query, asked, most)
    }

    /// Gives a first batch of the documents that a query asks for, of which these are the `_id`s in its order, and opens a cursor on
    /// the others: each is looked up when it is given.
    fn give_ids(
        &mut self,
        connection: ConnId,
        namespace: &str,
        home: &Catalogued,
        query: &Query,
        texts: Vec<Vec<u8>>,
        most: usize,
    ) -> Result<SpelledDocument, Refusal>
        requires short { length namespace.now ≤ 255 }
        requires sound { IsSound D.history self.old }
        requires there { KeepsWord (disk_history D.history self.old)
            → AreIdsAsked (world self.old).collections namespace.now home.now query.now
            (texts_of texts.items) }
        ensures performs { RunsReadingCommand D.history
            (run_find (world self.old) connection
            (record { namespace = namespace.now; query = query.now; batch_size = Some most }))
            result self.old self.new }
        ensures has_changes { has_changes self.new ≡ has_changes self.old }
        ensures keep { that_keep self.new.cursors ≡ that_keep self.old.cursors }
        ensures sendable { IfOk result (λ d. IsSendable d) }
    {
        let left = ListLeft {
            number: home.number,
            projection: &query.projection,
            texts,
        };
        let rest = all_asked(&self.told, namespace, query);
        let asked = FirstAsked {
            connection,
            namespace,
            most,
        };
        let cursors = &mut self.cursors;
        give_first(self.alloc, &mut self.file, cursors, &asked, left, rest)
    }

    /// Gives a first batch of documents that were found in the collection of a name, of which the catalogue has this, as far as they
    /// are asked for, and opens a cursor that looks the others up.
    pub(crate) fn give_listed(
        &mut self,
        connection: ConnId,
        namespace: &str,
        home: &Catalogued,
        query: &Query,
        found: Vec<SpelledDocument>,
        most: usize,
    ) -> Result<SpelledDocument, Refusal>
        requires short { length namespace.now ≤ 255 }
        requires within { All IsWithin found.items }
        requires sound { IsSound D.history self.old }
        requires there { KeepsWord (disk_history D.history self.old)
            → AreOf (world self.old).collections namespace.now home.now found.items }
        ensures file { Releases self.old.is_changed D.history self.old.file self.new.file
            self.old.cursors self.new.cursors }
        ensures told { self.new.told ≡ self.old.told }
        ensures has_changes { self.new.is_changed ≡ self.old.is_changed }
        ensures keep { that_keep self.new.cursors ≡ that_keep self.old.cursors }
        ensures runs { Runs (world self.old)
            (first_batch (world self.old) connection namespace.now (given query.now found.items)
            (batch_of most (given query.now found.items)))
            (world self.new) result }
        ensures sendable { IfOk result (λ d. IsSendable d) }
    {
        let asked = window(found, query.skip, query.limit)?;
        self.give_by_list(connection, namespace, home, &query.projection, asked, most)
    }

    /// Gives a first batch of documents of which a projection is given, and opens a cursor that looks the others up.
    fn give_by_list(
        &mut self,
        connection: ConnId,
        namespace: &str,
        home: &Catalogued,
        projection: &Projection,
        documents: Vec<SpelledDocument>,
        most: usize,
    ) -> Result<SpelledDocument, Refusal>
        requires short { length namespace.now ≤ 255 }
        requires within { All IsWithin (projected projection.now documents.items) }
        requires sound { IsSound D.history self.old }
        requires there { KeepsWord (disk_history D.history self.old)
            → AreOf (world self.old).collections namespace.now home.now documents.items }
        ensures file { Releases self.old.is_changed D.history self.old.file self.new.file
            self.old.cursors self.new.cursors }
        ensures told { self.new.told ≡ self.old.told }
        ensures has_changes { self.new.is_changed ≡ self.old.is_changed }
        ensures keep { that_keep self.new.cursors ≡ that_keep self.old.cursors }
        ensures runs { let ds = projected projection.now documents.items in
            Runs (world self.old)
            (first_batch (world self.old) connection namespace.now ds (batch_of most ds))
            (world self.new) result }
        ensures sendable { IfOk result (λ d. IsSendable d) }
    {
        let (reply, count) = self
            .cursors
            .first_batch(connection, namespace, projection, &documents, most)?;
        if documents.len() <= count {
            return Ok(reply);
        }
        let behind = &documents[count..];
        let left = ListLeft {
            number: home.number,
            projection,
            texts: listed_texts(self.alloc, behind)?,
        };
        let rest = rest_of(projection, behind);
        let cursors = &mut self.cursors;
        open_listed(&mut self.file, cursors, connection, namespace, left, rest)?;
        Ok(reply)
    }
}
