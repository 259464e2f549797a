//! `find`: which documents, in which order, and what is given of each.

ghost use Rattle.std.specs.Prelude.{◌≡◌, ◌≤◌, [], Some, IfOk, length, drop};
ghost use Rattle.database_model.specs.Cursors.{batch_of, first_batch};
ghost use Rattle.engine.specs.Durable.{has_changes, IsSound};
ghost use Rattle.database_model.specs.Find.{window, given, run_find, FirstAreEnough};
ghost use Rattle.engine.specs.Performing.{RunsReadingCommand};
ghost use Rattle.pinned_cursors.specs.Opening.{that_keep};
ghost use Rattle.replies.specs.View.{IsSendable, Runs};
ghost use Rattle.engine.specs.View.{world};

use crate::engine::Engine;
use bson::NoMemory;
use bson_bytes::SpelledDocument;
use commands::Query;
use page::Disk;
use path::Refusal;
use queries::keeps_id_order;
use replies::ConnId;

/// What stands from a place on.
fn behind<T: Drop>(documents: Vec<T>, place: usize) -> Result<Vec<T>, NoMemory>
    ensures { IfOk result (λ v. v.items ≡ drop place documents.items) }
{
    if place == 0 {
        return Ok(documents);
    }
    let mut documents = documents;
    let place = place.min(documents.len());
    documents.split_off(place)
}

/// What is left without those that are skipped and past the limit; a limit of 0 is none.
pub(crate) fn window<T: Drop>(
    documents: Vec<T>,
    skip: usize,
    limit: usize,
) -> Result<Vec<T>, NoMemory>
    ensures { IfOk result (λ v. v.items ≡ window skip limit documents.items) }
{
    let mut rest = behind(documents, skip)?;
    if limit == 0 {
        return Ok(rest);
    }
    rest.truncate(limit);
    Ok(rest)
}

/// So many of the documents that match, in their order, are enough: all, or none past the limit.
pub(crate) fn enough(query: &Query) -> usize
    ensures { FirstAreEnough query.now result }
{
    if query.limit == 0 {
        return usize::MAX;
    }
    query.skip.saturating_add(query.limit)
}

impl<D: Disk> Engine<D> {
    /// Finds documents, and gives a first batch of them. Where others are left, it opens a cursor on them; `TooMany` where
    /// the connection may open none.
    pub(crate) fn find(
        &mut self,
        connection: ConnId,
        namespace: &str,
        query: &Query,
        most: usize,
    ) -> Result<SpelledDocument, Refusal>
        requires short { length namespace.now ≤ 255 }
        requires sound { IsSound D.history self.old }
        ensures performs { RunsReadingCommand D.history
            (run_find (world self.old) connection
            (record { namespace = namespace.now; query = query.now; batch_size = Some most }))
            result self.old self.new }
        ensures has_changes { has_changes self.new ≡ has_changes self.old }
        ensures keep { that_keep self.new.cursors ≡ that_keep self.old.cursors }
        ensures sendable { IfOk result (λ d. IsSendable d) }
    {
        if keeps_id_order(&query.sort) {
            return self.find_walking(connection, namespace, query, most);
        }
        let found = self.find_in_order(connection, namespace, query, most)?;
        match found {
            Some(reply) => Ok(reply),
            None => self.find_sorted(connection, namespace, query, most),
        }
    }

    /// Gives a first batch of no document: there is no collection of the name.
    pub(crate) fn give_none(
        &self,
        connection: ConnId,
        namespace: &str,
        query: &Query,
        most: usize,
    ) -> Result<SpelledDocument, Refusal>
        requires short { length namespace.now ≤ 255 }
        ensures runs { let ds = given query.now [] in Runs (world self.now)
            (first_batch (world self.now) connection namespace.now ds (batch_of most ds))
            (world self.now) result }
        ensures sendable { IfOk result (λ d. IsSendable d) }
    {
        let none: &[SpelledDocument] = &[];
        let (reply, _) = self
            .cursors
            .first_batch(connection, namespace, &query.projection, none, most)?;
        Ok(reply)
    }
}
