//! `find` in the order of its walk: a batch is spelled while the collection is walked through, and a cursor goes on from there.

ghost use Rattle.std.specs.Prelude.{◌≡◌, ◌-◌, ◌≤◌, true, IfOk, Some, length};
ghost use Rattle.database_model.specs.Find.{run_find};
ghost use Rattle.database_model.specs.World.{documents_of};
ghost use Rattle.engine.specs.Durable.{disk_history, file_of, has_changes, IsSound};
ghost use Rattle.engine.specs.Performing.{RunsReadingCommand};
ghost use Rattle.engine.specs.TakingOut.{HasHome};
ghost use Rattle.engine.specs.View.{world};
ghost use Rattle.engine.specs.Walking.{IsFirstAsked, IsWholeWalk};
ghost use Rattle.page.specs.History.{KeepsWord};
ghost use Rattle.walks.specs.Batches.{walk_rest};
ghost use Rattle.queries.specs.IdOrder.{keeps_id_order};
ghost use Rattle.pinned_cursors.specs.Opening.{that_keep};
ghost use Rattle.replies.specs.View.{IsSendable};

use crate::engine::Engine;
use crate::find::enough;
use bson_bytes::SpelledDocument;
use commands::Query;
use cursors::Rest;
use entries::Catalogued;
use opening::GhostState;
use page::Disk;
use path::Refusal;
use pinned_cursors::{WalkSoFar, open_pinned};
use queries::LookedUp;
use replies::{BatchKind, ConnId};
use walks::{BatchAsked, GivenBatch, Walk};

/// The walk from the beginning that gives what a query asks for.
fn whole_walk(query: &Query) -> Walk<'_>
    ensures { IsWholeWalk query.now result }
{
    Walk {
        filter: &query.filter,
        projection: &query.projection,
        skip: query.skip,
        limit: query.limit,
        from: &[],
    }
}

/// A first batch that is given only where nothing is left behind it, so that its reply says no cursor's number.
fn whole_asked(namespace: &str, most: usize) -> BatchAsked<'_>
    ensures { IsFirstAsked namespace.now most result }
{
    BatchAsked {
        kind: BatchKind::First,
        namespace,
        number: 0,
        most,
    }
}

/// What a query asks for behind so many documents, from a key text on, of those of the collection of a name.
fn rest_from<'a>(
    told: &'a GhostState,
    namespace: &'a str,
    query: &'a Query,
    count: usize,
    from: &'a Vec<u8>,
) -> Rest
    ensures { result.value ≡ walk_rest query.now.filter query.now.projection 0
        (query.now.limit - count) from.now.items
        (documents_of told.now.value.now namespace.now) }
{
    Rest::of(&(told, namespace, query, count, from))
}

impl<D: Disk> Engine<D> {
    /// Finds documents that a query asks for in the order of their `_id`s. Where others are
    /// left behind the first batch, the collections are pinned as they are, and the cursor reads on there.
    pub(crate) fn find_walking(
        &mut self,
        connection: ConnId,
        namespace: &str,
        query: &Query,
        most: usize,
    ) -> Result<SpelledDocument, Refusal>
        requires short { length namespace.now ≤ 255 }
        requires sound { IsSound D.history self.old }
        requires in_order { keeps_id_order query.now.sort ≡ true }
        ensures performs { RunsReadingCommand D.history
            (run_find (world self.old) connection
            (record { namespace = namespace.now; query = query.now; batch_size = Some most }))
            result self.old self.new }
        ensures has_changes { has_changes self.new ≡ has_changes self.old }
        ensures keep { that_keep self.new.cursors ≡ that_keep self.old.cursors }
        ensures sendable { IfOk result (λ d. IsSendable d) }
    {
        let Some(home) = self.catalogued(namespace)? else {
            return self.give_none(connection, namespace, query, most);
        };
        let walk = whole_walk(query);
        let asked = whole_asked(namespace, most);
        let Some(found) = self.looked_up(&home, &walk, &asked, enough(query))? else {
            return self.give_walked(connection, namespace, &home, query, most);
        };
        match found {
            LookedUp::Batch(batch) => Ok(batch.reply),
            LookedUp::Documents(found) => {
                self.give_listed(connection, namespace, &home, query, found, most)
            }
        }
    }

    /// Gives a first batch of a walk through the collection of a name, of which the catalogue has this, and opens a cursor that
    /// goes on from there.
    fn give_walked(
        &mut self,
        connection: ConnId,
        namespace: &str,
        home: &Catalogued,
        query: &Query,
        most: usize,
    ) -> Result<SpelledDocument, Refusal>
        requires short { length namespace.now ≤ 255 }
        requires sound { IsSound D.history self.old }
        requires in_order { keeps_id_order query.now.sort ≡ true }
        requires home { KeepsWord (disk_history D.history self.old)
            → HasHome (world self.old).collections namespace.now home.now }
        ensures performs { RunsReadingCommand D.history
            (run_find (world self.old) connection
            (record { namespace = namespace.now; query = query.now; batch_size = Some most }))
            result self.old self.new }
        ensures has_changes { has_changes self.new ≡ has_changes self.old }
        ensures keep { that_keep self.new.cursors ≡ that_keep self.old.cursors }
        ensures sendable { IfOk result (λ d. IsSendable d) }
    {
        let walk = whole_walk(query);
        let number = self.cursors.next_number(connection);
        let asked = BatchAsked {
            kind: BatchKind::First,
            namespace,
            number: number.unwrap_or(0),
            most,
        };
        let batch = self.walked(home, &walk, &asked)?;
        let GivenBatch { reply, count, next } = batch;
        let Some(from) = next else {
            return Ok(reply);
        };
        if number.is_none() {
            return Err(Refusal::TooMany);
        }
        let rest = rest_from(&self.told, namespace, query, count, &from);
        let left = WalkSoFar {
            number: home.number,
            walk: &walk,
            count,
            from,
        };
        let cursors = &mut self.cursors;
        open_pinned(&mut self.file, cursors, connection, namespace, left, rest)?;
        Ok(reply)
    }
}
