//! `find` in the order of an index: its first batch is read in that order, and a cursor goes on from the entry behind it.

ghost use Rattle.std.specs.Prelude.{◌≡◌, ◌≤◌, IfOk, IfSome, Some, length};
ghost use Rattle.database_model.specs.Find.{run_find};
ghost use Rattle.engine.specs.Durable.{disk_history, has_changes, IsSound};
ghost use Rattle.engine.specs.Performing.{MayPerform};
ghost use Rattle.engine.specs.TakingOut.{HasHome};
ghost use Rattle.engine.specs.View.{world};
ghost use Rattle.engine.specs.Walking.{IsWholeOrder};
ghost use Rattle.page.specs.History.{KeepsWord};
ghost use Rattle.pinned_cursors.specs.Opening.{that_keep};
ghost use Rattle.queries.specs.IndexOrder.{IsOrderOf};
ghost use Rattle.replies.specs.View.{IsSendable};

use crate::by_list::all_asked;
use crate::engine::Engine;
use bson_bytes::SpelledDocument;
use commands::Query;
use entries::Catalogued;
use page::Disk;
use path::Refusal;
use pinned_cursors::{FirstAsked, InOrder, give_first_in_order};
use queries::{IndexOrder, order_asked};
use replies::ConnId;
use walks::{MOST_READ, OrderedWalk};

/// So many times entries are read for a first batch where the filter passes over some: where these don't suffice, all that
/// matches is sorted.
const TIMES: usize = 4;

/// No batch has more documents.
const MOST_GIVEN: usize = 200_000;

/// How many times entries are read at most for a batch of so many documents.
fn times_for(most: usize) -> u32 {
    (most.min(MOST_GIVEN) / MOST_READ + TIMES) as u32
}

/// What a query asks for in the order of an index, in its range there.
fn whole_order<'a>(query: &'a Query, order: &'a IndexOrder<'a>) -> OrderedWalk<'a>
    ensures { IsWholeOrder query.now order.now result }
{
    OrderedWalk {
        filter: &query.filter,
        projection: &query.projection,
        index: order.index,
        skip: query.skip,
        limit: query.limit,
        from: &order.first,
        last: &order.last,
    }
}

impl<D: Disk> Engine<D> {
    /// Finds documents that a query asks for in the order of an index, where one is in that order and leads to a first batch soon. `None`
    /// elsewhere: nothing was given.
    pub(crate) fn find_in_order(
        &mut self,
        connection: ConnId,
        namespace: &str,
        query: &Query,
        most: usize,
    ) -> Result<Option<SpelledDocument>, Refusal>
        requires short { length namespace.now ≤ 255 }
        requires sound { IsSound D.history self.old }
        ensures performs { MayPerform D.history
            (run_find (world self.old) connection
            (record { namespace = namespace.now; query = query.now; batch_size = Some most }))
            result self.old self.new }
        ensures has_changes { has_changes self.new ≡ has_changes self.old }
        ensures keep { that_keep self.new.cursors ≡ that_keep self.old.cursors }
        ensures sendable { IfOk result (λ found. IfSome found (λ d. IsSendable d)) }
    {
        let Some(home) = self.catalogued(namespace)? else {
            return Ok(None);
        };
        let order = order_asked(self.alloc, &query.filter, &query.sort, &home.indexes)?;
        match order {
            Some(order) => self.give_in_order(connection, namespace, &home, query, &order, most),
            None => Ok(None),
        }
    }

    /// The same of a collection of which the catalogue has this, in this order.
    fn give_in_order(
        &mut self,
        connection: ConnId,
        namespace: &str,
        home: &Catalogued,
        query: &Query,
        order: &IndexOrder<'_>,
        most: usize,
    ) -> Result<Option<SpelledDocument>, Refusal>
        requires short { length namespace.now ≤ 255 }
        requires sound { IsSound D.history self.old }
        requires home { KeepsWord (disk_history D.history self.old)
            → HasHome (world self.old).collections namespace.now home.now }
        requires order { IsOrderOf query.now.filter query.now.sort home.now.indexes.items
            order.now }
        ensures performs { MayPerform D.history
            (run_find (world self.old) connection
            (record { namespace = namespace.now; query = query.now; batch_size = Some most }))
            result self.old self.new }
        ensures has_changes { has_changes self.new ≡ has_changes self.old }
        ensures keep { that_keep self.new.cursors ≡ that_keep self.old.cursors }
        ensures sendable { IfOk result (λ found. IfSome found (λ d. IsSendable d)) }
    {
        if self.file.is_stopped() {
            return Err(Refusal::StorageFailed);
        }
        let asked = FirstAsked {
            connection,
            namespace,
            most,
        };
        let left = InOrder {
            number: home.number,
            walk: whole_order(query, order),
            times: times_for(most),
        };
        let rest = all_asked(&self.told, namespace, query);
        let cursors = &mut self.cursors;
        give_first_in_order(self.alloc, &mut self.file, cursors, &asked, &left, rest)
    }
}
