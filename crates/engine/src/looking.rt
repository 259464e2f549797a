//! What commands look up in the file.

ghost use Rattle.std.specs.Prelude.{◌≡◌, ◌<◌, ◌≤◌, ◌^◌, [], All, IfOk, IfSome, length, map, take};
ghost use Rattle.std.specs.List.{filter};
ghost use Rattle.std.specs.Option.{option_map};
ghost use Rattle.collections.specs.Lookups.{IsWithinLimits, catalogued_in, catalogued_of};
ghost use Rattle.sort.specs.Sort.{order};
ghost use Rattle.entry_model.specs.State.{find_collection};
ghost use Rattle.engine.specs.Durable.{IsSound};
ghost use Rattle.database_model.specs.Find.{matching};
ghost use Rattle.database_model.specs.Lawful.{IsWithin};
ghost use Rattle.engine.specs.Looking.{Looks, LooksOf};
ghost use Rattle.engine.specs.TakingOut.{IsHome};
ghost use Rattle.index.specs.View.{texts_of};
ghost use Rattle.walks.specs.Batches.{IsGivenBatch};
ghost use Rattle.walks.specs.Listed.{id_text_of};
ghost use Rattle.queries.specs.LookedUp.{IsLookedUp, IsLookedUpWithin};
ghost use Rattle.replies.specs.View.{IsSendable};

use crate::engine::Engine;
use asked_documents::DocumentPredicate;
use bson_bytes::SpelledDocument;
use commands::Query;
use entries::Catalogued;
use page::Disk;
use path::Refusal;
use queries::{LookedUp, looked_up_first, ordered_ids_in, ordered_in, selected_in};
use replies::SharedDocument;
use walks::{BatchAsked, GivenBatch, Walk, batch_of_turn};

impl<D: Disk> Engine<D> {
    /// The number and the indexes of the collection of a name, if there is one.
    pub(crate) fn catalogued(&mut self, namespace: &str) -> Result<Option<Catalogued>, Refusal>
        requires { IsSound D.history self.old }
        ensures looks { Looks D.history (λ now found. option_map catalogued_of found
            ≡ option_map catalogued_in (find_collection now namespace.now))
            result self.old self.new }
        ensures limits { IfOk result (λ found. IfSome found IsWithinLimits) }
    {
        self.file.catalogued(namespace)
    }

    /// The number of the collection of a name, if there is one.
    pub(crate) fn number_of(&mut self, namespace: &str) -> Result<Option<u32>, Refusal>
        requires { IsSound D.history self.old }
        ensures { Looks D.history
            (λ now found. found ≡ option_map (λ c. c.number) (find_collection now namespace.now))
            result self.old self.new }
    {
        self.file.number_of(namespace)
    }

    /// The documents of a collection that are looked for, in ascending order of `_id`: the first ones, up to so many.
    pub(crate) fn selected<S: DocumentPredicate>(
        &mut self,
        home: &Catalogued,
        which: &S,
        most: usize,
    ) -> Result<Vec<SharedDocument>, Refusal>
        requires { IsSound D.history self.old }
        ensures looks { LooksOf D.history (λ now c. IsHome now c home.now)
            (λ now c found. found.items ≡ take most (filter (S.selects which.now) c.documents))
            result self.old self.new }
        ensures within { IfOk result (λ found. All IsWithin found.items) }
    {
        selected_in(self.alloc, &mut self.file, home, which, most)
    }

    /// The documents of a collection that match a query, in its order: the first ones, up to so many.
    pub(crate) fn ordered(
        &mut self,
        home: &Catalogued,
        query: &Query,
        most: usize,
    ) -> Result<Vec<SpelledDocument>, Refusal>
        requires { IsSound D.history self.old }
        ensures looks { LooksOf D.history (λ now c. IsHome now c home.now)
            (λ now c found. found.items
            ≡ take most (order query.now.sort (matching query.now.filter c.documents)))
            result self.old self.new }
        ensures within { IfOk result (λ found. All IsWithin found.items) }
    {
        ordered_in(
            self.alloc,
            &mut self.file,
            home,
            &query.filter,
            &query.sort,
            most,
        )
    }

    /// The key texts of the `_id`s of the same documents, in the same order.
    pub(crate) fn ordered_ids(
        &mut self,
        home: &Catalogued,
        query: &Query,
        most: usize,
    ) -> Result<Vec<Vec<u8>>, Refusal>
        requires { IsSound D.history self.old }
        ensures { LooksOf D.history (λ now c. IsHome now c home.now)
            (λ now c ids. texts_of ids.items ≡ map id_text_of
            (take most (order query.now.sort (matching query.now.filter c.documents))))
            result self.old self.new }
    {
        ordered_ids_in(
            self.alloc,
            &mut self.file,
            home,
            &query.filter,
            &query.sort,
            most,
        )
    }

    /// What is looked up of what a walk gives of a collection from its beginning: a batch that has all of it, or the first documents that
    /// match, up to so many. `None`: only a walk through the collection tells them.
    pub(crate) fn looked_up(
        &mut self,
        home: &Catalogued,
        walk: &Walk<'_>,
        asked: &BatchAsked<'_>,
        most: usize,
    ) -> Result<Option<LookedUp>, Refusal>
        requires short { length asked.now.namespace.now ≤ 255 }
        requires number { asked.now.number < 2 ^ 63 }
        requires from { walk.now.from.now ≡ [] }
        requires sound { IsSound D.history self.old }
        ensures looks { LooksOf D.history (λ now c. IsHome now c home.now)
            (λ now c found. IfSome found (IsLookedUp walk.now asked.now most c.documents))
            result self.old self.new }
        ensures within { IfOk result (λ found. IfSome found IsLookedUpWithin) }
    {
        looked_up_first(self.alloc, &mut self.file, home, walk, asked, most)
    }

    /// A batch of what a walk gives of the documents of a collection.
    pub(crate) fn walked(
        &mut self,
        home: &Catalogued,
        walk: &Walk<'_>,
        asked: &BatchAsked<'_>,
    ) -> Result<GivenBatch, Refusal>
        requires short { length asked.now.namespace.now ≤ 255 }
        requires number { asked.now.number < 2 ^ 63 }
        requires sound { IsSound D.history self.old }
        ensures looks { LooksOf D.history (λ now c. IsHome now c home.now)
            (λ now c b. IsGivenBatch walk.now asked.now c.documents b)
            result self.old self.new }
        ensures sendable { IfOk result (λ b. IsSendable b.reply) }
    {
        batch_of_turn(self.alloc, &mut self.file, home, walk, asked)
    }
}
