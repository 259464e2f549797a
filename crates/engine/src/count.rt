//! `count`: how many documents match.

ghost use Rattle.std.specs.Prelude.{◌≡◌, IfOk, List, length};
ghost use Rattle.bson.specs.Tree.{Pairs};
ghost use Rattle.database_model.specs.Count.{run_count};
ghost use Rattle.engine.specs.Durable.{has_changes, IsSound};
ghost use Rattle.database_model.specs.Find.{matching, window};
ghost use Rattle.engine.specs.Looking.{Looks};
ghost use Rattle.engine.specs.Performing.{RunsReadingCommand};
ghost use Rattle.replies.specs.View.{IsSendable};
ghost use Rattle.engine.specs.View.{world};
ghost use Rattle.database_model.specs.World.{documents_of};

use crate::engine::Engine;
use bson::Document;
use filter::Filter;
use page::Disk;
use path::Refusal;
use queries::count_in;
use replies::total_reply;

/// How many of so many are left after those that are skipped and up to the limit; a limit of 0 is none.
fn within_window(count: usize, skip: usize, limit: usize) -> usize
    ensures { (ds : List Pairs) → count ≡ length ds → result ≡ length (window skip limit ds) }
{
    let rest = count.saturating_sub(skip);
    if limit == 0 { rest } else { rest.min(limit) }
}

impl<D: Disk> Engine<D> {
    /// How many documents of a collection match a filter. A missing collection reads as empty.
    fn count_of(&mut self, namespace: &str, filter: &Filter) -> Result<usize, Refusal>
        requires { IsSound D.history self.old }
        ensures { Looks D.history
            (λ now count. count
            ≡ length (matching filter.now (documents_of now namespace.now)))
            result self.old self.new }
    {
        let Some(home) = self.catalogued(namespace)? else {
            return Ok(0);
        };
        count_in(self.alloc, &mut self.file, &home, filter)
    }

    /// Counts the documents that match a filter, after those that are skipped and up to the limit.
    pub(crate) fn count(
        &mut self,
        namespace: &str,
        filter: &Filter,
        skip: usize,
        limit: usize,
    ) -> Result<Document, Refusal>
        requires sound { IsSound D.history self.old }
        ensures performs { RunsReadingCommand D.history
            (run_count (world self.old)
            (record { namespace = namespace.now; filter = filter.now; skip = skip; limit = limit }))
            result self.old self.new }
        ensures has_changes { has_changes self.new ≡ has_changes self.old }
        ensures sendable { IfOk result (λ d. IsSendable d) }
    {
        let count = self.count_of(namespace, filter)?;
        let number = within_window(count, skip, limit);
        Ok(total_reply(self.alloc, number)?)
    }
}
