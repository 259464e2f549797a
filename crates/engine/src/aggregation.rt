//! `aggregate`: what a pipeline makes of the documents of a collection.

ghost use Rattle.std.specs.Prelude.{◌≡◌, ◌≤◌, Some, All, IfOk, length};
ghost use Rattle.pipelines.specs.View.{pipeline_of};
ghost use Rattle.database_model.specs.Aggregate.{run_aggregate};
ghost use Rattle.database_model.specs.Cursors.{batch_of, first_batch};
ghost use Rattle.engine.specs.Durable.{has_changes, IsSound};
ghost use Rattle.database_model.specs.Lawful.{IsWithin};
ghost use Rattle.engine.specs.Looking.{Looks};
ghost use Rattle.engine.specs.Performing.{RunsReadingCommand};
ghost use Rattle.pinned_cursors.specs.Turns.{Releases};
ghost use Rattle.queries.specs.Piping.{Pipes};
ghost use Rattle.replies.specs.View.{IsSendable, Runs};
ghost use Rattle.engine.specs.View.{world};
ghost use Rattle.database_model.specs.World.{documents_of};

use crate::engine::Engine;
use aggregate::run;
use bson::Document;
use bson_bytes::SpelledDocument;
use page::Disk;
use path::Refusal;
use pipelines::Pipeline;
use projection::Projection;
use queries::piped_in;
use replies::{ConnId, spelled_all};
use stored_documents::STORED_LIMIT;

impl<D: Disk> Engine<D> {
    /// What a pipeline makes of the documents of a collection, or its refusal. A missing collection reads as empty.
    fn piped(
        &mut self,
        namespace: &str,
        pipeline: &Pipeline,
    ) -> Result<Result<Vec<Document>, Refusal>, Refusal>
        requires { IsSound D.history self.old }
        ensures looks { Looks D.history
            (λ now given. Pipes (pipeline_of pipeline.now) given (documents_of now namespace.now))
            result self.old self.new }
        ensures within { IfOk result (λ given. IfOk given (λ v. All IsWithin v.items)) }
    {
        let Some(home) = self.catalogued(namespace)? else {
            return Ok(run(pipeline, Vec::new(self.alloc), STORED_LIMIT as u32));
        };
        piped_in(self.alloc, &mut self.file, &home, pipeline)
    }

    /// Gives a first batch of what a pipeline makes of a collection's documents. Where others are left, it opens a cursor on
    /// them; `TooMany` where the connection may open none.
    pub(crate) fn aggregate(
        &mut self,
        connection: ConnId,
        namespace: &str,
        pipeline: &Pipeline,
        most: usize,
    ) -> Result<SpelledDocument, Refusal>
        requires short { length namespace.now ≤ 255 }
        requires sound { IsSound D.history self.old }
        ensures performs { RunsReadingCommand D.history
            (run_aggregate (world self.old) connection (record {
              namespace = namespace.now;
              pipeline = pipeline_of pipeline.now;
              batch_size = Some most;
            }))
            result self.old self.new }
        ensures has_changes { has_changes self.new ≡ has_changes self.old }
        ensures sendable { IfOk result (λ d. IsSendable d) }
    {
        let piped = self.piped(namespace, pipeline)?;
        let given = piped?;
        self.give_all(connection, namespace, given, most)
    }

    /// Gives a first batch of documents, and opens a cursor on the others.
    fn give_all(
        &mut self,
        connection: ConnId,
        namespace: &str,
        given: Vec<Document>,
        most: usize,
    ) -> Result<SpelledDocument, Refusal>
        requires short { length namespace.now ≤ 255 }
        requires within { All IsWithin given.items }
        ensures file { Releases self.old.is_changed D.history self.old.file self.new.file
            self.old.cursors self.new.cursors }
        ensures told { self.new.told ≡ self.old.told }
        ensures has_changes { self.new.is_changed ≡ self.old.is_changed }
        ensures runs { Runs (world self.old)
            (first_batch (world self.old) connection namespace.now given.items
            (batch_of most given.items))
            (world self.new) result }
        ensures sendable { IfOk result (λ d. IsSendable d) }
    {
        let whole = Projection::new(self.alloc);
        let (reply, count) = self
            .cursors
            .first_batch(connection, namespace, &whole, &given, most)?;
        if given.len() <= count {
            return Ok(reply);
        }
        let rest = spelled_all(self.alloc, &given[count..])?;
        self.cursors.open_kept(connection, namespace, rest, whole)?;
        Ok(reply)
    }
}
