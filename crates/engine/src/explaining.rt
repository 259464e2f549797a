//! `explain`: how a find looks for its documents.

ghost use Rattle.std.specs.Prelude.{◌≡◌, IfOk};
ghost use Rattle.database_model.specs.Explain.{explain_reply, run_explain};
ghost use Rattle.database_model.specs.Refusals.{ok_reply};
ghost use Rattle.engine.specs.Durable.{has_changes, IsSound};
ghost use Rattle.engine.specs.Performing.{RunsReadingCommand};
ghost use Rattle.engine.specs.View.{world};
ghost use Rattle.plan_model.specs.Explaining.{explain_text};
ghost use Rattle.planner.specs.View.{plan_of};
ghost use Rattle.replies.specs.View.{IsSendable};

use crate::engine::Engine;
use bson::{Document, NoMemory};
use commands::Query;
use page::Disk;
use path::Refusal;
use planner::{Plan, choose, explain_text};
use replies::explain_reply;
use std::alloc::Global;

/// The reply that says a plan.
fn plan_reply(alloc: Global, plan: &Plan<'_>) -> Result<Document, NoMemory>
    ensures reply { IfOk result (λ d.
        d ≡ ok_reply (explain_reply (explain_text (plan_of plan.now)))) }
    ensures sendable { IfOk result (λ d. IsSendable d) }
{
    let text = explain_text(alloc, plan)?;
    explain_reply(alloc, text.as_str())
}

impl<D: Disk> Engine<D> {
    /// Says how a find would look for its documents. A missing collection is scanned.
    pub(crate) fn explain(&mut self, namespace: &str, query: &Query) -> Result<Document, Refusal>
        requires { IsSound D.history self.old }
        ensures performs { RunsReadingCommand D.history
            (run_explain (world self.old)
            (record { namespace = namespace.now; query = query.now }))
            result self.old self.new }
        ensures has_changes { has_changes self.new ≡ has_changes self.old }
        ensures sendable { IfOk result (λ d. IsSendable d) }
    {
        let Some(home) = self.catalogued(namespace)? else {
            return Ok(plan_reply(self.alloc, &Plan::Scan)?);
        };
        let plan = choose(&query.filter, &query.sort, &home.indexes);
        Ok(plan_reply(self.alloc, &plan)?)
    }
}
