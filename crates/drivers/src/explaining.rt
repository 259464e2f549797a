//! What drivers are told of a plan.

ghost use Rattle.std.specs.Prelude.{◌≡◌, IfOk, codes};
ghost use Rattle.bson.specs.Lookup.{lookup};
ghost use Rattle.bson.specs.Tree.{document, no_pairs, pair};
ghost use Rattle.drivers.specs.Explaining.{explained};
ghost use Rattle.driver_replies.specs.Fields.{words};

use bson::{Document, NoMemory, Value};
use driver_replies::{Fact, document_of, put};
use std::alloc::Global;

/// A plan of one stage.
fn planner(alloc: Global, stage: &str) -> Result<Document, NoMemory>
    ensures { IfOk result (λ d. d ≡ pair (codes "winningPlan")
        (document (pair (codes "stage") (words stage.now) no_pairs)) no_pairs) }
{
    let stage = document_of(alloc, &[("stage", Fact::Text(stage))])?;
    let mut planner = Document::new(alloc);
    put(&mut planner, "winningPlan", Value::Document(stage))?;
    Ok(planner)
}

/// The reply to an `explain`, as drivers expect it.
pub(crate) fn explained(alloc: Global, reply: Document) -> Result<Document, NoMemory>
    ensures { IfOk result (λ d. d ≡ explained (lookup reply (codes "plan")) reply) }
{
    let Some(Value::String(stage)) = reply.get("plan") else {
        return Ok(reply);
    };
    let planner = planner(alloc, stage.as_str())?;
    let mut told = Document::new(alloc);
    put(&mut told, "queryPlanner", Value::Document(planner))?;
    put(&mut told, "ok", Value::Int64(1))?;
    Ok(told)
}
