//! A message that is worked on.

ghost use Rattle.std.specs.Prelude.{◌≡◌};
ghost use Rattle.driver_sockets.specs.Questions.{plan_at};

use bson::Document;
use drivers::{Form, Plan};
use std::alloc::Global;

/// What the database is to be asked for a message: a command, and the cursor whose owner has to be asked.
#[derive(Drop)]
pub struct Question {
    pub cursor: Option<i64>,
    pub command: Document,
}

/// Where a message stands.
#[derive(Drop)]
pub enum Stage {
    /// It is to be asked.
    Asks(Question),
    /// It was asked.
    Waits,
}

/// A message that is worked on: its form and its number, what is kept of it, and where it stands.
#[derive(Drop)]
pub struct Job {
    pub form: Form,
    pub number: u32,
    pub plan: Plan,
    pub stage: Stage,
}

/// What is to be asked was asked: what of it is kept.
pub(crate) fn keep_asked(alloc: Global, plan: &mut Plan, stage: Stage)
    ensures { plan.new ≡ plan_at stage plan.old }
{
    match stage {
        Stage::Asks(question) => plan.keep(alloc, question.command),
        Stage::Waits => {}
    }
}
