//! A test as one list of steps, which `run_anew` does over a new disk.

use engine::ConnId;
use script_text::{Fault, differs};
use server::{Config, DriveOut, Step, TurnOut, run_anew};
use std::alloc::Global;

/// The steps of a test, and what its turns handed out.
#[derive(Drop)]
pub struct OneRun {
    alloc: Global,
    steps: Vec<Step>,
    replies: Vec<(ConnId, Vec<u8>)>,
    turns: usize,
}

/// What `run_anew` hands out for these steps.
fn out_anew(alloc: Global, max_pages: u32, steps: &[Step]) -> Result<DriveOut, Fault> {
    match run_anew(alloc, Config { max_pages }, steps) {
        Ok((_core, out)) => Ok(out),
        Err(_) => Err(Fault::Memory),
    }
}

/// Whether frames are the same, to the same connections and in the same order.
fn are_same(ones: &[(ConnId, Vec<u8>)], others: &[(ConnId, Vec<u8>)]) -> bool {
    for ((one, frame), (other, other_frame)) in ones.iter().zip(others.iter()) {
        if one.number() != other.number() || frame.as_slice() != other_frame.as_slice() {
            return false;
        }
    }
    ones.len() == others.len()
}

impl OneRun {
    /// No step yet.
    pub fn new(alloc: Global) -> OneRun {
        OneRun {
            alloc,
            steps: Vec::new(alloc),
            replies: Vec::new(alloc),
            turns: 0,
        }
    }

    /// Bytes come on a connection.
    pub fn push_bytes(&mut self, connection: ConnId, bytes: &[u8]) -> Result<(), Fault> {
        let bytes = Vec::from_slice(self.alloc, bytes)?;
        Ok(self.steps.push(Step::Bytes(connection, bytes))?)
    }

    /// A turn hands this out.
    pub fn push_turn(&mut self, out: &TurnOut) -> Result<(), Fault> {
        for (connection, frame) in out.replies.iter() {
            let frame = Vec::from_slice(self.alloc, frame)?;
            self.replies.push((*connection, frame))?;
        }
        self.turns = self.turns.saturating_add(1);
        Ok(self.steps.push(Step::Turn)?)
    }

    /// A connection ends.
    pub fn push_end(&mut self, connection: ConnId) -> Result<(), Fault> {
        Ok(self.steps.push(Step::Gone(connection))?)
    }

    /// Whether `run_anew` does all these steps and hands out the same.
    pub fn is_same_anew(&self, max_pages: u32) -> Result<(), Fault> {
        let out = out_anew(self.alloc, max_pages, &self.steps)?;
        let is_whole = out.stopped.is_none() && out.turns == self.turns;
        if is_whole && are_same(&self.replies, &out.replies) {
            return Ok(());
        }
        Err(differs(self.alloc, "the same frames by `run_anew`", "others")?)
    }
}
