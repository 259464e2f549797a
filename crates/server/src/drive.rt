//! Whole histories.

ghost use Rattle.std.specs.Prelude.{◌≡◌, ◌≢◌, ◌⊎◌, ◌+◌, ◌<◌, ◌^◌, Err, true};
ghost use Rattle.page.specs.History.{KeepsWord};
ghost use Rattle.server.specs.Durable.{IsSound, GoesSafely, disk_history, is_stopped, instant_of, moment_of};
ghost use Rattle.server.specs.Moment.{FollowsInTurn};
ghost use Rattle.server.specs.Headline.{Drives};
ghost use Rattle.server.specs.OneStep.{Does};

use crate::connection::FeedFault;
use crate::step::Step;
use crate::turn::{Core, TurnFault};
use engine::ConnId;
use page::Disk;
use std::alloc::Global;

/// Why a run stopped at a step.
#[derive(Clone, Copy, Debug, PartialEq, Eq)]
pub enum DriveFault {
    /// The bytes were not taken, for want of memory. The step changed nothing.
    Feed(FeedFault),
    /// The turn handed out nothing.
    Turn(TurnFault),
    /// The turn answered, and memory ran out for its frames, which are missing.
    Gather,
}

/// What a run hands out: the frames in the order of handing out, each with its connection, how many turns answered, and
/// the step and the fault at which it stopped, if it did.
#[derive(Drop)]
pub struct DriveOut {
    pub replies: Vec<(ConnId, Vec<u8>)>,
    pub turns: usize,
    pub stopped: Option<(usize, DriveFault)>,
}

impl<D: Disk> Core<D> {
    /// Does one step, and puts what a turn hands out at the end.
    fn do_step(&mut self, step: &Step, out: &mut DriveOut) -> Result<(), DriveFault>
        requires sound { IsSound D.history self.old }
        requires counts { out.old.turns + 1 < 2 ^ 64 }
        ensures sound { IsSound D.history self.new }
        ensures as_planned { Does (instant_of D.history self.old) step.now out.old result
            (is_stopped self.old) out.new (instant_of D.history self.new) }
        ensures disk { GoesSafely D.history self.old self.new }
        ensures moment { FollowsInTurn (moment_of D.history self.old) (moment_of D.history self.new) }
        ensures device { result ≡ Err (DriveFault.Turn TurnFault.Stopped)
            → KeepsWord (disk_history D.history self.new)
            → (is_stopped self.old ≡ true) ⊎ ((disk_history D.history self.old).failed_writes
            < (disk_history D.history self.new).failed_writes) }
        ensures running { result ≢ Err (DriveFault.Turn TurnFault.Stopped)
            → is_stopped self.new ≡ is_stopped self.old }
    {
        match step {
            Step::Bytes(id, chunk) => match self.feed(*id, chunk) {
                Err(FeedFault::Memory) => Err(DriveFault::Feed(FeedFault::Memory)),
                Err(FeedFault::Closed) => Ok(()),
                Ok(()) => Ok(()),
            },
            Step::Turn => match self.turn() {
                Ok(mut turn) => {
                    out.turns += 1;
                    if out.replies.append(&mut turn.replies).is_err() {
                        return Err(DriveFault::Gather);
                    }
                    Ok(())
                }
                Err(fault) => Err(DriveFault::Turn(fault)),
            },
            Step::Gone(id) => {
                self.gone(*id);
                Ok(())
            }
        }
    }

    /// Drives steps in order. It passes over bytes for a closed connection, and stops at the first other `Err`.
    pub fn drive(&mut self, alloc: Global, steps: &[Step]) -> DriveOut
        requires sound { IsSound D.history self.old }
        ensures sound { IsSound D.history self.new }
        ensures drives { Drives D.history self.old steps.now result self.new }
    {
        let mut out = DriveOut {
            replies: Vec::new(alloc),
            turns: 0,
            stopped: None,
        };
        'steps: for (i, step) in steps.iter().enumerate() {
            if let Err(fault) = self.do_step(step, &mut out) {
                out.stopped = Some((i, fault));
                return out;
            }
        }
        out
    }
}
