//! A disk in memory. It records its writes and its syncs that succeeded, each with the moment that it made. Beside the
//! record it keeps what a read of each written sector gives.
ghost use Rattle.std.specs.Prelude.{◌≡◌, ℕ, ◌≤◌, ◌+◌, All, not, length};
ghost use Rattle.page.specs.History.{reads, now};
ghost use Rattle.std.specs.Prelude.{◌<◌, slice_index_or, true};
ghost use Rattle.page.specs.Replay.{replay, blank, read_after, IsWrite};
ghost use Rattle.page.specs.Latest.{bytes_in};
ghost use Rattle.std.specs.Prelude.{OnOk, OnErr, is_ok, ◌++◌, ◌∷◌, [], if◌then◌else◌};
ghost use Rattle.page.specs.declared.memory.Call.{Call};

use crate::{DeviceFault, Disk};
use std::alloc::{AllocError, Global};
use std::collections::BTreeMap;

#[derive(Clone, Copy)]
enum Step {
    Write(u64, [u8; 512]),
    Sync,
}

#[derive(Clone, Copy)]
struct Call {
    moment: u64,
    step: Step,
}

/// Keeps its word until its clock, the number of its calls, has no greater value.
#[derive(Drop)]
pub struct MemDisk {
    alloc: Global,
    calls: Vec<Call>,
    latest: BTreeMap<u64, [u8; 512]>,
    clock: u64,
    failures: u64,
    // how often a write or a sync has failed
    failed_writes: u64,
    ended: bool,
    ghost recorded: { All (λ c. c.moment ≤ clock) calls.items },
    ghost counted: { failures ≤ clock },
    ghost apart: { failed_writes ≤ failures },
    ghost current: { (k : ℕ) → bytes_in latest k ≡ (replay clock calls.items blank k).read },
}

// Records a call, and what a read gives after it. Without memory nothing changes.
fn record(
    calls: &mut Vec<Call>,
    latest: &mut BTreeMap<u64, [u8; 512]>,
    call: Call,
) -> Result<(), AllocError>
    ensures calls { calls.new.items
        ≡ (if is_ok result then calls.old.items ++ call ∷ [] else calls.old.items) }
    ensures latest { OnOk result ((k : ℕ)
        → bytes_in latest.new k ≡ read_after call.step k (bytes_in latest.old k)) }
    ensures same { OnErr result ((k : ℕ) → bytes_in latest.new k ≡ bytes_in latest.old k) }
{
    calls.reserve(1)?;
    if let Step::Write(sector, bytes) = call.step {
        if latest.insert(sector, bytes).is_err() {
            return Err(AllocError);
        }
    }
    calls.push(call).unwrap();
    Ok(())
}

// After how many of these calls the last sync stands.
fn after_sync(calls: &[Call]) -> usize
    ensures within { result ≤ length calls.now }
    ensures writes { (k : ℕ) (d : Call) → result ≤ k → k < length calls.now
        → IsWrite (slice_index_or calls.now k d).step }
{
    let mut after = 0;
    for (i, call) in calls.iter().enumerate() {
        if let Step::Sync = call.step {
            after = i + 1;
        }
    }
    after
}

// The first of the last ten of the calls behind a sync.
fn last_ten(after: usize, len: usize) -> usize
    ensures { len ≤ result + 10 }
{
    if len > 10 && len - 10 > after {
        len - 10
    } else {
        after
    }
}

// Whether a recorded call is kept in an image: all up to the last sync are, and then those that the mask names.
fn is_kept(mask: u16, after: usize, len: usize, i: usize) -> bool
    requires { i < len }
    ensures { i < after → result ≡ true }
{
    if i < after {
        return true;
    }
    let oldest = last_ten(after, len);
    if i < oldest {
        mask & 1024 != 0
    } else {
        mask & (1 << (i - oldest)) != 0
    }
}

impl MemDisk {
    ghost use Rattle.std.specs.Prelude.{◌≡◌, OnOk, OnErr, is_ok, is_some, None, false};
    ghost use Rattle.std.specs.Prelude.{IfOk};
    ghost use Rattle.page.specs.History.{KeepsWord, now, Ticks, IsImage, reads};
    ghost use Rattle.page.specs.Crash.{IsFresh};
    ghost use Rattle.page.specs.Replay.{blank, apply_some, history_of};
    ghost use Rattle.page.specs.Memory.{memory_history};

    /// A disk of zeros. It keeps its word.
    pub fn new(alloc: Global) -> Self
        ensures fresh { IsFresh (memory_history result) }
        ensures zeros { now (memory_history result) ≡ blank }
    {
        MemDisk::over(alloc, Vec::new(alloc), BTreeMap::new(alloc))
    }

    /// A disk that holds what these calls made of zeros, before its own first call.
    fn over(alloc: Global, calls: Vec<Call>, latest: BTreeMap<u64, [u8; 512]>) -> Self
        requires stamped { All (λ c. c.moment ≤ 0) calls.items }
        requires current { (k : ℕ) → bytes_in latest k ≡ (replay 0 calls.items blank k).read }
        ensures { memory_history result ≡ history_of calls.items 0 0 0 false }
    {
        MemDisk {
            alloc,
            calls,
            latest,
            clock: 0,
            failures: 0,
            failed_writes: 0,
            ended: false,
        }
    }

    /// The number of calls of the disk so far, which is its clock.
    pub fn calls(&self) -> u64
        ensures { result ≡ (memory_history self.now).clock }
    {
        self.clock
    }

    /// The disk that a crash may leave, all of it synced. It keeps its word. Bit i of the mask says whether the i-th of
    /// the last ten pending writes lands, the oldest of them first, and bit 10 whether the earlier ones do.
    pub fn image(&self, mask: u16) -> Result<MemDisk, AllocError>
        ensures fresh { IfOk result (λ disk. IsFresh (memory_history disk)) }
        ensures image { let before = now (memory_history self.now) in
            IfOk result (λ disk. IsImage before (reads (now (memory_history disk)))) }
    {
        let after = after_sync(&self.calls);
        let mut calls = Vec::new(self.alloc);
        let mut latest = BTreeMap::new(self.alloc);
        for (i, call) in self.calls.iter().enumerate() {
            if is_kept(mask, after, self.calls.len(), i) {
                let call = Call {
                    moment: 0,
                    step: call.step,
                };
                record(&mut calls, &mut latest, call)?;
            }
        }
        let sync = Call {
            moment: 0,
            step: Step::Sync,
        };
        record(&mut calls, &mut latest, sync)?;
        Ok(MemDisk::over(self.alloc, calls, latest))
    }

    /// A call that fails, and does nothing else: one that writes or syncs, or else reads.
    pub(crate) fn fail(&mut self, writes: bool)
        ensures time { Ticks writes (memory_history self.old) (memory_history self.new) false }
        ensures same { KeepsWord (memory_history self.new)
            → now (memory_history self.new) ≡ now (memory_history self.old) }
    {
        if self.clock == u64::MAX {
            self.ended = true;
        } else {
            self.clock += 1;
            self.failures += 1;
            if writes {
                self.failed_writes += 1;
            }
        }
    }

    // One call: counts it, and records its step.
    fn advance(&mut self, step: Option<Step>) -> Result<(), DeviceFault>
        ensures time { Ticks (is_some step) (memory_history self.old) (memory_history self.new)
            (is_ok result) }
        ensures ok { let before = now (memory_history self.old) in
            OnOk result (now (memory_history self.new) ≡ apply_some step before) }
        ensures err { let before = now (memory_history self.old) in
            KeepsWord (memory_history self.new)
            → OnErr result (now (memory_history self.new) ≡ before) }
    {
        if self.clock == u64::MAX {
            self.ended = true;
            return Err(DeviceFault);
        }
        let moment = self.clock + 1;
        let Some(step) = step else {
            self.clock = moment;
            return Ok(());
        };
        match record(&mut self.calls, &mut self.latest, Call { moment, step }) {
            Ok(()) => {
                self.clock = moment;
                Ok(())
            }
            Err(_) => {
                self.clock = moment;
                self.failures += 1;
                self.failed_writes += 1;
                Err(DeviceFault)
            }
        }
    }
}

impl Disk for MemDisk {
    ghost use Rattle.page.specs.Memory.{memory_history};

    ghost history = { memory_history };

    fn read(&mut self, sector: u64, bytes: &mut [u8; 512]) -> Result<(), DeviceFault> {
        self.advance(None)?;
        *bytes = self.latest.get(&sector).copied().unwrap_or([0; 512]);
        Ok(())
    }

    fn write(&mut self, sector: u64, bytes: &[u8; 512]) -> Result<(), DeviceFault> {
        self.advance(Some(Step::Write(sector, *bytes)))
    }

    fn sync(&mut self) -> Result<(), DeviceFault> {
        self.advance(Some(Step::Sync))
    }
}
