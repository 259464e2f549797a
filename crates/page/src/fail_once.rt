//! A disk in memory of which one call fails, for tests.
ghost use Rattle.std.specs.Prelude.{◌≡◌, true};

use crate::{DeviceFault, Disk, MemDisk};

/// Its n-th call, counted from 1, fails once: a read gives nothing, a sync does nothing, and a write lands or not, as
/// asked.
#[derive(Drop)]
pub struct FailDisk {
    disk: MemDisk,
    calls_left: u64,
    lands: bool,
    // a write landed and was answered as failed
    failed: bool,
    ghost spent: { failed ≡ true → calls_left ≡ 0 },
}

impl FailDisk {
    ghost use Rattle.page.specs.History.{KeepsWord, now};
    ghost use Rattle.page.specs.Faulty.{fail_history};
    ghost use Rattle.page.specs.Memory.{memory_history};

    pub fn new(disk: MemDisk, n: u64, lands: bool) -> Self
        ensures { fail_history result ≡ memory_history disk }
    {
        FailDisk {
            disk,
            calls_left: n,
            lands,
            failed: false,
        }
    }

    pub fn into_inner(self) -> MemDisk
        ensures now { now (memory_history result) ≡ now (fail_history self) }
        ensures word { KeepsWord (fail_history self) → KeepsWord (memory_history result) }
    {
        let FailDisk {
            disk,
            calls_left: _,
            lands: _,
            failed: _,
        } = self;
        disk
    }
}

impl Disk for FailDisk {
    ghost use Rattle.page.specs.Faulty.{fail_history};

    ghost history = { fail_history };

    fn read(&mut self, sector: u64, bytes: &mut [u8; 512]) -> Result<(), DeviceFault> {
        if self.calls_left == 1 {
            self.calls_left = 0;
            self.disk.fail(false);
            return Err(DeviceFault);
        }
        self.calls_left = self.calls_left.saturating_sub(1);
        self.disk.read(sector, bytes)
    }

    fn write(&mut self, sector: u64, bytes: &[u8; 512]) -> Result<(), DeviceFault> {
        if self.calls_left == 1 {
            self.calls_left = 0;
            if !self.lands {
                self.disk.fail(true);
                return Err(DeviceFault);
            }
            self.disk.write(sector, bytes)?;
            self.failed = true;
            return Err(DeviceFault);
        }
        self.calls_left = self.calls_left.saturating_sub(1);
        self.disk.write(sector, bytes)
    }

    fn sync(&mut self) -> Result<(), DeviceFault> {
        if self.calls_left == 1 {
            self.calls_left = 0;
            self.disk.fail(true);
            return Err(DeviceFault);
        }
        self.calls_left = self.calls_left.saturating_sub(1);
        self.disk.sync()
    }
}
