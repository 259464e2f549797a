//! A disk in memory that stops for good, for tests.
ghost use Rattle.std.specs.Prelude.{◌≡◌};

use crate::{DeviceFault, Disk, MemDisk};

/// From its n-th write or sync on, every write and sync fails and nothing lands.
#[derive(Drop)]
pub struct StopDisk {
    disk: MemDisk,
    calls_left: u64,
}

impl StopDisk {
    ghost use Rattle.page.specs.Faulty.{stop_history};
    ghost use Rattle.page.specs.Memory.{memory_history};

    pub fn new(disk: MemDisk, calls_left: u64) -> Self
        ensures { stop_history result ≡ memory_history disk }
    {
        StopDisk { disk, calls_left }
    }

    pub fn into_inner(self) -> MemDisk
        ensures { memory_history result ≡ stop_history self }
    {
        let StopDisk {
            disk,
            calls_left: _,
        } = self;
        disk
    }
}

impl Disk for StopDisk {
    ghost use Rattle.page.specs.Faulty.{stop_history};

    ghost history = { stop_history };

    fn read(&mut self, sector: u64, bytes: &mut [u8; 512]) -> Result<(), DeviceFault> {
        self.disk.read(sector, bytes)
    }

    fn write(&mut self, sector: u64, bytes: &[u8; 512]) -> Result<(), DeviceFault> {
        if self.calls_left == 0 {
            self.disk.fail(true);
            return Err(DeviceFault);
        }
        self.calls_left -= 1;
        self.disk.write(sector, bytes)
    }

    fn sync(&mut self) -> Result<(), DeviceFault> {
        if self.calls_left == 0 {
            self.disk.fail(true);
            return Err(DeviceFault);
        }
        self.calls_left -= 1;
        self.disk.sync()
    }
}
