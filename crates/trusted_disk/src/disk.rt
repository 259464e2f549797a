//! The disk of a user, and whether its word counts.
use crate::trusted::Trusted;
use page::{DeviceFault, Disk};

/// Each call is one of the disk inside, and nothing else. The word is kept where that disk keeps its own and what was told at
/// the making is true.
#[derive(Drop)]
pub struct TrustedDisk<D> {
    disk: D,
    trusted: Trusted,
}

impl<D: Disk> TrustedDisk<D> {
    ghost use Rattle.std.specs.Prelude.{◌≡◌, Bool};
    ghost use Rattle.trusted_disk.specs.Trusting.{disk_history, trusting_disk};

    /// The disk as it is. The caller chooses whether it is trusted, and may read the disk's history for it.
    pub fn new(disk: D) -> TrustedDisk<D>
        ghost trusted: { Bool }
        ensures { result ≡ trusting_disk trusted disk }
    {
        let trusted = Trusted::any();
        TrustedDisk { disk, trusted }
    }

    /// Hands the disk back as it is.
    pub fn into_inner(self) -> D
        ensures { D.history result ≡ disk_history D.history self }
    {
        self.disk
    }
}

impl<D: Disk> Disk for TrustedDisk<D> {
    ghost use Rattle.trusted_disk.specs.Trusting.{trusted_history};

    ghost history = { λ t. trusted_history D.history t };

    fn read(&mut self, sector: u64, bytes: &mut [u8; 512]) -> Result<(), DeviceFault> {
        self.disk.read(sector, bytes)
    }

    fn write(&mut self, sector: u64, bytes: &[u8; 512]) -> Result<(), DeviceFault> {
        self.disk.write(sector, bytes)
    }

    fn sync(&mut self) -> Result<(), DeviceFault> {
        self.disk.sync()
    }
}
