//! A sector is replaced behind everything that was written before.
ghost use Rattle.std.specs.Prelude.{◌≡◌, ◌≢◌, ◌⊎◌, ◌<◌, ℕ, OnOk, OnErr};
ghost use Rattle.page.specs.History.{KeepsWord, now, reads, IsImage};
ghost use Rattle.page.specs.Calls.{MakesCalls};
ghost use Rattle.page.specs.Crash.{ExtendsHistory, LeavesOnly, AreDurable, put};
ghost use Rattle.roots.specs.Replace.{IsOldOrPut};

use page::{DeviceFault, Disk};

/// Syncs what was written, writes a sector, and syncs it.
pub(crate) fn replace<D: Disk>(
    disk: &mut D,
    sector: u64,
    bytes: &[u8; 512],
) -> Result<(), DeviceFault>
    ensures extends { ExtendsHistory (D.history disk.old) (D.history disk.new) }
    ensures calls { MakesCalls 3 result (D.history disk.old) (D.history disk.new) }

    // Until the first sync a crash leaves what it could leave before; then what reads gave, with the sector or without.
    ensures any_moment { LeavesOnly (D.history disk.old) (D.history disk.new)
        (IsOldOrPut (now (D.history disk.old)) sector bytes.now) }
    ensures synced { KeepsWord (D.history disk.new)
        → OnOk result (AreDurable (now (D.history disk.new))) }
    ensures reads { let before = reads (now (D.history disk.old)) in
        KeepsWord (D.history disk.new)
        → OnOk result (reads (now (D.history disk.new)) ≡ put before sector bytes.now) }
    ensures others { KeepsWord (D.history disk.new) → (k : ℕ) → k ≢ sector
        → reads (now (D.history disk.new)) k ≡ reads (now (D.history disk.old)) k }
    ensures failed { KeepsWord (D.history disk.new)
        → OnErr result ((D.history disk.old).failed_writes < (D.history disk.new).failed_writes) }
{
    disk.sync()?;
    disk.write(sector, bytes)?;
    disk.sync()
}
