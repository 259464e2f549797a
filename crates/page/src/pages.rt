//! Pages of eight sectors.
ghost use Rattle.std.specs.Prelude.{◌≡◌, ℕ, ◌<◌, OnOk, OnErr};
ghost use Rattle.page.specs.History.{KeepsWord, now, reads};
ghost use Rattle.page.specs.Calls.{MakesCalls};
ghost use Rattle.page.specs.Crash.{ExtendsHistory, LeavesOnly, IsImageOutside, ReadsOnly};
ghost use Rattle.page.specs.Page.{IsSectorOf, page_at};

use crate::{DeviceFault, Disk};

/// Writes a page's eight sectors.
pub fn write_page<D: Disk>(disk: &mut D, page: u32, bytes: &[u8; 4096]) -> Result<(), DeviceFault>
    ensures extends { ExtendsHistory (D.history disk.old) (D.history disk.new) }

    // Eight writes, and no other call.
    ensures calls { MakesCalls 8 result (D.history disk.old) (D.history disk.new) }

    // Elsewhere a crash leaves what it could leave before.
    ensures any_moment { let before = now (D.history disk.old) in
        LeavesOnly (D.history disk.old) (D.history disk.new)
        (IsImageOutside before (IsSectorOf page)) }
    ensures others { let before = now (D.history disk.old) in
        KeepsWord (D.history disk.new)
        → (k : ℕ) → (IsSectorOf page k → ⊥) → now (D.history disk.new) k ≡ before k }
    ensures written { KeepsWord (D.history disk.new)
        → OnOk result (page_at (reads (now (D.history disk.new))) page ≡ bytes.now) }
    ensures failed { KeepsWord (D.history disk.new)
        → OnErr result ((D.history disk.old).failed_writes < (D.history disk.new).failed_writes) }
{
    for i in 0..8u64 {
        let at = 512 * i as usize;
        let sector = bytes[at..].first_chunk::<512>().unwrap();
        disk.write(8 * page as u64 + i, sector)?;
    }
    Ok(())
}

/// Reads a page's eight sectors.
pub fn read_page<D: Disk>(
    disk: &mut D,
    page: u32,
    bytes: &mut [u8; 4096],
) -> Result<(), DeviceFault>
    ensures reads { ReadsOnly (D.history disk.old) (D.history disk.new) }
    ensures value { KeepsWord (D.history disk.new)
        → OnOk result (bytes.new ≡ page_at (reads (now (D.history disk.old))) page) }
    ensures failed { KeepsWord (D.history disk.new)
        → OnErr result ((D.history disk.old).failures < (D.history disk.new).failures) }
    ensures clear { KeepsWord (D.history disk.new)
        → OnOk result ((D.history disk.new).failures ≡ (D.history disk.old).failures) }
{
    for i in 0..8u64 {
        let at = 512 * i as usize;
        let mut sector = [0; 512];
        disk.read(8 * page as u64 + i, &mut sector)?;
        bytes[at..at + 512].copy_from_slice(&sector);
    }
    Ok(())
}
