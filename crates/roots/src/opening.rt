//! Which root two sectors give.
ghost use Rattle.std.specs.Prelude.{◌≡◌, ◌≢◌, ◌<◌, IfOk, IfErr, Err, MatchResult};
ghost use Rattle.page.specs.History.{KeepsWord, now, reads};
ghost use Rattle.page.specs.Crash.{ReadsOnly};
ghost use Rattle.roots.specs.Image.{OpensAs};
ghost use Rattle.roots.specs.Root.{newer_root, worse_fault, root_of, IsKnown};
ghost use Rattle.roots.specs.declared.opening.OpenFault.TheVariants.{Device, Memory};

use crate::root::Root;
use page::{DeviceFault, Disk};
use std::alloc::AllocError;

/// Why a disk isn't opened.
#[derive(Clone, Copy, Debug, PartialEq, Eq)]
pub enum OpenFault {
    /// A read or a sync failed.
    Device = 1,
    /// Out of memory.
    Memory,
    /// A root sector begins otherwise than with the mark of this product.
    NotADatabase,
    /// No commit left this.
    Damaged,
    /// A later program wrote it, in a format that isn't known here.
    NewerFormat,
}

impl OpenFault {
    ghost use Rattle.roots.specs.FaultNames.{open_fault_name};

    /// The fault's name, as it is printed.
    pub fn name(self) -> &'static str
        ensures { result.now ≡ open_fault_name self }
    {
        match self {
            OpenFault::Device => "Device",
            OpenFault::Memory => "Memory",
            OpenFault::NotADatabase => "NotADatabase",
            OpenFault::Damaged => "Damaged",
            OpenFault::NewerFormat => "NewerFormat",
        }
    }
}

impl From<DeviceFault> for OpenFault {
    ghost from_gives = { λ _ fault. fault ≡ Device };

    fn from(_: DeviceFault) -> Self {
        OpenFault::Device
    }
}

impl From<AllocError> for OpenFault {
    ghost from_gives = { λ _ fault. fault ≡ Memory };

    fn from(_: AllocError) -> Self {
        OpenFault::Memory
    }
}

/// Of the roots in sectors 0 and 1 the one that counts.
fn newer_root(even: Root, odd: Root) -> Result<Root, OpenFault>
    ensures { result ≡ newer_root even odd }
{
    if even.generation % 2 != 0 {
        return Err(OpenFault::Damaged);
    }
    if odd.generation == even.generation + 1 {
        return Ok(odd);
    }
    if odd.generation == 0 && even.generation == 0 {
        return Ok(even);
    }
    if odd.generation != 0 && even.generation != 0 && odd.generation == even.generation - 1 {
        return Ok(even);
    }
    Err(OpenFault::Damaged)
}

/// Of the faults of two sectors the one that is answered.
fn worse_fault(even: OpenFault, odd: OpenFault) -> OpenFault
    ensures { result ≡ worse_fault even odd }
{
    match (even, odd) {
        (OpenFault::NotADatabase, _) | (_, OpenFault::NotADatabase) => OpenFault::NotADatabase,
        (OpenFault::NewerFormat, _) | (_, OpenFault::NewerFormat) => OpenFault::NewerFormat,
        _ => OpenFault::Damaged,
    }
}

/// The root that counts.
pub(crate) fn choose(even: &[u8; 512], odd: &[u8; 512]) -> Result<Root, OpenFault>
    ensures root { result ≡ root_of even.now odd.now }
    ensures known { IfOk result IsKnown }
{
    match (Root::read(even), Root::read(odd)) {
        (Ok(first), Ok(second)) => newer_root(first, second),
        (Ok(_), Err(fault)) => Err(fault),
        (Err(fault), Ok(_)) => Err(fault),
        (Err(first), Err(second)) => Err(worse_fault(first, second)),
    }
}

/// Reads the root that counts.
pub(crate) fn read_root<D: Disk>(disk: &mut D) -> Result<Root, OpenFault>
    ensures reads { ReadsOnly (D.history disk.old) (D.history disk.new) }
    ensures root { KeepsWord (D.history disk.new)
        → IfOk result (OpensAs (reads (now (D.history disk.old)))) }
    ensures refused { let image = reads (now (D.history disk.old)) in
        KeepsWord (D.history disk.new) → IfErr result (λ fault. fault ≢ OpenFault.Device
        → root_of (image 0) (image 1) ≡ Err fault) }
    ensures known { IfOk result IsKnown }
    ensures device { KeepsWord (D.history disk.new)
        → IfErr result (λ fault. fault ≡ OpenFault.Device
        → (D.history disk.old).failures < (D.history disk.new).failures) }
    ensures clear { let same = (D.history disk.new).failures ≡ (D.history disk.old).failures in
        KeepsWord (D.history disk.new)
        → MatchResult result (λ root. same) (λ fault. fault ≢ OpenFault.Device → same) }
    ensures memory { result ≢ Err OpenFault.Memory }
{
    let mut even = [0; 512];
    disk.read(0, &mut even)?;
    let mut odd = [0; 512];
    disk.read(1, &mut odd)?;
    choose(&even, &odd)
}
