//! A disk as its users see it: what a read gives, and what a crash may leave.
ghost use Rattle.std.specs.Prelude.{◌≡◌, ◌≢◌, ℕ, OnOk, OnErr, is_ok};
ghost use Rattle.page.specs.History.{History, Sector, KeepsWord, now, Ticks, Takes, Syncs, reading, writing};

/// The device failed, or found no memory for the call.
#[derive(Clone, Copy, Debug, PartialEq, Eq)]
pub struct DeviceFault;

impl DeviceFault {
    ghost use Rattle.page.specs.FaultNames.{device_fault_name};

    /// The fault's name, as it is printed.
    pub fn name(self) -> &'static str
        ensures { result.now ≡ device_fault_name self }
    {
        "Device"
    }
}

/// Sectors of 512 bytes. A sector is written whole or not at all.
///
/// What is said of a call holds while the disk keeps its word after it. A device that promises nothing
/// never keeps its word. One that keeps it loses it only where its clock, the number of its calls, has no
/// greater value.
pub trait Disk {
    /// Each moment of the disk so far.
    ghost history: { Self → History };

    /// Reads a sector. One that was never written reads as zeros.
    fn read(&mut self, sector: u64, bytes: &mut [u8; 512]) -> Result<(), DeviceFault>
        ensures time { Ticks reading (history self.old) (history self.new) (is_ok result) }
        ensures value { KeepsWord (history self.new)
            → OnOk result (bytes.new ≡ (now (history self.old) sector).read) }
        ensures same { KeepsWord (history self.new)
            → now (history self.new) ≡ now (history self.old) };

    /// Writes a sector. Until a sync succeeds, a crash may leave what was written or what was there.
    fn write(&mut self, sector: u64, bytes: &[u8; 512]) -> Result<(), DeviceFault>
        ensures time { Ticks writing (history self.old) (history self.new) (is_ok result) }
        ensures takes { let before = now (history self.old) sector in
            KeepsWord (history self.new)
            → Takes bytes.now (is_ok result) before (now (history self.new) sector) }
        ensures others { KeepsWord (history self.new)
            → (k : ℕ) → k ≢ sector → now (history self.new) k ≡ now (history self.old) k };

    /// After a sync that succeeds, a crash leaves what a read gives.
    fn sync(&mut self) -> Result<(), DeviceFault>
        ensures time { Ticks writing (history self.old) (history self.new) (is_ok result) }
        ensures syncs { let before = now (history self.old) in
            KeepsWord (history self.new)
            → OnOk result ((k : ℕ) → Syncs (before k) (now (history self.new) k)) }
        ensures unchanged { KeepsWord (history self.new)
            → OnErr result (now (history self.new) ≡ now (history self.old)) };
}
