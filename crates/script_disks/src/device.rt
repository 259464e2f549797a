//! The device of a script's server: memory that stops, fails and counts as the script says.

ghost use Rattle.page.specs.Unknown.{unknown_history};

use page::{DeviceFault, Disk, MemDisk};
use std::alloc::{AllocError, Global};
use std::cell::Cell;
use std::rc::Rc;

/// What a device is to do, and what it did. It is shared by a server's device and the script.
#[derive(Drop)]
pub struct Orders {
    // so many more writes and syncs succeed
    writes_left: Cell<u64>,
    // the call that fails, counted from 1; 0 for none
    failing: Cell<u64>,
    // a write that fails lands
    lands: Cell<bool>,
    // calls so far, and those of them that write or sync
    calls: Cell<u64>,
    writes: Cell<u64>,
    // calls since they were asked for last
    new_calls: Cell<u64>,
    // writes since the last sync
    pending: Cell<u32>,
}

/// What becomes of a call.
#[derive(Clone, Copy, Debug, PartialEq, Eq)]
enum Fate {
    Done,
    Failed,
    FailedAndLanded,
}

impl Orders {
    /// A device that never stops.
    pub fn new(alloc: Global) -> Result<Rc<Orders>, AllocError> {
        let orders = Orders {
            writes_left: Cell::new(u64::MAX),
            failing: Cell::new(0),
            lands: Cell::new(false),
            calls: Cell::new(0),
            new_calls: Cell::new(0),
            writes: Cell::new(0),
            pending: Cell::new(0),
        };
        Ok(Rc::new(alloc, orders)?)
    }

    /// So many more writes and syncs succeed, then none.
    pub fn stop_after(&self, writes: u64) {
        self.writes_left.set(writes);
    }

    /// The call with this number from here on fails once. A write lands all the same where that is asked for.
    pub fn fail_at(&self, number: u64, lands: bool) {
        self.failing.set(number);
        self.lands.set(lands);
    }

    /// The calls since this was asked last.
    pub fn take_calls(&self) -> u64 {
        let calls = self.new_calls.get();
        self.new_calls.set(0);
        calls
    }

    /// The calls so far.
    pub fn calls(&self) -> u64 {
        self.calls.get()
    }

    /// The writes and syncs so far.
    pub fn writes(&self) -> u64 {
        self.writes.get()
    }

    /// The writes that no sync has made durable.
    pub fn pending(&self) -> u32 {
        self.pending.get()
    }

    /// Counts a call, and says what becomes of it.
    fn fate(&self) -> Fate {
        self.calls.set(self.calls.get().saturating_add(1));
        self.new_calls.set(self.new_calls.get().saturating_add(1));
        let left = self.failing.get();
        self.failing.set(left.saturating_sub(1));
        match left {
            1 if self.lands.get() => Fate::FailedAndLanded,
            1 => Fate::Failed,
            _ => Fate::Done,
        }
    }

    /// The same for a write or a sync.
    fn fate_of_write(&self) -> Fate {
        let left = self.writes_left.get();
        self.writes_left.set(left.saturating_sub(1));
        self.writes.set(self.writes.get().saturating_add(1));
        match (left, self.fate()) {
            (0, _) => Fate::Failed,
            (_, fate) => fate,
        }
    }
}

/// Memory that does what its orders say. It promises nothing.
#[derive(Drop)]
pub struct Device {
    memory: MemDisk,
    orders: Rc<Orders>,
}

impl Device {
    pub fn new(memory: MemDisk, orders: Rc<Orders>) -> Device {
        Device { memory, orders }
    }

    pub fn into_memory(self) -> MemDisk {
        let Device { memory, orders: _ } = self;
        memory
    }
}

impl Disk for Device {
    ghost history = { λ _. unknown_history };

    fn read(&mut self, sector: u64, bytes: &mut [u8; 512]) -> Result<(), DeviceFault> {
        match self.orders.fate() {
            Fate::Done => self.memory.read(sector, bytes),
            Fate::Failed | Fate::FailedAndLanded => Err(DeviceFault),
        }
    }

    fn write(&mut self, sector: u64, bytes: &[u8; 512]) -> Result<(), DeviceFault> {
        let fate = self.orders.fate_of_write();
        if fate == Fate::Failed {
            return Err(DeviceFault);
        }
        self.memory.write(sector, bytes)?;
        let pending = self.orders.pending.get();
        self.orders.pending.set(pending.saturating_add(1));
        match fate {
            Fate::Done => Ok(()),
            Fate::Failed | Fate::FailedAndLanded => Err(DeviceFault),
        }
    }

    fn sync(&mut self) -> Result<(), DeviceFault> {
        match self.orders.fate_of_write() {
            Fate::Done => {
                self.memory.sync()?;
                self.orders.pending.set(0);
                Ok(())
            }
            Fate::Failed | Fate::FailedAndLanded => Err(DeviceFault),
        }
    }
}
