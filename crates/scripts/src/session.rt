//! A server whose device a script has in its hands.

use crate::one_run::OneRun;
use engine::ConnId;
use page::MemDisk;
use script_disks::{Device, Orders};
use script_text::Fault;
use server::{CheckFault, Config, Core, Counts, FeedFault, OpenFault, TurnFault, TurnOut};
use std::alloc::Global;
use std::marker::Model;
use std::rc::Rc;

/// A server on a device. To its callers it is no more than whether it is patient.
#[derive(Drop)]
pub struct Session {
    core: Core<Device>,
    // a call that finds no memory is made once more
    is_patient: bool,
    // what was done so far, where that is recorded
    run: Option<OneRun>,
}

impl Model for Session {
    ghost use Rattle.page.specs.Unknown.{unknown_history};
    ghost use Rattle.server.specs.Durable.{IsSound};
    ghost use Rattle.std.specs.Prelude.{Bool};

    ghost Value = { Bool };

    ghost view = { λ a. a.is_patient };

    ghost invariant = { λ a. IsSound (λ _. unknown_history) a.core };
}

/// The connection of a number.
fn connection_of(number: u8) -> Result<ConnId, Fault> {
    match ConnId::new(number) {
        Some(connection) => Ok(connection),
        None => Err(Fault::Form("no connection has that number")),
    }
}

impl Session {
    /// Opens a server. The memory of its device is given back where it doesn't open.
    pub fn open(
        alloc: Global,
        memory: MemDisk,
        orders: Rc<Orders>,
        max_pages: u32,
        is_patient: bool,
    ) -> Result<Session, (MemDisk, OpenFault)> {
        let device = Device::new(memory, orders);
        match Core::open(alloc, device, Config { max_pages }) {
            Ok(core) => Ok(Session {
                core,
                is_patient,
                run: None,
            }),
            Err((device, fault)) => Err((device.into_memory(), fault)),
        }
    }

    /// The memory of its device.
    pub fn into_memory(self) -> MemDisk {
        let Session {
            core,
            is_patient: _,
            run: _,
        } = self;
        core.into_disk().into_memory()
    }

    /// Records what is done from here on.
    pub fn record(&mut self, run: OneRun) {
        self.run = Some(run);
    }

    /// Whether `run_anew` does what was recorded and hands out the same.
    pub fn is_same_anew(&self, max_pages: u32) -> Result<(), Fault> {
        match self.run.as_ref() {
            Some(run) => run.is_same_anew(max_pages),
            None => Ok(()),
        }
    }

    /// Bytes come on a connection. What comes behind a fault of a frame is passed over.
    pub fn feed(&mut self, connection: u8, bytes: &[u8]) -> Result<(), Fault> {
        let connection = connection_of(connection)?;
        if let Some(run) = self.run.as_mut() {
            run.push_bytes(connection, bytes)?;
        }
        let mut fed = self.core.feed(connection, bytes);
        if self.is_patient && matches!(fed, Err(FeedFault::Memory)) {
            fed = self.core.feed(connection, bytes);
        }
        match fed {
            Ok(()) | Err(FeedFault::Closed) => Ok(()),
            Err(FeedFault::Memory) => Err(Fault::Memory),
        }
    }

    /// A turn of the server.
    fn turn_once(&mut self) -> Result<TurnOut, Fault> {
        let mut out = self.core.turn();
        if self.is_patient && matches!(out, Err(TurnFault::Memory)) {
            out = self.core.turn();
        }
        match out {
            Ok(out) => Ok(out),
            Err(TurnFault::Stopped) => Err(Fault::Stopped),
            Err(TurnFault::Memory) => Err(Fault::Memory),
        }
    }

    /// Records what a turn hands out, where that is recorded.
    fn record_turn(&mut self, out: &TurnOut) -> Result<(), Fault> {
        match self.run.as_mut() {
            Some(run) => run.push_turn(out),
            None => Ok(()),
        }
    }

    /// A turn.
    pub fn turn(&mut self) -> Result<TurnOut, Fault> {
        let out = self.turn_once()?;
        self.record_turn(&out)?;
        Ok(out)
    }

    /// What its file holds.
    pub fn check(&mut self) -> Result<Counts, Fault> {
        let mut counts = self.core.check();
        if self.is_patient && matches!(counts, Err(CheckFault::Memory)) {
            counts = self.core.check();
        }
        match counts {
            Ok(counts) => Ok(counts),
            Err(CheckFault::Device) => Err(Fault::Refused),
            Err(CheckFault::Memory) => Err(Fault::Memory),
            Err(fault) => Err(Fault::File(fault.name())),
        }
    }

    /// A connection ends.
    pub fn gone(&mut self, connection: u8) -> Result<(), Fault> {
        let connection = connection_of(connection)?;
        self.core.gone(connection);
        match self.run.as_mut() {
            Some(run) => run.push_end(connection),
            None => Ok(()),
        }
    }

    /// Whether a connection has a whole message or a fault of a frame waiting.
    pub fn is_any_waiting(&self) -> bool {
        for number in 0..64 {
            if let Some(connection) = ConnId::new(number) {
                if self.core.waiting(connection) {
                    return true;
                }
            }
        }
        false
    }
}
