//! Plays the lines of a test to a server: what is sent, turns, and what they hand out.

use crate::one_run::OneRun;
use crate::session::Session;
use op_msg::FrameFault;
use page::MemDisk;
use script_disks::Orders;
use script_text::{Draft, Fault, Reply, Shape, Subject, differs, number_of};
use server::{Counts, OpenFault, TurnOut};
use std::alloc::Global;
use std::collections::VecDeque;
use std::rc::Rc;

/// The most pages of a file.
pub const MOST_PAGES: u32 = 1_048_576;

/// The code of a refusal for want of memory.
const OUT_OF_MEMORY: i32 = 9004;

/// A message that was sent and has no answer yet.
#[derive(Drop)]
pub struct Sent {
    connection: u8,
    number: u32,
    pub shape: Option<Shape>,
    frame: Vec<u8>,
}

/// How a test is played.
#[derive(Clone, Copy)]
pub struct Manner {
    pub max_pages: u32,
    /// What finds no memory is asked once more.
    pub is_patient: bool,
    /// What is done is recorded.
    pub is_recorded: bool,
    /// It ends behind the look with this number, counted from 1; 0 where it goes on to its end.
    pub last_look: usize,
}

/// A test as far as it was played.
#[derive(Drop)]
pub struct Player {
    pub alloc: Global,
    pub manner: Manner,
    pub orders: Rc<Orders>,
    session: Option<Session>,
    // what the device holds while no server is open
    spare: Option<MemDisk>,
    pub draft: Option<Draft>,
    sent: Vec<Sent>,
    replies: VecDeque<Reply>,
    closed: VecDeque<FrameFault>,
    // the number of the last message, and of each connection's last reply
    last_number: u32,
    last_replies: [u32; 64],
    pub subject: Option<Subject>,
    /// How many looks were begun.
    pub looks: usize,
}

/// What stands in a place where nothing is to be.
fn leftover() -> Fault {
    Fault::Form("a reply, a fault or a message is left that the script doesn't speak of")
}

impl Player {
    /// A player whose server isn't open yet.
    pub fn new(alloc: Global, manner: Manner) -> Result<Player, Fault> {
        Ok(Player {
            alloc,
            manner,
            orders: Orders::new(alloc)?,
            session: None,
            spare: None,
            draft: None,
            sent: Vec::new(alloc),
            replies: VecDeque::new(alloc),
            closed: VecDeque::new(alloc),
            last_number: 0,
            last_replies: [0; 64],
            subject: None,
            looks: 0,
        })
    }

    /// Opens a server over memory, which is handed back where that doesn't open.
    fn try_open(&self, memory: MemDisk) -> Result<Session, (MemDisk, Fault)> {
        let Ok(orders) = self.orders.clone() else {
            return Err((memory, Fault::Memory));
        };
        let Manner {
            max_pages,
            is_patient,
            is_recorded: _,
            last_look: _,
        } = self.manner;
        match Session::open(self.alloc, memory, orders, max_pages, is_patient) {
            Ok(session) => Ok(session),
            Err((memory, OpenFault::Device)) => Err((memory, Fault::Stopped)),
            Err((memory, OpenFault::Memory)) => Err((memory, Fault::Memory)),
            Err((memory, fault)) => Err((memory, Fault::File(fault.name()))),
        }
    }

    /// Opens a server over what a device holds. Calls of the device are counted from here on.
    pub fn open(&mut self, memory: MemDisk) -> Result<(), Fault> {
        let _calls = self.orders.take_calls();
        match self.try_open(memory) {
            Ok(mut session) => {
                if self.manner.is_recorded {
                    session.record(OneRun::new(self.alloc));
                }
                self.session = Some(session);
                Ok(())
            }
            Err((memory, fault)) => {
                self.spare = Some(memory);
                Err(fault)
            }
        }
    }

    /// Closes the server; no connection is left. It gives what the device holds.
    pub fn close(&mut self) -> Result<MemDisk, Fault> {
        self.draft = None;
        self.sent.clear();
        self.replies.clear();
        self.closed.clear();
        self.last_replies = [0; 64];
        if let Some(session) = self.session.take() {
            return Ok(session.into_memory());
        }
        self.spare.take().ok_or(Fault::Form("no server is open"))
    }

    /// The device, between turns. The server is closed, if one is open.
    pub fn device(&mut self) -> Result<&mut MemDisk, Fault> {
        self.is_idle()?;
        let memory = self.close()?;
        self.spare = Some(memory);
        self.spare.as_mut().ok_or(Fault::Form("no server is open"))
    }

    /// Whether `run_anew` does what was done, and hands out the same.
    pub fn is_same_anew(&self) -> Result<(), Fault> {
        match self.session.as_ref() {
            Some(session) => session.is_same_anew(self.manner.max_pages),
            None => Err(Fault::Form("no server is open")),
        }
    }

    /// Sends the message that was put together, if there is one.
    pub fn send(&mut self) -> Result<(), Fault> {
        let Some(mut draft) = self.draft.take() else {
            return Ok(());
        };
        self.last_number = self.last_number.wrapping_add(1);
        let frame = draft.frame(self.last_number)?;
        let connection = draft.connection;
        self.feed(connection, draft.piece, &frame)?;
        self.sent.push(Sent {
            connection,
            number: number_of(&frame).unwrap_or(0),
            shape: draft.into_shape(),
            frame,
        })?;
        Ok(())
    }

    /// Feeds a frame, whole or in pieces, with a turn that answers nothing before each piece but the first.
    fn feed(&mut self, connection: u8, piece: Option<usize>, frame: &[u8]) -> Result<(), Fault> {
        let Some(session) = self.session.as_mut() else {
            return Err(Fault::Form("no server is open"));
        };
        let Some(piece) = piece else {
            return session.feed(connection, frame);
        };
        let mut is_first = true;
        for chunk in frame.chunks(piece.max(1)) {
            if !is_first {
                let out = session.turn()?;
                if !out.replies.is_empty() || !out.closed.is_empty() {
                    return Err(leftover());
                }
            }
            is_first = false;
            session.feed(connection, chunk)?;
        }
        Ok(())
    }

    /// A turn, after the message that was put together is sent.
    pub fn turn(&mut self) -> Result<(), Fault> {
        self.send()?;
        let Some(session) = self.session.as_mut() else {
            return Err(Fault::Form("no server is open"));
        };
        let TurnOut { replies, closed } = session.turn()?;
        for (connection, frame) in replies {
            let connection = connection.number();
            self.replies.push_back(Reply { connection, frame })?;
        }
        for (_, fault) in closed {
            self.closed.push_back(fault)?;
        }
        Ok(())
    }

    /// Takes the next reply, of a further turn where none is left, and the message that it answers.
    fn take_reply(&mut self) -> Result<(Reply, Sent), Fault> {
        self.send()?;
        if self.replies.is_empty() {
            self.turn()?;
        }
        let Some(reply) = self.replies.pop_front() else {
            return Err(differs(self.alloc, "a reply", "none")?);
        };
        self.count_reply(&reply)?;
        let sent = self.take_sent(&reply)?;
        Ok((reply, sent))
    }

    /// A reply has its connection's next number.
    fn count_reply(&mut self, reply: &Reply) -> Result<(), Fault> {
        let Some(last) = self.last_replies.get_mut(usize::from(reply.connection)) else {
            return Err(Fault::Form("a reply to no connection"));
        };
        *last = last.wrapping_add(1);
        if reply.number() != Some(*last) {
            return Err(differs(self.alloc, "the next number of a reply", "another")?);
        }
        Ok(())
    }

    /// Takes the message that a reply answers.
    fn take_sent(&mut self, reply: &Reply) -> Result<Sent, Fault> {
        let place = self.sent.iter().position(|sent| {
            sent.connection == reply.connection && Some(sent.number) == reply.answered()
        });
        match place {
            Some(place) if place < self.sent.len() => Ok(self.sent.remove(place)),
            _ => Err(differs(self.alloc, "a reply to its message", "one to another")?),
        }
    }

    /// Takes the next answer. One that found no memory is asked once more, where the manner is patient.
    pub fn take_answer(&mut self) -> Result<(Reply, Sent), Fault> {
        let (reply, sent) = self.take_reply()?;
        if !self.manner.is_patient || reply.refusal(self.alloc)? != Some(OUT_OF_MEMORY) {
            return Ok((reply, sent));
        }
        self.feed(sent.connection, None, &sent.frame)?;
        self.sent.push(sent)?;
        self.take_reply()
    }

    /// Takes the next fault that closed a connection, of a further turn where none is left.
    pub fn take_closed(&mut self) -> Result<FrameFault, Fault> {
        self.send()?;
        if self.closed.is_empty() {
            self.turn()?;
        }
        match self.closed.pop_front() {
            Some(fault) => Ok(fault),
            None => Err(differs(self.alloc, "a connection is closed", "none is")?),
        }
    }

    /// Nothing was handed out that the script doesn't speak of.
    pub fn is_answered(&mut self) -> Result<(), Fault> {
        self.send()?;
        if self.replies.is_empty() && self.closed.is_empty() {
            Ok(())
        } else {
            Err(leftover())
        }
    }

    /// The same, and no message waits.
    pub fn is_idle(&mut self) -> Result<(), Fault> {
        self.is_answered()?;
        match self.session.as_ref() {
            Some(session) if session.is_any_waiting() => Err(leftover()),
            _ => Ok(()),
        }
    }

    /// Begins a message; the one before it is sent.
    pub fn begin(&mut self, draft: Draft) -> Result<(), Fault> {
        self.is_answered()?;
        self.draft = Some(draft);
        Ok(())
    }

    /// A turn is cut.
    pub fn is_stopped(&mut self) -> Result<(), Fault> {
        match self.turn() {
            Err(Fault::Stopped) => Ok(()),
            Err(fault) => Err(fault),
            Ok(()) => Err(differs(self.alloc, "a turn that is cut", "a turn")?),
        }
    }

    /// What the file holds, between turns.
    pub fn check(&mut self) -> Result<Counts, Fault> {
        self.is_idle()?;
        match self.session.as_mut() {
            Some(session) => session.check(),
            None => Err(Fault::Form("no server is open")),
        }
    }

    /// A connection ends.
    pub fn gone(&mut self, connection: u8) -> Result<(), Fault> {
        self.send()?;
        let Some(session) = self.session.as_mut() else {
            return Err(Fault::Form("no server is open"));
        };
        session.gone(connection)?;
        if let Some(last) = self.last_replies.get_mut(usize::from(connection)) {
            *last = 0;
        }
        Ok(())
    }
}
