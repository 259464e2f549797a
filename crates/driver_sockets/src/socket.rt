//! A socket of a driver.

ghost use Rattle.std.specs.Prelude.{◌≡◌, ◌<◌, ◌≤◌, ◌+◌, max, length, true, false, None, Some, is_some, option_map, IfSome, IfOk, IfErr, OnOk, OnErr};
ghost use Rattle.drivers.specs.Framing.{IsShort};
ghost use Rattle.drivers.specs.Laws.{asked_by};
ghost use Rattle.drivers.specs.Starting.{started};
ghost use Rattle.driver_messages.specs.Incoming.{next_message};
ghost use Rattle.driver_sockets.specs.Questions.{question_in, wanted, IsNoOther, pending, waiting};
ghost use Rattle.driver_sockets.specs.Replying.{has_room, IsFramed, IsAnswered, question_by, Follows, Starts, TakesReply, Begins};
ghost use Rattle.op_msg.specs.ReplyNumbers.{next_number};
ghost use Rattle.driver_sockets.specs.Replying.{closed, resting, long_reply, IsClosed, WaitsOrCloses};
ghost use Rattle.driver_sockets.specs.Serving.{fresh, fed, waits, HaveGrown};
ghost use Rattle.driver_sockets.specs.Tying.{is_asked};
ghost use Rattle.driver_sockets.specs.Alone.{has_begun, is_alone};
ghost use Rattle.drivers.specs.Answering.{asks_alone};
ghost use Rattle.drivers.specs.AloneLaws.{is_later};

use crate::job::{Job, Question, Stage, keep_asked};
use bson::{Document, MESSAGE_LIMIT, NoMemory};
use drivers::{Form, Incoming, Message, Plan, ServerInfo, Step, StreamFault, framed};
use op_msg::next_number;
use path::Refusal;
use replies::refusal_document;
use std::alloc::{AllocError, Global};
use std::mem;

/// The most bytes of an answer's document.
const MOST_BYTES: usize = MESSAGE_LIMIT - 36;

/// A socket of a driver.
pub struct Socket {
    /// Its bytes that no message has taken.
    pub incoming: Incoming,
    /// The message that is worked on.
    pub job: Option<Job>,
    /// The frame of the answer that is ready.
    pub answer: Option<Vec<u8>>,
    /// The number of the last answer.
    pub last_reply: u32,
    /// Whether it is to be closed.
    pub is_over: bool,
}

// (written out, so that no crate above proves again that the parts are let go)
impl Drop for Socket {
    fn drop(self) {
        let Socket {
            incoming: _,
            job: _,
            answer: _,
            last_reply: _,
            is_over: _,
        } = self;
    }
}

impl Socket {
    /// A socket of which nothing has come.
    pub fn new(alloc: Global) -> Socket
        ensures { result ≡ fresh }
    {
        Socket {
            incoming: Incoming::new(alloc),
            job: None,
            answer: None,
            last_reply: 0,
            is_over: false,
        }
    }

    /// Bytes have come. An `Err`: memory ran out, and nothing has changed.
    pub fn feed(&mut self, bytes: &[u8]) -> Result<(), NoMemory>
        ensures ok { OnOk result (self.new ≡ fed self.old bytes.now) }
        ensures err { OnErr result (self.new ≡ self.old) }
    {
        self.incoming.feed(bytes)
    }

    /// Whether a turn would do something with it.
    pub fn waits(&self) -> bool
        ensures { result ≡ waits self.now }
    {
        !self.is_over && (self.job.is_some() || self.incoming.waiting())
    }

    /// Takes the message at the front, if none is worked on, and does what is done first with it. A socket with a fault at its
    /// front is closed. An `Err`: memory ran out, and the message is taken by a later turn, or the socket is closed.
    pub fn begin(&mut self, alloc: Global, info: &ServerInfo) -> Result<(), NoMemory>
        ensures asked { is_asked self.old.job ≡ true → is_asked self.new.job ≡ true }
        ensures begun { has_begun self.new ≡ true → has_begun self.old ≡ true }
        ensures wants { IsNoOther (question_in self.new.job) (wanted info.now self.old) }
        ensures begins { OnOk result (Begins info.now self.old self.old.is_over self.old.job
            (next_message self.old.incoming) self.new) }
        ensures waits { OnErr result (WaitsOrCloses self.old (next_message self.old.incoming)
            self.new) }
    {
        if self.is_over || self.job.is_some() {
            return Ok(());
        }
        match self.incoming.next() {
            Ok(None) => Ok(()),
            Ok(Some(message)) => self.start(alloc, info, message),
            Err(fault) => match fault {
                StreamFault::Memory => Err(AllocError),
                _ => {
                    self.is_over = true;
                    Ok(())
                }
            },
        }
    }

    /// Does what is done first with a message. Where memory runs out for it, the socket is closed.
    fn start(&mut self, alloc: Global, info: &ServerInfo, message: Message) -> Result<(), NoMemory>
        requires { self.old.job ≡ None }
        ensures begun { has_begun self.new ≡ false }
        ensures wants { IsNoOther (question_in self.new.job)
            (asked_by (started info.now message)) }
        ensures starts { OnOk result (Starts info.now self.old message self.new) }
        ensures closes { OnErr result (self.new ≡ closed self.old) }
    {
        let done = self.try_start(alloc, info, message);
        if done.is_err() {
            self.is_over = true;
        }
        done
    }

    /// Does what is done first with a message. An `Err` changes nothing.
    fn try_start(
        &mut self,
        alloc: Global,
        info: &ServerInfo,
        message: Message,
    ) -> Result<(), NoMemory>
        requires { self.old.job ≡ None }
        ensures begun { has_begun self.new ≡ false }
        ensures wants { IsNoOther (question_in self.new.job)
            (asked_by (started info.now message)) }
        ensures starts { OnOk result (Starts info.now self.old message self.new) }
        ensures same { OnErr result (self.new ≡ self.old) }
    {
        let form = message.form;
        let number = message.number;
        match Plan::start(alloc, info, message) {
            Ok((plan, step)) => self.follow(alloc, form, number, plan, step),
            Err(fault) => Err(fault),
        }
    }

    /// Keeps a message that is worked on.
    fn work_on(&mut self, job: Job)
        ensures { self.new ≡ record self.old { job = Some job } }
    {
        drop(mem::replace(&mut self.job, Some(job)));
    }

    /// Does what comes next with a message: the database is asked, or an answer is ready, or there is none. An `Err` changes
    /// nothing.
    fn follow(
        &mut self,
        alloc: Global,
        form: Form,
        number: u32,
        plan: Plan,
        step: Step,
    ) -> Result<(), NoMemory>
        requires { self.old.job ≡ None }
        ensures alone { has_begun self.new ≡ true
            → (asks_alone plan.wait ≡ true) × (is_later plan.wait ≡ true) }
        ensures wants { IsNoOther (question_in self.new.job) (asked_by step) }
        ensures follows { OnOk result (Follows self.old form number (plan, step) self.new) }
        ensures same { OnErr result (self.new ≡ self.old) }
    {
        match question_of(step) {
            Ok(question) => {
                self.work_on(Job {
                    form,
                    number,
                    plan,
                    stage: Stage::Asks(question),
                });
                Ok(())
            }
            Err(answer) => {
                drop(plan);
                self.finish(alloc, form, number, answer)
            }
        }
    }

    /// Whether nobody else may ask the database before the message that is worked on is answered.
    pub fn asks_alone(&self) -> bool
        ensures { result ≡ is_alone self.now }
    {
        match &self.job {
            Some(job) => job.plan.asks_alone(),
            None => false,
        }
    }

    /// What the database is to be asked for the message that is worked on.
    pub fn question(&self) -> Option<&Question>
        ensures stage { IfSome result (λ _. (is_asked self.now.job ≡ false)
            × (is_some self.now.job ≡ true)) }
        ensures question { IfSome result (λ q. question_in self.now.job ≡ Some q.now.command) }
        ensures pending { pending self.now.job ≡ option_map (λ q. q.now) result }
    {
        let job = self.job.as_ref()?;
        match &job.stage {
            Stage::Asks(question) => Some(question),
            Stage::Waits => None,
        }
    }

    /// The database was asked: what of it is kept, and the reply is waited for.
    pub fn wait(&mut self, alloc: Global)
        ensures asked { is_some self.old.job ≡ true → is_asked self.new.job ≡ true }
        ensures alone { is_alone self.new ≡ is_alone self.old }
        ensures waits { self.new ≡ waiting self.old }
    {
        if let Some(job) = &mut self.job {
            let stage = mem::replace(&mut job.stage, Stage::Waits);
            keep_asked(alloc, &mut job.plan, stage);
        }
    }

    /// The database has answered the message that is worked on. Where memory runs out for it, the socket is closed.
    pub fn take_reply(&mut self, alloc: Global, reply: Document) -> Result<(), NoMemory>
        ensures alone { has_begun self.new ≡ true → is_alone self.old ≡ true }
        ensures takes { OnOk result (TakesReply self.old self.old.job reply self.new) }
        ensures closes { OnErr result (self.new ≡ closed (resting self.old)) }
    {
        let done = self.try_reply(alloc, reply);
        if done.is_err() {
            self.is_over = true;
        }
        done
    }

    /// The database has answered the message that is worked on. After an `Err` none is.
    fn try_reply(&mut self, alloc: Global, reply: Document) -> Result<(), NoMemory>
        ensures alone { has_begun self.new ≡ true → is_alone self.old ≡ true }
        ensures takes { OnOk result (TakesReply self.old self.old.job reply self.new) }
        ensures rests { OnErr result (self.new ≡ resting self.old) }
    {
        let Some(job) = self.job.take() else {
            return Ok(());
        };
        let Job {
            form,
            number,
            mut plan,
            stage,
        } = job;
        keep_asked(alloc, &mut plan, stage);
        match plan.answer(alloc, reply) {
            Ok(step) => self.follow(alloc, form, number, plan, step),
            Err(fault) => {
                drop(plan);
                Err(fault)
            }
        }
    }

    /// The database can't be asked, since the command is too long for a message: that is what it would have replied. Where memory
    /// runs out for it, the socket is closed.
    pub fn refuse_long(&mut self, alloc: Global) -> Result<(), NoMemory>
        ensures alone { has_begun self.new ≡ true → is_alone self.old ≡ true }
        ensures takes { OnOk result (TakesReply self.old self.old.job long_reply self.new) }
        ensures closes { OnErr result (IsClosed self.old self.new) }
    {
        match refusal_document(alloc, Refusal::BSONObjectTooLarge) {
            Ok(reply) => self.take_reply(alloc, reply),
            Err(fault) => {
                self.is_over = true;
                Err(fault)
            }
        }
    }

    /// Makes the frame of an answer. An `Err` changes nothing.
    fn finish(&mut self, alloc: Global, form: Form, number: u32, step: Step) -> Result<(), NoMemory>
        ensures job { self.new.job ≡ self.old.job }
        ensures answer { OnOk result (IsAnswered self.old form number step self.new) }
        ensures same { OnErr result (self.new ≡ self.old) }
    {
        let reply_no = next_number(self.last_reply);
        let made = frame(alloc, form, reply_no, number, &step);
        drop(step);
        match made {
            Ok(Some(frame)) => {
                self.last_reply = reply_no;
                self.answer = Some(frame);
                Ok(())
            }
            Ok(None) => Ok(()),
            Err(fault) => Err(fault),
        }
    }
}

/// Puts sockets of which nothing has come behind those that there are, up to that of a number. An `Err`: memory ran out, and some
/// of them may be there.
pub fn grow(alloc: Global, sockets: &mut Vec<Socket>, number: usize) -> Result<(), NoMemory>
    requires { number < 1024 }
    ensures grown { HaveGrown sockets.old.items sockets.new.items }
    ensures most { length sockets.new.items ≤ max (length sockets.old.items) (number + 1) }
    ensures there { OnOk result (number < length sockets.new.items) }
{
    'numbers: for _ in sockets.len()..number + 1 {
        sockets.push(Socket::new(alloc))?;
    }
    Ok(())
}

/// What a step asks the database, or the step where it asks nothing.
fn question_of(step: Step) -> Result<Question, Step>
    ensures asks { IfOk result (λ q. asked_by step ≡ Some q.command) }
    ensures question { IfOk result (λ q. question_by step ≡ Some q) }
    ensures answers { IfErr result (λ answer. answer ≡ step) }
    ensures none { IfErr result (λ answer. question_by step ≡ None) }
{
    match step {
        Step::Ask(command) => Ok(Question {
            cursor: None,
            command,
        }),
        Step::AskOwner(id, command) => Ok(Question {
            cursor: Some(id),
            command,
        }),
        Step::Reply(reply) => Err(Step::Reply(reply)),
        Step::Fail(reply) => Err(Step::Fail(reply)),
        Step::Silent => Err(Step::Silent),
    }
}

/// Whether an answer has room in a message.
fn is_short(step: &Step) -> bool
    ensures short { result ≡ true → IsShort step.now }
    ensures room { result ≡ has_room step.now }
{
    match step {
        Step::Reply(document) => document.encoded_len() <= MOST_BYTES,
        Step::Fail(document) => document.encoded_len() <= MOST_BYTES,
        _ => true,
    }
}

/// The frame of an answer. One that has no room in a message is the refusal that says so.
fn frame(
    alloc: Global,
    form: Form,
    reply_no: u32,
    number: u32,
    step: &Step,
) -> Result<Option<Vec<u8>>, NoMemory>
    ensures { IfOk result (λ x. IsFramed form reply_no number step.now x) }
{
    if is_short(step) {
        return framed(alloc, form, reply_no, number, step);
    }
    let refusal = Step::Reply(refusal_document(alloc, Refusal::BSONObjectTooLarge)?);
    let made = framed(alloc, form, reply_no, number, &refusal);
    drop(refusal);
    made
}
