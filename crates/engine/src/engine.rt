//! Commands, turn by turn, over a file.

ghost use Rattle.std.specs.Prelude.{◌≡◌, ◌⊎◌, Bool, Ok, true, false, IfOk, IfErr};
ghost use Rattle.page.specs.History.{KeepsWord};
ghost use Rattle.roots.specs.Store.{limit_in};
ghost use Rattle.collections.specs.Calls.{HasReadCause};
ghost use Rattle.collections.specs.Marks.{Undoes};
ghost use Rattle.collections.specs.Opening.{HasLimit};
ghost use Rattle.cursors.specs.Changes.{all_at_rest};
ghost use Rattle.engine.specs.Committing.{CommitsTurn};
ghost use Rattle.engine.specs.Continuing.{Continues};
ghost use Rattle.engine.specs.Laws.{BodyNeedsNoDisk, BodyOnlyReads, ForMemory, NeedsNoDisk, OnlyReads};
ghost use Rattle.engine.specs.Opening.{IsEngineOpened};
ghost use Rattle.opening.specs.Refusing.{IsFileRefused};
ghost use Rattle.pinned_cursors.specs.Tied.{AreTied};
ghost use Rattle.engine.specs.Performing.{IsAdministrative, RunsCommand, RunsReadingCommand};
ghost use Rattle.database_model.specs.World.{are_untouched, after_commit, after_undo, forget};
ghost use Rattle.replies.specs.View.{answer_of, outcome_of, IsSendable, Runs};
ghost use Rattle.engine.specs.View.{world, turn_start, reply_of, IsRefusal};
ghost use Rattle.command_model.specs.Command.{IsBounded};
ghost use Rattle.commands.specs.View.{command_read};
ghost use Rattle.database_model.specs.Step.{Answers, ChangesNone, WroteNothing, read_and_run, run};
ghost use Rattle.engine.specs.Durable.{disk_history, failed_reads_of, file_of, failed_allocations_of, generation, has_changes, is_stopped, IsSound, KeepsChanges};
ghost use Rattle.engine.specs.Troubles.{MetNoTrouble};
ghost use Rattle.engine.specs.Writing.{FileCause};
ghost use Rattle.path.specs.declared.refusal.Refusal.TheVariants as refusals;

use crate::troubles::{told, troubles_of};
use bson::Document;
use collections::Collections as FileCollections;
use commands::Command;
use cursors::{Cursors, Ends};
use opening::{GhostState, open_file};
use page::Disk;
use path::Refusal;
use pinned_cursors::end_all;
use replies::{Answer, ConnId, FIRST_BATCH, built, ping_reply, spelled};
use roots::{CommitFault, Config, OpenFault};
use std::alloc::Global;
use trusted_disk::TrustedDisk;

/// What a command is answered.
#[derive(Drop)]
pub enum Reply {
    /// The command was done, and this says so.
    Done(Answer),
    /// The command was refused and changed nothing. `refusal_document` makes the document that says so.
    Refused(Refusal),
}

/// Collections of documents, kept on a disk. Commands run in turns: `commit_turn` makes durable what the commands of a
/// turn changed, `undo_turn` takes it back.
pub struct Engine<D: Disk> {
    pub(crate) alloc: Global,
    pub(crate) cursors: Cursors,
    pub(crate) file: FileCollections<D>,
    pub(crate) told: GhostState,
    /// Whether a command of the turn has changed something.
    pub(crate) is_changed: bool,
}

// (written out, so that no crate above proves again that the parts are let go)
impl<D: Disk + Drop> Drop for Engine<D> {
    fn drop(self) {
        let Engine {
            alloc: _,
            cursors: _,
            file: _,
            told: _,
            is_changed: _,
        } = self;
    }
}

impl<D: Disk> Engine<D> {
    /// Opens the database on a disk that a crash may have left; a disk of zeros holds the empty one. It writes nothing, and
    /// syncs before it answers. The disk is trusted where it holds collections. An `Err` hands it back.
    pub fn open(
        alloc: Global,
        disk: D,
        config: Config,
    ) -> Result<Engine<TrustedDisk<D>>, (D, OpenFault)>
        ensures opened { IfOk result (IsEngineOpened D.history disk) }
        ensures limit { IfOk result (λ e. HasLimit (limit_in config) (file_of e)) }
        ensures refused { IfErr result (λ e. IsFileRefused D.history disk e.0 e.1) }
    {
        let (file, told) = match open_file(alloc, disk, config.limit()) {
            Ok(found) => found,
            Err(refused) => return Err(refused),
        };
        Ok(Engine {
            alloc,
            cursors: Cursors::new(alloc),
            file,
            told,
            is_changed: false,
        })
    }

    /// Hands the disk back as it is.
    pub fn into_disk(self) -> D
        ensures { result ≡ (file_of self).pager.store.disk }
    {
        let Engine {
            alloc: _,
            cursors: _,
            file,
            told: _,
            is_changed: _,
        } = self;
        file.into_disk()
    }

    /// Whether a write or a sync has failed. Nothing is committed any more then.
    pub fn is_stopped(&self) -> bool
        ensures { result ≡ is_stopped self.now }
    {
        self.file.is_stopped()
    }

    /// Reads a command and runs it.
    fn run(&mut self, connection: ConnId, body: &Document) -> Result<Answer, Refusal>
        requires sound { IsSound D.history self.old }
        ensures performs { RunsCommand D.history
            (read_and_run (world self.old) connection body.now)
            (outcome_of result) self.old self.new }
        ensures has_changes { KeepsWord (disk_history D.history self.new)
            → WroteNothing (world self.old) (Ok body.now) (world self.new)
            → has_changes self.new ≡ has_changes self.old }
        ensures reads { BodyOnlyReads (Ok body.now) → RunsReadingCommand D.history
            (read_and_run (world self.old) connection body.now)
            (outcome_of result) self.old self.new }
        ensures sure { BodyNeedsNoDisk (Ok body.now) → Runs (world self.old)
            (read_and_run (world self.old) connection body.now) (world self.new)
            (outcome_of result) }
        ensures still { BodyNeedsNoDisk (Ok body.now) → file_of self.new ≡ file_of self.old }
        ensures sendable { IfOk result (λ a. IsSendable (answer_of a)) }
    {
        match Command::read(self.alloc, body) {
            Ok(command) => {
                let outcome = self.perform(connection, &command);
                drop(command);
                outcome
            }
            Err(refusal) => Err(refusal),
        }
    }

    /// Runs a command.
    fn perform(&mut self, connection: ConnId, command: &Command<'_>) -> Result<Answer, Refusal>
        requires bounded { IsBounded (command_read command.now) }
        requires sound { IsSound D.history self.old }
        ensures performs { RunsCommand D.history
            (run (world self.old) connection (command_read command.now))
            (outcome_of result) self.old self.new }
        ensures has_changes { KeepsWord (disk_history D.history self.new)
            → (world self.new).collections ≡ (world self.old).collections
            → ChangesNone (world self.old) (command_read command.now)
            → has_changes self.new ≡ has_changes self.old }
        ensures reads { OnlyReads (Ok (command_read command.now)) → RunsReadingCommand D.history
            (run (world self.old) connection (command_read command.now))
            (outcome_of result) self.old self.new }
        ensures sure { NeedsNoDisk (Ok (command_read command.now)) → Runs (world self.old)
            (run (world self.old) connection (command_read command.now)) (world self.new)
            (outcome_of result) }
        ensures still { NeedsNoDisk (Ok (command_read command.now))
            → file_of self.new ≡ file_of self.old }
        ensures sendable { IfOk result (λ a. IsSendable (answer_of a)) }
    {
        match command {
            Command::Insert(c) => built(self.insert(c.namespace.as_str(), &c.documents)),
            Command::Find(c) => {
                let most = c.batch_size.unwrap_or(FIRST_BATCH);
                spelled(self.find(connection, c.namespace.as_str(), &c.query, most))
            }
            Command::GetMore(c) => {
                spelled(self.get_more(connection, c.namespace.as_str(), &c.id, c.batch_size))
            }
            Command::KillCursors(c) => {
                built(self.kill_cursors(connection, c.namespace.as_str(), &c.cursors))
            }
            Command::Count(c) => {
                built(self.count(c.namespace.as_str(), &c.filter, c.skip, c.limit))
            }
            Command::Delete(c) => built(self.delete(c.namespace.as_str(), &c.deletions)),
            Command::Update(c) => built(self.update(c.namespace.as_str(), &c.statements)),
            Command::Aggregate(c) => {
                let most = c.batch_size.unwrap_or(FIRST_BATCH);
                spelled(self.aggregate(connection, c.namespace.as_str(), &c.pipeline, most))
            }
            _ => self.administer(connection, command),
        }
    }

    /// Runs a command that asks for no document: one about the server, its collections or their indexes.
    fn administer(&mut self, connection: ConnId, command: &Command<'_>) -> Result<Answer, Refusal>
        requires bounded { IsBounded (command_read command.now) }
        requires administrative { IsAdministrative (command_read command.now) }
        requires sound { IsSound D.history self.old }
        ensures performs { RunsCommand D.history
            (run (world self.old) connection (command_read command.now))
            (outcome_of result) self.old self.new }
        ensures has_changes { KeepsWord (disk_history D.history self.new)
            → (world self.new).collections ≡ (world self.old).collections
            → has_changes self.new ≡ has_changes self.old }
        ensures reads { OnlyReads (Ok (command_read command.now)) → RunsReadingCommand D.history
            (run (world self.old) connection (command_read command.now))
            (outcome_of result) self.old self.new }
        ensures sure { NeedsNoDisk (Ok (command_read command.now)) → Runs (world self.old)
            (run (world self.old) connection (command_read command.now)) (world self.new)
            (outcome_of result) }
        ensures still { NeedsNoDisk (Ok (command_read command.now))
            → file_of self.new ≡ file_of self.old }
        ensures sendable { IfOk result (λ a. IsSendable (answer_of a)) }
    {
        match command {
            Command::Ping => Ok(Answer::Built(ping_reply(self.alloc)?)),
            Command::Hello => built(self.hello(connection)),
            Command::Create(c) => built(self.create(c.namespace.as_str())),
            Command::Drop(c) => built(self.drop_collection(c.namespace.as_str())),
            Command::ListCollections(c) => spelled(self.list_collections(c.database)),
            Command::CreateIndexes(c) => {
                built(self.create_indexes(c.namespace.as_str(), &c.indexes))
            }
            Command::DropIndexes(c) => {
                built(self.drop_indexes(c.namespace.as_str(), &c.indexes))
            }
            Command::ListIndexes(c) => spelled(self.list_indexes(c.namespace.as_str())),
            Command::Explain(c) => built(self.explain(c.namespace.as_str(), &c.query)),
            _ => unreachable!(),
        }
    }

    /// Runs a command and answers it. `OutOfMemory` comes in place of another answer where a growth was refused,
    /// `StorageFailed` where the device failed, and `Full` where no page of the file is free; where the device failed
    /// or no page was free, `OutOfMemory` doesn't come. A `ping`, a `hello` and what is refused before it runs are
    /// answered so on any disk.
    pub fn execute(&mut self, connection: ConnId, body: &Document) -> Reply
        requires sound { IsSound D.history self.old }
        ensures sound { IsSound D.history self.new }
        ensures continues { Continues D.history self.old self.new }
        ensures answers { KeepsWord (disk_history D.history self.new)
            → Answers (FileCause D.history (file_of self.old) (file_of self.new))
            (world self.old) connection (Ok body.now) (world self.new) (reply_of result) }
        ensures refused { IsRefusal result → (world self.new ≡ world self.old)
            × (has_changes self.new ≡ has_changes self.old) }
        ensures turn_start { turn_start self.new ≡ turn_start self.old }
        ensures keeps { KeepsChanges self.old self.new }
        ensures has_changes { KeepsWord (disk_history D.history self.new)
            → WroteNothing (world self.old) (Ok body.now) (world self.new)
            → has_changes self.new ≡ has_changes self.old }
        ensures reads { BodyOnlyReads (Ok body.now) → has_changes self.new ≡ has_changes self.old }
        ensures takes { BodyOnlyReads (Ok body.now)
            → failed_allocations_of D.history self.new ≡ failed_allocations_of D.history self.old }
        ensures room { KeepsWord (disk_history D.history self.new) → BodyOnlyReads (Ok body.now)
            → Answers (λ planned. HasReadCause D.history (file_of self.old) (file_of self.new))
            (world self.old) connection (Ok body.now) (world self.new) (reply_of result) }
        ensures sure { BodyNeedsNoDisk (Ok body.now) → Answers ForMemory (world self.old) connection
            (Ok body.now) (world self.new) (reply_of result) }
        ensures memory { KeepsWord (disk_history D.history self.new)
            → result ≡ Reply.Refused refusals.OutOfMemory → MetNoTrouble D.history self.old self.new }
        ensures sendable { IsSendable (reply_of result) }
    {
        let before = troubles_of(&self.file);
        match self.run(connection, body) {
            Ok(answer) => Reply::Done(answer),
            Err(refusal) => Reply::Refused(told(refusal, before, troubles_of(&self.file))),
        }
    }

    /// Ends the turn, and makes durable what its commands changed. Where nothing changed, nothing is written. `Memory` and
    /// `Full` undo the turn, as `undo_turn` does. At `Device` the engine has stopped: what the turn changed may be durable
    /// or not.
    pub fn commit_turn(&mut self) -> Result<(), CommitFault>
        requires sound { IsSound D.history self.old }
        ensures { CommitsTurn D.history result self.old self.new }
    {
        if !self.is_changed {
            self.cursors.commit();
            return Ok(());
        }
        match self.file.commit() {
            Ok(()) => {
                self.keep();
                Ok(())
            }
            Err(CommitFault::Device) => {
                self.keep();
                Err(CommitFault::Device)
            }
            Err(CommitFault::Memory) => {
                self.roll_back();
                Err(CommitFault::Memory)
            }
            Err(CommitFault::Full) => {
                self.roll_back();
                Err(CommitFault::Full)
            }
        }
    }

    /// The turn's changes stay.
    fn keep(&mut self)
        ensures file { self.new.file ≡ self.old.file }
        ensures cursors { self.new.cursors ≡ all_at_rest self.old.cursors }
        ensures world { world self.new ≡ after_commit (world self.old) }
        ensures turn_start { turn_start self.new ≡ (world self.new).collections }
        ensures clean { has_changes self.new ≡ false }
    {
        self.told.keep();
        self.is_changed = false;
        self.cursors.commit();
    }

    /// The turn's changes are taken back. It takes no memory.
    fn roll_back(&mut self)
        ensures file { Undoes D.history self.old.file self.new.file }
        ensures tied { (changed : Bool) → AreTied changed D.history self.old.file self.old.cursors.list
            → AreTied false D.history self.new.file self.new.cursors.list }
        ensures world { world self.new ≡ after_undo (turn_start self.old) (world self.old) }
        ensures turn_start { turn_start self.new ≡ (world self.new).collections }
        ensures clean { has_changes self.new ≡ false }
    {
        end_all(&mut self.file, &mut self.cursors, &Ends::Touched);
        self.file.undo();
        self.told.roll_back();
        self.is_changed = false;
    }

    /// Ends the turn, and takes back what its commands changed. It takes no memory.
    pub fn undo_turn(&mut self)
        requires sound { IsSound D.history self.old }
        ensures sound { IsSound D.history self.new }
        ensures disk { disk_history D.history self.new ≡ disk_history D.history self.old }
        ensures running { is_stopped self.new ≡ is_stopped self.old }
        ensures generation { generation self.new ≡ generation self.old }
        ensures takes { failed_allocations_of D.history self.new
            ≡ failed_allocations_of D.history self.old }
        ensures reads { failed_reads_of D.history self.new ≡ failed_reads_of D.history self.old }
        ensures world { world self.new ≡ after_undo (turn_start self.old) (world self.old) }
        ensures turn_start { turn_start self.new ≡ (world self.new).collections }
        ensures clean { has_changes self.new ≡ false }
        ensures rested { are_untouched (world self.new).cursors ≡ true }
    {
        if !self.is_changed {
            end_all(&mut self.file, &mut self.cursors, &Ends::Touched);
            return;
        }
        self.roll_back();
    }

    /// A connection has ended, and its cursors with it.
    pub fn gone(&mut self, connection: ConnId)
        requires sound { IsSound D.history self.old }
        ensures sound { IsSound D.history self.new }
        ensures disk { disk_history D.history self.new ≡ disk_history D.history self.old }
        ensures running { is_stopped self.new ≡ is_stopped self.old }
        ensures generation { generation self.new ≡ generation self.old }
        ensures takes { failed_allocations_of D.history self.new
            ≡ failed_allocations_of D.history self.old }
        ensures reads { failed_reads_of D.history self.new ≡ failed_reads_of D.history self.old }
        ensures world { world self.new ≡ forget (world self.old) connection }
        ensures turn_start { turn_start self.new ≡ turn_start self.old }
        ensures has_changes { has_changes self.new ≡ has_changes self.old }
        ensures rested { are_untouched (world self.old).cursors ≡ true
            → are_untouched (world self.new).cursors ≡ true }
    {
        end_all(&mut self.file, &mut self.cursors, &Ends::Of(connection));
    }
}
