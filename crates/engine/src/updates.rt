//! `update`: documents are changed and made, statement by statement; all statements are done, or none.

ghost use Rattle.std.specs.Prelude.{◌≡◌, ◌≢◌, ◌≤◌, [], false, true, IfOk, None, All, length, map};
ghost use Rattle.page.specs.History.{KeepsWord};
ghost use Rattle.collections.specs.Lookups.{IsWithinLimits};
ghost use Rattle.command_model.specs.Update.{UpdateStatement, IsRead};
ghost use Rattle.command_model.specs.Command.{update};
ghost use Rattle.engine.specs.Durable.{disk_history, has_changes, IsSound};
ghost use Rattle.database_model.specs.Lawful.{IsWithin};
ghost use Rattle.database_model.specs.Merging.{made_by, makes_any};
ghost use Rattle.engine.specs.Performing.{RunsCommand};
ghost use Rattle.engine.specs.Putting.{AreWritesOf, HasNumber, IsFullFor, IsFullWithout, IsMeant, IsUpdate, MeansIn, NotesWrites, RepliesTo, FirstAreEnough};
ghost use Rattle.database_model.specs.Step.{ChangesNone};
ghost use Rattle.engine.specs.Storing.{MayEnter, Notes, entering};
ghost use Rattle.engine.specs.Trying.{MayRefuse};
ghost use Rattle.entry_model.specs.Entering.{enter_each};
ghost use Rattle.database_model.specs.UpdateCommand.{run_update};
ghost use Rattle.statements.specs.Updating.{MayBePut, news_of, seen};
ghost use Rattle.replies.specs.View.{IsSendable};
ghost use Rattle.engine.specs.View.{world};

use crate::engine::Engine;
use bson::Document;
use commands::UpdateStatement;
use entries::{Catalogued, Edits};
use meant_documents::{Meaning, all_made};
use page::Disk;
use path::Refusal;
use replies::{REPLY_LIMIT, SharedDocument};
use statements::{Ran, Tally, Write, run_on, update_reply};
use std::alloc::Global;

/// The documents that the statements of an update may mean, as many as are enough, and the collection that
/// has them.
#[derive(Drop)]
pub(crate) struct Candidates {
    number: u32,
    /// Whether it is missing, and a statement makes a document where none matches.
    is_new: bool,
    documents: Vec<SharedDocument>,
}

/// Whether a statement makes a document where none matches.
fn makes_any(statements: &[UpdateStatement]) -> bool
    ensures { result ≡ makes_any statements.now }
{
    statements.iter().any(|statement| statement.upsert)
}

/// So many of the documents that statements may mean are enough, in ascending order of `_id`: one, where the
/// only statement changes one and makes none.
fn enough(statements: &[UpdateStatement], made: &[Document]) -> usize
    ensures { made.now ≡ made_by statements.now → FirstAreEnough statements.now result }
{
    match statements {
        [only] if !only.multi && made.is_empty() => 1,
        _ => usize::MAX,
    }
}

/// The reply that says what statements came to; `BSONObjectTooLarge` where that is too long, as the `_id`s of
/// many documents that were made can make it.
fn reply_of(alloc: Global, end: Result<Tally, Refusal>) -> Result<Document, Refusal>
    ensures replies { RepliesTo end result }
    ensures sendable { IfOk result (λ d. IsSendable d) }
{
    let reply = update_reply(alloc, end?)?;
    if REPLY_LIMIT < reply.encoded_len() {
        return Err(Refusal::BSONObjectTooLarge);
    }
    Ok(reply)
}

/// Whether an update writes nothing.
fn are_none(ran: &Ran) -> bool
    ensures all { result ≡ true → ran.now.writes.items ≡ [] }
    ensures some { result ≡ false → ran.now.writes.items ≢ [] }
{
    ran.writes.is_empty()
}

impl<D: Disk> Engine<D> {
    /// Updates documents, statement by statement, all statements or none.
    pub(crate) fn update(
        &mut self,
        namespace: &str,
        statements: &[UpdateStatement],
    ) -> Result<Document, Refusal>
        requires few { length statements.now ≤ 1000 }
        requires short { length namespace.now ≤ 255 }
        requires read { All (λ (s : UpdateStatement). IsRead s.change) statements.now }
        requires sound { IsSound D.history self.old }
        ensures performs { RunsCommand D.history
            (run_update (world self.old)
            (record { namespace = namespace.now; statements = statements.now }))
            result self.old self.new }
        ensures has_changes { KeepsWord (disk_history D.history self.new)
            → (world self.new).collections ≡ (world self.old).collections
            → ChangesNone (world self.old)
            (update (record { namespace = namespace.now; statements = statements.now }))
            → has_changes self.new ≡ has_changes self.old }
        ensures sendable { IfOk result (λ d. IsSendable d) }
    {
        let ran = self.updated(namespace, statements)?;
        if are_none(&ran) {
            return reply_of(self.alloc, ran.end);
        }
        let edits = self.edits_of(namespace, &ran.writes)?;
        let reply = reply_of(self.alloc, ran.end)?;
        self.write(&edits, &(namespace, statements))?;
        Ok(reply)
    }

    /// What an update writes to the collection of a name, and what it comes to.
    fn updated(&mut self, namespace: &str, statements: &[UpdateStatement]) -> Result<Ran, Refusal>
        requires few { length statements.now ≤ 1000 }
        requires read { All (λ (s : UpdateStatement). IsRead s.change) statements.now }
        requires sound { IsSound D.history self.old }
        ensures tries { MayRefuse D.history
            (IsUpdate (world self.old).collections namespace.now statements.now)
            (IsFullFor (world self.old).collections namespace.now statements.now)
            result self.old self.new }
        ensures puttable { IfOk result (λ x. All MayBePut (news_of x.writes.items)) }
    {
        let meant = self.meant(namespace, statements)?;
        Ok(run_on(self.alloc, meant.documents, statements, true)?)
    }

    /// The edits that write what an update writes to the collection of a name, which they make where it is
    /// missing.
    fn edits_of(&mut self, namespace: &str, writes: &[Write]) -> Result<Edits, Refusal>
        requires short { length namespace.now ≤ 255 }
        requires sound { IsSound D.history self.old }
        requires puttable { All MayBePut (news_of writes.now) }
        ensures { NotesWrites D.history namespace.now writes.now result self.old self.new }
    {
        let mut edits = Edits::new(self.alloc);
        let mut home = self.target(&mut edits, namespace)?;
        self.note_writes(&mut edits, namespace, &mut home, writes)?;
        Ok(edits)
    }

    /// Notes what an update writes, in its order, up to the first that is refused.
    fn note_writes(
        &mut self,
        edits: &mut Edits,
        namespace: &str,
        home: &mut Catalogued,
        writes: &[Write],
    ) -> Result<(), Refusal>
        requires sound { IsSound D.history self.old }
        requires short { length namespace.now ≤ 255 }
        requires limits { IsWithinLimits home.old }
        requires puttable { All MayBePut (news_of writes.now) }
        ensures { Notes D.history namespace.now (λ c. AreWritesOf c.documents writes.now)
            (λ c. enter_each c (map seen writes.now))
            home.old home.new edits.old edits.new result self.old self.new }
    {
        'writes: for write in writes {
            self.note_write(edits, namespace, home, write)?;
        }
        Ok(())
    }

    /// Notes that a document is written; the first refusal of it otherwise.
    fn note_write(
        &mut self,
        edits: &mut Edits,
        namespace: &str,
        home: &mut Catalogued,
        write: &Write,
    ) -> Result<(), Refusal>
        requires sound { IsSound D.history self.old }
        requires short { length namespace.now ≤ 255 }
        requires limits { IsWithinLimits home.old }
        requires puttable { MayBePut write.now.new }
        ensures notes { Notes D.history namespace.now (MayEnter write.now.old write.now.new)
            (entering write.now.old write.now.new)
            home.old home.new edits.old edits.new result self.old self.new }
        ensures limits { IsWithinLimits home.new }
    {
        let new = write.new.document();
        match &write.old {
            None => self.enter(edits, namespace, home, None, new),
            Some(old) => self.enter(edits, namespace, home, Some(old.document()), new),
        }
    }

    /// The documents that statements may mean in the collection of a name, as many as are enough. One walk
    /// reads them. `TooMany` where the collection is missing, and making it for a document that a statement
    /// makes would be one too many.
    fn meant(
        &mut self,
        namespace: &str,
        statements: &[UpdateStatement],
    ) -> Result<Candidates, Refusal>
        requires sound { IsSound D.history self.old }
        ensures tries { MayRefuse D.history
            (IsMeant (world self.old).collections namespace.now statements.now)
            (IsFullFor (world self.old).collections namespace.now statements.now)
            result self.old self.new }
        ensures within { IfOk result (λ m. All IsWithin m.documents.items) }
        ensures number { IfOk result (λ m. HasNumber m.is_new m.number) }
    {
        let Some(home) = self.catalogued(namespace)? else {
            return self.meant_in_none(statements);
        };
        let made = all_made(self.alloc, statements)?;
        let meaning = Meaning {
            statements,
            made: &made,
        };
        let documents = self.selected(&home, &meaning, enough(statements, &made))?;
        Ok(Candidates {
            number: home.number,
            is_new: false,
            documents,
        })
    }

    /// No documents, in a collection that is missing.
    fn meant_in_none(&mut self, statements: &[UpdateStatement]) -> Result<Candidates, Refusal>
        requires sound { IsSound D.history self.old }
        ensures tries { MayRefuse D.history
            (MeansIn None (world self.old).collections statements.now)
            (IsFullWithout (world self.old).collections statements.now)
            result self.old self.new }
        ensures none { IfOk result (λ m. m.documents.items ≡ []) }
        ensures number { IfOk result (λ m. HasNumber m.is_new m.number) }
    {
        if !makes_any(statements) {
            return Ok(Candidates {
                number: 0,
                is_new: false,
                documents: Vec::new(self.alloc),
            });
        }
        let number = self.new_number()?;
        Ok(Candidates {
            number,
            is_new: true,
            documents: Vec::new(self.alloc),
        })
    }
}
