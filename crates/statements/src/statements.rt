//! The statements of an update, run over documents in memory.

ghost use Rattle.std.specs.Prelude.{◌≡◌, ◌≢◌, true, ◌≤◌, ◌<◌, IfOk, OnOk, IfErr, IfSome, IfNone, Ok, Some, All, length, map, slice_index_or, slice_set};
ghost use Rattle.std.specs.Str.{bytes_eq};
ghost use Rattle.bson.specs.Tree.{no_pairs};
ghost use Rattle.bson.specs.Lawful.{IsDocument, pairs_levels};
ghost use Rattle.bson.specs.Spelling.{Spells, frame_of, pairs_bytes};
ghost use Rattle.bson.specs.View.{tree, pairs_of};
ghost use Rattle.filter.specs.Matches.{matches};
ghost use Rattle.outcome.specs.Outcome.{Fails, Gives};
ghost use Rattle.update_model.specs.Applying.{apply};
ghost use Rattle.update.specs.View.{update_of};
ghost use Rattle.command_model.specs.Update.{UpdateStatement, IsRead};
ghost use Rattle.database_model.specs.Documents.{key_of};
ghost use Rattle.database_model.specs.Lawful.{IsStored, IsWithin};
ghost use Rattle.database_model.specs.Merging.{one_or_none, run_each, run_listed, upsert_listed};
ghost use Rattle.database_model.specs.Refusals.{total, ok_reply};
ghost use Rattle.database_model.specs.Update.{counted, spelled, upsert_document, upserted_entry, counts_reply};
ghost use Rattle.statements.specs.Updating.{ChangesAt, document_at, Inserts, IsChange, IsPlaceOf, IsRan, listed_of, RunsMatching, Wrote};
ghost use Rattle.database_model.specs.Writes.{made_write, statement_writes, writes_from};

use crate::matching::matches;
use bson::{Array, Document, EncodeFault, NoMemory, Pair, Value, encode};
use commands::UpdateStatement;
use path::Refusal;
use replies::{SharedDocument, add, done, put};
use std::alloc::{AllocError, Global};
use std::cmp::Ordering;
use std::mem;
use stored_documents::{STORED_LIMIT, check_key, compare_ids};
use update::{Update, id_of, upsert_base};
use value_order::compare;

/// The greatest count of a reply.
const MOST_COUNTED: usize = 2_147_483_647;

/// What the statements of an update have come to.
#[derive(Drop)]
pub struct Tally {
    /// How many documents matched or were made.
    matched: usize,
    /// How many have other bytes than before.
    modified: usize,
    /// What the reply says of each document that was made.
    upserted: Array,
}

/// A document that an update writes.
#[derive(Drop)]
pub struct Write {
    /// Whether it is made, and goes in no other's place.
    pub is_new: bool,
    /// The one in whose place it goes, where that is kept.
    pub old: Option<SharedDocument>,
    pub new: SharedDocument,
}

/// What the statements of an update have made of documents so far.
#[derive(Drop)]
pub struct Run {
    /// The documents, in ascending order of `_id`.
    documents: Vec<SharedDocument>,
    /// Those that were changed or made, one after the other.
    writes: Vec<Write>,
    /// Whether a write keeps the document in whose place it goes.
    keeps_old: bool,
    tally: Tally,
}

/// What the statements of an update came to.
#[derive(Drop)]
pub struct Ran {
    /// The documents that were changed or made up to the first refusal, one after the other. Of one `_id` the last one counts.
    pub writes: Vec<Write>,
    /// The counts and what was made, or that refusal.
    pub end: Result<Tally, Refusal>,
}

/// One more, up to the greatest count of a reply.
fn counted(number: usize) -> usize
    ensures { result ≡ counted number }
{
    if number < MOST_COUNTED {
        number + 1
    } else {
        number
    }
}

/// Whether a value of the one is not equal to that in its place in the other. Where none is, the bytes may differ all
/// the same, in names and in kinds of numbers.
fn has_other_value(a: &[Pair], b: &[Pair]) -> bool
    ensures { result ≡ true → pairs_of a.now ≢ pairs_of b.now }
{
    'pairs: for (i, first) in a.iter().enumerate() {
        if b.len() <= i {
            return false;
        }
        let second = &b[i];
        match compare(&first.value, &second.value) {
            Ordering::Equal => {}
            Ordering::Less | Ordering::Greater => return true,
        }
    }
    false
}

/// The bytes of a document that is no larger than a stored one.
fn spelling(alloc: Global, document: &Document) -> Result<Vec<u8>, NoMemory>
    requires { length (frame_of (pairs_bytes document.now)) ≤ 65535 }
    ensures { IfOk result (λ bytes. Spells bytes.items document.now) }
{
    match encode(alloc, document) {
        Ok(bytes) => Ok(bytes),
        Err(EncodeFault::Memory) => Err(AllocError),
        Err(EncodeFault::TooLarge) => unreachable!("it is within the limit"),
    }
}

/// Whether two documents have the same bytes.
fn is_same(alloc: Global, a: &Document, b: &Document) -> Result<bool, NoMemory>
    requires a { length (spelled a.now) ≤ 65535 }
    requires b { length (spelled b.now) ≤ 65535 }
    ensures { IfOk result (λ same. same ≡ bytes_eq (spelled a.now) (spelled b.now)) }
{
    Ok(spelling(alloc, a)? == spelling(alloc, b)?)
}

/// What an update makes of a document; `None` where that has the same bytes.
fn changed(alloc: Global, change: &Update, document: &Document) -> Result<Option<Document>, Refusal>
    requires { IsWithin document.now }
    ensures some { IfOk result
        (λ found. IfSome found (IsChange (update_of change.now) document.now)) }
    ensures none { IfOk result (λ found. IfNone found
        (apply (update_of change.now) 65535 document.now ≡ Ok document.now)) }
    ensures refused { IfErr result (λ e. Fails Refusal.OutOfMemory e
        (apply (update_of change.now) 65535 document.now)) }
{
    let new = change.apply(document, STORED_LIMIT)?;
    if has_other_value(document.pairs(), new.pairs()) {
        return Ok(Some(new));
    }
    let same = is_same(alloc, document, &new)?;
    if same {
        return Ok(None);
    }
    Ok(Some(new))
}

/// The document that an upsert stores: the filter's equalities, changed as the statement says.
///
/// The first of these refusals: what setting an equality refuses; what the update refuses; `KeyTooLong`.
pub fn upsert_document(alloc: Global, statement: &UpdateStatement) -> Result<Document, Refusal>
    ensures gives { Gives Refusal.OutOfMemory (λ d. d) result (upsert_document statement.now) }
    ensures stored { IfOk result (λ d. IsStored d) }
    ensures readable { IfOk result (λ d. IsDocument d) }
{
    let base = upsert_base(alloc, &statement.filter)?;
    let new = statement.change.apply(&base, STORED_LIMIT)?;
    let Some(id) = id_of(&new) else {
        unreachable!("it may be stored")
    };
    check_key(alloc, id)?;
    let _levels = new.levels();
    Ok(new)
}

/// What the reply says of a document that the statement of an index made.
fn upserted_entry(alloc: Global, index: usize, document: &Document) -> Result<Document, NoMemory>
    requires index { index ≤ 1000 }
    requires stored { IsStored document.now }
    ensures entry { IfOk result (λ d. d ≡ upserted_entry index (key_of document.now)) }
    ensures flat { IfOk result (λ d. pairs_levels d ≤ 97) }
{
    let Some(id) = id_of(document) else {
        unreachable!("it is stored")
    };
    let mut entry = Document::new(alloc);
    put(&mut entry, "index", Value::Int32(index as i32))?;
    put(&mut entry, "_id", id.copy()?)?;
    Ok(entry)
}

/// A number of documents in a reply.
fn total_value(number: usize) -> Value
    ensures { tree result ≡ total number }
{
    let number = number.min(MOST_COUNTED);
    Value::Int32(number as i32)
}

/// The reply of an update.
pub fn update_reply(alloc: Global, tally: Tally) -> Result<Document, NoMemory>
    ensures { IfOk result (λ d. d
        ≡ ok_reply (counts_reply tally.matched tally.modified tally.upserted)) }
{
    let mut reply = Document::new(alloc);
    put(&mut reply, "n", total_value(tally.matched))?;
    put(&mut reply, "nModified", total_value(tally.modified))?;
    if tally.upserted.is_empty() {
        return done(reply);
    }
    put(&mut reply, "upserted", Value::Array(tally.upserted))?;
    done(reply)
}

/// Puts a document in the place of another, which it gives.
fn replace_at(
    documents: &mut Vec<SharedDocument>,
    place: usize,
    document: SharedDocument,
) -> SharedDocument
    requires { place < length documents.old.items }
    ensures new { documents.new.items ≡ slice_set documents.old.items place document }
    ensures old { result ≡ slice_index_or documents.old.items place no_pairs }
{
    mem::replace(&mut documents[place], document)
}

/// The document, if it is to be kept.
fn if_kept(keeps: bool, document: SharedDocument) -> Option<SharedDocument>
    ensures { keeps ≡ true → result ≡ Some document }
{
    if keeps { Some(document) } else { None }
}

/// Updates the document at a place.
fn change_at(alloc: Global, run: &mut Run, place: usize, change: &Update) -> Result<(), Refusal>
    requires there { place < length run.old.documents.items }
    requires within { All IsWithin run.old.documents.items }
    requires read { IsRead (update_of change.now) }
    ensures changes { OnOk result (ChangesAt (update_of change.now) place run.old run.new) }
    ensures refused { IfErr result (λ e. Fails Refusal.OutOfMemory e
        (apply (update_of change.now) 65535 (document_at place run.old))) }
    ensures same { IfErr result (λ e. e ≢ Refusal.OutOfMemory → run.new ≡ run.old) }
{
    let found = changed(alloc, change, run.documents[place].document())?;
    run.tally.matched = counted(run.tally.matched);
    let Some(new) = found else {
        return Ok(());
    };
    let new = SharedDocument::new(alloc, new)?;
    let old = replace_at(&mut run.documents, place, new.share()?);
    let old = if_kept(run.keeps_old, old);
    run.writes.push(Write {
        is_new: false,
        old,
        new,
    })?;
    run.tally.modified = counted(run.tally.modified);
    Ok(())
}

/// Updates the documents that match, in their order: all of them, or the first. It says whether one matches.
fn update_matching(
    alloc: Global,
    run: &mut Run,
    statement: &UpdateStatement,
) -> Result<bool, Refusal>
    requires within { All IsWithin run.old.documents.items }
    requires read { IsRead statement.now.change }
    ensures { RunsMatching statement.now run.old run.new result }
{
    let count = run.documents.len();
    let mut found = false;
    'places: for place in 0..count {
        if matches(&statement.filter, run.documents[place].document()) {
            change_at(alloc, run, place, &statement.change)?;
            if !statement.multi {
                return Ok(true);
            }
            found = true;
        }
    }
    Ok(found)
}

/// Where a document goes among others; `None` where one has its `_id`.
fn place_of(documents: &[SharedDocument], new: &Document) -> Option<usize>
    ensures { IsPlaceOf new.now documents.now result }
{
    'documents: for (place, document) in documents.iter().enumerate() {
        match compare_ids(new, document.document()) {
            Ordering::Less => return Some(place),
            Ordering::Equal => return None,
            Ordering::Greater => {}
        }
    }
    Some(documents.len())
}

/// Writes a document that was made, and puts it among the others; `DuplicateKey` where one has its `_id`.
fn insert(alloc: Global, run: &mut Run, document: Document) -> Result<(), Refusal>
    requires within { All IsWithin run.old.documents.items }
    requires stored { IsStored document }
    requires readable { IsDocument document }
    ensures { Inserts document result run.old run.new }
{
    let new = SharedDocument::new(alloc, document)?;
    run.writes.push(Write {
        is_new: true,
        old: None,
        new: new.share()?,
    })?;
    let Some(place) = place_of(&run.documents, new.document()) else {
        return Err(Refusal::DuplicateKey);
    };
    run.documents.insert(place, new)?;
    Ok(())
}

/// Makes a document, as a statement says that no document matches.
fn upsert(
    alloc: Global,
    run: &mut Run,
    index: usize,
    statement: &UpdateStatement,
) -> Result<(), Refusal>
    requires index { index ≤ 1000 }
    requires within { All IsWithin run.old.documents.items }
    ensures gives { Gives Refusal.OutOfMemory (λ _. listed_of run.new) result
        (upsert_listed index statement.now (listed_of run.old)) }
    ensures wrote { Wrote result (map made_write (one_or_none (upsert_document statement.now)))
        run.old run.new }
{
    let document = upsert_document(alloc, statement)?;
    let entry = upserted_entry(alloc, index, &document)?;
    insert(alloc, run, document)?;
    add(&mut run.tally.upserted, Value::Document(entry))?;
    run.tally.matched = counted(run.tally.matched);
    Ok(())
}

/// Runs the statement of an index.
fn run_statement(
    alloc: Global,
    run: &mut Run,
    index: usize,
    statement: &UpdateStatement,
) -> Result<(), Refusal>
    requires index { index ≤ 1000 }
    requires within { All IsWithin run.old.documents.items }
    requires read { IsRead statement.now.change }
    ensures gives { Gives Refusal.OutOfMemory (λ _. listed_of run.new) result
        (run_listed index statement.now (listed_of run.old)) }
    ensures wrote { Wrote result (statement_writes statement.now run.old.documents.items)
        run.old run.new }
{
    let found = update_matching(alloc, run, statement)?;
    if found {
        return Ok(());
    }
    if statement.upsert {
        return upsert(alloc, run, index, statement);
    }
    Ok(())
}

/// Runs statements, up to the first that is refused.
fn run_statements(
    alloc: Global,
    run: &mut Run,
    statements: &[UpdateStatement],
) -> Result<(), Refusal>
    requires few { length statements.now ≤ 1000 }
    requires within { All IsWithin run.old.documents.items }
    requires read { All (λ (s : UpdateStatement). IsRead s.change) statements.now }
    ensures gives { Gives Refusal.OutOfMemory (λ _. listed_of run.new) result
        (run_each 0 statements.now (listed_of run.old)) }
    ensures wrote { Wrote result (writes_from 0 statements.now (listed_of run.old))
        run.old run.new }
{
    'statements: for (index, statement) in statements.iter().enumerate() {
        run_statement(alloc, run, index, statement)?;
    }
    Ok(())
}

/// A refusal, unless it is want of memory.
pub fn unless_memory(refusal: Refusal) -> Result<Refusal, NoMemory>
    ensures { IfOk result (λ e. (e ≡ refusal) × (refusal ≢ Refusal.OutOfMemory)) }
{
    match refusal {
        Refusal::OutOfMemory => Err(AllocError),
        _ => Ok(refusal),
    }
}

/// Runs statements over documents in ascending order of `_id`, up to the first that is refused.
pub fn run_on(
    alloc: Global,
    documents: Vec<SharedDocument>,
    statements: &[UpdateStatement],
    keeps_old: bool,
) -> Result<Ran, NoMemory>
    requires few { length statements.now ≤ 1000 }
    requires within { All IsWithin documents.items }
    requires read { All (λ (s : UpdateStatement). IsRead s.change) statements.now }
    ensures { IfOk result (IsRan keeps_old statements.now documents.items) }
{
    let mut run = Run {
        documents,
        writes: Vec::new(alloc),
        keeps_old,
        tally: Tally {
            matched: 0,
            modified: 0,
            upserted: Array::new(alloc),
        },
    };
    let result = run_statements(alloc, &mut run, statements);
    match result {
        Ok(()) => Ok(Ran {
            writes: run.writes,
            end: Ok(run.tally),
        }),
        Err(refusal) => {
            let refusal = unless_memory(refusal)?;
            Ok(Ran {
                writes: run.writes,
                end: Err(refusal),
            })
        }
    }
}
