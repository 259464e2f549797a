//! Documents that replies are.

ghost use Rattle.std.specs.Prelude.{◌≡◌, ◌==◌, ◌≤◌, None, OnOk, IfOk, codes, false};
ghost use Rattle.std.specs.List.{list_any};
ghost use Rattle.bson.specs.Tree.{pair, no_pairs, append, append_items, item, no_items};
ghost use Rattle.bson.specs.View.{tree};
ghost use Rattle.bson.specs.Lookup.{lookup};
ghost use Rattle.bson.specs.Spelling.{frame_of, pairs_bytes};
ghost use Rattle.bson.specs.Lawful.{levels, pairs_levels};
ghost use Rattle.replies.specs.View.{outcome_of};
ghost use Rattle.database_model.specs.CreateIndexes.{create_indexes_reply};
ghost use Rattle.database_model.specs.DropIndexes.{drop_indexes_reply};
ghost use Rattle.database_model.specs.DropCollection.{drop_reply};
ghost use Rattle.database_model.specs.Explain.{explain_reply};
ghost use Rattle.database_model.specs.ListCollections.{listed};
ghost use Rattle.database_model.specs.ListIndexes.{described};
ghost use Rattle.database_model.specs.Refusals.{int, total, words, ok_reply, refusal_reply};

use bson::{Array, BuildFault, Document, NoMemory, Text, Value};
use bson_bytes::SpelledDocument;
use path::Refusal;
use std::alloc::{AllocError, Global};

/// The document that says that a command was done.
#[derive(Drop)]
pub enum Answer {
    /// A short one, built value by value.
    Built(Document),
    /// One whose bytes were written at once, so that the documents in it are not built again.
    Spelled(SpelledDocument),
}

/// What a command returned that built its reply.
pub fn built(outcome: Result<Document, Refusal>) -> Result<Answer, Refusal>
    ensures { outcome_of result ≡ outcome }
{
    Ok(Answer::Built(outcome?))
}

/// What a command returned that spelled its reply.
pub fn spelled(outcome: Result<SpelledDocument, Refusal>) -> Result<Answer, Refusal>
    ensures { outcome_of result ≡ outcome }
{
    Ok(Answer::Spelled(outcome?))
}

/// Adds a pair to a reply: of another name than those before, and not nested too deep, so only memory can be wanting.
pub fn put(reply: &mut Document, name: &str, value: Value) -> Result<(), NoMemory>
    requires name { list_any (λ b. b == 0) name.now ≡ false }
    requires new { lookup reply.old name.now ≡ None }
    requires flat { levels (tree value) ≤ 99 }
    ensures { OnOk result (reply.new ≡ append reply.old (pair name.now (tree value) no_pairs)) }
{
    match reply.push(name, value) {
        Ok(()) => Ok(()),
        Err(BuildFault::Memory) => Err(AllocError),
        Err(BuildFault::Name) => unreachable!("it has no zero"),
        Err(BuildFault::Repeated) => unreachable!("it is new"),
        Err(BuildFault::Deep) => unreachable!("it is flat"),
    }
}

/// Adds an item to an array of a reply, which is not nested too deep, so only memory can be wanting.
pub fn add(array: &mut Array, value: Value) -> Result<(), NoMemory>
    requires { levels (tree value) ≤ 98 }
    ensures { OnOk result (array.new ≡ append_items array.old (item (tree value) no_items)) }
{
    match array.push(value) {
        Ok(()) => Ok(()),
        Err(BuildFault::Deep) => unreachable!("it is flat"),
        Err(_) => Err(AllocError),
    }
}

/// A text as a value.
fn text_value(alloc: Global, text: &str) -> Result<Value, NoMemory>
    ensures { IfOk result (λ v. tree v ≡ words text.now) }
{
    Ok(Value::String(Text::from_str(alloc, text)?))
}

/// Ends the reply of a command that was done.
pub fn done(mut reply: Document) -> Result<Document, NoMemory>
    requires { lookup reply (codes "ok") ≡ None }
    ensures { IfOk result (λ d. d ≡ ok_reply reply) }
{
    put(&mut reply, "ok", Value::Int32(1))?;
    Ok(reply)
}

/// The reply of a `ping` and of a `create`, which says no more than that it was done.
pub fn ping_reply(alloc: Global) -> Result<Document, NoMemory>
    ensures { IfOk result (λ d. d ≡ ok_reply no_pairs) }
{
    done(Document::new(alloc))
}

/// The reply of an insert of so many documents.
pub fn insert_reply(alloc: Global, count: usize) -> Result<Document, NoMemory>
    requires { count ≤ 1000 }
    ensures { IfOk result (λ d. d ≡ ok_reply (pair (codes "n") (int count) no_pairs)) }
{
    let mut reply = Document::new(alloc);
    put(&mut reply, "n", Value::Int32(count as i32))?;
    done(reply)
}

/// The reply that says a number of documents.
pub fn total_reply(alloc: Global, number: usize) -> Result<Document, NoMemory>
    ensures { IfOk result (λ d. d ≡ ok_reply (pair (codes "n") (total number) no_pairs)) }
{
    let mut reply = Document::new(alloc);
    let number = number.min(i32::MAX as usize);
    put(&mut reply, "n", Value::Int32(number as i32))?;
    done(reply)
}

/// The reply of a `drop` of a collection with so many indexes, that of `_id` among them.
pub fn drop_reply(alloc: Global, count: usize, namespace: &str) -> Result<Document, NoMemory>
    requires { count ≤ 1000 }
    ensures { IfOk result (λ d. d ≡ ok_reply (drop_reply count namespace.now)) }
{
    let mut reply = Document::new(alloc);
    put(&mut reply, "nIndexesWas", Value::Int32(count as i32))?;
    put(&mut reply, "ns", text_value(alloc, namespace)?)?;
    done(reply)
}

/// The reply of a `createIndexes`: how many indexes the collection had, that of `_id` among them, how many it has, and whether it
/// was made.
pub fn create_indexes_reply(
    alloc: Global,
    before: usize,
    after: usize,
    is_new: bool,
) -> Result<Document, NoMemory>
    requires before { before ≤ 1000 }
    requires after { after ≤ 1000 }
    ensures { IfOk result (λ d. d ≡ ok_reply (create_indexes_reply before after is_new)) }
{
    let mut reply = Document::new(alloc);
    put(&mut reply, "numIndexesBefore", Value::Int32(before as i32))?;
    put(&mut reply, "numIndexesAfter", Value::Int32(after as i32))?;
    put(
        &mut reply,
        "createdCollectionAutomatically",
        Value::Bool(is_new),
    )?;
    done(reply)
}

/// The reply of a `dropIndexes` in a collection with so many indexes, that of `_id` among them.
pub fn drop_indexes_reply(alloc: Global, count: usize) -> Result<Document, NoMemory>
    requires { count ≤ 1000 }
    ensures { IfOk result (λ d. d ≡ ok_reply (drop_indexes_reply count)) }
{
    let mut reply = Document::new(alloc);
    put(&mut reply, "nIndexesWas", Value::Int32(count as i32))?;
    done(reply)
}

/// The reply of an `explain`: the text of a plan.
pub fn explain_reply(alloc: Global, text: &str) -> Result<Document, NoMemory>
    ensures { IfOk result (λ d. d ≡ ok_reply (explain_reply text.now)) }
{
    let mut reply = Document::new(alloc);
    put(&mut reply, "plan", text_value(alloc, text)?)?;
    done(reply)
}

/// What `listCollections` says of a collection.
pub fn listed_document(alloc: Global, name: &str) -> Result<Document, NoMemory>
    ensures { IfOk result (λ d. d ≡ listed name.now) }
{
    let mut listed = Document::new(alloc);
    put(&mut listed, "name", text_value(alloc, name)?)?;
    put(&mut listed, "type", text_value(alloc, "collection")?)?;
    Ok(listed)
}

/// What `listIndexes` says of an index with this key and this name.
pub fn described_document(
    alloc: Global,
    key: Document,
    name: &str,
    is_unique: bool,
) -> Result<Document, NoMemory>
    requires { pairs_levels key ≤ 98 }
    ensures { IfOk result (λ d. d ≡ described key name.now is_unique) }
{
    let mut described = Document::new(alloc);
    put(&mut described, "key", Value::Document(key))?;
    put(&mut described, "name", text_value(alloc, name)?)?;
    if !is_unique {
        return Ok(described);
    }
    put(&mut described, "unique", Value::Bool(true))?;
    Ok(described)
}

/// The document that a refusal is answered with.
pub fn refusal_document(alloc: Global, refusal: Refusal) -> Result<Document, NoMemory>
    ensures { IfOk result (λ d. d ≡ refusal_reply refusal) }
{
    let mut reply = Document::new(alloc);
    put_refusal(alloc, &mut reply, refusal)?;
    Ok(reply)
}

fn put_refusal(alloc: Global, reply: &mut Document, refusal: Refusal) -> Result<(), NoMemory>
    requires { reply.old ≡ no_pairs }
    ensures { OnOk result (reply.new ≡ refusal_reply refusal) }
{
    put(reply, "ok", Value::Int32(0))?;
    put(reply, "errmsg", text_value(alloc, refusal.text())?)?;
    put(reply, "code", Value::Int32(refusal.code()))?;
    put(reply, "codeName", text_value(alloc, refusal.name())?)
}

/// The bytes of the document that says that memory ran out, for where there may be no memory to make it.
#[tactic(auto, unfolding(bson::specs::Spelling::tree_bytes, bson::specs::Spelling::pairs_bytes))]
pub fn out_of_memory_bytes() -> &'static [u8]
    ensures { result.now ≡ frame_of (pairs_bytes (refusal_reply Refusal.OutOfMemory)) }
{
    b"\x4b\0\0\0\
        \x10ok\0\0\0\0\0\
        \x02errmsg\0\x0e\0\0\0out of memory\0\
        \x10code\0\x2c\x23\0\0\
        \x02codeName\0\x0c\0\0\0OutOfMemory\0\
        \0"
}

/// The bytes of the document that says that the file is full.
#[tactic(auto, unfolding(bson::specs::Spelling::tree_bytes, bson::specs::Spelling::pairs_bytes))]
pub fn full_bytes() -> &'static [u8]
    ensures { result.now ≡ frame_of (pairs_bytes (refusal_reply Refusal.Full)) }
{
    b"\x43\0\0\0\
        \x10ok\0\0\0\0\0\
        \x02errmsg\0\x0d\0\0\0file is full\0\
        \x10code\0\x2b\x23\0\0\
        \x02codeName\0\x05\0\0\0Full\0\
        \0"
}
