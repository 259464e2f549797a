//! A `distinct`: the commands that it takes, and its answer.

ghost use Rattle.std.specs.Prelude.{◌≡◌, ◌≤◌, IfOk, IfSome, OnOk, option_map, codes};
ghost use Rattle.bson.specs.Lookup.{lookup};
ghost use Rattle.bson.specs.Lawful.{levels, items_levels, pairs_levels};
ghost use Rattle.bson.specs.View.{tree, items_of};
ghost use Rattle.driver_replies.specs.Listing.{items_in};
ghost use Rattle.driver_replies.specs.Distinct.{key_of, distinct_of, field_alone, find_values, get_more, documents_in, with_document, with_documents, distinct_reply};

use crate::fields::{put, put_text};
use crate::modifying::find_query;
use crate::texts::text_or_none;
use bson::{Document, NoMemory, Value};
use distinct_values::DistinctValues;
use path::{Part, Path, PathFault};
use std::alloc::{AllocError, Global};

/// What is known of a `distinct`: the path whose values it asks for, and those that were found so far.
#[derive(Drop)]
pub struct Distinct {
    pub path: Path,
    pub values: DistinctValues,
}

/// The path that the key of a `distinct` writes, if it is one.
pub fn key_of(alloc: Global, body: &Document) -> Result<Option<Path>, NoMemory>
    ensures { IfOk result (λ path. path ≡ key_of body.now) }
{
    match Path::parse(alloc, text_or_none(body.get("key"))) {
        Ok(path) => Ok(Some(path)),
        Err(PathFault::Memory) => Err(AllocError),
        Err(_) => Ok(None),
    }
}

/// The projection that leaves of a document the field of this name alone.
fn field_alone(alloc: Global, name: &Part) -> Result<Document, NoMemory>
    ensures is { IfOk result (λ d. d ≡ field_alone name.now) }
    ensures flat { IfOk result (λ d. pairs_levels d ≤ 1) }
{
    let name = name.as_str();
    let mut fields = Document::new(alloc);
    put(&mut fields, name, Value::Int32(1))?;
    if name != "_id" {
        put(&mut fields, "_id", Value::Int32(0))?;
    }
    Ok(fields)
}

/// The find of all documents that a `distinct` asks for, of each the field that its path begins with.
pub fn find_values(
    alloc: Global,
    database: &str,
    collection: &str,
    path: &Path,
    body: &Document,
) -> Result<Document, NoMemory>
    ensures { IfOk result
        (λ d. d ≡ find_values database.now collection.now path.now body.now) }
{
    let mut command = find_query(alloc, collection, body)?;
    let (name, _rest) = path.split_first();
    let fields = field_alone(alloc, name)?;
    put(&mut command, "projection", Value::Document(fields))?;
    put_text(alloc, &mut command, "$db", database)?;
    Ok(command)
}

/// The command that asks a cursor for its next batch.
pub fn get_more(
    alloc: Global,
    database: &str,
    collection: &str,
    cursor: i64,
) -> Result<Document, NoMemory>
    ensures { IfOk result (λ d. d ≡ get_more database.now collection.now cursor) }
{
    let mut command = Document::new(alloc);
    put(&mut command, "getMore", Value::Int64(cursor))?;
    put_text(alloc, &mut command, "collection", collection)?;
    put_text(alloc, &mut command, "$db", database)?;
    Ok(command)
}

/// The items of a field that is an array.
fn items_at<'a>(document: &'a Document, name: &str) -> Option<&'a [Value]>
    ensures is { option_map (λ vs. items_of vs.now) result
        ≡ items_in (lookup document.now name.now) }
    ensures flat { IfSome result (λ vs. items_levels (items_of vs.now) ≤ 98) }
{
    match document.get(name) {
        Some(Value::Array(array)) => Some(array.items()),
        _ => None,
    }
}

/// The documents of the batch in a reply's cursor, if it has one.
pub fn documents_in(reply: &Document) -> Option<&[Value]>
    ensures is { option_map (λ vs. items_of vs.now) result
        ≡ documents_in (lookup reply.now (codes "cursor")) }
    ensures flat { IfSome result (λ vs. items_levels (items_of vs.now) ≤ 98) }
{
    let Some(Value::Document(cursor)) = reply.get("cursor") else {
        return None;
    };
    match items_at(cursor, "firstBatch") {
        Some(documents) => Some(documents),
        None => items_at(cursor, "nextBatch"),
    }
}

impl Distinct {
    /// What a `distinct` asks for; `None` where its key is no path.
    pub fn new(alloc: Global, body: &Document) -> Result<Option<Distinct>, NoMemory>
        ensures { IfOk result (λ d. d ≡ distinct_of body.now) }
    {
        let Some(path) = key_of(alloc, body)? else {
            return Ok(None);
        };
        let values = DistinctValues::new(alloc);
        Ok(Some(Distinct { path, values }))
    }

    /// Takes the values of a document.
    fn take_one(&mut self, alloc: Global, value: &Value) -> Result<(), NoMemory>
        requires { levels (tree value.now) ≤ 98 }
        ensures { OnOk result (self.new ≡ with_document self.old (tree value.now)) }
    {
        match value {
            Value::Document(document) => self.values.add_document(alloc, &self.path, document),
            _ => Ok(()),
        }
    }

    /// Takes the values of these documents.
    pub fn take(&mut self, alloc: Global, documents: &[Value]) -> Result<(), NoMemory>
        requires { items_levels (items_of documents.now) ≤ 98 }
        ensures { OnOk result
            (self.new ≡ with_documents self.old (items_of documents.now)) }
    {
        'documents: for document in documents {
            self.take_one(alloc, document)?;
        }
        Ok(())
    }

    /// The answer: all values.
    pub fn reply(self, alloc: Global) -> Result<Document, NoMemory>
        ensures { IfOk result (λ d. d ≡ distinct_reply self) }
    {
        let Distinct { path: _, values } = self;
        let values = values.into_array(alloc)?;
        let _levels = values.levels();
        let mut reply = Document::new(alloc);
        put(&mut reply, "values", Value::Array(values))?;
        put(&mut reply, "ok", Value::Int64(1))?;
        Ok(reply)
    }
}
