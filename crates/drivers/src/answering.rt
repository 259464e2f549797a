//! The database's replies, as drivers expect them.

ghost use Rattle.std.specs.Prelude.{◌≡◌, IfOk, OnOk, option_map, codes, None, Some, ◌≤◌};
ghost use Rattle.bson.specs.Tree.{document};
ghost use Rattle.bson.specs.Lawful.{pairs_levels};
ghost use Rattle.bson.specs.View.{tree};
ghost use Rattle.bson.specs.Lookup.{lookup};
ghost use Rattle.bson.specs.Edits.{cut};
ghost use Rattle.drivers.specs.Answering.{widened, known_text, text_for, reworded, open_id, id_in, cursor_left, with_cursor, ended, kill_command};

use bson::{Array, Document, NoMemory, Text, Value};
use driver_replies::{add, put, set, text_value};
use std::alloc::Global;

/// Makes the `ok` of a reply an int64, so that no frame has under 36 bytes, which one driver takes for cut.
pub(crate) fn widen(reply: &mut Document) -> Result<(), NoMemory>
    ensures { OnOk result (reply.new ≡ widened reply.old) }
{
    let wide = match reply.get("ok") {
        Some(Value::Int32(number)) => i64::from(*number),
        _ => return Ok(()),
    };
    set(reply, "ok", Value::Int64(wide))
}

/// The text by which a refusal with this number is known.
fn known_text(
    alloc: Global,
    code: i32,
    database: &str,
    collection: &str,
) -> Result<Option<Text>, NoMemory>
    ensures { IfOk result (λ x. x ≡ known_text code database.now collection.now) }
{
    if code == 26 {
        return Ok(Some(Text::from_str(alloc, "ns not found")?));
    }
    if code != 11000 {
        return Ok(None);
    }
    let mut text = String::from_str(alloc, "E11000 duplicate key error collection: ")?;
    text.push_str(database)?;
    text.push_str(".")?;
    text.push_str(collection)?;
    Ok(Some(Text::from_string(text)))
}

fn text_for(
    alloc: Global,
    code: Option<&Value>,
    database: &str,
    collection: &str,
) -> Result<Option<Text>, NoMemory>
    ensures { IfOk result (λ x. x ≡ text_for (option_map (λ v. tree v.now) code.entry)
        database.now collection.now) }
{
    match code {
        Some(Value::Int32(code)) => known_text(alloc, *code, database, collection),
        _ => Ok(None),
    }
}

/// Puts the text by which a refusal is known in the place of its own.
pub(crate) fn reword(
    alloc: Global,
    reply: &mut Document,
    database: &str,
    collection: &str,
) -> Result<(), NoMemory>
    ensures { OnOk result (reply.new ≡ reworded database.now collection.now reply.old) }
{
    let Some(text) = text_for(alloc, reply.get("code"), database, collection)? else {
        return Ok(());
    };
    set(reply, "errmsg", Value::String(text))
}

/// The number of an open cursor.
fn open_id(value: Option<&Value>) -> Option<i64>
    ensures { result ≡ open_id (option_map (λ v. tree v.now) value.entry) }
{
    match value {
        Some(Value::Int64(0)) => None,
        Some(Value::Int64(id)) => Some(*id),
        _ => None,
    }
}

/// The number of the cursor that a reply leaves open.
pub fn cursor_left(reply: &Document) -> Option<i64>
    ensures { result ≡ cursor_left reply.now }
{
    match reply.get("cursor") {
        Some(Value::Document(cursor)) => open_id(cursor.get("id")),
        _ => None,
    }
}

/// Puts a cursor without a number behind the fields of a reply.
fn put_cursor(reply: &mut Document, mut cursor: Document) -> Result<(), NoMemory>
    requires new { lookup reply.old (codes "cursor") ≡ None }
    requires flat { pairs_levels cursor ≤ 98 }
    ensures { OnOk result (reply.new ≡ with_cursor (Some (document cursor)) reply.old) }
{
    set(&mut cursor, "id", Value::Int64(0))?;
    put(reply, "cursor", Value::Document(cursor))
}

/// Takes the number of a cursor from a reply.
pub(crate) fn end(reply: &mut Document) -> Result<(), NoMemory>
    ensures { OnOk result (reply.new ≡ ended reply.old) }
{
    let _levels = reply.levels();
    match reply.remove("cursor") {
        Some(Value::Document(cursor)) => put_cursor(reply, cursor),
        _ => Ok(()),
    }
}

/// The command that ends a cursor.
pub(crate) fn kill_command(
    alloc: Global,
    database: &str,
    collection: &str,
    id: i64,
) -> Result<Document, NoMemory>
    ensures { IfOk result (λ d. d ≡ kill_command database.now collection.now id) }
{
    let mut command = Document::new(alloc);
    put(&mut command, "killCursors", text_value(alloc, collection)?)?;
    let mut ids = Array::new(alloc);
    add(&mut ids, Value::Int64(id))?;
    put(&mut command, "cursors", Value::Array(ids))?;
    put(&mut command, "$db", text_value(alloc, database)?)?;
    Ok(command)
}
