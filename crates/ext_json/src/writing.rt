//! Documents as text.

ghost use Rattle.std.specs.Prelude.{◌≡◌, ◌++◌, OnOk, OnErr};
ghost use Rattle.bson.specs.View.{tree};
ghost use Rattle.bson.specs.Tree as trees;
ghost use Rattle.json.specs.Print.{print};
ghost use Rattle.ext_json.specs.Written.{Puts, tree_tokens, document_tokens, canonical_text, relaxed_text};

use crate::form::Form;
use crate::scalars::{
    put_binary, put_bool, put_date, put_int32, put_int64, put_null, put_object_id, put_one,
    put_string, put_timestamp,
};
use bson::{Array, Document, Value};
use json::Writer;
use std::alloc::{AllocError, Global};
use std::mem;

#[cycle(writing)]
#[tactic(auto, unfolding(crate::specs::Written::tree_tokens))]
fn put_value(alloc: Global, out: &mut Writer, form: Form, value: &Value) -> Result<(), AllocError>
    ensures { Puts result out.old out.new (tree_tokens form (tree value.now)) }
{
    match value {
        Value::String(text) => put_string(out, text.as_str()),
        Value::Document(document) => put_document(alloc, out, form, document),
        Value::Array(array) => put_array(alloc, out, form, array),
        Value::Binary(binary) => put_binary(alloc, out, binary),
        Value::ObjectId(id) => put_object_id(out, id),
        Value::Bool(is_true) => put_bool(out, *is_true),
        Value::Date(millis) => put_date(out, form, *millis),
        Value::Null => put_null(out),
        Value::Int32(number) => put_int32(out, form, *number),
        Value::Timestamp(number) => put_timestamp(out, *number),
        Value::Int64(number) => put_int64(out, form, *number),
        Value::MinKey => put_one(out, "$minKey"),
        Value::MaxKey => put_one(out, "$maxKey"),
    }
}

#[cycle(writing)]
fn put_document(
    alloc: Global,
    out: &mut Writer,
    form: Form,
    document: &Document,
) -> Result<(), AllocError>
    ensures { Puts result out.old out.new (tree_tokens form (trees.document document.now)) }
{
    out.begin_object()?;
    'pairs: for pair in document.pairs() {
        out.key(pair.name.as_str())?;
        put_value(alloc, out, form, &pair.value)?;
    }
    out.end_object()
}

#[cycle(writing)]
fn put_array(alloc: Global, out: &mut Writer, form: Form, array: &Array) -> Result<(), AllocError>
    ensures { Puts result out.old out.new (tree_tokens form (trees.array array.now)) }
{
    out.begin_array()?;
    'items: for item in array.items() {
        put_value(alloc, out, form, item)?;
    }
    out.end_array()
}

/// Puts the text of a document behind what stands in `out`, which stays where memory runs out.
fn write(out: &mut Vec<u8>, form: Form, document: &Document) -> Result<(), AllocError>
    ensures ok { OnOk result
        (out.new.items ≡ out.old.items ++ print (document_tokens form document.now)) }
    ensures err { OnErr result (out.new.items ≡ out.old.items) }
{
    let alloc = *out.allocator();
    let start = out.len();
    let mut writer = Writer::new(mem::replace(out, Vec::new(alloc)));
    let written = put_document(alloc, &mut writer, form, document);
    *out = writer.into_inner();
    if written.is_err() {
        out.truncate(start);
    }
    written
}

/// Puts a document behind what stands in `out`, on one line with no space, each value with its type: reading
/// gives the document back. An error is for want of memory, and leaves `out` as it was.
pub fn write_canonical(out: &mut Vec<u8>, document: &Document) -> Result<(), AllocError>
    ensures ok { OnOk result (out.new.items ≡ out.old.items ++ canonical_text document.now) }
    ensures err { OnErr result (out.new.items ≡ out.old.items) }
{
    write(out, Form::Canonical, document)
}

/// The same in the form for people: numbers as plain numbers, and dates from 1970 up to the year 9999 as texts of
/// ISO 8601.
pub fn write_relaxed(out: &mut Vec<u8>, document: &Document) -> Result<(), AllocError>
    ensures ok { OnOk result (out.new.items ≡ out.old.items ++ relaxed_text document.now) }
    ensures err { OnErr result (out.new.items ≡ out.old.items) }
{
    write(out, Form::Relaxed, document)
}
