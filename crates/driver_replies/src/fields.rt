//! Documents of a few fields, as replies are.

ghost use Rattle.std.specs.Prelude.{◌≡◌, ◌≤◌, ◌==◌, None, OnOk, IfOk, true, false};
ghost use Rattle.std.specs.List.{list_any};
ghost use Rattle.bson.specs.Tree.{pair, no_pairs, append, append_items, item, no_items};
ghost use Rattle.bson.specs.View.{tree};
ghost use Rattle.bson.specs.Lookup.{lookup};
ghost use Rattle.bson.specs.Edits.{put};
ghost use Rattle.bson.specs.Lawful.{levels};
ghost use Rattle.driver_replies.specs.Fields.{words};
ghost use Rattle.driver_replies.specs.Fields.{fact_tree, are_new, fields_of};

use bson::{Array, BuildFault, Document, NoMemory, Text, Value};
use std::alloc::{AllocError, Global};

/// The value of a field: one that holds no other.
#[derive(Clone, Copy)]
pub enum Fact<'a> {
    Bool(bool),
    Int32(i32),
    Int64(i64),
    Date(i64),
    Text(&'a str),
}

impl Fact<'_> {
    fn value(self, alloc: Global) -> Result<Value, NoMemory>
        ensures { IfOk result (λ v. tree v ≡ fact_tree self.entry) }
    {
        match self {
            Fact::Bool(truth) => Ok(Value::Bool(truth)),
            Fact::Int32(number) => Ok(Value::Int32(number)),
            Fact::Int64(number) => Ok(Value::Int64(number)),
            Fact::Date(time) => Ok(Value::Date(time)),
            Fact::Text(text) => Ok(Value::String(Text::from_str(alloc, text)?)),
        }
    }
}

/// Adds a field of another name than those before, whose value is not nested too deep, so only memory can be wanting.
pub fn put(document: &mut Document, name: &str, value: Value) -> Result<(), NoMemory>
    requires name { list_any (λ b. b == 0) name.now ≡ false }
    requires new { lookup document.old name.now ≡ None }
    requires flat { levels (tree value) ≤ 99 }
    ensures { OnOk result
        (document.new ≡ append document.old (pair name.now (tree value) no_pairs)) }
{
    match document.push(name, value) {
        Ok(()) => Ok(()),
        Err(BuildFault::Memory) => Err(AllocError),
        Err(BuildFault::Name) => unreachable!("it has no zero"),
        Err(BuildFault::Repeated) => unreachable!("it is new"),
        Err(BuildFault::Deep) => unreachable!("it is flat"),
    }
}

/// Gives a name a value that is not nested too deep, in the name's place or at the end, so only memory can be wanting.
pub fn set(document: &mut Document, name: &str, value: Value) -> Result<(), NoMemory>
    requires name { list_any (λ b. b == 0) name.now ≡ false }
    requires flat { levels (tree value) ≤ 99 }
    ensures { OnOk result (document.new ≡ put document.old name.now (tree value)) }
{
    match document.set(name, value) {
        Ok(()) => Ok(()),
        Err(BuildFault::Memory) => Err(AllocError),
        Err(BuildFault::Name) => unreachable!("it has no zero"),
        Err(BuildFault::Repeated) => unreachable!("it may be there"),
        Err(BuildFault::Deep) => unreachable!("it is flat"),
    }
}

/// A text as a value.
pub fn text_value(alloc: Global, text: &str) -> Result<Value, NoMemory>
    ensures { IfOk result (λ v. tree v ≡ words text.now) }
{
    Ok(Value::String(Text::from_str(alloc, text)?))
}

/// Adds a field of another name than those before, whose value is a text.
pub(crate) fn put_text(
    alloc: Global,
    document: &mut Document,
    name: &str,
    text: &str,
) -> Result<(), NoMemory>
    requires name { list_any (λ b. b == 0) name.now ≡ false }
    requires new { lookup document.old name.now ≡ None }
    ensures { OnOk result
        (document.new ≡ append document.old (pair name.now (words text.now) no_pairs)) }
{
    put(document, name, text_value(alloc, text)?)
}

/// Adds an item to an array that is not nested too deep, so only memory can be wanting.
pub fn add(array: &mut Array, value: Value) -> Result<(), NoMemory>
    requires { levels (tree value) ≤ 98 }
    ensures { OnOk result (array.new ≡ append_items array.old (item (tree value) no_items)) }
{
    match array.push(value) {
        Ok(()) => Ok(()),
        Err(BuildFault::Deep) => unreachable!("it is flat"),
        Err(_) => Err(AllocError),
    }
}

/// The document of these fields.
pub fn document_of(alloc: Global, fields: &[(&str, Fact<'_>)]) -> Result<Document, NoMemory>
    requires { are_new no_pairs fields.now ≡ true }
    ensures { IfOk result (λ d. d ≡ fields_of fields.now) }
{
    let mut document = Document::new(alloc);
    'fields: for (name, fact) in fields {
        put(&mut document, name, fact.value(alloc)?)?;
    }
    Ok(document)
}
