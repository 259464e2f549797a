//! Commands without the fields that the database doesn't have, and their indexes and statements.

ghost use Rattle.std.specs.Prelude.{◌≡◌, ◌<◌, map, Some, option_map};
ghost use Rattle.bson.specs.Edits.{items_len, item_at, with_item};
ghost use Rattle.bson.specs.Tree.{Tree};
ghost use Rattle.bson.specs.View.{tree, pairs_of, items_of};
ghost use Rattle.driver_fields.specs.Cleaning.{truth, read_over, listing_rule, lost_unless, own_rule, index_rule, is_inner, inner_rule, rule_in, is_kept, field_fault, fields_fault, own_fields, entry_fault, entries_fault, array_fault, inner_fault, first_refused, kept_entry, kept_entries, kept_array, kept_under, kept};
ghost use Rattle.driver_fields.specs.Rules.{rule_of};

use crate::command::Asked;
use crate::options::{fault_of, is_one_of};
use crate::reason::Reason;
use crate::rules::{Rule, rule_of};
use bson::{Array, Document, Pair, Value};
use path::{put_field, put_item, take_field, take_item};

/// Whose fields they are.
#[derive(Clone, Copy, Debug, PartialEq, Eq)]
pub enum Whose {
    /// A command's.
    Command(Asked),
    /// Those of an index that is made.
    Index,
    /// Those of a statement, of an update or a delete.
    Statement,
}

/// The fields by which a `findAndModify` says what it does.
const MODIFY_FIELDS: [&str; 9] = [
    "findAndModify",
    "findandmodify",
    "query",
    "sort",
    "update",
    "remove",
    "new",
    "upsert",
    "$db",
];

/// A field of this name is true or false, and not the database's.
fn truth(word: &str, name: &str) -> Option<Rule>
    ensures { result ≡ truth word.now name.now }
{
    if name == word {
        return Some(Rule::Truth);
    }
    None
}

/// A field of one of these names is read over.
fn read_over(words: &[&str], name: &str) -> Option<Rule>
    ensures { result ≡ read_over (map (λ s. s.now) words.now) name.now }
{
    if is_one_of(words, name) {
        return Some(Rule::ReadOver);
    }
    None
}

/// The rule of a field of `listCollections`.
fn listing_rule(name: &str) -> Option<Rule>
    ensures { result ≡ listing_rule name.now }
{
    if name == "filter" {
        return Some(Rule::NameFilter);
    }
    read_over(&["cursor", "nameOnly"], name)
}

/// The rule of a field of a command that is asked as others, and has these fields: another one would be lost, and is refused.
fn lost_unless(words: &[&str], name: &str) -> Option<Rule>
    ensures { result ≡ lost_unless (map (λ s. s.now) words.now) name.now }
{
    if is_one_of(words, name) || rule_of(name).is_some() {
        return None;
    }
    Some(Rule::Unsupported)
}

/// The rule of a field that this command alone has.
fn own_rule(asked: Asked, name: &str) -> Option<Rule>
    ensures { result ≡ own_rule asked name.now }
{
    match asked {
        Asked::Plain => None,
        Asked::CreateIndexes => None,
        Asked::Write => truth("ordered", name),
        Asked::Find => truth("singleBatch", name),
        Asked::GetMore => None,
        Asked::KillCursors => None,
        Asked::ListCollections => listing_rule(name),
        Asked::ListIndexes => read_over(&["cursor"], name),
        Asked::DropDatabase => None,
        Asked::Explain => read_over(&["verbosity"], name),
        Asked::Modify => lost_unless(&MODIFY_FIELDS, name),
        Asked::Distinct => lost_unless(&["distinct", "key", "query", "$db"], name),
    }
}

/// The rule of a field of an index.
fn index_rule(name: &str) -> Option<Rule>
    ensures { result ≡ index_rule name.now }
{
    if name == "v" {
        return Some(Rule::IndexVersion);
    }
    read_over(&["ns", "background"], name)
}

/// Whether a rule is of what is asked for, not of the command as a whole.
fn is_inner(rule: Rule) -> bool
    ensures { result ≡ is_inner rule }
{
    match rule {
        Rule::Unsupported => true,
        Rule::UnlessEmpty => true,
        Rule::Collation => true,
        _ => false,
    }
}

/// The rule of a field of this name that is of what is asked for.
fn inner_rule(name: &str) -> Option<Rule>
    ensures { result ≡ inner_rule (rule_of name.now) }
{
    let Some(rule) = rule_of(name) else {
        return None;
    };
    if is_inner(rule) {
        return Some(rule);
    }
    None
}

/// What is done with a field; nothing where the database has to say.
fn rule_in(whose: Whose, name: &str) -> Option<Rule>
    ensures { result ≡ rule_in whose name.now }
{
    let own = match whose {
        Whose::Command(asked) => own_rule(asked, name),
        Whose::Index => index_rule(name),
        Whose::Statement => None,
    };
    if own.is_some() {
        return own;
    }
    match whose {
        Whose::Command(_) => rule_of(name),
        _ => inner_rule(name),
    }
}

/// Whether a field is the database's own.
fn is_kept(whose: Whose, name: &str) -> bool
    ensures { result ≡ is_kept whose name.now }
{
    rule_in(whose, name).is_none()
}

/// Why a field is refused, if it is.
fn field_fault(whose: Whose, name: &str, value: &Value) -> Option<Reason>
    ensures { result ≡ field_fault whose name.now (tree value.now) }
{
    match rule_in(whose, name) {
        Some(rule) => fault_of(rule, value),
        None => None,
    }
}

/// The first of some fields that is refused, and why.
fn fields_fault(whose: Whose, pairs: &[Pair]) -> Option<(&str, Reason)>
    ensures { option_map (λ x. (x.0.now, x.1)) result ≡ fields_fault whose (pairs_of pairs.now) }
{
    'pairs: for pair in pairs {
        if let Some(reason) = field_fault(whose, pair.name.as_str(), &pair.value) {
            return Some((pair.name.as_str(), reason));
        }
    }
    None
}

/// A document with the fields alone that are the database's own.
fn own_fields(whose: Whose, document: Document) -> Document
    ensures { result ≡ own_fields whose document }
{
    let mut pairs = document.into_pairs();
    pairs.retain(|pair| is_kept(whose, pair.name.as_str()));
    Document::from_pairs(pairs)
}

/// The first field of an entry that is refused, and why.
fn entry_fault(whose: Whose, entry: &Value) -> Option<(&str, Reason)>
    ensures { option_map (λ x. (x.0.now, x.1)) result ≡ entry_fault whose (tree entry.now) }
{
    match entry {
        Value::Document(document) => fields_fault(whose, document.pairs()),
        _ => None,
    }
}

/// The first field of some entries that is refused, and why.
fn entries_fault(whose: Whose, entries: &[Value]) -> Option<(&str, Reason)>
    ensures { option_map (λ x. (x.0.now, x.1)) result
        ≡ entries_fault whose (items_of entries.now) }
{
    'entries: for entry in entries {
        let fault = entry_fault(whose, entry);
        if fault.is_some() {
            return fault;
        }
    }
    None
}

/// The first field of the entries of an array that is refused, and why.
fn array_fault(whose: Whose, value: Option<&Value>) -> Option<(&str, Reason)>
    ensures { option_map (λ x. (x.0.now, x.1)) result
        ≡ array_fault whose (option_map (λ v. tree v.now) value.entry) }
{
    match value {
        Some(Value::Array(entries)) => entries_fault(whose, entries.items()),
        _ => None,
    }
}

/// The first field of a command's indexes or statements that is refused, and why.
fn inner_fault(asked: Asked, body: &Document) -> Option<(&str, Reason)>
    ensures { option_map (λ x. (x.0.now, x.1)) result ≡ inner_fault asked body.now }
{
    match asked {
        Asked::CreateIndexes => array_fault(Whose::Index, body.get("indexes")),
        Asked::Write => {
            let fault = array_fault(Whose::Statement, body.get("updates"));
            if fault.is_some() {
                return fault;
            }
            array_fault(Whose::Statement, body.get("deletes"))
        }
        _ => None,
    }
}

/// The first field that is refused, and why: of a command, then of its indexes or statements.
pub fn first_refused(asked: Asked, body: &Document) -> Option<(&str, Reason)>
    ensures { option_map (λ x. (x.0.now, x.1)) result ≡ first_refused asked body.now }
{
    let fault = fields_fault(Whose::Command(asked), body.pairs());
    if fault.is_some() {
        return fault;
    }
    inner_fault(asked, body)
}

/// An entry with the fields alone that are the database's own.
fn kept_entry(whose: Whose, entry: Value) -> Value
    ensures { tree result ≡ kept_entry whose (tree entry) }
{
    match entry {
        Value::Document(document) => Value::Document(own_fields(whose, document)),
        other => other,
    }
}

/// Takes the fields out of an entry that aren't the database's own.
fn keep_entry(whose: Whose, entries: &mut Array, at: usize)
    requires { at < items_len entries.old }
    ensures { (t : Tree) → item_at entries.old at ≡ Some t
        → entries.new ≡ with_item entries.old at (kept_entry whose t) }
{
    let entry = take_item(entries, at);
    put_item(entries, at, kept_entry(whose, entry));
}

/// Entries with the fields alone that are the database's own.
fn kept_entries(whose: Whose, mut entries: Array) -> Array
    ensures { result ≡ kept_entries whose entries }
{
    'entries: for at in 0..entries.len() {
        keep_entry(whose, &mut entries, at);
    }
    entries
}

/// An array whose entries have the fields alone that are the database's own.
fn kept_array(whose: Whose, value: Value) -> Value
    ensures { tree result ≡ kept_array whose (tree value) }
{
    match value {
        Value::Array(entries) => Value::Array(kept_entries(whose, entries)),
        other => other,
    }
}

/// Takes the fields out of the entries under a name that aren't the database's own.
fn keep_under(whose: Whose, field: &str, body: &mut Document)
    ensures { body.new ≡ kept_under whose field.now body.old }
{
    let Some(at) = body.position(field) else {
        return;
    };
    let value = take_field(body, at);
    put_field(body, at, kept_array(whose, value));
}

/// A command with the fields alone that are the database's own, also in its indexes or statements.
pub fn kept(asked: Asked, body: Document) -> Document
    ensures { result ≡ kept asked body }
{
    let mut own = own_fields(Whose::Command(asked), body);
    match asked {
        Asked::CreateIndexes => keep_under(Whose::Index, "indexes", &mut own),
        Asked::Write => {
            keep_under(Whose::Statement, "updates", &mut own);
            keep_under(Whose::Statement, "deletes", &mut own);
        }
        _ => {}
    }
    own
}
