//! Values by which a field asks for no more than the database does.

ghost use Rattle.std.specs.Prelude.{◌≡◌};
ghost use Rattle.std.specs.List.{list_any};
ghost use Rattle.std.specs.Str.{bytes_eq};
ghost use Rattle.std.specs.Prelude.{map};
ghost use Rattle.bson.specs.View.{tree, pairs_of};
ghost use Rattle.driver_fields.specs.Rules.{is_nothing, is_word, is_one_of, servers_fault, w_fault, write_option_fault, read_option_fault, first_in, options_fault, is_simple, is_name_asked, is_name_filter, is_version_number, is_index_version, unless_said, truth_fault, fault_of};

use crate::reason::Reason;
use crate::rules::Rule;
use bson::{Pair, Value};

/// Whether a value is false, 0, null, or a document or an array that holds nothing.
fn is_nothing(value: &Value) -> bool
    ensures { result ≡ is_nothing (tree value.now) }
{
    match value {
        Value::Bool(truth) => !*truth,
        Value::Int32(number) => *number == 0,
        Value::Int64(number) => *number == 0,
        Value::Null => true,
        Value::Document(document) => document.is_empty(),
        Value::Array(array) => array.is_empty(),
        _ => false,
    }
}

/// Whether a text is one of these words.
pub(crate) fn is_one_of(words: &[&str], text: &str) -> bool
    ensures { result ≡ is_one_of (map (λ s. s.now) words.now) text.now }
{
    'words: for word in words {
        if text == *word {
            return true;
        }
    }
    false
}

/// Whether a value is one of these words.
fn is_word(words: &[&str], value: &Value) -> bool
    ensures { result ≡ is_word (map (λ s. s.now) words.now) (tree value.now) }
{
    match value {
        Value::String(text) => is_one_of(words, text.as_str()),
        _ => false,
    }
}

/// Why so many servers are not to have a write, if they are not.
fn servers_fault(number: i64) -> Option<Reason>
    ensures { result ≡ servers_fault number }
{
    if number < 0 || 1 < number {
        return Some(Reason::TooManyServers);
    }
    None
}

/// Why the servers that a write concern names are not to have a write, if they are not.
fn w_fault(value: &Value) -> Option<Reason>
    ensures { result ≡ w_fault (tree value.now) }
{
    match value {
        Value::Int32(number) => servers_fault(i64::from(*number)),
        Value::Int64(number) => servers_fault(*number),
        Value::String(text) => {
            if text.as_str() == "majority" {
                return None;
            }
            Some(Reason::UnknownWriteConcern)
        }
        _ => Some(Reason::FieldType),
    }
}

/// Why an option of a write concern is refused, if it is.
fn write_option_fault(name: &str, value: &Value) -> Option<Reason>
    ensures { result ≡ write_option_fault name.now (tree value.now) }
{
    if name == "w" {
        return w_fault(value);
    }
    if is_one_of(&["j", "fsync", "wtimeout"], name) {
        return None;
    }
    Some(Reason::UnsupportedField)
}

/// Why an option of a read concern is refused, if it is.
fn read_option_fault(name: &str, value: &Value) -> Option<Reason>
    ensures { result ≡ read_option_fault name.now (tree value.now) }
{
    let levels = ["local", "available", "majority", "linearizable"];
    if name == "level" && is_word(&levels, value) {
        return None;
    }
    Some(Reason::UnsupportedField)
}

/// Why one of the options of a write concern is refused, if one is.
fn first_in_write(pairs: &[Pair]) -> Option<Reason>
    ensures { result ≡ first_in write_option_fault (pairs_of pairs.now) }
{
    'pairs: for pair in pairs {
        let fault = write_option_fault(pair.name.as_str(), &pair.value);
        if fault.is_some() {
            return fault;
        }
    }
    None
}

/// Why one of the options of a read concern is refused, if one is.
fn first_in_read(pairs: &[Pair]) -> Option<Reason>
    ensures { result ≡ first_in read_option_fault (pairs_of pairs.now) }
{
    'pairs: for pair in pairs {
        let fault = read_option_fault(pair.name.as_str(), &pair.value);
        if fault.is_some() {
            return fault;
        }
    }
    None
}

/// Why a write concern is refused, if it is.
fn write_concern_fault(value: &Value) -> Option<Reason>
    ensures { result ≡ options_fault write_option_fault (tree value.now) }
{
    match value {
        Value::Document(document) => first_in_write(document.pairs()),
        _ => Some(Reason::FieldType),
    }
}

/// Why a read concern is refused, if it is.
fn read_concern_fault(value: &Value) -> Option<Reason>
    ensures { result ≡ options_fault read_option_fault (tree value.now) }
{
    match value {
        Value::Document(document) => first_in_read(document.pairs()),
        _ => Some(Reason::FieldType),
    }
}

/// Whether texts are to be compared by their bytes.
fn is_simple(value: &Value) -> bool
    ensures { result ≡ is_simple (tree value.now) }
{
    let Value::Document(document) = value else {
        return false;
    };
    if document.len() != 1 {
        return false;
    }
    match document.get("locale") {
        Some(locale) => is_word(&["simple"], locale),
        None => false,
    }
}

/// Whether a value is a name, or leaves out no more than the system's collections.
fn is_name_asked(value: &Value) -> bool
    ensures { result ≡ is_name_asked (tree value.now) }
{
    let document = match value {
        Value::String(_) => return true,
        Value::Document(document) => document,
        _ => return false,
    };
    if document.len() != 1 {
        return false;
    }
    match document.get("$regex") {
        Some(expression) => is_word(&["^(?!system\\.)", "^(?!system\\\\.)"], expression),
        None => false,
    }
}

/// Whether a value asks for all collections, or for those that a name says.
fn is_name_filter(value: &Value) -> bool
    ensures { result ≡ is_name_filter (tree value.now) }
{
    let Value::Document(document) = value else {
        return false;
    };
    if document.is_empty() {
        return true;
    }
    if document.len() != 1 {
        return false;
    }
    match document.get("name") {
        Some(name) => is_name_asked(name),
        None => false,
    }
}

/// Whether indexes of this version are no other than those of the database.
fn is_version_number(number: i64) -> bool
    ensures { result ≡ is_version_number number }
{
    number == 1 || number == 2
}

/// Whether a value is such a version.
fn is_index_version(value: &Value) -> bool
    ensures { result ≡ is_index_version (tree value.now) }
{
    match value {
        Value::Int32(number) => is_version_number(i64::from(*number)),
        Value::Int64(number) => is_version_number(*number),
        _ => false,
    }
}

fn unless_said(said: bool) -> Option<Reason>
    ensures { result ≡ unless_said said }
{
    if said {
        return None;
    }
    Some(Reason::UnsupportedField)
}

/// Why a value is no truth value, if it is none.
fn truth_fault(value: &Value) -> Option<Reason>
    ensures { result ≡ truth_fault (tree value.now) }
{
    match value {
        Value::Bool(_) => None,
        _ => Some(Reason::FieldType),
    }
}

/// Why a field with this rule is refused, if it is.
pub(crate) fn fault_of(rule: Rule, value: &Value) -> Option<Reason>
    ensures { result ≡ fault_of rule (tree value.now) }
{
    match rule {
        Rule::ReadOver => None,
        Rule::Transaction => Some(Reason::NoTransactions),
        Rule::Unsupported => Some(Reason::UnsupportedField),
        Rule::UnlessEmpty => unless_said(is_nothing(value)),
        Rule::WriteConcern => write_concern_fault(value),
        Rule::ReadConcern => read_concern_fault(value),
        Rule::Collation => unless_said(is_simple(value)),
        Rule::ApiVersion => unless_said(is_word(&["1"], value)),
        Rule::IndexVersion => unless_said(is_index_version(value)),
        Rule::Truth => truth_fault(value),
        Rule::NameFilter => unless_said(is_name_filter(value)),
    }
}
