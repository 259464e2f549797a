//! Documents from tokens.

ghost use Rattle.std.specs.Prelude.{◌≡◌, ◌≤◌, ◌||◌, ℕ, List, option_map, IfOk};
ghost use Rattle.std.specs.Str.{bytes_eq};
ghost use Rattle.bson.specs.View.{tree};
ghost use Rattle.bson.specs.Lawful.{IsName, IsTree, levels, pairs_levels, items_levels};
ghost use Rattle.bson.specs.Lookup.{stands_in};
ghost use Rattle.bson.specs.Tree.{no_pairs, no_items};
ghost use Rattle.json.specs.Reads.{token_of};
ghost use Rattle.outcome.specs.Outcome.{Gives};
ghost use Rattle.ext_json.specs.Wrappers.{wrapper_in};
ghost use Rattle.ext_json.specs.Parsing as spec;
ghost use Rattle.ext_json.specs.Parsing.{value_at, value_by, pairs_within, items_within, object_by, new_name, pairs_by, items_by, most_turns, document_in};
ghost use Rattle.ext_json.specs.declared.fault.ExtJsonFault.TheVariants as faults;

use crate::fault::ExtJsonFault;
use crate::numbers::read_number;
use crate::tokens::Tokens;
use crate::wrapped::take_wrapped;
use crate::wrapper::{Wrapper, wrapper_named};
use bson::{Array, Document, Names, Pair, Text, Value};
use json::Token;
use std::alloc::Global;

/// The wrapper of an object with this first name.
fn wrapper_of(first: Option<&str>) -> Option<Wrapper>
    ensures { result ≡ wrapper_in (option_map (λ s. s.now) first.entry) }
{
    match first {
        Some(name) => wrapper_named(name),
        None => None,
    }
}

/// Takes in a name behind those that stood before.
fn take_name<'a>(names: &mut Names<'a>, name: &'a str) -> Result<(), ExtJsonFault>
    ensures gives { Gives faults.Memory (λ x. x) result (new_name (stands_in names.old) name.now) }
    ensures names { IfOk result (λ _. (other : List ℕ)
        → stands_in names.new other ≡ (bytes_eq other name.now || stands_in names.old other)) }
    ensures lawful { IfOk result (λ _. IsName name.now) }
{
    if name.as_bytes().contains(&0) {
        return Err(ExtJsonFault::Name);
    }
    if !names.insert(name)? {
        return Err(ExtJsonFault::Repeated);
    }
    Ok(())
}

// Asks a value how deep it nests, by which a proof learns what its type says of it.
fn look(value: &Value)
    ensures { IsTree (tree value.now) }
{
    let _levels = value.levels();
}

/// The value that a token begins, where this many more levels are allowed.
#[cycle(parsing)]
fn take_value<'a>(
    alloc: Global,
    tokens: &mut Tokens<'a>,
    more: u32,
    token: Token<'a>,
) -> Result<Value, ExtJsonFault>
    requires { more ≤ 99 }
    ensures gives { Gives faults.Memory (λ v. (tree v, tokens.new)) result
        (value_by (pairs_within more) (items_within more) (token_of token.entry) tokens.old) }
    ensures levels { IfOk result (λ v. levels (tree v) ≤ more) }
{
    match token {
        Token::BeginObject => take_object(alloc, tokens, more),
        Token::BeginArray => take_array(alloc, tokens, more),
        Token::String(text) => Ok(Value::String(Text::from_str(alloc, text)?)),
        Token::Number(text) => read_number(text),
        Token::Bool(is_true) => Ok(Value::Bool(is_true)),
        Token::Null => Ok(Value::Null),
        _ => Err(ExtJsonFault::Syntax),
    }
}

/// An object, behind its brace: a wrapper where its first name begins one, else a document.
#[cycle(parsing)]
fn take_object<'a>(alloc: Global, tokens: &mut Tokens<'a>, more: u32) -> Result<Value, ExtJsonFault>
    requires { more ≤ 99 }
    ensures gives { Gives faults.Memory (λ v. (tree v, tokens.new)) result
        (object_by (pairs_within more) tokens.old) }
    ensures levels { IfOk result (λ v. levels (tree v) ≤ more) }
{
    let opened = tokens.at();
    let first = tokens.key()?;
    match wrapper_of(first) {
        Some(wrapper) => take_wrapped(alloc, tokens, wrapper),
        None => take_inner(alloc, tokens, more, opened, first),
    }
}

/// A document in another value, behind its first name. Its brace was at this place.
#[cycle(parsing)]
fn take_inner<'a>(
    alloc: Global,
    tokens: &mut Tokens<'a>,
    more: u32,
    opened: usize,
    first: Option<&'a str>,
) -> Result<Value, ExtJsonFault>
    requires { more ≤ 99 }
    ensures gives { Gives faults.Memory (λ v. (tree v, tokens.new)) result
        (pairs_within more (option_map (λ s. s.now) first.entry) tokens.old) }
    ensures levels { IfOk result (λ v. levels (tree v) ≤ more) }
{
    if more == 0 {
        tokens.point_at(opened);
        return Err(ExtJsonFault::Deep);
    }
    let document = take_pairs(alloc, tokens, more - 1, first)?;
    Ok(Value::Document(document))
}

/// An array, behind its bracket.
#[cycle(parsing)]
fn take_array<'a>(alloc: Global, tokens: &mut Tokens<'a>, more: u32) -> Result<Value, ExtJsonFault>
    requires { more ≤ 99 }
    ensures gives { Gives faults.Memory (λ v. (tree v, tokens.new)) result
        (items_within more tokens.old) }
    ensures levels { IfOk result (λ v. levels (tree v) ≤ more) }
{
    if more == 0 {
        return Err(ExtJsonFault::Deep);
    }
    let array = take_items(alloc, tokens, more - 1)?;
    Ok(Value::Array(array))
}

/// The pairs from this name on, up to the end of their document.
#[cycle(parsing)]
fn take_pairs<'a>(
    alloc: Global,
    tokens: &mut Tokens<'a>,
    more: u32,
    first: Option<&'a str>,
) -> Result<Document, ExtJsonFault>
    requires { more ≤ 99 }
    ensures gives { Gives faults.Memory (λ d. (d, tokens.new)) result
        (pairs_by (value_at more) most_turns no_pairs
        (option_map (λ s. s.now) first.entry) tokens.old) }
    ensures levels { IfOk result (λ d. pairs_levels d ≤ more) }
{
    let mut pairs = Vec::new(alloc);
    let mut names = Names::new(alloc);
    let mut next = first;
    'pairs: for _turn in 0..u64::MAX {
        let name = match next {
            Some(name) => name,
            None => return Ok(Document::from_pairs(pairs)),
        };
        take_name(&mut names, name)?;
        let token = tokens.next();
        let value = take_value(alloc, tokens, more, token)?;
        look(&value);
        let text = Text::from_str(alloc, name)?;
        pairs.push(Pair { name: text, value })?;
        next = tokens.key()?;
    }
    Err(ExtJsonFault::Syntax)
}

fn is_end(token: Token<'_>) -> bool
    ensures { result ≡ spec.is_end (token_of token.entry) }
{
    matches!(token, Token::EndArray)
}

/// The items up to the end of their array.
#[cycle(parsing)]
fn take_items<'a>(alloc: Global, tokens: &mut Tokens<'a>, more: u32) -> Result<Array, ExtJsonFault>
    requires { more ≤ 98 }
    ensures gives { Gives faults.Memory (λ a. (a, tokens.new)) result
        (items_by (value_at more) most_turns no_items tokens.old) }
    ensures levels { IfOk result (λ a. items_levels a ≤ more) }
{
    let mut items = Vec::new(alloc);
    'items: for _turn in 0..u64::MAX {
        let token = tokens.next();
        if is_end(token) {
            return Ok(Array::from_items(items));
        }
        let value = take_value(alloc, tokens, more, token)?;
        look(&value);
        items.push(value)?;
    }
    Err(ExtJsonFault::Syntax)
}

/// Takes the brace of a document.
fn take_top(tokens: &mut Tokens<'_>) -> Result<(), ExtJsonFault>
    ensures { Gives faults.Memory (λ _. tokens.new) result (spec.top_at tokens.old) }
{
    match tokens.next() {
        Token::BeginObject => Ok(()),
        Token::EndObject | Token::EndArray | Token::Key(_) | Token::Bad => {
            Err(ExtJsonFault::Syntax)
        }
        _ => Err(ExtJsonFault::NotDocument),
    }
}

/// The document that all the tokens spell.
pub(crate) fn take_document(
    alloc: Global,
    tokens: &mut Tokens<'_>,
) -> Result<Document, ExtJsonFault>
    ensures { Gives faults.Memory (λ d. d) result (document_in tokens.old) }
{
    take_top(tokens)?;
    let first = tokens.key()?;
    let document = take_pairs(alloc, tokens, 99, first)?;
    if !tokens.is_at_end() {
        return Err(ExtJsonFault::Syntax);
    }
    Ok(document)
}
