//! What is done first with a message.

ghost use Rattle.std.specs.Prelude.{◌≡◌, IfOk, codes};
ghost use Rattle.bson.specs.Lookup.{lookup};
ghost use Rattle.bson.specs.View.{tree};
ghost use Rattle.std.specs.Option.{option_and_then};
ghost use Rattle.driver_replies.specs.Cursors.{cursor_of, first_id, ids_of};
ghost use Rattle.drivers.specs.Starting.{ask_owner, kill_first, list_first, ask_explain, name_of, ask_write, ask_unless, own_reply, do_command, do_query, do_fault, do_message, failure, unheard, started};
ghost use Rattle.driver_fields.specs.Commands.{command_of};
ghost use Rattle.driver_fields.specs.Cleaning.{first_refused};

use crate::distinct::distinct_first;
use crate::handshake::{build_reply, handshake_reply, ok_reply};
use crate::modifying::modify_first;
use crate::server_info::ServerInfo;
use crate::step::Step;
use bson::{Document, NoMemory, Value};
use driver_fields::{Asked, Command, Own, Reason, command_of, first_refused, kept, refusal_reply};
use driver_messages::{BodyFault, Form, Message};
use driver_replies::{
    Fact, FreshIds, cursor_of, document_of, first_id, ids_of, kill_one, list_command, set,
    text_or_none, with_new_ids, write_of,
};
use std::alloc::Global;

/// What a failed query is answered with.
fn failure(alloc: Global) -> Result<Document, NoMemory>
    ensures { IfOk result (λ d. d ≡ failure) }
{
    document_of(
        alloc,
        &[
            (
                "$err",
                Fact::Text("docpage takes OP_QUERY for a handshake alone"),
            ),
            ("code", Fact::Int32(352)),
        ],
    )
}

/// A command that goes to the connection that opened its cursor.
fn ask_owner(mut body: Document) -> Result<Step, NoMemory>
    ensures { IfOk result (λ s. s ≡ ask_owner (cursor_of body) body) }
{
    let Some(cursor) = cursor_of(&body) else {
        return Ok(Step::Ask(body));
    };
    set(&mut body, "getMore", Value::Int64(cursor))?;
    Ok(Step::AskOwner(cursor, body))
}

/// The first cursor that a command names.
fn first_named(alloc: Global, body: &Document) -> Result<Option<i64>, NoMemory>
    ensures { IfOk result (λ x. x ≡ option_and_then first_id (ids_of body.now)) }
{
    match ids_of(alloc, body)? {
        Some(ids) => Ok(first_id(&ids)),
        None => Ok(None),
    }
}

/// A command that ends cursors, for the first of them.
fn kill_first(alloc: Global, mut body: Document) -> Result<Step, NoMemory>
    ensures { IfOk result
        (λ s. s ≡ kill_first (option_and_then first_id (ids_of body)) body) }
{
    let Some(cursor) = first_named(alloc, &body)? else {
        return Ok(Step::Ask(body));
    };
    kill_one(alloc, &mut body, cursor)?;
    Ok(Step::AskOwner(cursor, body))
}

/// What is asked first of a database that is to be dropped.
fn list_first(alloc: Global, body: &Document) -> Result<Step, NoMemory>
    ensures { IfOk result (λ s. s ≡ list_first body.now) }
{
    let database = text_or_none(body.get("$db"));
    Ok(Step::Ask(list_command(alloc, database)?))
}

/// An `explain`, whose find is without the fields that the database doesn't have, or why that is refused.
fn ask_explain(alloc: Global, mut body: Document) -> Result<Step, NoMemory>
    ensures { IfOk result (λ s. s ≡ ask_explain (lookup body (codes "explain")) body) }
{
    let Some(Value::Document(find)) = body.get("explain") else {
        return Ok(Step::Ask(body));
    };
    if let Some((name, reason)) = first_refused(Asked::Find, find) {
        return Ok(Step::Reply(refusal_reply(alloc, reason, name)?));
    }
    let find = kept(Asked::Find, find.copy()?);
    let _levels = body.levels();
    set(&mut body, "explain", Value::Document(find))?;
    Ok(Step::Ask(body))
}

/// A command that writes. A document of an insert that says no `_id` gets one.
fn ask_write(alloc: Global, ids: FreshIds, body: Document) -> Result<Step, NoMemory>
    ensures { IfOk result (λ s. s ≡ ask_write ids body) }
{
    let write = write_of(name_of(&body));
    Ok(Step::Ask(with_new_ids(alloc, ids, write, body)?))
}

/// A command for the database, without the fields that it doesn't have, or why it is refused.
fn ask(alloc: Global, ids: FreshIds, asked: Asked, body: Document) -> Result<Step, NoMemory>
    ensures { IfOk result (λ s. s ≡ ask_unless ids asked (first_refused asked body) body) }
{
    if let Some((name, reason)) = first_refused(asked, &body) {
        return Ok(Step::Reply(refusal_reply(alloc, reason, name)?));
    }
    let body = kept(asked, body);
    match asked {
        Asked::Write => ask_write(alloc, ids, body),
        Asked::GetMore => ask_owner(body),
        Asked::KillCursors => kill_first(alloc, body),
        Asked::DropDatabase => list_first(alloc, &body),
        Asked::Explain => ask_explain(alloc, body),
        Asked::Modify => modify_first(alloc, &body),
        Asked::Distinct => distinct_first(alloc, &body),
        _ => Ok(Step::Ask(body)),
    }
}

/// The name of a command, which is that of its first field.
pub(crate) fn name_of(body: &Document) -> &str
    ensures { result.now ≡ name_of body.now }
{
    match body.pairs().first() {
        Some(pair) => pair.name.as_str(),
        None => "",
    }
}

/// The reply to a command that the database isn't asked.
fn own_reply(
    alloc: Global,
    command: Own,
    name: &str,
    info: &ServerInfo,
) -> Result<Document, NoMemory>
    ensures { IfOk result (λ d. d ≡ own_reply command name.now info.now) }
{
    match command {
        Own::Hello => handshake_reply(alloc, true, info),
        Own::IsMaster => handshake_reply(alloc, false, info),
        Own::BuildInfo => build_reply(alloc),
        Own::Session => ok_reply(alloc),
        Own::Login => refusal_reply(alloc, Reason::NoAuthentication, name),
    }
}

/// A command.
fn do_command(alloc: Global, info: &ServerInfo, body: Document) -> Result<Step, NoMemory>
    ensures { IfOk result
        (λ s. s ≡ do_command (command_of (name_of body)) (name_of body) info.now body) }
{
    let name = name_of(&body);
    let reply = match command_of(name) {
        Some(Command::Forwarded(asked)) => return ask(alloc, info.ids, asked, body),
        Some(Command::Own(command)) => own_reply(alloc, command, name, info)?,
        None => refusal_reply(alloc, Reason::UnknownCommand, name)?,
    };
    Ok(Step::Reply(reply))
}

/// An OP_QUERY to `admin.$cmd`, which may be a handshake and nothing else.
fn do_query(alloc: Global, info: &ServerInfo, name: &str) -> Result<Step, NoMemory>
    ensures { IfOk result (λ s. s ≡ do_query (command_of name.now) info.now) }
{
    match command_of(name) {
        Some(Command::Own(Own::Hello)) => Ok(Step::Reply(handshake_reply(alloc, true, info)?)),
        Some(Command::Own(Own::IsMaster)) => Ok(Step::Reply(handshake_reply(alloc, false, info)?)),
        _ => Ok(Step::Fail(failure(alloc)?)),
    }
}

/// A message that has no document.
fn do_fault(alloc: Global, fault: BodyFault) -> Result<Step, NoMemory>
    ensures { IfOk result (λ s. s ≡ do_fault fault) }
{
    let reply = match fault {
        BodyFault::Foreign(foreign) => {
            let reason = Reason::ForeignType(foreign.kind);
            refusal_reply(alloc, reason, foreign.path.as_str())?
        }
        BodyFault::Invalid => refusal_reply(alloc, Reason::InvalidBson, "")?,
    };
    Ok(Step::Reply(reply))
}

/// A message of this form.
fn do_message(
    alloc: Global,
    form: Form,
    info: &ServerInfo,
    body: Result<Document, BodyFault>,
) -> Result<Step, NoMemory>
    ensures { IfOk result (λ s. s ≡ do_message form info.now body) }
{
    if form == Form::Query {
        return Ok(Step::Fail(failure(alloc)?));
    }
    let body = match body {
        Ok(body) => body,
        Err(fault) => return do_fault(alloc, fault),
    };
    if form == Form::Command {
        return do_query(alloc, info, name_of(&body));
    }
    do_command(alloc, info, body)
}

/// What is done with a message that may want no reply.
pub(crate) fn unheard(more_to_come: bool, step: Step) -> Step
    ensures { result ≡ unheard more_to_come step }
{
    if !more_to_come {
        return step;
    }
    match step {
        Step::Reply(_) => Step::Silent,
        Step::Fail(_) => Step::Silent,
        other => other,
    }
}

/// What is done first with a message. It fails for want of memory alone.
pub(crate) fn start(alloc: Global, info: &ServerInfo, message: Message) -> Result<Step, NoMemory>
    ensures { IfOk result (λ s. s ≡ started info.now message) }
{
    let step = do_message(alloc, message.form, info, message.body)?;
    Ok(unheard(message.more_to_come, step))
}
