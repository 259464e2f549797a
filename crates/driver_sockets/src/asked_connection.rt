//! The connection that a question is asked on, and what it is lent for.

ghost use Rattle.std.specs.Prelude.{◌≡◌, ◌&&◌, IfSome, true, Some, None, is_some, if◌then◌else◌};
ghost use Rattle.std.specs.List.{list_any};
ghost use Rattle.driver_sockets.specs.Alone.{is_alone};
ghost use Rattle.driver_sockets.specs.Choosing.{owner_of, connection_for, loan_of, loan_to_end};
ghost use Rattle.driver_sockets.specs.Lending.{is_at_rest};

use crate::job::Question;
use crate::lending::{Lending, Loan};
use crate::open_cursors::{OpenCursor, OpenCursors};
use crate::socket::Socket;
use replies::ConnId;

/// The connection that owns the cursor of a question, if one does.
fn owner_of(cursors: &OpenCursors, question: &Question) -> Option<ConnId>
    ensures { result ≡ owner_of cursors.now.list.items question.now.cursor }
{
    match question.cursor {
        Some(cursor) => cursors.owner_of(cursor),
        None => None,
    }
}

/// A connection, where it is at rest.
fn if_at_rest(lending: &Lending, id: ConnId) -> Option<ConnId>
    ensures is { result ≡ (if is_at_rest lending.now.loans id then Some id else None) }
    ensures rest { IfSome result (λ id. is_at_rest lending.now.loans id ≡ true) }
{
    if lending.is_at_rest(id) {
        Some(id)
    } else {
        None
    }
}

/// The connection that a question can be asked on now: the one at rest that owns its cursor, or the one at
/// rest with the fewest.
pub fn connection_for(
    lending: &Lending,
    cursors: &OpenCursors,
    question: &Question,
) -> Option<ConnId>
    ensures is { result ≡ connection_for lending.now.loans cursors.now.list.items question.now }
    ensures rest { IfSome result (λ id. is_at_rest lending.now.loans id ≡ true) }
{
    match owner_of(cursors, question) {
        Some(owner) => if_at_rest(lending, owner),
        None => lending.least_used(&cursors.counts()),
    }
}

/// What a connection is lent for that is asked a question for a socket.
pub fn loan_of(number: usize, question: &Question) -> Loan
    ensures { result ≡ loan_of number question.now }
{
    Loan {
        socket: Some(number),
        cursor: question.cursor,
    }
}

/// Whether a socket's message waits until no connection is lent.
pub fn is_held(lending: &Lending, socket: &Socket) -> bool
    ensures { result ≡ (is_alone socket.now && list_any is_some lending.now.loans) }
{
    socket.asks_alone() && lending.has_loans()
}

/// What the owner of a cursor is lent for that is ended.
pub fn loan_to_end(cursor: &OpenCursor) -> Loan
    ensures { result ≡ loan_to_end cursor.now }
{
    Loan {
        socket: None,
        cursor: Some(cursor.id),
    }
}
