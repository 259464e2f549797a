//! What a turn does with the sockets.

ghost use Rattle.std.specs.Prelude.{◌≡◌, ◌⊎◌, true, false, None, Some};
ghost use Rattle.std.specs.Prelude.{IfOk, OnOk, OnErr, is_some, slice_set};
ghost use Rattle.server.specs.Durable.{is_stopped};
ghost use Rattle.server.specs.ServerState.{ended};
ghost use Rattle.server.specs.View.{state};
ghost use Rattle.driver_sockets.specs.Alone.{AreLentTo, GoesOnAlone, has_begun, is_alone};
ghost use Rattle.driver_sockets.specs.Cursors.{first_to_end};
ghost use Rattle.driver_sockets.specs.Lending.{loan_at, borrower, Lends};
ghost use Rattle.driver_sockets.specs.Questions.{question_in, wanted, pending};
ghost use Rattle.driver_sockets.specs.Replying.{Becomes, IsClosed, TakesFrame};
ghost use Rattle.driver_sockets.specs.Serving.{OthersStay};
ghost use Rattle.driver_sockets.specs.Tying.{Asks, LendsToNone};
ghost use Rattle.front.specs.Asking.{AsksWanted, EndsOne};
ghost use Rattle.front.specs.OneSocket.{seat, Asking, Closes, RunsOut, Serves};
ghost use Rattle.front.specs.Unread.{HasTurned, IsBehind};

use crate::asking::{NotAsked, ask};
use bson::NoMemory;
use driver_sockets::{
    Lending, OpenCursors, Socket, connection_for, end_command, give_up, go_on, is_held, loan_of,
    loan_to_end, read_reply,
};
use drivers::ServerInfo;
use engine::ConnId;
use page::Disk;
use server::Core;
use std::alloc::AllocError;

/// Asks the question of a socket's message, where it has one and a connection can be lent to it. An `Err`:
/// memory ran out for it, and the socket is closed.
fn ask_question<D: Disk>(
    core: &mut Core<D>,
    lending: &mut Lending,
    cursors: &OpenCursors,
    number: usize,
    socket: &mut Socket,
) -> Result<(), NoMemory>
    requires sound { IsBehind D.history lending.old.loans core.old }
    ensures sound { IsBehind D.history lending.new.loans core.new }
    ensures running { is_stopped core.new ≡ is_stopped core.old }
    ensures lends { Lends (Some number) lending.old.loans lending.new.loans }
    ensures asks { Asks number lending.old.loans lending.new.loans socket.old socket.new }
    ensures alone { has_begun socket.new ≡ true → is_alone socket.old ≡ true }
    ensures wanted { AsksWanted (Some number) (question_in socket.old.job) lending.old.loans
        lending.new.loans (state core.old) (state core.new) }
    ensures asking { OnOk result (Asking number cursors.now.list.items (pending socket.old.job)
        (seat lending.old core.old socket.old) (seat lending.new core.new socket.new)) }
    ensures closes { OnErr result (Closes (seat lending.old core.old socket.old)
        (seat lending.new core.new socket.new)) }
{
    let Some(question) = socket.question() else {
        return Ok(());
    };
    let Some(id) = connection_for(lending, cursors, question) else {
        return Ok(());
    };
    match ask(core, id, &question.command) {
        Ok(()) => {
            lending.lend(id, loan_of(number, question));
            socket.wait(core.allocator());
            Ok(())
        }
        Err(NotAsked::Long) => socket.refuse_long(core.allocator()),
        Err(NotAsked::Memory) => {
            socket.is_over = true;
            Err(AllocError)
        }
    }
}

/// Does what can be done of a socket: takes a message where it works on none, and asks the server, where a
/// connection can be lent to it. A message during which nobody else may ask waits until no connection is
/// lent. An `Err`: memory ran out, and the message is taken by a later turn, or the socket is closed.
pub(crate) fn serve_socket<D: Disk>(
    core: &mut Core<D>,
    lending: &mut Lending,
    cursors: &OpenCursors,
    number: usize,
    info: &ServerInfo,
    socket: &mut Socket,
) -> Result<(), NoMemory>
    requires sound { IsBehind D.history lending.old.loans core.old }
    ensures sound { IsBehind D.history lending.new.loans core.new }
    ensures running { is_stopped core.new ≡ is_stopped core.old }
    ensures lends { Lends (Some number) lending.old.loans lending.new.loans }
    ensures asks { Asks number lending.old.loans lending.new.loans socket.old socket.new }
    ensures begins { has_begun socket.old ≡ false → has_begun socket.new ≡ true
        → AreLentTo number lending.new.loans }
    ensures wanted { AsksWanted (Some number) (wanted info.now socket.old) lending.old.loans
        lending.new.loans (state core.old) (state core.new) }
    ensures serves { OnOk result (Serves info.now number cursors.now.list.items
        (seat lending.old core.old socket.old) (seat lending.new core.new socket.new)) }
    ensures runs_out { OnErr result (RunsOut info.now (seat lending.old core.old socket.old)
        (seat lending.new core.new socket.new)) }
{
    socket.begin(core.allocator(), info)?;
    if is_held(lending, socket) {
        return Ok(());
    }
    ask_question(core, lending, cursors, number, socket)
}

/// Ends the first cursor of a socket that has ended and whose owner is at rest. Whether there was one. An
/// `Err` changes nothing.
pub(crate) fn end_cursor<D: Disk>(
    core: &mut Core<D>,
    lending: &mut Lending,
    cursors: &OpenCursors,
) -> Result<bool, NotAsked>
    requires sound { IsBehind D.history lending.old.loans core.old }
    ensures sound { IsBehind D.history lending.new.loans core.new }
    ensures lends { Lends None lending.old.loans lending.new.loans }
    ensures none { LendsToNone lending.old.loans lending.new.loans }
    ensures ends { OnOk result (EndsOne (first_to_end lending.old.loans cursors.now.list.items)
        lending.old.loans lending.new.loans (state core.old) (state core.new)) }
    ensures whether { IfOk result (λ b. b
        ≡ is_some (first_to_end lending.old.loans cursors.now.list.items)) }
    ensures nothing { OnErr result ((lending.new ≡ lending.old)
        × (state core.new ≡ state core.old)) }
{
    let Some(cursor) = cursors.abandoned(lending) else {
        return Ok(false);
    };
    let Ok(command) = end_command(core.allocator(), cursor) else {
        return Err(NotAsked::Memory);
    };
    ask(core, cursor.owner, &command)?;
    lending.lend(cursor.owner, loan_to_end(cursor));
    Ok(true)
}

/// Takes what the server has replied on a connection, which is at rest again. Where memory runs out for it,
/// the connection's cursors end with it, and the socket is closed.
pub(crate) fn take_reply<D: Disk>(
    core: &mut Core<D>,
    lending: &mut Lending,
    cursors: &mut OpenCursors,
    sockets: &mut [Socket],
    owner: ConnId,
    frame: &[u8],
) -> Result<(), NoMemory>
    requires turned { HasTurned D.history core.old }
    ensures turned { HasTurned D.history core.new }
    ensures server { OnOk result (state core.new ≡ state core.old) }
    ensures begins { OnErr result ((state core.new ≡ state core.old)
        ⊎ (state core.new ≡ ended (state core.old) owner)) }
    ensures rest { lending.new.loans ≡ slice_set lending.old.loans owner None }
    ensures others { OthersStay sockets.old (borrower (loan_at lending.old.loans owner)) sockets.new }
    ensures alone { GoesOnAlone sockets.old (borrower (loan_at lending.old.loans owner)) sockets.new }
    ensures takes { OnOk result (TakesFrame frame.now sockets.old
        (borrower (loan_at lending.old.loans owner)) sockets.new) }
    ensures closes { OnErr result (Becomes sockets.old
        (borrower (loan_at lending.old.loans owner)) IsClosed sockets.new) }
{
    let alloc = core.allocator();
    let Some(loan) = lending.take_back(owner) else {
        return Ok(());
    };
    match read_reply(alloc, cursors, owner, loan, frame) {
        Ok(reply) => go_on(alloc, sockets, loan, reply),
        Err(fault) => {
            core.gone(owner);
            cursors.end_all(owner);
            give_up(sockets, loan);
            Err(fault)
        }
    }
}
