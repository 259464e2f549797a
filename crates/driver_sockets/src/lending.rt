//! Which connections of the server are lent, and what for.

ghost use Rattle.std.specs.Prelude.{◌≡◌, ◌<◌, IfSome, true, None, Some, is_none, is_some, map, replicate, slice_set};
ghost use Rattle.std.specs.List.{list_any};
ghost use Rattle.driver_sockets.specs.Lending.{loan_at, is_at_rest, count_at, fewer, has_none, better, least_used, left_borrower, orphaned, after_end};

use replies::{CONNECTIONS, ConnId};

/// How many connections there are.
pub(crate) const COUNT: usize = CONNECTIONS as usize;

/// What a connection is lent for: a command, of the message of a socket (none where it has ended), about a cursor (none where it
/// isn't about one).
#[derive(Clone, Copy, Debug, PartialEq, Eq)]
pub struct Loan {
    pub socket: Option<usize>,
    pub cursor: Option<i64>,
}

/// What each connection is lent for. One without a loan is at rest.
#[derive(Drop)]
pub struct Lending {
    /// By the number of the connection.
    pub loans: [Option<Loan>; COUNT],
}

impl Lending {
    /// All connections are at rest.
    pub fn new() -> Lending
        ensures { result.loans ≡ replicate 64 None }
    {
        Lending {
            loans: [None; COUNT],
        }
    }

    /// Whether a connection is at rest.
    pub(crate) fn is_at_rest(&self, id: ConnId) -> bool
        ensures { result ≡ is_at_rest self.now.loans id }
    {
        self.loans[usize::from(id.number())].is_none()
    }

    /// Whether any connection is at rest.
    pub fn has_rest(&self) -> bool
        ensures { result ≡ list_any is_none self.now.loans }
    {
        self.loans.iter().any(|loan| loan.is_none())
    }

    /// Whether any connection is lent.
    pub(crate) fn has_loans(&self) -> bool
        ensures { result ≡ list_any is_some self.now.loans }
    {
        self.loans.iter().any(|loan| loan.is_some())
    }

    /// Lends a connection that is at rest.
    pub fn lend(&mut self, id: ConnId, loan: Loan)
        requires rest { is_at_rest self.old.loans id ≡ true }
        ensures lent { self.new.loans ≡ slice_set self.old.loans id (Some loan) }
        ensures there { loan_at self.new.loans id ≡ Some loan }
    {
        self.loans[usize::from(id.number())] = Some(loan);
    }

    /// A connection is at rest again. What it was lent for.
    pub fn take_back(&mut self, id: ConnId) -> Option<Loan>
        ensures loan { result ≡ loan_at self.old.loans id }
        ensures rest { self.new.loans ≡ slice_set self.old.loans id None }
    {
        let number = usize::from(id.number());
        let loan = self.loans[number];
        self.loans[number] = None;
        loan
    }

    /// The better one of a connection and the best one so far.
    fn better(&self, counts: &[usize; COUNT], least: Option<ConnId>, id: ConnId) -> Option<ConnId>
        ensures { result ≡ better self.now.loans counts.now least id }
    {
        if !self.is_at_rest(id) {
            return least;
        }
        match least {
            Some(other) => Some(fewer(counts, other, id)),
            None => Some(id),
        }
    }

    /// The connection at rest that has the fewest cursors, by these counts; of several the first.
    #[tactic(auto, unfolding(crate::specs::Lending::least_used))]
    pub(crate) fn least_used(&self, counts: &[usize; COUNT]) -> Option<ConnId>
        ensures least { result ≡ least_used self.now.loans counts.now 64 }
        ensures rest { IfSome result (λ id. is_at_rest self.now.loans id ≡ true) }
    {
        let mut least = None;
        'numbers: for number in 0..CONNECTIONS {
            least = self.better(counts, least, numbered(number));
            if has_none(counts, &least) {
                break;
            }
        }
        least
    }

    /// A socket has ended: what was lent to it comes back with the reply.
    pub fn end(&mut self, socket: usize)
        ensures { self.new.loans ≡ map (after_end socket) self.old.loans }
    {
        end_loans(&mut self.loans, socket);
    }
}

/// How many cursors a connection has.
fn count_at(counts: &[usize; COUNT], id: ConnId) -> usize
    ensures { result ≡ count_at counts.now id }
{
    counts[usize::from(id.number())]
}

/// Whether it is a connection that has no cursor: then none has fewer.
fn has_none(counts: &[usize; COUNT], least: &Option<ConnId>) -> bool
    ensures { result ≡ has_none counts.now least.now }
{
    match least {
        Some(id) => count_at(counts, *id) == 0,
        None => false,
    }
}

/// Of two connections the one that has fewer cursors; the first where they have as many.
fn fewer(counts: &[usize; COUNT], other: ConnId, id: ConnId) -> ConnId
    ensures { result ≡ fewer counts.now other id }
{
    if count_at(counts, id) < count_at(counts, other) {
        id
    } else {
        other
    }
}

/// The connection of a number.
fn numbered(number: u8) -> ConnId
    requires { number < 64 }
    ensures { result ≡ number }
{
    match ConnId::new(number) {
        Some(id) => id,
        None => unreachable!(),
    }
}

/// Whom a connection is lent to, once a socket has ended.
fn left_borrower(socket: usize, borrower: Option<usize>) -> Option<usize>
    ensures { result ≡ left_borrower socket borrower }
{
    let Some(other) = borrower else {
        return None;
    };
    if other == socket {
        return None;
    }
    Some(other)
}

/// A socket has ended, to which a connection may be lent.
fn end_loan(loan: &mut Option<Loan>, socket: usize)
    ensures { loan.new ≡ after_end socket loan.old }
{
    if let Some(loan) = loan {
        orphan(loan, socket);
    }
}

/// A socket has ended, of which this may be a loan.
fn orphan(loan: &mut Loan, socket: usize)
    ensures { loan.new ≡ orphaned socket loan.old }
{
    loan.socket = left_borrower(socket, loan.socket);
}

/// A socket has ended, to which connections may be lent.
fn end_loans(loans: &mut [Option<Loan>], socket: usize)
    ensures { loans.new ≡ map (after_end socket) loans.old }
{
    'loans: for (number, loan) in loans.iter_mut().enumerate() {
        let _ = number;
        end_loan(loan, socket);
    }
}
