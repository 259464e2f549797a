//! What a turn takes and retires, and what becomes of the pages that it retired.
ghost use Rattle.std.specs.Prelude.{◌≡◌, ◌+◌, ◌≤◌, ◌++◌, ◌∷◌, [], length, vec_capacity, OnOk, OnErr};
ghost use Rattle.freelist.specs.Book.{is_pinned, kept, freed, retired_in, without};

use crate::book::NoMemory;
use crate::states::{PageState, PageStates};

/// A page that was retired, and the last version that reaches it.
#[derive(Clone, Copy, Debug)]
pub(crate) struct Retirement {
    pub(crate) page: u32,
    pub(crate) version: u64,
}

/// A change of the running turn, as undoing it needs it.
#[derive(Clone, Copy, Debug)]
pub(crate) enum Change {
    Taken { page: u32 },
    Retired { page: u32, version: u64 },
}

/// Whether a pin keeps what was retired at a version.
pub(crate) fn is_pinned(pins: &[u64], version: u64) -> bool
    ensures { result ≡ is_pinned pins.now version }
{
    pins.iter().any(|pin| *pin <= version)
}

/// Takes one pin of a version away, if there is one.
pub(crate) fn remove_pin(pins: &mut Vec<u64>, version: u64)
    ensures { pins.new.items ≡ without version pins.old.items }
{
    'pins: for at in 0..pins.len() {
        if pins[at] == version {
            let _pin = pins.remove(at);
            return;
        }
    }
}

/// Notes a change of the running turn, and makes the room that its commit needs.
pub(crate) fn note(
    turn: &mut Vec<Change>,
    waiting: &mut Vec<Retirement>,
    change: Change,
) -> Result<(), NoMemory>
    ensures noted { OnOk result (turn.new.items ≡ turn.old.items ++ change ∷ []) }
    ensures err { OnErr result (turn.new.items ≡ turn.old.items) }
    ensures waiting { waiting.new.items ≡ waiting.old.items }
    ensures room { OnOk result
        (length waiting.new.items + length turn.new.items ≤ vec_capacity waiting.new) }
    ensures capacity { vec_capacity waiting.old ≤ vec_capacity waiting.new }
{
    let count = turn.len();
    waiting.reserve(count + 1)?;
    turn.push(change)?;
    Ok(())
}

/// Frees the pages that a turn retired, but those that a pin keeps, which wait.
pub(crate) fn settle(
    turn: &[Change],
    pins: &[u64],
    pages: &mut PageStates,
    waiting: &mut Vec<Retirement>,
)
    requires { length waiting.old.items + length turn.now ≤ vec_capacity waiting.old }
    ensures pages { pages.new ≡ freed pins.now (retired_in turn.now) pages.old }
    ensures waiting { waiting.new.items
        ≡ waiting.old.items ++ kept pins.now (retired_in turn.now) }
    ensures capacity { length waiting.new.items ≤ vec_capacity waiting.new }
{
    'changes: for change in turn {
        if let Change::Retired { page, version } = *change {
            if is_pinned(pins, version) {
                waiting.push(Retirement { page, version }).unwrap();
            } else {
                pages.set(page, PageState::Free);
            }
        }
    }
}

/// Frees the pages that waited and that no pin keeps any more.
pub(crate) fn release(pins: &[u64], pages: &mut PageStates, waiting: &mut Vec<Retirement>)
    ensures pages { pages.new ≡ freed pins.now waiting.old.items pages.old }
    ensures waiting { waiting.new.items ≡ kept pins.now waiting.old.items }
    ensures capacity { vec_capacity waiting.new ≡ vec_capacity waiting.old }
    ensures fewer { length waiting.new.items ≤ length waiting.old.items }
{
    'waiting: for retirement in &*waiting {
        if !is_pinned(pins, retirement.version) {
            pages.set(retirement.page, PageState::Free);
        }
    }
    waiting.retain(|retirement| is_pinned(pins, retirement.version));
}
