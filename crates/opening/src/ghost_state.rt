//! What contracts know of the collections beside what code holds of them. It takes no memory.

ghost use Rattle.std.specs.Prelude.{◌≡◌, List};
ghost use Rattle.std.specs.Borrow.{ftrue};
ghost use Rattle.entry_model.specs.State.{Collection};
ghost use Rattle.opening.specs.TurnStates.{TurnStates, turn_states_code};

use std::marker::Model;

/// The collections as contracts know them: their documents are in the file, and no code holds them.
#[derive(Drop)]
pub struct GhostState {
    pub ghost value: { TurnStates } by { turn_states_code },
}

impl Model for GhostState {
    ghost also_owns = { λ _. ftrue };
}

impl GhostState {
    /// Anything may be told.
    fn any() -> GhostState
        ghost known: { TurnStates }
        ensures { result.value ≡ known }
    {
        GhostState {}
    }

    /// What is told by what is passed.
    pub fn of<A>(with: &A) -> GhostState
        ghost known: { TurnStates }
        ensures { result.value ≡ known }
    {
        GhostState::any()
    }

    /// Something else is told in its place, by what was told and what is passed.
    pub fn set<A>(&mut self, with: &A)
        ghost to: { TurnStates }
        ensures { self.new.value ≡ to }
    {
        *self = GhostState::any();
    }

    /// The collections are others now.
    pub fn change<A>(&mut self, with: &A)
        ghost after: { List Collection }
        ensures { self.new.value ≡ record { start = self.old.value.start; now = after } }
    {
        self.set(with);
    }

    /// The turn is done: the next one begins with the collections of now.
    pub fn keep(&mut self)
        ensures { self.new.value ≡ record { start = self.old.value.now; now = self.old.value.now } }
    {
        self.set(&());
    }

    /// The turn is undone: the collections are those of its beginning.
    pub fn roll_back(&mut self)
        ensures { self.new.value
            ≡ record { start = self.old.value.start; now = self.old.value.start } }
    {
        self.set(&());
    }
}
