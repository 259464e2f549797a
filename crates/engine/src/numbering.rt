//! Which number a collection more gets.

ghost use Rattle.std.specs.Prelude.{◌≡◌, ◌<◌, ◌≤◌, IfOk, length};
ghost use Rattle.engine.specs.Durable.{IsSound};
ghost use Rattle.engine.specs.Numbering.{AreMarked, IsNewNumber, IsTooMany, numbered};
ghost use Rattle.engine.specs.Trying.{MayRefuse};
ghost use Rattle.engine.specs.View.{world};
ghost use Rattle.database_model.specs.World.{unused};

use crate::MOST_COLLECTIONS;
use crate::engine::Engine;
use bson::NoMemory;
use collections::Name;
use page::Disk;
use path::Refusal;
use std::alloc::Global;

/// Which of the numbers up to the most collections some have.
fn used_numbers(alloc: Global, names: &[Name]) -> Result<Vec<bool>, NoMemory>
    ensures { IfOk result (λ used. AreMarked names.now used.items) }
{
    let mut used = vec![in alloc; false; MOST_COLLECTIONS + 1]?;
    'names: for name in names {
        let number = name.number as usize;
        if number <= MOST_COLLECTIONS {
            used[number] = true;
        }
    }
    Ok(used)
}

/// The least number from 1 on that none has.
fn least_unused(alloc: Global, names: &[Name]) -> Result<u32, NoMemory>
    requires { length names.now < MOST_COLLECTIONS }
    ensures number { IfOk result (λ n. n ≡ unused (numbered names.now)) }
    ensures within { IfOk result (λ n. (1 ≤ n) × (n ≤ 1000)) }
{
    let used = used_numbers(alloc, names)?;
    let mut number: u32 = 1;
    'numbers: for _ in 0..names.len() {
        if !used[number as usize] {
            return Ok(number);
        }
        number += 1;
    }
    Ok(number)
}

impl<D: Disk> Engine<D> {
    /// The number that a collection more gets: the least from 1 on that none has. `TooMany` where it would be one too
    /// many.
    pub(crate) fn new_number(&mut self) -> Result<u32, Refusal>
        requires sound { IsSound D.history self.old }
        ensures tries { MayRefuse D.history (IsNewNumber (world self.old).collections)
            (IsTooMany (world self.old).collections) result self.old self.new }
        ensures within { IfOk result (λ n. (1 ≤ n) × (n ≤ 1000)) }
    {
        let names = self.file.names()?;
        if MOST_COLLECTIONS <= names.len() {
            return Err(Refusal::TooMany);
        }
        Ok(least_unused(self.alloc, &names)?)
    }
}
