//! Where a value stands in a document.

ghost use Rattle.std.specs.Prelude.{◌≡◌, [], map, IfOk, OnOk};
ghost use Rattle.driver_messages.specs.OwnNumbers.{is_own_number};
ghost use Rattle.driver_messages.specs.Seeking.{inside, outside, dotted};

use crate::own_numbers::is_own_number;
use bson::{NoMemory, Text};
use std::alloc::Global;
use std::marker::Model;

/// Where a value stands: names, from the outermost one. Contracts see the list of them.
#[derive(Drop)]
pub(crate) struct Place<'a> {
    names: Vec<&'a str>,
}

impl<'a> Model for Place<'a> {
    ghost use Rattle.std.specs.Prelude.{ℕ, List, map};

    ghost Value = { List (List ℕ) };

    ghost view = { λ a. map (λ s. s.now) a.names.items };
}

impl<'a> Place<'a> {
    /// The place of a whole document.
    pub(crate) fn new(alloc: Global) -> Place<'a>
        ensures { result ≡ [] }
    {
        Place {
            names: Vec::new(alloc),
        }
    }

    /// Goes to a name in the document at the place.
    pub(crate) fn enter(&mut self, name: &'a str) -> Result<(), NoMemory>
        ensures { OnOk result (self.new ≡ inside self.old name.now) }
    {
        self.names.push(name)?;
        Ok(())
    }

    /// Goes to the document that holds what stands at the place.
    pub(crate) fn leave(&mut self)
        ensures { self.new ≡ outside self.old }
    {
        let _name = self.names.pop();
    }

    /// Whether the field of this name, in the document at the place, is a number of the command itself.
    pub(crate) fn has_own_number(&self, name: &str) -> bool
        ensures { result ≡ is_own_number self.now name.now }
    {
        is_own_number(&self.names, name)
    }

    /// The names with dots between them.
    pub(crate) fn text(&self, alloc: Global) -> Result<Text, NoMemory>
        ensures { IfOk result (λ t. t ≡ dotted self.now) }
    {
        dotted(alloc, &self.names)
    }
}

/// The names with dots between them.
fn dotted(alloc: Global, names: &[&str]) -> Result<Text, NoMemory>
    ensures { IfOk result (λ t. t ≡ dotted (map (λ s. s.now) names.now)) }
{
    let Some((first, others)) = names.split_first() else {
        return Text::from_str(alloc, "");
    };
    let mut text = String::from_str(alloc, first)?;
    'others: for name in others {
        text.push_str(".")?;
        text.push_str(name)?;
    }
    Ok(Text::from_string(text))
}
