//! The distinct values of a path.

ghost use Rattle.std.specs.Prelude.{◌≡◌, ◌≤◌, [], IfOk, OnOk};
ghost use Rattle.bson.specs.Lawful.{levels, items_levels, pairs_levels};
ghost use Rattle.bson.specs.Tree.{append_items, item, no_items};
ghost use Rattle.bson.specs.View.{tree, items_of};
ghost use Rattle.path.specs.Reach.{items_list};
ghost use Rattle.path.specs.View.{reached};
ghost use Rattle.distinct_values.specs.DistinctValues.{elements, values_at, with_value, with_values, items_from, reached_levels};

use crate::ordered::Ordered;
use bson::{Array, BuildFault, Document, NoMemory, Value};
use path::{Path, Reached, reach};
use std::alloc::{AllocError, Global};
use std::collections::BTreeSet;
use std::marker::Model;

/// Values in their order, no two of which are equal.
#[derive(Drop)]
pub struct DistinctValues {
    values: BTreeSet<Ordered>,
}

impl Model for DistinctValues {
    ghost use Rattle.std.specs.Prelude.{List};
    ghost use Rattle.std.specs.Coded.{coded_list};
    ghost use Rattle.bson.specs.Tree.{Tree};
    ghost use Rattle.bson.specs.TreeCode.{coded_tree};

    ghost Value = { List Tree };

    ghost coded = { coded_list coded_tree };

    ghost view = { λ a. a.values.keys };
}

impl DistinctValues {
    /// No value.
    pub fn new(alloc: Global) -> DistinctValues
        ensures { result ≡ [] }
    {
        DistinctValues {
            values: BTreeSet::new(alloc),
        }
    }

    /// Puts a copy of a value among these, unless one that is equal to it is there.
    fn add(&mut self, value: &Value) -> Result<(), NoMemory>
        requires { levels (tree value.now) ≤ 98 }
        ensures { OnOk result (self.new ≡ with_value self.old (tree value.now)) }
    {
        let value = Ordered::new(value.copy()?);
        let _new = self.values.insert(value)?;
        Ok(())
    }

    /// Puts each of an array's elements among these.
    fn add_items(&mut self, items: &[Value]) -> Result<(), NoMemory>
        requires { items_levels (items_of items.now) ≤ 98 }
        ensures { OnOk result
            (self.new ≡ with_values self.old (items_list (items_of items.now))) }
    {
        'items: for item in items {
            self.add(item)?;
        }
        Ok(())
    }

    /// Puts a value that a path reaches among these, or each of its elements where it is an array.
    fn add_reached(&mut self, found: Reached<'_>) -> Result<(), NoMemory>
        requires { reached_levels (reached found) ≤ 98 }
        ensures { OnOk result (self.new ≡ with_values self.old (elements (reached found.entry))) }
    {
        match found {
            Reached::Missing => Ok(()),
            Reached::Value(Value::Array(array)) => self.add_items(array.items()),
            Reached::Value(value) => self.add(value),
        }
    }

    /// Puts the values that a path has in a document among these: what it reaches, an array by its elements. Of equal ones
    /// the first stays.
    pub fn add_document(
        &mut self,
        alloc: Global,
        path: &Path,
        document: &Document,
    ) -> Result<(), NoMemory>
        requires { pairs_levels document.now ≤ 97 }
        ensures { OnOk result
            (self.new ≡ with_values self.old (values_at path.now document.now)) }
    {
        let found = reach(alloc, document, path)?;
        'found: for one in &found {
            self.add_reached(*one)?;
        }
        Ok(())
    }

    /// All of them, in their order.
    pub fn into_array(self, alloc: Global) -> Result<Array, NoMemory>
        ensures { IfOk result (λ values. values ≡ items_from self) }
    {
        let mut array = Array::new(alloc);
        'values: for value in self.values {
            push(&mut array, value.into_value())?;
        }
        Ok(array)
    }
}

/// Adds a value to an array that is not nested too deep, so only memory can be wanting.
fn push(array: &mut Array, value: Value) -> Result<(), NoMemory>
    requires { levels (tree value) ≤ 98 }
    ensures { OnOk result (array.new ≡ append_items array.old (item (tree value) no_items)) }
{
    match array.push(value) {
        Ok(()) => Ok(()),
        Err(BuildFault::Deep) => unreachable!("it is flat"),
        Err(_) => Err(AllocError),
    }
}
