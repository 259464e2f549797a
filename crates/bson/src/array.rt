//! Arrays: building.

ghost use Rattle.std.specs.Prelude.{◌≡◌, ◌==◌, ◌+◌, ◌<◌, Some, OnOk, OnErr, IfOk, IfErr, max, ◌≤◌};
ghost use Rattle.bson.specs.Tree.{no_items, item, append_items};
ghost use Rattle.bson.specs.Edits.{items_len, item_at, with_item, without_item, ReplaceFault, GrowFault};
ghost use Rattle.bson.specs.View.{tree, items_of};
ghost use Rattle.bson.specs.Lawful.{IsArray, HoldsArray, items_levels};

use crate::MOST_LEVELS;
use crate::fault::BuildFault;
use crate::nesting::{Nesting, deepest, deepest_after};
use crate::value::{Array, Value};
use std::alloc::Global;
use std::mem;

/// How many items are many: of fewer the deepest is found soon enough by looking through them.
const MANY: usize = 64;

impl Array {
    /// The empty array. It takes no memory yet.
    pub fn new(alloc: Global) -> Array
        ensures { result ≡ no_items }
    {
        Array {
            items: Vec::new(alloc),
            nesting: Nesting::Plain {
                levels: 0,
                edits: 0,
            },
        }
    }

    /// How deep the array nests: 1 where it holds no document and no array.
    pub fn levels(&self) -> u32
        ensures levels { result ≡ items_levels self.now + 1 }
        ensures lawful { IsArray self.now }
    {
        self.nesting.levels() + 1
    }

    /// The values, in order.
    pub fn items(&self) -> &[Value]
        ensures items { items_of result.now ≡ self.now }
        ensures lawful { IsArray self.now }
    {
        &self.items
    }

    /// How many items there are.
    pub fn len(&self) -> usize
        ensures { result ≡ items_len self.now }
    {
        self.items.len()
    }

    /// Whether there is no item.
    pub fn is_empty(&self) -> bool
        ensures { result ≡ (items_len self.now == 0) }
    {
        self.items.is_empty()
    }

    /// The array of these items.
    pub fn from_items(items: Vec<Value>) -> Array
        requires { IsArray (items_of items.items) }
        ensures { result ≡ items_of items.items }
    {
        let levels = deepest(&items);
        Array::from_counted(items, levels)
    }

    /// The array of these items, which nest as deep as is said: for who has counted it.
    pub fn from_counted(items: Vec<Value>, levels: u32) -> Array
        requires { HoldsArray levels (items_of items.items) }
        ensures { result ≡ items_of items.items }
    {
        Array {
            items,
            nesting: Nesting::Plain { levels, edits: 0 },
        }
    }

    /// Adds an item at the end. An error leaves the array as it was: `Deep` where the item nests more
    /// than 98 levels, `Memory` where memory ran out.
    pub fn push(&mut self, value: Value) -> Result<(), BuildFault>
        ensures ok { OnOk result (self.new ≡ append_items self.old (item (tree value) no_items)) }
        ensures err { OnErr result (self.new ≡ self.old) }
        ensures fault { IfErr result (λ e. GrowFault 98 (tree value) e) }
    {
        let levels = value.levels();
        if MOST_LEVELS <= levels + 1 {
            return Err(BuildFault::Deep);
        }
        self.items.push(value)?;
        let nesting = self.nesting.take();
        self.nesting = nesting.with_one(levels);
        Ok(())
    }

    /// Puts another item in the place of the one there, which is handed back. It needs no memory: `Deep`,
    /// where the item nests more than 98 levels, is its only error, and leaves the array as it was.
    pub fn replace_at(&mut self, at: usize, value: Value) -> Result<Value, BuildFault>
        requires { at < items_len self.old }
        ensures ok { OnOk result (self.new ≡ with_item self.old at (tree value)) }
        ensures old { IfOk result (λ v. item_at self.old at ≡ Some (tree v)) }
        ensures err { OnErr result (self.new ≡ self.old) }
        ensures fault { IfErr result (λ e. ReplaceFault 98 (tree value) e) }
    {
        let new_levels = value.levels();
        if MOST_LEVELS <= new_levels + 1 {
            return Err(BuildFault::Deep);
        }
        let old = mem::replace(&mut self.items[at], value);
        let nesting = self.nesting.take();
        self.nesting = nesting.with_other(&self.items, old.levels(), new_levels);
        self.count_edit();
        Ok(old)
    }

    // Counts an edit where there are many items, after enough of which it is counted how many nest how deep.
    fn count_edit(&mut self)
        ensures { self.new ≡ self.old }
    {
        if self.items.len() < MANY {
            return;
        }
        let alloc = *self.items.allocator();
        let nesting = self.nesting.take();
        self.nesting = nesting.counted(alloc, &self.items);
    }

    /// Takes out the item at a place. Those behind it move up.
    pub fn remove_at(&mut self, at: usize) -> Value
        requires { at < items_len self.old }
        ensures item { item_at self.old at ≡ Some (tree result) }
        ensures rest { self.new ≡ without_item self.old at }
    {
        let value = self.items.remove(at);
        let levels = deepest_after(self.nesting.levels(), value.levels(), 0, &self.items);
        self.nesting = Nesting::Plain { levels, edits: 0 };
        value
    }
}
