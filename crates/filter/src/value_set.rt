//! Values among which one is looked for.

ghost use Rattle.std.specs.Prelude.{◌≡◌, false, IfOk, None, Some, map};
ghost use Rattle.std.specs.List.{list_any};
ghost use Rattle.std.specs.List.Sorted.{IsPermutation};
ghost use Rattle.bson.specs.Lent.{scalar_of};
ghost use Rattle.bson.specs.Tree.{scalar};
ghost use Rattle.bson.specs.View.{tree, items_of};
ghost use Rattle.path.specs.Reach.{items_list};
ghost use Rattle.filter.specs.Among.{is_among, among_passes};

use bson::{NoMemory, RawScalar, Value};
use std::alloc::Global;
use std::marker::Model;
use value_order::{compare, compare_scalar};

/// Values in ascending order, so that one is found by halving.
#[derive(Debug, Drop)]
pub(crate) struct ValueSet {
    ascending: Vec<Value>,
}

impl Model for ValueSet {
    ghost use Rattle.std.specs.Prelude.{List, map};
    ghost use Rattle.std.specs.List.Sorted.{IsSortedByKey};
    ghost use Rattle.bson.specs.Tree.{Tree};
    ghost use Rattle.bson.specs.View.{tree};
    ghost use Rattle.value_order.specs.Order.{compare};

    ghost Value = { List Tree };

    ghost use Rattle.std.specs.Coded.{coded_list};
    ghost use Rattle.bson.specs.TreeCode.{coded_tree};

    ghost coded = { coded_list coded_tree };

    ghost view = { λ a. map tree a.ascending.items };

    ghost invariant = { λ a. IsSortedByKey tree compare a.ascending.items };
}

/// Equal values of their own.
fn copies(alloc: Global, values: &[Value]) -> Result<Vec<Value>, NoMemory>
    ensures { IfOk result (λ v. map tree v.items ≡ map tree values.now) }
{
    let mut copied = Vec::with_capacity(alloc, values.len())?;
    'values: for value in values {
        copied.push(value.copy()?)?;
    }
    Ok(copied)
}

impl ValueSet {
    /// Copies of these.
    pub(crate) fn of(alloc: Global, values: &[Value]) -> Result<ValueSet, NoMemory>
        ensures { IfOk result (λ set. IsPermutation (items_list (items_of values.now)) set) }
    {
        let mut ascending = copies(alloc, values)?;
        ascending.sort_unstable_by(|a, b| compare(a, b));
        Ok(ValueSet { ascending })
    }

    /// An equal set of its own.
    pub(crate) fn copy(&self) -> Result<ValueSet, NoMemory>
        ensures { IfOk result (λ set. set ≡ self.now) }
    {
        let ascending = copies(*self.ascending.allocator(), &self.ascending)?;
        Ok(ValueSet { ascending })
    }

    /// Whether the value is equal to one of them.
    fn contains(&self, value: &Value) -> bool
        ensures { result ≡ is_among self.now (tree value.now) }
    {
        self.ascending
            .binary_search_by(|other| compare(other, value))
            .is_ok()
    }

    /// Whether a value that is lent is equal to one of them.
    pub(crate) fn contains_scalar(&self, value: &RawScalar<'_>) -> bool
        ensures { result ≡ is_among self.now (scalar (scalar_of value.now)) }
    {
        self.ascending
            .binary_search_by(|other| compare_scalar(value, other).reverse())
            .is_ok()
    }

    /// Whether one of these is equal to one of them.
    fn contains_any(&self, values: &[Value]) -> bool
        ensures { result ≡ list_any (is_among self.now) (items_list (items_of values.now)) }
    {
        'values: for value in values {
            if self.contains(value) {
                return true;
            }
        }
        false
    }

    /// Whether a value passes, by its elements too unless it is looked at alone.
    pub(crate) fn passes(&self, alone: bool, value: &Value) -> bool
        ensures { result ≡ among_passes self.now alone (Some (tree value.now)) }
    {
        if self.contains(value) {
            return true;
        }
        match value {
            Value::Array(array) => !alone && self.contains_any(array.items()),
            _ => false,
        }
    }

    /// Whether Missing passes: null is among them.
    pub(crate) fn missing_passes(&self) -> bool
        ensures { result ≡ among_passes self.now false None }
    {
        self.contains(&Value::Null)
    }
}
