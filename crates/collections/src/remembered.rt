//! What the catalogue said last, so that what it says again isn't looked up, nor decoded.

ghost use Rattle.std.specs.Prelude.{◌≡◌, true, IfOk, IfSome, IsSomeAnd, MatchResult, Some, None};
ghost use Rattle.entry_model.specs.LawfulState.{IsKept};
ghost use Rattle.entry_model.specs.State.{Collection};
ghost use Rattle.entry_model.specs.StateEntries.{catalogue_entry};
ghost use Rattle.collections.specs.Lookups.{IsWithinLimits, OrMemory, catalogued_in, catalogued_of};
ghost use Rattle.collections.specs.Remembering.{IsOf, IsToldBy, TellsAgain};

use crate::lookups::told_in;
use bson::NoMemory;
use entries::Catalogued;
use path::Refusal;
use std::alloc::Global;
use std::marker::Model;

/// What a value of the catalogue tells of the collection of a name.
#[derive(Drop)]
pub(crate) struct Remembered {
    namespace: String,
    value: Vec<u8>,
    told: Catalogued,
    /// The root page of a tree in which the catalogue says so, while it is known to have that.
    root: Option<u32>,
}

impl Model for Remembered {
    ghost use Rattle.std.specs.Prelude.{string_bytes};
    ghost use Rattle.collections.specs.Remembering.{IsToldBy, Memory};

    ghost Value = { Memory };

    ghost view = { λ a. record {
      namespace = string_bytes a.namespace;
      told = a.told;
      root = a.root;
    } };

    ghost invariant = { λ a. IsToldBy a.value.items a.told };
}

impl Remembered {
    /// Remembers what a value tells of the collection of a name, by the tree below a root page.
    fn new(
        alloc: Global,
        root: u32,
        namespace: &str,
        value: Vec<u8>,
        told: Catalogued,
    ) -> Result<Remembered, NoMemory>
        requires { IsToldBy value.items told }
        ensures { IfOk result (IsOf root namespace.now value.items) }
    {
        Ok(Remembered {
            namespace: String::from_str(alloc, namespace)?,
            value,
            told,
            root: Some(root),
        })
    }

    /// Whether it is what this value tells of the collection of this name.
    fn is_told_by(&self, namespace: &str, value: &[u8]) -> bool
        ensures { result ≡ true
            → (self.now.namespace ≡ namespace.now) × IsToldBy value.now self.now.told }
    {
        self.namespace.as_str() == namespace && self.value.as_slice() == value
    }

    /// What is remembered.
    fn told(&self) -> Result<Catalogued, NoMemory>
        ensures told { IfOk result (λ told. catalogued_of told ≡ catalogued_of self.now.told) }
        ensures limits { IfOk result IsWithinLimits }
    {
        self.told.copy()
    }

    /// Whether it is what the tree below this root page says of the collection of this name.
    fn is_said_by(&self, root: u32, namespace: &str) -> bool
        ensures { result ≡ true
            → (self.now.root ≡ Some root) × (self.now.namespace ≡ namespace.now) }
    {
        match self.root {
            Some(at) => at == root && self.namespace.as_str() == namespace,
            None => false,
        }
    }
}

/// What the tree below a root page says of the collection of a name, if it is remembered.
pub(crate) fn told_again(
    remembered: &Option<Remembered>,
    root: u32,
    namespace: &str,
) -> Result<Option<Catalogued>, NoMemory>
    ensures told { IfOk result (λ found. IfSome found
        (TellsAgain root namespace.now remembered.now)) }
    ensures limits { IfOk result (λ found. IfSome found IsWithinLimits) }
{
    match remembered {
        Some(last) => {
            if !last.is_said_by(root, namespace) {
                return Ok(None);
            }
            Ok(Some(last.told()?))
        }
        None => Ok(None),
    }
}

/// What this value tells of the collection of a name, by the tree below a root page. It is remembered, and isn't decoded where it was
/// told last. An `Err` leaves what is remembered.
pub(crate) fn remember(
    alloc: Global,
    remembered: &mut Option<Remembered>,
    root: u32,
    namespace: &str,
    value: Vec<u8>,
) -> Result<Catalogued, Refusal>
    ensures told { (c : Collection) → IsKept c → value.items ≡ (catalogue_entry c).value
        → OrMemory (λ told. catalogued_of told ≡ catalogued_in c) result }
    ensures limits { IfOk result IsWithinLimits }
    ensures remembers { MatchResult result
        (λ told. IsSomeAnd remembered.new (IsOf root namespace.now value.items))
        (λ e. remembered.new ≡ remembered.old) }
{
    if let Some(last) = remembered {
        if last.is_told_by(namespace, &value) {
            let told = last.told()?;
            last.root = Some(root);
            return Ok(told);
        }
    }
    let told = told_in(alloc, &value)?;
    let copy = told.copy()?;
    *remembered = Some(Remembered::new(alloc, root, namespace, value, told)?);
    Ok(copy)
}

/// What is remembered is no longer said to be in any tree, which may be another from now on.
pub(crate) fn forget_tree(remembered: &mut Option<Remembered>)
    ensures { IfSome remembered.new (λ m. m.root ≡ None) }
{
    if let Some(last) = remembered {
        last.root = None;
    }
}
