//! The encoded keys of a document.

ghost use Rattle.std.specs.Prelude.{◌≡◌, ◌++◌, [], ◌∷◌, All, IfOk, IfSome, OnOk, map, option_map};
ghost use Rattle.outcome.specs.Outcome.{Gives};
ghost use Rattle.index.specs.Changes.{IsAscending};
ghost use Rattle.index.specs.KeyTexts.{ascending_set, keys_in, keys_in_all};
ghost use Rattle.index.specs.View.{texts_of};
ghost use Rattle.index.specs.Steps.{extended, combined, keys_unless_parallel};

use crate::definition::IndexSpec;
use crate::texts::texts_within;
use bson::{Document, NoMemory};
use path::Refusal;
use std::alloc::Global;

/// Puts each of the texts behind a front.
fn push_extended(out: &mut Vec<Vec<u8>>, front: &[u8], texts: &[Vec<u8>]) -> Result<(), NoMemory>
    ensures { OnOk result (texts_of out.new.items
        ≡ texts_of out.old.items ++ extended (front.now ∷ []) (texts_of texts.now)) }
{
    let alloc = *out.allocator();
    'texts: for text in texts {
        let mut longer = Vec::with_capacity(alloc, front.len().saturating_add(text.len()))?;
        longer.extend_from_slice(front)?;
        longer.extend_from_slice(text)?;
        out.push(longer)?;
    }
    Ok(())
}

/// Each of the fronts with each of the texts behind it.
fn extended(alloc: Global, fronts: &[Vec<u8>], texts: &[Vec<u8>]) -> Result<Vec<Vec<u8>>, NoMemory>
    ensures { IfOk result (λ v. texts_of v.items
        ≡ extended (texts_of fronts.now) (texts_of texts.now)) }
{
    let mut out = Vec::new(alloc);
    'fronts: for front in fronts {
        push_extended(&mut out, front, texts)?;
    }
    Ok(out)
}

/// The combinations of a text of each list.
fn combined(alloc: Global, all: Vec<Vec<Vec<u8>>>) -> Result<Vec<Vec<u8>>, NoMemory>
    ensures { IfOk result (λ v. texts_of v.items
        ≡ combined (map (λ texts. texts_of texts.items) all.items) ([] ∷ [])) }
{
    let mut all = all;
    let Some(ends) = all.pop() else {
        let mut keys = Vec::new(alloc);
        keys.push(Vec::new(alloc))?;
        return Ok(keys);
    };
    let mut keys = ends;
    'all: while let Some(fronts) = all.pop() {
        keys = extended(alloc, &fronts, &keys)?;
    }
    Ok(keys)
}

/// The set of these keys, ascending.
fn ascending(keys: Vec<Vec<u8>>) -> Vec<Vec<u8>>
    ensures set { texts_of result.items ≡ ascending_set (texts_of keys.items) }
    ensures ascending { IsAscending (texts_of result.items) }
{
    let mut keys = keys;
    keys.sort_unstable();
    keys.dedup();
    keys
}

impl IndexSpec {
    /// The encoded keys of a document, ascending, or nothing where arrays stand on two of the paths.
    fn keys_unless_parallel(
        &self,
        alloc: Global,
        source: &Document,
    ) -> Result<Option<Vec<Vec<u8>>>, Refusal>
        ensures gives { Gives Refusal.OutOfMemory (option_map (λ v. texts_of v.items)) result
            (keys_unless_parallel self.now.fields source.now) }
        ensures ascending { IfOk result (λ found. IfSome found (λ v. IsAscending (texts_of v.items))) }
    {
        let texts = texts_within(alloc, self.fields(), source)?;
        if self.has_parallel_arrays(source) {
            return Ok(None);
        }
        Ok(Some(ascending(combined(alloc, texts)?)))
    }

    /// The encoded keys of a document in the index, ascending and each once. It is refused with `KeyTooLong` where one
    /// of them has more than 500 bytes, else with `CannotIndexParallelArrays` where arrays stand on two of the paths.
    pub fn keys(&self, alloc: Global, source: &Document) -> Result<Vec<Vec<u8>>, Refusal>
        ensures gives { Gives Refusal.OutOfMemory (λ v. texts_of v.items) result
            (keys_in self.now.fields source.now) }
        ensures ascending { IfOk result (λ v. IsAscending (texts_of v.items)) }
    {
        match self.keys_unless_parallel(alloc, source)? {
            Some(keys) => Ok(keys),
            None => Err(Refusal::CannotIndexParallelArrays),
        }
    }
}

/// The encoded keys of a document in each of these indexes. A key that is too long in any of them is refused before
/// parallel arrays in any.
pub fn keys_in_all(
    alloc: Global,
    indexes: &[IndexSpec],
    source: &Document,
) -> Result<Vec<Vec<Vec<u8>>>, Refusal>
    ensures gives { Gives Refusal.OutOfMemory (λ v. map (λ keys. texts_of keys.items) v.items)
        result (keys_in_all indexes.now source.now) }
    ensures ascending { IfOk result (λ v. All (λ keys. IsAscending (texts_of keys.items)) v.items) }
{
    let mut all = Vec::with_capacity(alloc, indexes.len())?;
    let mut is_parallel = false;
    'indexes: for index in indexes {
        match index.keys_unless_parallel(alloc, source)? {
            Some(keys) => all.push(keys)?,
            None => is_parallel = true,
        }
    }
    if is_parallel {
        return Err(Refusal::CannotIndexParallelArrays);
    }
    Ok(all)
}
