//! What becomes of an index's entries where one document replaces another.

ghost use Rattle.std.specs.Prelude.{◌≡◌, ◌++◌, IfOk, map};
ghost use Rattle.index.specs.Changes.{IsAscending, is_among, without};
ghost use Rattle.index.specs.KeyTexts.{entry_key};
ghost use Rattle.index.specs.View.{texts_of};

use bson::NoMemory;
use std::alloc::Global;

/// Whether a key is one of these, which ascend.
fn is_among(keys: &[Vec<u8>], key: &[u8]) -> bool
    requires { IsAscending (texts_of keys.now) }
    ensures { result ≡ is_among (texts_of keys.now) key.now }
{
    keys.binary_search_by(|other| other.as_slice().cmp(key))
        .is_ok()
}

/// The keys that are none of the others, which ascend.
fn without<'a>(
    alloc: Global,
    keys: &'a [Vec<u8>],
    others: &[Vec<u8>],
) -> Result<Vec<&'a [u8]>, NoMemory>
    requires { IsAscending (texts_of others.now) }
    ensures { IfOk result (λ v. map (λ key. key.now) v.items
        ≡ without (texts_of keys.now) (texts_of others.now)) }
{
    let mut left = Vec::new(alloc);
    'keys: for key in keys {
        if !is_among(others, key) {
            left.push(key.as_slice())?;
        }
    }
    Ok(left)
}

/// The keys that an index loses and those that it gains where one document replaces another, both ascending.
#[derive(Drop)]
pub struct KeyChanges<'a> {
    pub removed: Vec<&'a [u8]>,
    pub added: Vec<&'a [u8]>,
}

impl<'a> KeyChanges<'a> {
    /// The difference between the keys of the old document and those of the new one, both ascending. Where they are the
    /// same there is none.
    pub fn between(
        alloc: Global,
        old: &'a [Vec<u8>],
        new: &'a [Vec<u8>],
    ) -> Result<KeyChanges<'a>, NoMemory>
        requires old_ascend { IsAscending (texts_of old.now) }
        requires new_ascend { IsAscending (texts_of new.now) }
        ensures removed { IfOk result (λ c. map (λ key. key.now) c.removed.items
            ≡ without (texts_of old.now) (texts_of new.now)) }
        ensures added { IfOk result (λ c. map (λ key. key.now) c.added.items
            ≡ without (texts_of new.now) (texts_of old.now)) }
    {
        Ok(KeyChanges {
            removed: without(alloc, old, new)?,
            added: without(alloc, new, old)?,
        })
    }
}

/// The key of an entry in the tree: of the index of a number in the collection of a number, for an encoded key of the
/// document whose `_id` has this ascending text. The entry's value is empty.
pub fn entry_key(
    alloc: Global,
    collection: u32,
    index: u32,
    key: &[u8],
    id: &[u8],
) -> Result<Vec<u8>, NoMemory>
    ensures { IfOk result (λ v. v.items ≡ entry_key collection index key.now id.now) }
{
    let size = key.len().saturating_add(id.len()).saturating_add(8);
    let mut entry = Vec::with_capacity(alloc, size)?;
    entry.extend_from_slice(&collection.to_be_bytes())?;
    entry.extend_from_slice(&index.to_be_bytes())?;
    entry.extend_from_slice(key)?;
    entry.extend_from_slice(id)?;
    Ok(entry)
}
