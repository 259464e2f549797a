//! The `_id`s to which the entries of an index lead.

ghost use Rattle.std.specs.Prelude.{◌≡◌, ◌++◌, ◌≤◌, true, IfOk, OnOk, drop, option_map, vec_len};
ghost use Rattle.std.specs.Option.{option_to_list};
ghost use Rattle.index.specs.Changes.{IsAscending};
ghost use Rattle.index.specs.KeyTexts.{ascending_set};
ghost use Rattle.index.specs.View.{texts_of};
ghost use Rattle.planner.specs.FoundIds.{ids_of};
ghost use Rattle.planner.specs.KeyScan.{id_text};

use crate::key_scan::id_text;
use bson::NoMemory;
use index::IndexSpec;
use std::alloc::Global;
use std::cmp::Ordering;

/// Moves what stands behind so many bytes to their place.
fn drop_front(bytes: &mut Vec<u8>, count: usize)
    requires { count ≤ vec_len bytes.old }
    ensures { bytes.new.items ≡ drop count bytes.old.items }
{
    let rest = bytes.len() - count;
    bytes.copy_within(count.., 0);
    bytes.truncate(rest);
}

/// Leaves of the text of an entry that of the `_id`, if it has one.
fn id_left(index: &IndexSpec, text: Vec<u8>) -> Option<Vec<u8>>
    ensures { option_map (λ v. v.items) result ≡ id_text index.now.fields text.items }
{
    let Some(id) = id_text(index, &text) else {
        return None;
    };
    let before = text.len().saturating_sub(id.len());
    let mut text = text;
    drop_front(&mut text, before);
    Some(text)
}

/// Puts that behind others.
fn push_id(ids: &mut Vec<Vec<u8>>, index: &IndexSpec, text: Vec<u8>) -> Result<(), NoMemory>
    ensures { OnOk result (texts_of ids.new.items
        ≡ texts_of ids.old.items ++ option_to_list (id_text index.now.fields text.items)) }
{
    let Some(id) = id_left(index, text) else {
        return Ok(());
    };
    ids.push(id)?;
    Ok(())
}

/// The texts of the `_id`s in the texts of an index's entries, in their order, each taken out in place.
pub fn ids_of(
    alloc: Global,
    index: &IndexSpec,
    texts: Vec<Vec<u8>>,
) -> Result<Vec<Vec<u8>>, NoMemory>
    ensures { IfOk result (λ ids. texts_of ids.items
        ≡ ids_of index.now.fields (texts_of texts.items)) }
{
    let mut ids = Vec::with_capacity(alloc, texts.len())?;
    'texts: for text in texts {
        push_id(&mut ids, index, text)?;
    }
    Ok(ids)
}

/// Whether each of these is below the one behind it.
fn are_ascending(ids: &[Vec<u8>]) -> bool
    ensures { result ≡ true → IsAscending (texts_of ids.now) }
{
    for i in 1..ids.len() {
        if ids[i - 1].cmp(&ids[i]) != Ordering::Less {
            return false;
        }
    }
    true
}

/// Each of these once, ascending. Where they are so already, as they are where documents lie side by side, they are only looked at.
pub fn ascending(ids: Vec<Vec<u8>>) -> Vec<Vec<u8>>
    ensures { texts_of result.items ≡ ascending_set (texts_of ids.items) }
{
    if are_ascending(&ids) {
        return ids;
    }
    let mut ids = ids;
    ids.sort_unstable();
    ids.dedup();
    ids
}
