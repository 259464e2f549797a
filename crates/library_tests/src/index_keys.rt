//! Which keys documents have in indexes.

use crate::rows::{put_digits, split};
use bson::NoMemory;
use ext_json::read;
use index::IndexSpec;
use std::alloc::Global;
use std::test::Fail;

/// The paths of an index, a document, and its keys in hexadecimal digits or its refusal, behind a star where an array stands on
/// one of the paths.
const KEYS: [&str; 29] = [
    r#""a": 1 | {"a": 5} | 308000000000000005"#,
    r#""a": 1 | {"a": {"$numberLong": "5"}} | 308000000000000005"#,
    r#""a": -1 | {"a": 5} | cf7ffffffffffffffa"#,
    // missing and null are one key, an empty array has one of its own
    r#""a": 1 | {} | 20"#,
    r#""a": 1 | {"a": null} | 20"#,
    r#""a": 1 | {"a": []} | * 18"#,
    r#""a": -1 | {"a": []} | * e7"#,
    // each element is a key, once
    r#""a": 1 | {"a": [1, 1]} | * 308000000000000001"#,
    r#""a": 1 | {"a": [2, 1, {"$numberLong": "2"}]} | * 308000000000000001 308000000000000002"#,
    r#""a": -1 | {"a": [2, 1]} | * cf7ffffffffffffffd cf7ffffffffffffffe"#,
    r#""a": 1 | {"a": [[], [1], null]} | * 20 6000 6030800000000000000100"#,
    // through arrays: an element that lacks the field is missing, one that is no document gives nothing
    r#""a.b": 1 | {"a": [{"b": 2}, {"b": 1}, {"c": 3}, 4]} | * 20 308000000000000001 308000000000000002"#,
    r#""a.b": 1 | {"a": [{"b": [1, 2]}, {"b": [3]}]} | * 308000000000000001 308000000000000002 308000000000000003"#,
    r#""a.b": 1 | {"a": [1, 2]} | * 20"#,
    r#""a.b": 1 | {"a": []} | * 20"#,
    r#""a.b": 1 | {"a": 5} | 20"#,
    r#""a.b": 1 | {"a": {"c": [1]}} | 20"#,
    r#""a": 1 | {"a": {"b": [1]}} | 50606200603080000000000000010000"#,
    r#""a.1": 1 | {"a": [5, 6]} | * 308000000000000006"#,
    // several fields
    r#""a": 1, "b": -1, "c": 1, "d": -1 | {"a": 1, "b": "a", "d": true} | 308000000000000001bf9effff206ffe"#,
    r#""a": 1, "b": 1 | {"a": [2, 1], "b": 3} | * 308000000000000001308000000000000003 308000000000000002308000000000000003"#,
    r#""b": 1, "a": -1 | {"a": [2, 1, 2], "b": 3} | * 308000000000000003cf7ffffffffffffffd 308000000000000003cf7ffffffffffffffe"#,
    r#""a.b": 1, "a.c": 1 | {"a": {"b": [1], "c": 2}} | * 308000000000000001308000000000000002"#,
    r#""a": 1, "b": 1 | {"b": [null]} | * 2020"#,
    // arrays on two of the paths
    r#""a": 1, "b": 1 | {"a": [1], "b": [2]} | * CannotIndexParallelArrays"#,
    r#""a": 1, "b": 1 | {"a": [], "b": []} | * CannotIndexParallelArrays"#,
    r#""a.b": 1, "a.c": 1 | {"a": []} | * CannotIndexParallelArrays"#,
    r#""a.b": 1, "a.c": 1 | {"a": [{"b": 1, "c": 2}]} | * CannotIndexParallelArrays"#,
    r#""a": 1, "c": 1, "b.x": 1 | {"a": [1], "b": {"x": {"y": [1]}}} | * 3080000000000000012050607900603080000000000000010000"#,
];

/// The index on these paths.
pub(crate) fn index_on(alloc: Global, paths: &str) -> Result<IndexSpec, Fail> {
    let text = format!(in alloc;
        "{{\"i\": 1, \"name\": \"x\", \"key\": {{{paths}}}, \"unique\": false, \"multi\": false}}"
    )?;
    let index = IndexSpec::read(alloc, &read(alloc, text.as_str())?)?;
    Ok(index.ok_or("no index")?)
}

fn put_keys(out: &mut String, alloc: Global, keys: &[Vec<u8>]) -> Result<(), NoMemory> {
    for key in keys {
        put_digits(out, alloc, key, ' ')?;
    }
    Ok(())
}

/// The keys of a document, or the name of its refusal, as the table shows them.
fn shown(alloc: Global, index: &IndexSpec, source: &str) -> Result<String, Fail> {
    let document = read(alloc, source)?;
    let mut out = String::new(alloc);
    if index.is_multikey_with(&document) {
        out.push_str("* ")?;
    }
    match index.keys(alloc, &document) {
        Ok(keys) => put_keys(&mut out, alloc, &keys)?,
        Err(refusal) => out.push_str(refusal.name())?,
    }
    Ok(out)
}

fn shown_on(alloc: Global, paths: &str, source: &str) -> Result<String, Fail> {
    let index = index_on(alloc, paths)?;
    let shown = shown(alloc, &index, source);
    drop(index);
    shown
}

#[test]
fn keys(rt: HostRuntime) -> Result<(), Fail> {
    for row in KEYS {
        let (paths, rest) = split(row);
        let (source, wanted) = split(rest);
        let shown = shown_on(rt.alloc(), paths, source)?;
        assert_eq!(rt; shown.as_str().trim(), wanted, "{row}");
    }
    Ok(())
}
