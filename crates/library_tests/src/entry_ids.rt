//! Which `_id`s the texts of an index's entries lead to.

use crate::index_keys::index_on;
use crate::rows::{put_digits, split};
use bson::NoMemory;
use planner::{ascending, ids_of};
use std::alloc::Global;
use std::test::Fail;

/// The paths of an index, texts of entries in hexadecimal digits, and the `_id`s in them.
const ROWS: [&str; 9] = [
    // each once, ascending
    r#""a": 1 | 308000000000000005308000000000000002 308000000000000006308000000000000001 20308000000000000002 | 308000000000000001 308000000000000002"#,
    // a zero is in a string, two end it
    r#""a": 1 | 406100ff62000040620000 | 40620000"#,
    r#""a": -1 | bf9eff009dffff40620000 | 40620000"#,
    // a binary has its length in front
    r#""a": 1 | 700000000205010220 | 20"#,
    r#""a": -1 | 8ffffffffdfafefd9001 | 9001"#,
    // documents and arrays, also empty ones
    r#""a": 1 | 50606200603080000000000000010000a08000000000000100 1820 6050000020 | 20 a08000000000000100"#,
    // several fields
    r#""a": 1, "b": -1, "c": 1 | 308000000000000001cf7ffffffffffffffd8000000000000000000000000940610000 | 40610000"#,
    r#""a": -1, "b": 1 | 6f20 e7f090 | 90"#,
    // a text ends too early
    r#""a": 1 | 3080 5060 4061 70000000ff | "#,
];

/// The bytes that parts of a text are in hexadecimal digits.
fn decoded(alloc: Global, text: &str) -> Result<Vec<Vec<u8>>, Fail> {
    let mut all = Vec::new(alloc);
    for part in text.split(' ') {
        all.push(hex::decode(alloc, part)?)?;
    }
    Ok(all)
}

fn put_all(out: &mut String, alloc: Global, texts: &[Vec<u8>]) -> Result<(), NoMemory> {
    for text in texts {
        put_digits(out, alloc, text, ' ')?;
    }
    Ok(())
}

/// The `_id`s in the texts of entries, as the table shows them.
fn shown(alloc: Global, paths: &str, texts: &str) -> Result<String, Fail> {
    let index = index_on(alloc, paths)?;
    let texts = decoded(alloc, texts)?;
    let mut out = String::new(alloc);
    let ids = ascending(ids_of(alloc, &index, texts)?);
    put_all(&mut out, alloc, &ids)?;
    Ok(out)
}

#[test]
fn entry_ids(rt: HostRuntime) -> Result<(), Fail> {
    for row in ROWS {
        let (paths, rest) = split(row);
        let (texts, wanted) = split(rest);
        let shown = shown(rt.alloc(), paths, texts)?;
        assert_eq!(rt; shown.as_str().trim(), wanted, "{row}");
    }
    Ok(())
}
