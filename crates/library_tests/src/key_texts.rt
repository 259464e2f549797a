//! Key texts byte by byte.

use crate::rows::split;
use bson::Value;
use ext_json::read;
use std::alloc::Global;
use std::test::Fail;
use value_order::{Direction, KeyPart, group_text, key_text};

/// A value, and its ascending text in hexadecimal digits.
const ROWS: [&str; 21] = [
    r#"{"v": {"$minKey": 1}} | 10"#,
    r#"{"v": null} | 20"#,
    r#"{"v": 5} | 308000000000000005"#,
    r#"{"v": {"$numberLong": "5"}} | 308000000000000005"#,
    r#"{"v": -1} | 307fffffffffffffff"#,
    r#"{"v": -9223372036854775808} | 300000000000000000"#,
    r#"{"v": 9223372036854775807} | 30ffffffffffffffff"#,
    r#"{"v": ""} | 400000"#,
    r#"{"v": "a\u0000b"} | 406100ff620000"#,
    r#"{"v": {"a": 1}} | 5030610030800000000000000100"#,
    r#"{"v": [null, true]} | 6020900100"#,
    r#"{"v": [{}]} | 60500000"#,
    r#"{"v": {"$binary": {"base64": "", "subType": "00"}}} | 700000000000"#,
    r#"{"v": {"$binary": {"base64": "AQI=", "subType": "05"}}} | 7000000002050102"#,
    r#"{"v": {"$oid": "000000000000000000000009"}} | 80000000000000000000000009"#,
    r#"{"v": false} | 9000"#,
    r#"{"v": {"$date": {"$numberLong": "-1"}}} | a07fffffffffffffff"#,
    r#"{"v": {"$date": {"$numberLong": "256"}}} | a08000000000000100"#,
    r#"{"v": {"$timestamp": {"t": 0, "i": 258}}} | b00000000000000102"#,
    r#"{"v": {"$timestamp": {"t": 2147483648, "i": 0}}} | b08000000000000000"#,
    r#"{"v": {"$maxKey": 1}} | f0"#,
];

/// Whether a value has this ascending text, also as a group's, and a descending one of which each byte is its complement.
fn has_text(alloc: Global, value: &Value, wanted: &str) -> Result<bool, Fail> {
    let key = KeyPart::Value(value);
    let rising = key_text(alloc, &key, Direction::Ascending)?;
    let falling = key_text(alloc, &key, Direction::Descending)?;
    let is_complement = falling.len() == rising.len()
        && falling.iter().zip(&rising).all(|(a, b)| *a == 0xff - *b);
    let is_group = group_text(alloc, value)?.as_slice() == rising.as_slice();
    let digits = hex::encode(alloc, rising)?;
    Ok(digits.as_str() == wanted && is_complement && is_group)
}

/// Whether the value of `v` in a document has this text.
fn is_right(alloc: Global, source: &str, wanted: &str) -> Result<bool, Fail> {
    let document = read(alloc, source)?;
    let is_right = match document.get("v") {
        Some(value) => has_text(alloc, value, wanted),
        None => Ok(false),
    };
    drop(document);
    is_right
}

#[test]
fn texts(rt: HostRuntime) -> Result<(), Fail> {
    for row in ROWS {
        let (source, wanted) = split(row);
        assert!(rt; is_right(rt.alloc(), source, wanted)?, "{row}");
    }
    Ok(())
}
