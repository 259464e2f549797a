//! What the catalogue says of collections and indexes, and bytes that say nothing.

use bson::{Document, NoMemory, encode};
use entries::{catalogue_told, namespace_in};
use ext_json::read;
use index::IndexSpec;
use std::alloc::Global;
use std::test::Fail;

const INDEXES: [&str; 2] = [
    r#"{"i": 1, "name": "a_1", "key": {"a": 1}, "unique": false, "multi": false}"#,
    r#"{"i": 16, "name": "x y", "key": {"a.b.0": -1, "c": 1, "d": -1, "_id": 1}, "unique": true, "multi": true}"#,
];

const NO_INDEXES: [&str; 19] = [
    r#"{}"#,
    r#"{"i": 0, "name": "a_1", "key": {"a": 1}, "unique": false, "multi": false}"#,
    r#"{"i": 17, "name": "a_1", "key": {"a": 1}, "unique": false, "multi": false}"#,
    r#"{"i": {"$numberLong": "1"}, "name": "a_1", "key": {"a": 1}, "unique": false, "multi": false}"#,
    r#"{"i": 1, "name": "", "key": {"a": 1}, "unique": false, "multi": false}"#,
    r#"{"i": 1, "name": 1, "key": {"a": 1}, "unique": false, "multi": false}"#,
    r#"{"i": 1, "name": "a_1", "key": {}, "unique": false, "multi": false}"#,
    r#"{"i": 1, "name": "a_1", "key": [1], "unique": false, "multi": false}"#,
    r#"{"i": 1, "name": "a_1", "key": {"a": 1, "b": 1, "c": 1, "d": 1, "e": 1}, "unique": false, "multi": false}"#,
    r#"{"i": 1, "name": "a_1", "key": {"a": 2}, "unique": false, "multi": false}"#,
    r#"{"i": 1, "name": "a_1", "key": {"a": {"$numberLong": "1"}}, "unique": false, "multi": false}"#,
    r#"{"i": 1, "name": "a_1", "key": {"a..b": 1}, "unique": false, "multi": false}"#,
    r#"{"i": 1, "name": "a_1", "key": {"$a": 1}, "unique": false, "multi": false}"#,
    r#"{"i": 1, "name": "a_1", "key": {"a": 1}, "unique": 0, "multi": false}"#,
    r#"{"i": 1, "name": "a_1", "key": {"a": 1}, "unique": false, "multi": null}"#,
    r#"{"i": 1, "name": "a_1", "key": {"a": 1}, "unique": false}"#,
    r#"{"i": 1, "name": "a_1", "key": {"a": 1}, "unique": false, "multi": false, "x": 1}"#,
    r#"{"name": "a_1", "i": 1, "key": {"a": 1}, "unique": false, "multi": false}"#,
    r#"{"i": 1, "name": "a_1", "key": {"a": 1}, "unique": false, "multj": false}"#,
];

/// Whether a document of the catalogue is read as an index and spelled again, byte for byte, also from a copy.
fn is_kept(alloc: Global, text: &str) -> Result<bool, Fail> {
    let document = read(alloc, text)?;
    let again = spelled_again(alloc, &document);
    let bytes = encode(alloc, &document);
    drop(document);
    Ok(again?.as_deref() == Some(bytes?.as_slice()))
}

/// The bytes of a document that the copy of an index is spelled as which another one spells.
fn spelled_again(alloc: Global, document: &Document) -> Result<Option<Vec<u8>>, Fail> {
    let Some(index) = IndexSpec::read(alloc, document)? else {
        return Ok(None);
    };
    let copy = index.copy();
    drop(index);
    let copy = copy?;
    let again = copy.document(alloc);
    drop(copy);
    let again = again?;
    let bytes = encode(alloc, &again);
    drop(again);
    Ok(Some(bytes?))
}

#[test]
fn indexes(rt: HostRuntime) -> Result<(), Fail> {
    for text in &INDEXES {
        assert!(rt; is_kept(rt.alloc(), text)?, "{text}");
    }
    for text in &NO_INDEXES {
        assert!(rt; !is_kept(rt.alloc(), text)?, "{text}");
    }
    Ok(())
}

/// Values of the catalogue, and the numbers of collections that they tell.
const NUMBERS: [(&[u8], Option<u32>); 8] = [
    (
        b"\x14\0\0\0\x10n\0\xe8\x03\0\0\x04x\0\x05\0\0\0\0\0",
        Some(1000),
    ),
    // 0, 1,001, a document, another name, a field less, a byte more, nothing
    (b"\x14\0\0\0\x10n\0\0\0\0\0\x04x\0\x05\0\0\0\0\0", None),
    (b"\x14\0\0\0\x10n\0\xe9\x03\0\0\x04x\0\x05\0\0\0\0\0", None),
    (b"\x14\0\0\0\x10n\0\x02\0\0\0\x03x\0\x05\0\0\0\0\0", None),
    (b"\x14\0\0\0\x10m\0\x02\0\0\0\x04x\0\x05\0\0\0\0\0", None),
    (b"\x0c\0\0\0\x10n\0\x02\0\0\0\0", None),
    (b"\x14\0\0\0\x10n\0\x02\0\0\0\x04x\0\x05\0\0\0\0\0\0", None),
    (b"", None),
];

/// Keys of entries, and the namespaces that they are of.
const NAMESPACES: [(&[u8], Option<&str>); 9] = [
    (b"\0\0\0\0\0\0\0\0\x40t.c\0\0", Some("t.c")),
    (b"\0\0\0\0\0\0\0\0\x40a\0\xffb\0\0", Some("a\0b")),
    // a collection's, an index's, half an end, bytes behind it, a zero byte that isn't marked, no UTF-8, a short key
    (b"\0\0\0\x01\0\0\0\0\x40t.c\0\0", None),
    (b"\0\0\0\0\0\0\0\x01\x40t.c\0\0", None),
    (b"\0\0\0\0\0\0\0\0\x40t.c\0", None),
    (b"\0\0\0\0\0\0\0\0\x40t.c\0\0\x01", None),
    (b"\0\0\0\0\0\0\0\0\x40t\0\x01c\0\0", None),
    (b"\0\0\0\0\0\0\0\0\x40\xc3\0\0", None),
    (b"\0\0\0\0\0\0\0", None),
];

/// The number of a collection that a value tells.
fn number_told(alloc: Global, value: &[u8]) -> Result<Option<u32>, NoMemory> {
    let Some(told) = catalogue_told(alloc, value)? else {
        return Ok(None);
    };
    let number = told.number;
    drop(told);
    Ok(Some(number))
}

/// Whether a key is of this namespace.
fn is_of(alloc: Global, key: &[u8], namespace: Option<&str>) -> Result<bool, NoMemory> {
    let found = namespace_in(alloc, key)?;
    let is_of = found.as_deref() == namespace;
    drop(found);
    Ok(is_of)
}

#[test]
fn collections(rt: HostRuntime) -> Result<(), Fail> {
    for (value, number) in NUMBERS {
        assert_eq!(rt; number_told(rt.alloc(), value)?, number, "{value:?}");
    }
    for (key, namespace) in NAMESPACES {
        assert!(rt; is_of(rt.alloc(), key, namespace)?, "{key:?}");
    }
    Ok(())
}
