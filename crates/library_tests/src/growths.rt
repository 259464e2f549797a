//! Calls whose growths are refused one after the other: `tests/each_growth library_tests` runs this test once for each of
//! them, with that one refused. Wherever memory runs out, that is the answer, and what stood before is left.

use bson::Document;
use ext_json::*;
use std::alloc::Global;
use std::test::*;

const TEXT: &str =
    r#"{"a": {"$oid": "57e193d7a9cc81b4027498b5"}, "b": [{"$binary": {"base64": "//8=", "subType": "00"}}, "text"],
    "c": {"$date": "2012-12-24T12:15:30.501Z"}, "d": {"e": {"$uuid": "73ffd264-44b3-4c69-90e8-e7d1dfc035d4"}}}"#;

/// Whether a document is spelled behind two bytes, or these are left as they were where memory runs out.
fn is_spelled(alloc: Global, document: &Document) -> bool {
    let Ok(mut out) = Vec::from_slice(alloc, b"> ") else {
        return true;
    };
    let is_canonical = if write_canonical(&mut out, document).is_err() {
        out.as_slice() == b"> ".as_slice()
    } else {
        out.len() == 222
    };
    out.truncate(2);
    let is_relaxed = write_relaxed(&mut out, document).is_ok()
        || out.as_slice() == b"> ".as_slice();
    is_canonical && is_relaxed
}

#[test]
fn growths(rt: HostRuntime) {
    match read(rt.alloc(), TEXT) {
        Ok(document) => {
            let is_spelled = is_spelled(rt.alloc(), &document);
            drop(document);
            assert!(rt; is_spelled);
        }
        Err(e) => assert!(rt; e.fault == ExtJsonFault::Memory),
    }
}
