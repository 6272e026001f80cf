use crate::rows::numbers;
use std::alloc::Global;
use store_key::{anchor_of, check_url, key_of};
use test_rows::{fields, short};

// How often a piece stands in a URL, the piece, and what the check of the URL answers.
const URLS: &str = "\
1;;Err(EmptyUrl)
1;http://a/ b;Err(BadByte { at: 9 })
1;http://a/\x7f ;Err(BadByte { at: 9 })
1;!~;Ok(())
2048;a;Ok(())
2049;a;Err(LongUrl)";

/// Whether the check of a URL answers as it stands in the row.
fn is_checked(alloc: Global, row: &str) -> Option<bool> {
    let (copies, rest) = fields(row)?;
    let (piece, wanted) = fields(rest)?;
    let url = piece.repeat(alloc, copies.parse().ok()?).ok()?;
    let checked = check_url(url.as_bytes());
    let told = format!(in alloc; "{checked:?}").ok()?;
    Some(told.as_str() == wanted)
}

#[test]
fn urls_are_checked(rt: HostRuntime) {
    assert_eq!(rt; URLS.lines().count(), 6);
    for row in URLS.lines() {
        assert!(rt; is_checked(rt.alloc(), row) == Some(true), "{row}");
    }
}

// URLs and their keys: the MD5 of a byte 1 and the URL, by the program md5sum.
const KEYS: &str = "\
http://a/b;1a68c10d6c8b326657c775f53c866dd1
http://a/c;4877c9348b6d7299e213896f839c80b8";

/// Whether a URL has its key.
fn has_its_key(alloc: Global, row: &str) -> Option<bool> {
    let (url, wanted) = fields(row)?;
    let wanted = hex::decode(alloc, wanted).ok()?;
    Some(key_of(url.as_bytes()).as_slice() == wanted.as_slice())
}

// Keys, how many anchors there are, and the anchor of the key.
const ANCHORS: &str = "\
000102030405060708090a0b0c0d0e0f;16 8
000102030405060708090a0b0c0d0e0f;1 0
ffffffffffffffffffffffffffffffff;5 4";

/// Whether a key has its anchor.
fn has_its_anchor(alloc: Global, row: &str) -> Option<bool> {
    let (key, rest) = fields(row)?;
    let key = hex::decode(alloc, key).ok()?;
    let [anchors, wanted] = numbers::<2>(rest)?;
    let anchors = short(anchors);
    if anchors == 0 {
        return None;
    }
    Some(u64::from(anchor_of(key.first_chunk()?, anchors)) == wanted)
}

#[test]
fn urls_have_keys_and_anchors(rt: HostRuntime) {
    assert_eq!(rt; (KEYS.lines().count(), ANCHORS.lines().count()), (2, 3));
    for row in KEYS.lines() {
        assert!(rt; has_its_key(rt.alloc(), row) == Some(true), "{row}");
    }
    for row in ANCHORS.lines() {
        assert!(rt; has_its_anchor(rt.alloc(), row) == Some(true), "{row}");
    }
}
