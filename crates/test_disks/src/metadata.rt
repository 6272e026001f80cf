// Metadata, byte for byte: how it is read, what is wrong with it first, and how it is written.
use std::alloc::Global;
use std::test::Fail;
use swap_meta::{Meta, read_meta, write_meta};
use test_rows::three_fields;

// What stands there, the bytes, and what they say as metadata: its key, its URL and its length, or what is wrong first. A
// word of bytes is in hexadecimal or, behind ', a text.
const READ: &str = "\
no byte;;BadMark
another mark;04;BadMark
no length;03;BadLength
a length below 5;03 04000000;BadLength
a length behind the end;03 06000000;BadLength
no item;03 05000000;NoKey
one key;03 1a000000 03 10000000 'ghijklmnopqrstuv;NoUrl
the same without its last byte;03 1a000000 03 10000000 'ghijklmnopqrstu;BadLength
a key of 15 bytes;03 19000000 03 0f000000 'ghijklmnopqrstu;BadLength
a second key;03 2f000000 03 10000000 'ghijklmnopqrstuv 03 10000000 'ghijklmnopqrstuv;Repeated
a second key that is none;03 20000000 03 10000000 'ghijklmnopqrstuv 03 01000000 'g;Repeated
a second key that is cut;03 22000000 03 10000000 'ghijklmnopqrstuv 03 10000000 'ghi;BadLength
a second URL;03 11000000 04 01000000 00 04 01000000 00;Repeated
a URL with nothing;03 0a000000 04 00000000;BadLength
a URL with no zero byte;03 0b000000 04 01000000 'g;BadLength
key and URL;03 2a000000 03 10000000 'ghijklmnopqrstuv 04 0b000000 'http://a/b 00;ghijklmnopqrstuv http://a/b 42
another item in front;03 30000000 09 01000000 ff 03 10000000 'ghijklmnopqrstuv 04 0b000000 'http://a/b 00;\
ghijklmnopqrstuv http://a/b 48
bytes behind;03 30000000 09 01000000 ff 03 10000000 'ghijklmnopqrstuv 04 0b000000 'http://a/b 00 03 04;\
ghijklmnopqrstuv http://a/b 48";

/// The bytes of these words.
fn bytes_of(alloc: Global, words: &str) -> Result<Vec<u8>, Fail> {
    let mut bytes = Vec::new(alloc);
    for word in words.split(' ') {
        match word.strip_prefix('\'') {
            Some(text) => bytes.extend_from_slice(text.as_bytes())?,
            None => bytes.extend_from_slice(&hex::decode(alloc, word)?)?,
        }
    }
    Ok(bytes)
}

/// What bytes say as metadata, or what is wrong with them first.
fn said(alloc: Global, bytes: &[u8]) -> Result<String, Fail> {
    match read_meta(bytes) {
        Ok(meta) => {
            let (key, url) = (str::from_utf8(&meta.key)?, str::from_utf8(meta.url)?);
            let length = meta.length;
            Ok(format!(in alloc; "{key} {url} {length}")?)
        }
        Err(fault) => Ok(format!(in alloc; "{fault:?}")?),
    }
}

#[test]
fn metadata_is_read_and_its_first_fault_is_told(rt: HostRuntime) -> Result<(), Fail> {
    let alloc = rt.alloc();
    assert_eq!(rt; READ.lines().count(), 18);
    for row in READ.lines() {
        let (_, words, wanted) = three_fields(row).ok_or("three fields")?;
        let said = said(alloc, &bytes_of(alloc, words)?)?;
        assert!(rt; said.as_str() == wanted, "{row}");
    }
    Ok(())
}

// The key of http://a/b.
const KEY: [u8; 16] = *b"\x1a\x68\xc1\x0d\x6c\x8b\x32\x66\x57\xc7\x75\xf5\x3c\x86\x6d\xd1";

// What is written, and the bytes that stood there behind it.
const WRITTEN: [u8; 47] = *b"\
    \x03\x2a\0\0\0\x03\x10\0\0\0\x1a\x68\xc1\x0d\x6c\x8b\x32\x66\x57\xc7\x75\xf5\x3c\x86\x6d\xd1\
    \x04\x0b\0\0\0http://a/b\0\xaa\xaa\xaa\xaa\xaa";

#[test]
fn metadata_is_written_and_read_with_bytes_behind(rt: HostRuntime) {
    let mut out = [0xaa; 47];
    let end = write_meta(&KEY, b"http://a/b", &mut out);
    assert!(rt; end == 42);
    assert!(rt; out == WRITTEN);
    let meta = Meta {
        key: KEY,
        url: b"http://a/b",
        length: 42,
    };
    assert!(rt; read_meta(&out) == Ok(meta));
}
