// Texts in which long words stand by their names.
use std::alloc::{AllocError, Global};
use store_key::{anchor_of, key_of};

/// Adds the words of a text, and writes those out that stand by a name, of a store with so many anchors:
///
/// - `u0` is the first of `http://a/00`, `http://a/01` and so on with anchor 0, `u1` the first with anchor 1, and so on;
/// - `URL(n)` is a URL of n bytes, and `ONES(n)` are n digits 1;
/// - `KEY(url)` is the key of a URL, and `MADE(i,n)` are the n bytes from place i of the body `#1300:0`, of which each
///   byte is the letter after that of the byte before it, and `a` is the first and comes after `z`. Both are written in
///   hexadecimal.
pub fn push_text(
    alloc: Global,
    out: &mut Vec<u8>,
    text: &str,
    anchors: u32,
) -> Result<(), AllocError> {
    let mut is_first = true;
    for word in text.split(' ') {
        if !is_first {
            out.push(b' ')?;
        }
        push_word(alloc, out, word, anchors)?;
        is_first = false;
    }
    Ok(())
}

fn push_word(alloc: Global, out: &mut Vec<u8>, word: &str, anchors: u32) -> Result<(), AllocError> {
    let (name, inside) = named(word).unwrap_or(("", word));
    match name {
        "KEY" => push_key(alloc, out, inside, anchors),
        "MADE" => push_made(alloc, out, inside),
        "URL" => push_many(out, b'a', inside),
        "ONES" => push_many(out, b'1', inside),
        _ => push_url(alloc, out, word, anchors),
    }
}

/// Adds the key of a URL.
fn push_key(alloc: Global, out: &mut Vec<u8>, url: &str, anchors: u32) -> Result<(), AllocError> {
    let mut named = Vec::new(alloc);
    push_url(alloc, &mut named, url, anchors)?;
    push_hex(alloc, out, &key_of(&named))
}

/// Adds the URL of this name, or the word itself where it is none.
fn push_url(alloc: Global, out: &mut Vec<u8>, word: &str, anchors: u32) -> Result<(), AllocError> {
    match anchor_named(word) {
        Some(anchor) => push_url_at(alloc, out, anchor, anchors),
        None => out.extend_from_slice(word.as_bytes()),
    }
}

/// Adds a byte so many times.
fn push_many(out: &mut Vec<u8>, byte: u8, count: &str) -> Result<(), AllocError> {
    out.resize(out.len().saturating_add(count.parse().unwrap_or(0)), byte)
}

/// The anchor of the URL that has this name.
fn anchor_named(word: &str) -> Option<u32> {
    word.strip_prefix('u')?.parse().ok()
}

/// A name, and what stands in brackets behind it.
fn named(word: &str) -> Option<(&str, &str)> {
    let (name, rest) = word.split_once('(')?;
    let (inside, behind) = rest.split_once(')')?;
    if behind.is_empty() {
        Some((name, inside))
    } else {
        None
    }
}

/// Adds the first of `http://a/00`, `http://a/01` and so on with this anchor.
fn push_url_at(
    alloc: Global,
    out: &mut Vec<u8>,
    anchor: u32,
    anchors: u32,
) -> Result<(), AllocError> {
    for number in 0..10_000u32 {
        let url = format!(in alloc; "http://a/{number:02}")?;
        if anchors > 0 && anchor_of(&key_of(url.as_bytes()), anchors) == anchor {
            return out.extend_from_slice(url.as_bytes());
        }
    }
    Ok(())
}

fn push_hex(alloc: Global, out: &mut Vec<u8>, bytes: &[u8]) -> Result<(), AllocError> {
    for byte in bytes {
        out.extend_from_slice(format!(in alloc; "{byte:02x}")?.as_bytes())?;
    }
    Ok(())
}

/// Adds the bytes of a body from a place on. Both numbers stand with a comma between them.
fn push_made(alloc: Global, out: &mut Vec<u8>, numbers: &str) -> Result<(), AllocError> {
    let (from, count) = numbers.split_once(',').unwrap_or((numbers, ""));
    let from: u32 = from.parse().unwrap_or(0);
    let count: u32 = count.parse().unwrap_or(0);
    for i in from..from.saturating_add(count) {
        push_hex(alloc, out, &[b'a' + (i % 26) as u8])?;
    }
    Ok(())
}
