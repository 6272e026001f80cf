// Files that are made by hand, by the format of the file.
use crate::numbers::{number, wrong};
use std::alloc::{AllocError, Global};
use std::test::Fail;
use store_key::key_of;

/// The header area.
pub(crate) const HEADER: usize = 16_384;

const SLOT: usize = 512;

/// What a header area begins with that records slots.
const MARK: &[u8] = b"RockSMP2";

/// The file that these lines make up.
pub fn file_of(alloc: Global, lines: &str) -> Result<Vec<u8>, Fail> {
    let mut file = empty_file(alloc)?;
    for line in lines.lines() {
        push_line(alloc, &mut file, line)?;
    }
    Ok(file)
}

/// A file of a header area and no slot.
pub(crate) fn empty_file(alloc: Global) -> Result<Vec<u8>, AllocError> {
    let mut file = Vec::new(alloc);
    file.resize(HEADER, 0)?;
    Ok(file)
}

/// The front of a slot: its key, and the sizes of the entry (of 8 bytes, of which the upper 4 are 0) and of the payload, its
/// version, and the first and the next slot of its chain.
fn push_header(
    file: &mut Vec<u8>,
    url: &str,
    entry: u32,
    others: &[u32],
) -> Result<(), AllocError> {
    file.extend_from_slice(&key_of(url.as_bytes()))?;
    file.extend_from_slice(&u64::from(entry).to_le_bytes())?;
    for number in others {
        file.extend_from_slice(&number.to_le_bytes())?;
    }
    Ok(())
}

/// How many bytes of metadata stand beside a URL.
fn meta_size(url: &str) -> u32 {
    u32::try_from(url.len()).unwrap_or(0).saturating_add(32)
}

/// Metadata with a URL and its key.
fn push_meta(file: &mut Vec<u8>, url: &str) -> Result<(), AllocError> {
    let size = meta_size(url);
    file.push(3)?;
    file.extend_from_slice(&size.to_le_bytes())?;
    file.extend_from_slice(b"\x03\x10\x00\x00\x00")?;
    file.extend_from_slice(&key_of(url.as_bytes()))?;
    file.push(4)?;
    file.extend_from_slice(&size.saturating_sub(31).to_le_bytes())?;
    file.extend_from_slice(url.as_bytes())?;
    file.extend_from_slice(&[0])
}

/// How many slots the file has.
fn slots_in(file: &[u8]) -> u32 {
    u32::try_from(file.len().saturating_sub(HEADER) / SLOT).unwrap_or(0)
}

/// The number that 4 bytes of a header have for a slot. -1 is none.
fn place_of(text: &str) -> Result<u32, Fail> {
    if text == "-1" {
        return Ok(u32::MAX);
    }
    number(text)
}

/// A slot that is an entry by itself: its version, its URL and its body.
fn push_entry(file: &mut Vec<u8>, version: u32, url: &str, body: &str) -> Result<(), AllocError> {
    let slot = slots_in(file);
    let payload = u32::try_from(body.len())
        .unwrap_or(0)
        .saturating_add(meta_size(url));
    push_header(file, url, payload, &[payload, version, slot, u32::MAX])?;
    push_meta(file, url)?;
    file.extend_from_slice(body.as_bytes())
}

/// A slot of `http://a/b`: the sizes of its entry and of its payload, its version, and the first and the next slot. Where it is
/// the first one itself it has the metadata.
fn push_linked(alloc: Global, file: &mut Vec<u8>, words: &str) -> Result<(), Fail> {
    let numbers = numbers_of(alloc, words)?;
    let slot = slots_in(file);
    let url = "http://a/b";
    match numbers.as_slice().split_first() {
        Some((entry, others)) if others.len() == 4 => push_header(file, url, *entry, others)?,
        _ => return Err(wrong("a slot has five numbers")),
    }
    if numbers.get(3) == Some(&slot) {
        push_meta(file, url)?;
    }
    Ok(())
}

/// The numbers of a header.
fn numbers_of(alloc: Global, words: &str) -> Result<Vec<u32>, Fail> {
    let mut numbers = Vec::new(alloc);
    for word in words.split(' ') {
        numbers.push(place_of(word)?)?;
    }
    Ok(numbers)
}

/// The bytes that hexadecimal digits stand for.
pub fn bytes_of(alloc: Global, digits: &str) -> Result<Vec<u8>, Fail> {
    let mut bytes = Vec::new(alloc);
    let mut high: Option<u8> = None;
    for digit in digits.bytes() {
        let value = match digit {
            b'0'..=b'9' => digit - b'0',
            b'a'..=b'f' => digit - b'a' + 10,
            _ => return Err(wrong("a digit that is none")),
        };
        match high.take() {
            None => high = Some(value),
            Some(first) => bytes.push(first.wrapping_mul(16).wrapping_add(value))?,
        }
    }
    match high {
        None => Ok(bytes),
        Some(_) => Err(wrong("half a byte")),
    }
}

/// Puts other bytes into the file, from a place on.
fn copy_to(file: &mut [u8], from: usize, bytes: &[u8]) -> Result<(), Fail> {
    match file.get_mut(from..from.saturating_add(bytes.len())) {
        Some(place) => {
            place.copy_from_slice(bytes);
            Ok(())
        }
        None => Err(wrong("a place that is not in the file")),
    }
}

/// Records slots in the header area: behind the mark their size in bytes, and how many there are.
fn push_record(file: &mut [u8], words: &str) -> Result<(), Fail> {
    let (slot, slots) = words.split_once(' ').unwrap_or((words, ""));
    copy_to(file, 0, MARK)?;
    copy_to(file, 8, &number(slot)?.to_le_bytes())?;
    copy_to(file, 12, &number(slots)?.to_le_bytes())
}

/// Fills the slot up, or begins the next one where it is full.
fn fill_slot(file: &mut Vec<u8>, slots: u32) -> Result<(), AllocError> {
    let end = HEADER
        .saturating_add((slots as usize).saturating_mul(SLOT))
        .saturating_add(SLOT);
    file.resize(end, 0)
}

/// Adds what a line of a story says to a file:
///
/// - `entry VERSION URL BODY`: a slot that is an entry by itself;
/// - `slot ENTRY PAYLOAD VERSION FIRST NEXT`: a slot of a chain of `http://a/b`, with these numbers in its header;
/// - `empty`: a slot of zeros;
/// - `zeros COUNT`: so many zeros behind the header area;
/// - `patch AT HEX`: other bytes from this place behind the header area on;
/// - `record SLOT SLOTS`: the header area records so many slots of this size;
/// - `header AT HEX`: other bytes from this place of the header area on;
/// - `length BYTES`: the file has so many bytes, cut or with zeros behind.
fn push_line(alloc: Global, file: &mut Vec<u8>, line: &str) -> Result<(), Fail> {
    let (kind, words) = line.split_once(' ').unwrap_or((line, ""));
    let slots = slots_in(file);
    match kind {
        "entry" => {
            let (version, rest) = words.split_once(' ').unwrap_or(("", ""));
            let (url, body) = rest.split_once(' ').unwrap_or(("", ""));
            push_entry(file, number(version)?, url, body)?;
        }
        "slot" => push_linked(alloc, file, words)?,
        "empty" => {}
        "zeros" => {
            let end = file.len().saturating_add(number(words)? as usize);
            file.resize(end, 0)?;
            return Ok(());
        }
        "patch" => {
            let (at, digits) = words.split_once(' ').unwrap_or(("", ""));
            let bytes = bytes_of(alloc, digits)?;
            return copy_to(file, HEADER.saturating_add(number(at)? as usize), &bytes);
        }
        "record" => return push_record(file, words),
        "header" => {
            let (at, digits) = words.split_once(' ').unwrap_or(("", ""));
            let bytes = bytes_of(alloc, digits)?;
            return copy_to(file, number(at)? as usize, &bytes);
        }
        "length" => {
            file.resize(number(words)? as usize, 0)?;
            return Ok(());
        }
        _ => return Err(wrong("a line of a file that is none")),
    }
    fill_slot(file, slots)?;
    Ok(())
}
