// The responses that the lines of a script offer, and the entries of a file.
use std::alloc::{AllocError, Global};

/// The header area.
const HEADER: usize = 16_384;

const SLOT: usize = 512;

/// A response that a line offers.
#[derive(Drop)]
struct Offer<'a> {
    url: &'a str,
    body: Vec<u8>,
}

/// The responses that the lines of a script offer.
#[derive(Drop)]
pub struct Offers<'a> {
    offers: Vec<Offer<'a>>,
}

impl<'a> Offers<'a> {
    /// What the `put`, `save` and `begin` lines of a script offer.
    pub fn of(alloc: Global, script: &'a str) -> Result<Offers<'a>, AllocError> {
        let mut offers = Vec::new(alloc);
        for line in script.lines() {
            if let Some((url, body)) = offered(line) {
                let body = body_of_word(alloc, body)?;
                offers.push(Offer { url, body })?;
            }
        }
        Ok(Offers { offers })
    }

    /// Whether a line of the listing of a file, with slots of 512 bytes, stands for an entry of the file whose body is offered
    /// under its URL.
    pub fn has(&self, alloc: Global, file: &[u8], entry: &str) -> Result<bool, AllocError> {
        let mut words = entry.split(' ');
        let _kind = words.next();
        let first = number(words.next());
        let _version = words.next();
        let slots = number(words.next());
        let length = number(words.next());
        let url = words.next().unwrap_or("");
        let content = content_of(alloc, file, first, slots)?;
        let from = content.len().checked_sub(length);
        let Some(body) = from.and_then(|from| content.get(from..)) else {
            return Ok(false);
        };
        Ok(
            self.offers
                .iter()
                .any(|offer| offer.url == url && offer.body.as_slice() == body),
        )
    }
}

/// The URL and the body that a line of a script offers.
fn offered(line: &str) -> Option<(&str, &str)> {
    let mut words = line.split(' ').skip(1);
    match words.next()? {
        "put" | "save" => Some((words.next()?, words.next()?)),
        "begin" => {
            let _tab = words.next()?;
            Some((words.next()?, words.next()?))
        }
        _ => None,
    }
}

/// The body that the word of a script stands for.
fn body_of_word(alloc: Global, word: &str) -> Result<Vec<u8>, AllocError> {
    let mut body = Vec::new(alloc);
    if let Some(text) = word.strip_prefix('=') {
        body.extend_from_slice(text.as_bytes())?;
    }
    if let Some((count, letter)) = word.strip_prefix('#').and_then(|made| made.split_once(':')) {
        let letter = number(Some(letter));
        for i in 0..number(Some(count)) {
            body.push(b'a' + (i.wrapping_add(letter) % 26) as u8)?;
        }
    }
    Ok(body)
}

/// The number that a word is, or 0.
fn number(word: Option<&str>) -> usize {
    word.unwrap_or("").parse().unwrap_or(0)
}

/// The payloads of so many slots, joined: of this slot, and of each one that the slot before it names as the next.
fn content_of(
    alloc: Global,
    file: &[u8],
    first: usize,
    slots: usize,
) -> Result<Vec<u8>, AllocError> {
    let mut content = Vec::new(alloc);
    let mut slot = first;
    for _ in 0..slots {
        let from = HEADER.saturating_add(slot.saturating_mul(SLOT));
        let header = file.get(from..).unwrap_or(&[]);
        let size = number_at(header, 24);
        content.extend_from_slice(header.get(40..size.saturating_add(40)).unwrap_or(&[]))?;
        slot = number_at(header, 36);
    }
    Ok(content)
}

/// The number of four bytes, or 0.
fn number_at(header: &[u8], at: usize) -> usize {
    match header.get(at..at.saturating_add(4)) {
        Some([a, b, c, d]) => u32::from_le_bytes([*a, *b, *c, *d]) as usize,
        _ => 0,
    }
}
