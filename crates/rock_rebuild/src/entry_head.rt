// What the first slot of an entry says of the whole.
ghost use Rattle.std.specs.Prelude.{◌≡◌, ◌+◌, ◌<◌, ◌≤◌, ℕ, List, length, take, ◌↔◌, IsTrue, MatchOption};
ghost use Rattle.slot_cell.specs.Header.{header_of, header_bytes};
ghost use Rattle.store_key.specs.Key.{key_of};
ghost use Rattle.store_key.specs.Url.{IsUrl};
ghost use Rattle.rock_rebuild.specs.Kept.{IsOwn, IsOwnAlone, SaysHead, HasNoHead, url_in};

use slot_cell::{HEADER_SIZE, Header};
use store_key::{check_url, key_of};
use swap_meta::{Meta, read_meta};

/// What the metadata in the first slot of an entry says: where its URL lies in the buffer of URLs, and how
/// long it is. The version and the key stand in the slot's header.
#[derive(Clone, Copy, Debug, PartialEq, Eq)]
pub struct Head {
    /// The place of the URL's first byte.
    pub from: usize,
    /// How many bytes the URL has.
    pub size: usize,
    /// How many bytes the metadata has in front of the body.
    pub length: usize,
}

/// The URL that a head tells of, if the buffer has it.
pub fn url_of<'a>(urls: &'a [u8], head: &Head) -> Option<&'a [u8]>
    ensures { MatchOption result
        (length urls.now < head.now.from + head.now.size)
        (λ url. url.now ≡ url_in urls.now head.now) }
{
    if urls.len() < head.from {
        return None;
    }
    let rest = &urls[head.from..];
    if rest.len() < head.size {
        return None;
    }
    Some(&rest[..head.size])
}

/// Whether this is the URL's key.
pub fn is_key_of(key: &[u8; 16], url: &[u8]) -> bool
    ensures { IsTrue result ↔ (key.now ≡ key_of url.now) }
{
    *key == key_of(url)
}

/// What the slot of this number and this header says of an entry that begins there. None where it
/// does not name itself first, or its metadata has no URL or another key.
pub fn head_of<'a>(number: u32, header: &Header, image: &'a [u8]) -> Option<Meta<'a>>
    requires read { header.now ≡ header_of image.now }
    requires room { HEADER_SIZE + header.now.payload_size ≤ length image.now }
    ensures { MatchOption result
        (HasNoHead number image.now)
        (λ meta. SaysHead number image.now meta.url.now meta.length) }
{
    if i64::from(header.first_slot) != i64::from(number) {
        return None;
    }
    let payload = &image[HEADER_SIZE..HEADER_SIZE + header.payload_size as usize];
    own_meta(image, payload)
}

/// The key of the slot with this header.
pub fn key_of_slot(header: &Header) -> [u8; 16]
    ensures { result ≡ take 16 (header_bytes header.now) }
{
    let mut bytes = [0; HEADER_SIZE];
    header.encode(&mut bytes);
    let mut key = [0; 16];
    key.copy_from_slice(&bytes[..16]);
    key
}

/// The metadata in front of the payload, where it has a URL and the slot's key.
fn own_meta<'a>(image: &[u8], payload: &'a [u8]) -> Option<Meta<'a>>
    requires { 16 ≤ length image.now }
    ensures { MatchOption result
        ((key url : List ℕ) (n : ℕ) → IsOwn image.now payload.now key url n → ⊥)
        (λ meta. IsOwnAlone image.now payload.now meta.key meta.url.now meta.length) }
{
    let Ok(meta) = read_meta(payload) else {
        return None;
    };
    if !is_own(&meta, image) {
        return None;
    }
    Some(meta)
}

/// Whether the metadata has a URL and the slot's key.
fn is_own(meta: &Meta<'_>, image: &[u8]) -> bool
    requires { 16 ≤ length image.now }
    ensures { IsTrue result ↔ ((meta.now.key ≡ take 16 image.now) × IsUrl meta.now.url.now) }
{
    meta.key.as_slice() == &image[..16] && check_url(meta.url).is_ok()
}
