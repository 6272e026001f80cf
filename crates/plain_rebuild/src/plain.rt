// The definitions, computed slot by slot. This is slow.
ghost use Rattle.std.specs.Prelude.{◌≡◌, ◌<◌, pos, negsuc, List, length, ◌↔◌, IsTrue, IfOk, MatchOption, All, ◌≤◌, sum_by, take, ℕ};
ghost use Rattle.store_key.specs.Key.{key_of};
ghost use Rattle.store_key.specs.Url.{IsUrl};
ghost use Rattle.rebuild_model.specs.Image.{IsFile, IsSaneAt, BelongsTo, header_at, key_at, payload_at};
ghost use Rattle.rebuild_model.specs.Entry.{IsChain};
ghost use Rattle.rebuild_model.specs.Plain.{IsWhole, IsNamed, IsFound, HasNoEntry, size_at};

use rebuild_model::{FileImage, Found};
use rock_io::{Memory, Numbers, Octets};
use slot_cell::{HEADER_SIZE, Header, read_image};
use std::alloc::{AllocError, Global};
use store_key::{check_url, key_of};
use swap_meta::{Meta, read_meta};

/// The complete entry that begins at slot `first`, if one does.
///
/// # Errors
///
/// [`Memory`] where memory runs out.
pub fn complete_at(alloc: Global, file: &FileImage, first: u32) -> Result<Option<Found>, Memory>
    requires file { IsFile file.now.slot file.now.slots }
    requires within { first < length file.now.slots }
    ensures { IfOk result (λ found. MatchOption found
        (HasNoEntry file.now.slot file.now.slots first)
        (λ found. IsFound file.now.slot file.now.slots first found)) }
{
    Ok(entry_at(alloc, file.slot, file.slots.as_slice(), first)?)
}

/// The header of a slot.
pub(crate) fn header_of_slot(slot: u32, images: &[Octets], s: u32) -> Header
    requires file { IsFile slot images.now }
    requires within { s < length images.now }
    ensures { result ≡ header_at images.now s }
{
    match Header::decode(images[s as usize].as_slice()) {
        Some(header) => header,
        None => unreachable!(),
    }
}

/// Whether the slot is there and sane.
pub(crate) fn is_sane_at(slot: u32, images: &[Octets], s: u32) -> bool
    requires { IsFile slot images.now }
    ensures { IsTrue result ↔ IsSaneAt slot images.now s }
{
    let slots = images.len() as u32;
    s < slots && header_of_slot(slot, images, s).is_sane(slots, slot)
}

/// Whether slot s belongs to the entry that begins at slot `first`.
fn belongs_to(slot: u32, images: &[Octets], first: u32, s: u32) -> bool
    requires file { IsFile slot images.now }
    requires within { first < length images.now }
    ensures { IsTrue result ↔ BelongsTo slot images.now first s }
{
    if !is_sane_at(slot, images, s) {
        return false;
    }
    let head = header_of_slot(slot, images, first);
    let header = header_of_slot(slot, images, s);
    has_key_of(slot, images, first, s)
        && header.version == head.version
        && i64::from(header.first_slot) == i64::from(first)
}

/// Whether two slots have one key.
fn has_key_of(slot: u32, images: &[Octets], first: u32, s: u32) -> bool
    requires file { IsFile slot images.now }
    requires within { first < length images.now }
    requires there { s < length images.now }
    ensures { IsTrue result ↔ (key_at images.now s ≡ key_at images.now first) }
{
    let image = images[s as usize].as_slice();
    let head = images[first as usize].as_slice();
    image[..16] == head[..16]
}

/// The chain at a slot, if there is one.
fn chain_at(
    alloc: Global,
    slot: u32,
    images: &[Octets],
    first: u32,
) -> Result<Option<Vec<u32>>, AllocError>
    requires file { IsFile slot images.now }
    requires within { first < length images.now }
    ensures { IfOk result (λ found. MatchOption found
        ((chain : List ℕ) → IsChain slot images.now first chain → ⊥)
        (λ chain. IsChain slot images.now first chain.items)) }
{
    let mut chain = Vec::new(alloc);
    let mut at = first;
    'walk: while belongs_to(slot, images, first, at) && !chain.contains(&at) {
        chain.push(at)?;
        let next = header_of_slot(slot, images, at).next_slot;
        if next == -1 {
            return Ok(Some(chain));
        }
        at = next as u32;
    }
    Ok(None)
}

/// How many bytes the slots of a chain have, where all but the last are full, and the last one has
/// that number.
fn whole_size(slot: u32, images: &[Octets], chain: &[u32]) -> Option<u64>
    requires file { IsFile slot images.now }
    requires there { All (λ s. s < length images.now) chain.now }
    requires few { length chain.now ≤ length images.now }
    ensures { MatchOption result
        (IsWhole slot images.now chain.now → ⊥)
        (λ size. IsWhole slot images.now chain.now × (size ≡ sum_by (size_at images.now) chain.now)) }
{
    let mut left = chain;
    let mut size = 0;
    'slots: while let Some((s, rest)) = left.split_first() {
        let header = header_of_slot(slot, images, *s);
        size += u64::from(header.payload_size);
        if rest.is_empty() {
            return (header.entry_size == size).then_some(size);
        }
        if u64::from(header.payload_size) + HEADER_SIZE as u64 != u64::from(slot) {
            return None;
        }
        left = rest;
    }
    None
}

/// The payload of a sane slot.
fn payload_of_slot(slot: u32, images: &[Octets], s: u32) -> &[u8]
    requires file { IsFile slot images.now }
    requires sane { IsSaneAt slot images.now s }
    ensures value { result.now ≡ payload_at images.now s }
{
    match read_image(images[s as usize].as_slice(), images.len() as u32) {
        Some((_, payload)) => payload,
        None => unreachable!(),
    }
}

/// The metadata in front of the payload, where it has a URL and that URL's key, and the slot has that
/// key too.
fn named_meta<'a>(image: &[u8], payload: &'a [u8]) -> Option<Meta<'a>>
    requires { 16 ≤ length image.now }
    ensures { MatchOption result
        ((key url : List ℕ) (n : ℕ) → IsNamed image.now payload.now key url n → ⊥)
        (λ meta. IsNamed image.now payload.now meta.key meta.url.now meta.length × (meta.length ≤ length payload.now)) }
{
    let Ok(meta) = read_meta(payload) else {
        return None;
    };
    if !is_named(&meta, image) {
        return None;
    }
    Some(meta)
}

/// Whether the metadata has a URL and that URL's key, and the slot has that key too.
fn is_named(meta: &Meta<'_>, image: &[u8]) -> bool
    requires { 16 ≤ length image.now }
    ensures { IsTrue result ↔ ((meta.now.key ≡ take 16 image.now)
        × (meta.now.key ≡ key_of meta.now.url.now) × IsUrl meta.now.url.now) }
{
    meta.key.as_slice() == &image[..16]
        && meta.key == key_of(meta.url)
        && check_url(meta.url).is_ok()
}

/// The complete entry that begins at a slot, if there is one.
pub(crate) fn entry_at(
    alloc: Global,
    slot: u32,
    images: &[Octets],
    first: u32,
) -> Result<Option<Found>, AllocError>
    requires file { IsFile slot images.now }
    requires within { first < length images.now }
    ensures { IfOk result (λ found. MatchOption found
        (HasNoEntry slot images.now first)
        (λ found. IsFound slot images.now first found)) }
{
    let Some(chain) = chain_at(alloc, slot, images, first)? else {
        return Ok(None);
    };
    let Some(size) = whole_size(slot, images, &chain) else {
        return Ok(None);
    };
    let payload = payload_of_slot(slot, images, first);
    let Some(meta) = named_meta(images[first as usize].as_slice(), payload) else {
        return Ok(None);
    };
    Ok(Some(Found {
        first,
        version: header_of_slot(slot, images, first).version,
        key: meta.key,
        url: Octets::from_vec(meta.url.to_vec(alloc)?),
        length: size - meta.length as u64,
        chain: Numbers::from_vec(chain),
    }))
}
