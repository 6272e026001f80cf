// The complete entries, gathered from the first slot on.
ghost use Rattle.std.specs.Prelude.{◌≡◌, ◌+◌, ◌≤◌, ℕ, List, length, IfOk, IfSome, OnOk, MatchOption};
ghost use Rattle.rebuild_model.specs.Image.{IsFile, image_at};
ghost use Rattle.rebuild_model.specs.Plain.{IsFound, HasNoEntry};
ghost use Rattle.rock_rebuild.specs.Kept.{TellsHead, AreHeaders, AreHeads};
ghost use Rattle.rock_rebuild.specs.Left.{AreLeft};
ghost use Rattle.rock_rebuild.specs.Gathered.{AreFound, found_with};

use crate::chain::follow;
use crate::entry_head::{Head, is_key_of, key_of_slot, url_of};
use crate::table::Table;
use db_layout::MOST_SLOTS;
use rebuild_model::{Found, one_entry_at_a_slot};
use rock_io::{Numbers, Octets};
use std::alloc::{AllocError, Global};

/// What is told of a complete entry beside its first slot and its chain.
#[derive(Clone, Copy, Debug)]
pub struct Whole<'a> {
    pub version: u32,
    pub key: [u8; 16],
    pub url: &'a [u8],
    /// How many bytes its body has.
    pub length: u64,
}

/// The complete entry that begins at a slot, if one does, where `head` is what the slot says of it. Its
/// slots are put into `chain`; what that holds before does not matter.
///
/// The URL's key is taken last, for chains that are whole.
pub fn whole_at<'a>(
    table: &mut Table,
    urls: &'a [u8],
    chain: &mut Vec<u32>,
    slot: u32,
    first: u32,
    head: Option<Head>,
) -> Result<Option<Whole<'a>>, AllocError>
    requires { length table.old ≤ MOST_SLOTS }
    ensures whole { IfOk result (λ whole. (images : List (List ℕ)) → IsFile slot images
        → AreLeft slot images first table.old
        → TellsHead (length images) slot first (image_at images first) urls.now head
        → AreLeft slot images (first + 1) table.new
        × MatchOption whole (HasNoEntry slot images first)
        (λ w. IsFound slot images first (found_with first w.version w.key w.url.now w.length chain.new.items))) }
    ensures few { IfOk result (λ whole. IfSome whole (λ _. length chain.new.items ≤ MOST_SLOTS)) }
    ensures length { length table.new ≡ length table.old }
{
    let Some(head) = head else {
        return Ok(None);
    };
    let Some(header) = table.header(first) else {
        return Ok(None);
    };
    let Some(url) = url_of(urls, &head) else {
        return Ok(None);
    };
    let Some(size) = follow(table, chain, slot, first)? else {
        return Ok(None);
    };
    let key = key_of_slot(&header);
    if !is_key_of(&key, url) {
        return Ok(None);
    }
    Ok(Some(Whole {
        version: header.version,
        key,
        url,
        // Metadata is never longer than the first slot's payload.
        length: size.saturating_sub(head.length as u64),
    }))
}

/// The complete entry that begins at a slot, if one does, with its URL and its chain copied.
fn find_at(
    alloc: Global,
    table: &mut Table,
    urls: &[u8],
    chain: &mut Vec<u32>,
    slot: u32,
    first: u32,
    head: Option<Head>,
) -> Result<Option<Found>, AllocError>
    requires { length table.old ≤ MOST_SLOTS }
    ensures found { IfOk result (λ found. (images : List (List ℕ)) → IsFile slot images
        → AreLeft slot images first table.old
        → TellsHead (length images) slot first (image_at images first) urls.now head
        → AreLeft slot images (first + 1) table.new
        × MatchOption found (HasNoEntry slot images first) (IsFound slot images first)) }
    ensures length { length table.new ≡ length table.old }
{
    let Some(whole) = whole_at(table, urls, chain, slot, first, head)? else {
        return Ok(None);
    };
    Ok(Some(Found {
        first,
        version: whole.version,
        key: whole.key,
        url: Octets::from_vec(whole.url.to_vec(alloc)?),
        length: whole.length,
        chain: Numbers::from_vec(chain.to_vec(alloc)?),
    }))
}

/// Adds the entry that begins at the next slot, if one does.
fn push_entry(found: &mut Vec<Found>, entry: Option<Found>) -> Result<(), AllocError>
    ensures { OnOk result ((slot : ℕ) (images : List (List ℕ)) (first : ℕ)
        → AreFound slot images first found.old.items
        → MatchOption entry (HasNoEntry slot images first) (IsFound slot images first)
        → AreFound slot images (first + 1) found.new.items) }
{
    one_entry_at_a_slot();
    if let Some(entry) = entry {
        found.push(entry)?;
    }
    Ok(())
}

/// The complete entries of a file, in order of their first slots, by the headers of its slots and what
/// the slots say of entries that begin there.
pub fn entries_of(
    alloc: Global,
    table: &mut Table,
    heads: &[Option<Head>],
    urls: &[u8],
    slot: u32,
) -> Result<Vec<Found>, AllocError>
    requires table { length table.old ≤ MOST_SLOTS }
    requires heads { length heads.now ≤ MOST_SLOTS }
    ensures { IfOk result (λ found. (images : List (List ℕ)) → IsFile slot images
        → AreHeaders (length images) slot images table.old
        → AreHeads (length images) slot images urls.now heads.now
        → AreFound slot images (length images) found.items) }
{
    let mut found = Vec::new(alloc);
    let mut chain = Vec::new(alloc);
    for first in 0..heads.len() as u32 {
        let head = heads[first as usize];
        let entry = find_at(alloc, table, urls, &mut chain, slot, first, head)?;
        push_entry(&mut found, entry)?;
    }
    Ok(found)
}
