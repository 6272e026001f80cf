// What a rebuild keeps, computed slot by slot and anchor by anchor. This is slow, and for cores that are
// made of whole images.
ghost use Rattle.std.specs.Prelude.{◌≡◌, ◌+◌, ◌<◌, ◌≤◌, ℕ, List, length, IfOk, MatchOption};
ghost use Rattle.rebuild_model.specs.Image.{IsFile, IsGreatest};
ghost use Rattle.rebuild_model.specs.Plain.{IsFound, HasNoEntry};
ghost use Rattle.rebuild_model.specs.Keeping.{HasNoneAt, IsKept, BestBefore, IsOwner, AreWinners, AreOwners};
ghost use Rattle.rebuild_model.specs.Rebuilt.{IsRebuilt};

use crate::plain::{entry_at, header_of_slot, is_sane_at};
use rebuild_model::{FileImage, Found, FoundList, Rebuilt, one_entry_at_a_slot};
use rock_io::{Memory, Numbers, Octets};
use std::alloc::{AllocError, Global};
use store_key::anchor_of;

/// The greatest version of a sane slot, or 0 where none is.
fn greatest_of(slot: u32, images: &[Octets]) -> u32
    requires { IsFile slot images.now }
    ensures { IsGreatest slot images.now result }
{
    let slots = images.len() as u32;
    let mut greatest = 0;
    let mut s = 0;
    'slots: while s < slots {
        if is_sane_at(slot, images, s) {
            greatest = greatest.max(header_of_slot(slot, images, s).version);
        }
        s += 1;
    }
    greatest
}

/// Which of two entries is kept at an anchor, where `found` begins behind `best`. One that stands at
/// another anchor is not.
fn better_of(best: Option<Found>, found: Option<Found>, anchor: u32, anchors: u32) -> Option<Found>
    requires { 0 < anchors }
    ensures { (slot : ℕ) (images : List (List ℕ)) (first : ℕ)
        → BestBefore slot images anchors anchor first best
        → MatchOption found (HasNoEntry slot images first) (λ f. IsFound slot images first f)
        → BestBefore slot images anchors anchor (first + 1) result }
{
    one_entry_at_a_slot();
    let Some(found) = found else {
        return best;
    };
    if anchor_of(&found.key, anchors) != anchor {
        return best;
    }
    let Some(best) = best else {
        return Some(found);
    };
    if best.version < found.version {
        return Some(found);
    }
    Some(best)
}

/// The entry that is kept at an anchor, if one is.
fn winner_at(
    alloc: Global,
    slot: u32,
    images: &[Octets],
    anchors: u32,
    anchor: u32,
) -> Result<Option<Found>, AllocError>
    requires file { IsFile slot images.now }
    requires some { 0 < anchors }
    ensures { IfOk result (λ found. MatchOption found
        (HasNoneAt slot images.now anchors anchor)
        (λ found. IsKept slot images.now anchors anchor found)) }
{
    let slots = images.len() as u32;
    let mut best = None;
    let mut first = 0;
    'slots: while first < slots {
        let found = entry_at(alloc, slot, images, first)?;
        best = better_of(best, found, anchor, anchors);
        first += 1;
    }
    Ok(best)
}

/// 1 more than the anchor of the entry that has this slot in its chain, or 0.
fn owner_of(winners: &[Found], anchors: u32, s: u32) -> u32
    requires { 0 < anchors }
    ensures { IsOwner anchors winners.now s result }
{
    let mut left = winners;
    'winners: while let Some((found, rest)) = left.split_first() {
        if found.chain.as_slice().contains(&s) {
            return anchor_of(&found.key, anchors) + 1;
        }
        left = rest;
    }
    0
}

/// The entries that are kept, in order of their anchors.
fn winners_of(
    alloc: Global,
    slot: u32,
    images: &[Octets],
    anchors: u32,
) -> Result<Vec<Found>, AllocError>
    requires file { IsFile slot images.now }
    requires some { 0 < anchors }
    ensures { IfOk result (λ winners. AreWinners slot images.now anchors anchors winners.items) }
{
    let mut winners = Vec::new(alloc);
    let mut anchor = 0;
    'anchors: while anchor < anchors {
        if let Some(found) = winner_at(alloc, slot, images, anchors, anchor)? {
            winners.push(found)?;
        }
        anchor += 1;
    }
    Ok(winners)
}

/// For each slot the number that tells whose it is.
fn owners_of(
    alloc: Global,
    winners: &[Found],
    anchors: u32,
    slots: u32,
) -> Result<Vec<u32>, AllocError>
    requires { 0 < anchors }
    ensures { IfOk result (λ owners. (length owners.items ≡ slots) × AreOwners anchors winners.now owners.items) }
{
    let mut owners = Vec::new(alloc);
    let mut s = 0;
    'slots: while s < slots {
        owners.push(owner_of(winners, anchors, s))?;
        s += 1;
    }
    Ok(owners)
}

/// What a rebuild of the store keeps of a file, for a store with so many anchors.
///
/// # Errors
///
/// [`Memory`] where memory runs out.
pub fn rebuilt_of(alloc: Global, file: &FileImage, anchors: u32) -> Result<Rebuilt, Memory>
    requires file { IsFile file.now.slot file.now.slots }
    requires some { 0 < anchors }
    ensures { IfOk result (λ rebuilt. IsRebuilt file.now.slot file.now.slots anchors rebuilt) }
{
    one_entry_at_a_slot();
    let images = file.slots.as_slice();
    let winners = winners_of(alloc, file.slot, images, anchors)?;
    let owner = owners_of(alloc, &winners, anchors, images.len() as u32)?;
    Ok(Rebuilt {
        winners: FoundList::from_vec(winners),
        owner: Numbers::from_vec(owner),
        greatest: greatest_of(file.slot, images),
    })
}
