// What a rebuild keeps, slot by slot and anchor by anchor. This is slow.
ghost use Rattle.std.specs.Prelude.{◌≡◌, ◌<◌, ◌+◌, IfOk, List, MatchOption, length, ℕ};
ghost use Rattle.rebuild_model.specs.Image.{IsFile, IsSaneAt, header_at};
ghost use Rattle.rebuild_model.specs.Keeping.{AreOwners, IsOwner};
ghost use Rattle.rebuild_model.specs.declared.image.FileImage.{FileImage as FileImageOf};
ghost use Rattle.named_rebuild.specs.declared.contents.FirstContent.{FirstContent as FirstContentOf};
ghost use Rattle.named_rebuild.specs.Contents.{AreContents};
ghost use Rattle.named_rebuild.specs.Entries.{HasNoneFrom, IsFoundAt};
ghost use Rattle.named_rebuild.specs.Keeping.{AreBest, BestBefore, HasNoneAt, IsBestAt, IsGreatestShown, IsRebuiltOfNames, ShowsVersion};
ghost use Rattle.core_openings.specs.KeptSo.{IsKeptSo};

use crate::contents::{FirstContent, content_at};
use crate::entry::entry_at;
use rebuild_model::{FileImage, Found, FoundList, Rebuilt, chains_are_apart, one_entry_at_a_slot};
use rock_io::{Memory, Numbers};
use slot_cell::Header;
use std::alloc::{AllocError, Global};
use store_key::anchor_of;

/// The version that a slot has in the file, where its header is sane.
fn version_in_file(file: &FileImage, slot: u32) -> Option<u32>
    requires file { IsFile file.now.slot file.now.slots }
    requires within { slot < length file.now.slots }
    ensures { MatchOption result
        (IsSaneAt file.now.slot file.now.slots slot → ⊥)
        (λ version. IsSaneAt file.now.slot file.now.slots slot × (version ≡ (header_at file.now.slots slot).version)) }
{
    let slots = file.slots.as_slice();
    let Some(header) = Header::decode(slots[slot as usize].as_slice()) else {
        unreachable!();
    };
    if !header.is_sane(slots.len() as u32, file.slot) {
        return None;
    }
    Some(header.version)
}

/// The version that a slot shows, if it shows one.
fn version_at(file: &FileImage, contents: &[FirstContent], slot: u32) -> Option<u32>
    requires file { IsFile file.now.slot file.now.slots }
    requires within { slot < length file.now.slots }
    ensures { MatchOption result
        ((version : ℕ) → ShowsVersion file.now contents.now slot version → ⊥)
        (λ version. ShowsVersion file.now contents.now slot version) }
{
    match content_at(contents, slot) {
        FirstContent::File => version_in_file(file, slot),
        FirstContent::Logged(piece) if piece.piece.version > 0 => Some(piece.piece.version),
        FirstContent::Logged(_) | FirstContent::Blank => None,
    }
}

/// The greatest version that a slot shows, or 0 where none shows one.
fn greatest_of(file: &FileImage, contents: &[FirstContent]) -> u32
    requires file { IsFile file.now.slot file.now.slots }
    requires one_a_slot { length contents.now ≡ length file.now.slots }
    ensures { IsGreatestShown file.now contents.now result }
{
    let slots = contents.len() as u32;
    let mut greatest = 0;
    let mut slot = 0;
    'slots: while slot < slots {
        if let Some(version) = version_at(file, contents, slot) {
            greatest = greatest.max(version);
        }
        slot += 1;
    }
    greatest
}

/// Which of two entries is kept at an anchor, where `found` begins behind `best`. One that stands at another
/// anchor is not.
fn better_of(best: Option<Found>, found: Option<Found>, anchor: u32, anchors: u32) -> Option<Found>
    requires { 0 < anchors }
    ensures { (file : FileImageOf) (contents : List FirstContentOf) (first : ℕ)
        → BestBefore file contents anchors anchor first best
        → MatchOption found (HasNoneFrom file contents first) (λ f. IsFoundAt file contents first f)
        → BestBefore file contents anchors anchor (first + 1) result }
{
    let Some(found) = found else {
        return best;
    };
    if anchor_of(&found.key, anchors) != anchor {
        return best;
    }
    let Some(best) = best else {
        return Some(found);
    };
    if best.version < found.version {
        return Some(found);
    }
    Some(best)
}

/// The entry that is kept at an anchor, if one is.
fn winner_at(
    alloc: Global,
    file: &FileImage,
    contents: &[FirstContent],
    anchors: u32,
    anchor: u32,
) -> Result<Option<Found>, Memory>
    requires file { IsFile file.now.slot file.now.slots }
    requires contents { AreContents (length contents.now) contents.now }
    requires one_a_slot { length contents.now ≡ length file.now.slots }
    requires some { 0 < anchors }
    ensures { IfOk result (λ found. MatchOption found
        (HasNoneAt file.now contents.now anchors anchor)
        (λ found. IsBestAt file.now contents.now anchors anchor found)) }
{
    let slots = contents.len() as u32;
    let mut best = None;
    let mut first = 0;
    'slots: while first < slots {
        let found = entry_at(alloc, file, contents, first)?;
        best = better_of(best, found, anchor, anchors);
        first += 1;
    }
    Ok(best)
}

/// The entries that are kept, in order of their anchors.
fn winners_of(
    alloc: Global,
    file: &FileImage,
    contents: &[FirstContent],
    anchors: u32,
) -> Result<Vec<Found>, Memory>
    requires file { IsFile file.now.slot file.now.slots }
    requires contents { AreContents (length contents.now) contents.now }
    requires one_a_slot { length contents.now ≡ length file.now.slots }
    requires some { 0 < anchors }
    ensures { IfOk result (λ winners. AreBest file.now contents.now anchors anchors winners.items) }
{
    let mut winners = Vec::new(alloc);
    let mut anchor = 0;
    'anchors: while anchor < anchors {
        if let Some(found) = winner_at(alloc, file, contents, anchors, anchor)? {
            winners.push(found)?;
        }
        anchor += 1;
    }
    Ok(winners)
}

/// 1 more than the anchor of the entry that has this slot in its chain, or 0.
fn owner_of(winners: &[Found], anchors: u32, slot: u32) -> u32
    requires { 0 < anchors }
    ensures { IsOwner anchors winners.now slot result }
{
    let mut left = winners;
    'winners: while let Some((found, rest)) = left.split_first() {
        if found.chain.as_slice().contains(&slot) {
            return anchor_of(&found.key, anchors) + 1;
        }
        left = rest;
    }
    0
}

/// For each slot the number that tells whose it is.
fn owners_of(
    alloc: Global,
    winners: &[Found],
    anchors: u32,
    slots: u32,
) -> Result<Vec<u32>, AllocError>
    requires { 0 < anchors }
    ensures { IfOk result (λ owners. (length owners.items ≡ slots) × AreOwners anchors winners.now owners.items) }
{
    let mut owners = Vec::new(alloc);
    let mut slot = 0;
    'slots: while slot < slots {
        owners.push(owner_of(winners, anchors, slot))?;
        slot += 1;
    }
    Ok(owners)
}

/// What a rebuild keeps of contents that are told by names, for a store with so many anchors. The file is the one
/// that the store had at first.
///
/// # Errors
///
/// [`Memory`] where memory runs out.
pub fn rebuilt_of_names(
    alloc: Global,
    file: &FileImage,
    contents: &[FirstContent],
    anchors: u32,
) -> Result<Rebuilt, Memory>
    requires file { IsFile file.now.slot file.now.slots }
    requires contents { AreContents (length file.now.slots) contents.now }
    requires some { 0 < anchors }
    ensures rebuilt { IfOk result (λ rebuilt. IsRebuiltOfNames file.now contents.now anchors rebuilt) }
    ensures kept { IfOk result (λ rebuilt. IsKeptSo anchors (length file.now.slots) rebuilt) }
{
    one_entry_at_a_slot();
    chains_are_apart();
    let winners = winners_of(alloc, file, contents, anchors)?;
    let owner = owners_of(alloc, &winners, anchors, contents.len() as u32)?;
    Ok(Rebuilt {
        winners: FoundList::from_vec(winners),
        owner: Numbers::from_vec(owner),
        greatest: greatest_of(file, contents),
    })
}
