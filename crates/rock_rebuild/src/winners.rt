// The entries that are kept, in order of their anchors.
ghost use Rattle.std.specs.Prelude.{◌≡◌, ◌+◌, ℕ, List, IfOk, OnOk, MatchOption};
ghost use Rattle.rebuild_model.specs.Keeping.{HasNoneAt, IsKept, AreWinners};
ghost use Rattle.rock_rebuild.specs.Best.{found_at};
ghost use Rattle.rock_rebuild.specs.Winners.{AreKept};

use crate::best::found_at;
use rebuild_model::{Found, winners_are_gathered};
use rock_io::{Numbers, Octets};
use std::alloc::{AllocError, Global};

fn copy_of(alloc: Global, entry: &Found) -> Result<Found, AllocError>
    ensures { IfOk result (λ copy. copy ≡ entry.now) }
{
    Ok(Found {
        first: entry.first,
        version: entry.version,
        key: entry.key,
        url: Octets::from_vec(entry.url.as_slice().to_vec(alloc)?),
        length: entry.length,
        chain: Numbers::from_vec(entry.chain.as_slice().to_vec(alloc)?),
    })
}

/// Adds the entry that is kept at the next anchor, if one is, by its place.
fn push_winner(
    alloc: Global,
    winners: &mut Vec<Found>,
    found: &[Found],
    place: Option<usize>,
) -> Result<(), AllocError>
    ensures { OnOk result ((slot : ℕ) (images : List (List ℕ)) (anchors anchor : ℕ)
        → AreWinners slot images anchors anchor winners.old.items
        → MatchOption (found_at found.now place) (HasNoneAt slot images anchors anchor) (IsKept slot images anchors anchor)
        → AreWinners slot images anchors (anchor + 1) winners.new.items) }
{
    winners_are_gathered();
    if let Some(entry) = found_at(found, place) {
        winners.push(copy_of(alloc, entry)?)?;
    }
    Ok(())
}

/// The entries that are kept, in order of their anchors, by their places.
///
/// They are copies: a copy is made once, and those of neighbouring anchors lie side by side in memory.
/// The entries that were found lie in the order of the file, and to go through them and let them go in
/// the order of anchors, which is none, would take longer.
pub fn winners_of(
    alloc: Global,
    found: &[Found],
    best: &[Option<usize>],
) -> Result<Vec<Found>, AllocError>
    ensures { IfOk result (λ winners. (slot : ℕ) (images : List (List ℕ)) (anchors : ℕ)
        → AreKept slot images anchors found.now best.now
        → AreWinners slot images anchors anchors winners.items) }
{
    winners_are_gathered();
    let mut winners = Vec::new(alloc);
    for place in best {
        push_winner(alloc, &mut winners, found, *place)?;
    }
    Ok(winners)
}
