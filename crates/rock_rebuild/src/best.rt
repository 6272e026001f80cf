// Of the entries at each anchor, the one that is kept.
ghost use Rattle.std.specs.Prelude.{◌≡◌, ◌+◌, ◌<◌, ℕ, List, length, map, drop, IfOk, MatchOption, option_copied};
ghost use Rattle.std.specs.List.{slice_get};
ghost use Rattle.std.specs.List.Sorted.{IsStrictlyIncreasing};
ghost use Rattle.store_key.specs.Anchor.{anchor_of};
ghost use Rattle.rebuild_model.specs.declared.found.Found.{Found};
ghost use Rattle.rock_rebuild.specs.Best.{BestOf, AreBest, found_at};

use rebuild_model::Found;
use std::alloc::{AllocError, Global};
use store_key::anchor_of;

/// The entry at a place, if a place is named and one is there.
pub fn found_at(found: &[Found], place: Option<usize>) -> Option<&Found>
    ensures { option_copied result ≡ found_at found.now place }
{
    found.get(place?)
}

/// The place of the entry that is kept at an anchor, where that at `place` begins before the best one
/// so far and all that this was chosen from.
fn better_of(found: &[Found], best: Option<usize>, place: usize) -> Option<usize>
    requires { place < length found.now }
    ensures { (anchors anchor : ℕ) → IsStrictlyIncreasing (map (λ f. f.first) found.now)
        → MatchOption (slice_get found.now place) ⊥ (λ f. anchor_of f.key anchors ≡ anchor)
        → BestOf anchors anchor (drop (place + 1) found.now) (found_at found.now best)
        → BestOf anchors anchor (drop place found.now) (found_at found.now result) }
{
    if let Some(kept) = found_at(found, best) {
        if kept.version > found[place].version {
            return best;
        }
    }
    Some(place)
}

/// Puts the place of an entry, which begins before all others so far, to its anchor where it is the
/// best there.
fn keep(best: &mut [Option<usize>], found: &[Found], place: usize, anchors: u32)
    requires some { 0 < anchors }
    requires count { length best.old ≡ anchors }
    requires inside { place < length found.now }
    ensures best { IsStrictlyIncreasing (map (λ f. f.first) found.now)
        → AreBest anchors found.now (place + 1) best.old → AreBest anchors found.now place best.new }
    ensures count { length best.new ≡ anchors }
{
    let anchor = anchor_of(&found[place].key, anchors) as usize;
    best[anchor] = better_of(found, best[anchor], place);
}

/// No entry for so many anchors.
fn none_of(alloc: Global, anchors: u32) -> Result<Vec<Option<usize>>, AllocError>
    ensures { IfOk result (λ best. (found : List Found) → AreBest anchors found (length found) best.items) }
{
    let mut best = Vec::new(alloc);
    best.resize(anchors as usize, None)?;
    Ok(best)
}

/// For each anchor the place of the entry of greatest version there, and of those of the one that
/// begins first. The entries stand in order of their first slots.
pub fn best_of(
    alloc: Global,
    found: &[Found],
    anchors: u32,
) -> Result<Vec<Option<usize>>, AllocError>
    requires { 0 < anchors }
    ensures { IfOk result (λ best. IsStrictlyIncreasing (map (λ f. f.first) found.now)
        → AreBest anchors found.now 0 best.items) }
{
    let mut best = none_of(alloc, anchors)?;
    for place in (0..found.len()).rev() {
        keep(&mut best, found, place, anchors);
    }
    Ok(best)
}
