// Of the candidates at each anchor, the one that is kept.
ghost use Rattle.std.specs.Prelude.{◌≡◌, ◌+◌, ◌^◌, ◌<◌, ◌≤◌, ℕ, List, length, map, All, IfOk, MatchOption, sum_by, count_by};
ghost use Rattle.std.specs.List.{slice_get};
ghost use Rattle.std.specs.List.Sorted.{IsStrictlyIncreasing};
ghost use Rattle.std.specs.Option.{is_some};
ghost use Rattle.rebuild_model.specs.declared.found.Found.{Found};
ghost use Rattle.rock_rebuild.specs.Candidates.{candidate_of, slots_of, AreBestAs};

use crate::candidates::Candidate;
use std::alloc::{AllocError, Global};

/// Which of two at one anchor is kept, where the entry of `candidate` begins before the other.
fn better_of(kept: Option<Candidate>, candidate: Candidate) -> Candidate
    ensures { MatchOption kept (result ≡ candidate) (λ k.
        (candidate.version < k.version → result ≡ k)
        × (k.version ≤ candidate.version → result ≡ candidate)) }
{
    if let Some(kept) = kept {
        if kept.version > candidate.version {
            return kept;
        }
    }
    candidate
}

/// Puts a candidate, whose entry begins before all others so far, to its anchor where it is the best
/// there.
fn choose(best: &mut [Option<Candidate>], candidate: Candidate)
    requires { candidate.anchor < length best.old }
    ensures best { (anchors : ℕ) (found : List Found) (place : ℕ)
        → IsStrictlyIncreasing (map (λ f. f.first) found)
        → MatchOption (slice_get found place) ⊥ (λ f. candidate ≡ candidate_of anchors f)
        → AreBestAs anchors found (place + 1) best.old → AreBestAs anchors found place best.new }
    ensures count { length best.new ≡ length best.old }
{
    let anchor = candidate.anchor as usize;
    best[anchor] = Some(better_of(best[anchor], candidate));
}

/// No candidate for so many anchors.
fn none_of(alloc: Global, anchors: u32) -> Result<Vec<Option<Candidate>>, AllocError>
    ensures { IfOk result (λ best. (found : List Found) → AreBestAs anchors found (length found) best.items) }
{
    let mut best = Vec::new(alloc);
    best.resize(anchors as usize, None)?;
    Ok(best)
}

/// For each anchor the candidate of greatest version there, and of those the one that begins first. The
/// candidates stand in order of their first slots.
pub fn chosen_of(
    alloc: Global,
    candidates: &[Candidate],
    anchors: u32,
) -> Result<Vec<Option<Candidate>>, AllocError>
    requires { All (λ c. c.anchor < anchors) candidates.now }
    ensures best { IfOk result (λ best. (found : List Found) → IsStrictlyIncreasing (map (λ f. f.first) found)
        → candidates.now ≡ map (candidate_of anchors) found → AreBestAs anchors found 0 best.items) }
    ensures count { IfOk result (λ best. length best.items ≡ anchors) }
{
    let mut best = none_of(alloc, anchors)?;
    for place in (0..candidates.len()).rev() {
        choose(&mut best, candidates[place]);
    }
    Ok(best)
}

/// How many anchors have a candidate.
pub fn count_chosen(best: &[Option<Candidate>]) -> usize
    ensures { result ≡ count_by is_some best.now }
{
    best.iter().filter(|kept| kept.is_some()).count()
}

/// How many slots the candidates have together.
pub fn slots_of_chosen(best: &[Option<Candidate>]) -> usize
    requires { length best.now < 2 ^ 32 }
    ensures { result ≡ sum_by slots_of best.now }
{
    let mut slots = 0;
    for kept in best {
        if let Some(kept) = kept {
            slots += kept.slots as usize;
        }
    }
    slots
}
