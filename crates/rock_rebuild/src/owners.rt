// Whose each slot is.
ghost use Rattle.std.specs.Prelude.{◌≡◌, ◌<◌, ℕ, List, length, IfOk, nat_eq, slice_index, cond};
ghost use Rattle.std.specs.List.{list_any};
ghost use Rattle.rebuild_model.specs.Keeping.{AreOwners};

use rebuild_model::Found;
use std::alloc::{AllocError, Global};
use store_key::anchor_of;

/// Puts a number at the slots of a chain. Slots that are not there are passed over.
fn own(owner: &mut [u32], chain: &[u32], number: u32)
    ensures owned { (s : ℕ) → s < length owner.old
        → slice_index owner.new s ≡ cond (list_any (λ x. nat_eq x s) chain.now) number (slice_index owner.old s) }
    ensures count { length owner.new ≡ length owner.old }
{
    for s in chain {
        let place = *s as usize;
        if place < owner.len() {
            owner[place] = number;
        }
    }
}

/// For each of so many slots 1 more than the anchor of the entry that has it in its chain, or 0.
pub fn owners_of(
    alloc: Global,
    winners: &[Found],
    anchors: u32,
    slots: usize,
) -> Result<Vec<u32>, AllocError>
    requires { 0 < anchors }
    ensures count { IfOk result (λ owner. length owner.items ≡ slots) }
    ensures owners { IfOk result (λ owner. AreOwners anchors winners.now owner.items) }
{
    let mut owner = Vec::new(alloc);
    owner.resize(slots, 0)?;
    let mut left = winners;
    'winners: while let Some((winner, rest)) = left.split_first() {
        let number = anchor_of(&winner.key, anchors) + 1;
        own(&mut owner, winner.chain.as_slice(), number);
        left = rest;
    }
    Ok(owner)
}
