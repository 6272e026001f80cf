// What a crash leaves.
ghost use Rattle.std.specs.Prelude.{◌≡◌, ◌<◌, IfOk, List, MatchOption, length, slice_index, ℕ};
ghost use Rattle.core_table.specs.declared.content.Content.{Content as ContentOf};
ghost use Rattle.core_table.specs.Machine.{setting_of, state_of};
ghost use Rattle.core_model.specs.Sound.{Sound};
ghost use Rattle.core_lives.specs.Lived.{HasOrderedLog};
ghost use Rattle.core_lives.specs.Crash.{ArePicked, IsLeft, IsPick, IsPickedAs, ShowsAs};

use crate::cells::cell_of_slot;
use crate::pieces::piece_logged_for;
use core_state::{Content, Core};
use named_rebuild::FirstContent;
use std::alloc::{AllocError, Global};

/// What a content of a slot is, told by names, where the slots held these at the opening.
fn shown(core: &Core, first: &[FirstContent], slot: u32, content: &Content) -> FirstContent
    requires logs { HasOrderedLog core.now }
    requires first { length first.now ≡ core.now.slots }
    requires within { slot < core.now.slots }
    requires picked { (number : ℕ) × IsPickedAs core.now slot number content.now }
    ensures { ShowsAs core.now first.now slot content.now result }
{
    match content {
        Content::Opened { .. } => first[slot as usize],
        Content::Offered(piece) => match piece_logged_for(core.views(), slot, piece) {
            Some(logged) => FirstContent::Logged(logged),
            None => unreachable!(),
        },
        Content::Blank => FirstContent::Blank,
    }
}

/// What is left of a slot where the content of this number is picked, of those that a crash may leave in its cell,
/// if there is one of this number.
fn left_of(core: &Core, first: &[FirstContent], slot: u32, number: u32) -> Option<FirstContent>
    requires logs { HasOrderedLog core.now }
    requires first { length first.now ≡ core.now.slots }
    requires within { slot < core.now.slots }
    ensures { MatchOption result
        (IsPick core.now slot number → ⊥)
        (λ left. IsLeft core.now first.now slot number left) }
{
    core.is_always_sound();
    let possible = cell_of_slot(core, slot).possible.as_slice();
    if number as usize >= possible.len() {
        return None;
    }
    Some(shown(core, first, slot, &possible[number as usize]))
}

/// What is left of all slots, if there is a content of each of these numbers.
pub(crate) fn all_left(
    alloc: Global,
    core: &Core,
    first: &[FirstContent],
    picks: &[u32],
) -> Result<Option<Vec<FirstContent>>, AllocError>
    requires logs { HasOrderedLog core.now }
    requires first { length first.now ≡ core.now.slots }
    requires picks { length picks.now ≡ core.now.slots }
    ensures { IfOk result (λ found. MatchOption found
        (((slot : ℕ) → slot < core.now.slots → IsPick core.now slot (slice_index picks.now slot)) → ⊥)
        (λ left. ArePicked core.now first.now picks.now left.items)) }
{
    let mut left = Vec::new(alloc);
    let mut slot = 0;
    'slots: while slot < picks.len() as u32 {
        let Some(content) = left_of(core, first, slot, picks[slot as usize]) else {
            return Ok(None);
        };
        left.push(content)?;
        slot += 1;
    }
    Ok(Some(left))
}
