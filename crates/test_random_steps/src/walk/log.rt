// The log of pieces: its counter, and what passes and notes know of it.
use super::STEPS;
use super::rows::Row;
use core_model::{LoggedPiece, Sight};
use core_state::{Act, Core};
use std::process::Abort;

/// The counter of logged pieces, which is the last word of the table.
pub(super) fn log_count(core: &Core) -> Option<u64> {
    core.words().last().copied()
}

/// What the pass of a step has come to know last, where that is a piece.
fn newest_piece(core: &Core, act: &Act) -> Option<LoggedPiece> {
    let view = core.views().get(act.pass as usize)?;
    match view.seen.as_slice().last()? {
        Sight::Logged(logged) => Some(*logged),
        _ => None,
    }
}

/// A step that logged a piece told its number, which its pass knows now with the slot and whether it is durable.
pub(super) fn watch_logged<R: Abort>(rt: &R, core: &Core, act: &Act, number: u64) {
    let Some(logged) = newest_piece(core, act) else {
        assert!(rt; false, "{act:?} told of no piece");
        return;
    };
    let is_durable = act.value == 1;
    assert!(rt;
        logged.number == number && logged.slot == act.at && logged.is_durable == is_durable,
        "{act:?} told of {logged:?}"
    );
}

/// What the pass of a step has seen, the oldest first.
fn seen_by<'a>(core: &'a Core, act: &Act) -> Option<&'a [Sight]> {
    let view = core.views().get(act.pass as usize)?;
    Some(view.seen.as_slice())
}

/// How much the pass of a step has seen.
pub(super) fn seen_count(core: &Core, act: &Act) -> usize {
    match seen_by(core, act) {
        Some(seen) => seen.len(),
        None => 0,
    }
}

/// Whether this is of a piece that was logged for the slot.
fn is_of_slot(sight: &Sight, slot: u32) -> bool {
    matches!(sight, Sight::Logged(logged) if logged.slot == slot)
}

/// How often a sight is among these.
fn times(sight: &Sight, seen: &[Sight]) -> usize {
    seen.iter().filter(|other| *other == sight).count()
}

/// Each piece that a pass or a note knows to be logged for the slot is among these.
fn check_told<R: Abort>(rt: &R, core: &Core, slot: u32, seen: &[Sight]) {
    for view in core.views() {
        for sight in view.seen.as_slice() {
            assert!(rt;
                !is_of_slot(sight, slot) || seen.contains(sight),
                "a turn at {slot} does not tell of {sight:?}"
            );
        }
    }
}

/// A try for a turn that found it free told of each piece that was logged for the slot and that its pass did not
/// know, once and of nothing else; one that found it taken told of nothing. Whether it told of any.
pub(super) fn watch_turn<R: Abort>(
    rt: &R,
    core: &Core,
    act: &Act,
    number: u64,
    before: usize,
) -> Option<Row> {
    let seen = seen_by(core, act)?;
    let told = seen.get(before..)?;
    if number != 0 {
        assert!(rt; told.is_empty(), "{act:?} was lost and told of {told:?}");
        return None;
    }
    for sight in told {
        assert!(rt;
            is_of_slot(sight, act.at) && times(sight, seen) == 1,
            "{act:?} told of {sight:?}"
        );
    }
    check_told(rt, core, act.at, seen);
    (!told.is_empty()).then_some(Row::TurnTells)
}

/// Each piece that was logged is known to a pass or a note, and no other is.
pub(super) fn check_log<R: Abort>(rt: &R, core: &Core) {
    let mut known = [false; STEPS as usize];
    let count = log_count(core).unwrap_or(0);
    for view in core.views() {
        for sight in view.seen.as_slice() {
            if let Sight::Logged(logged) = sight {
                assert!(rt; logged.number < count, "{logged:?} of {count}");
                if let Some(is_known) = known.get_mut(logged.number as usize) {
                    *is_known = true;
                }
            }
        }
    }
    let many = known.iter().filter(|is_known| **is_known).count();
    assert_eq!(rt; many as u64, count, "pieces that are known");
}
