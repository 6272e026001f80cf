// The life of an anchor, as docs/STATE-MACHINE.md has it: which word may follow which.
use super::rows::Row;
use lock_word::{Stage, Word};

/// Whether a new version stands, undoomed, where nobody was or is counted.
fn is_begun(before: &Word, after: &Word) -> bool {
    before.epoch.version < after.epoch.version
        && !after.epoch.doom
        && before.readers == 0
        && after.readers == 0
}

/// Whether version, doom and readers are as they were.
fn is_raised(before: &Word, after: &Word) -> bool {
    before.epoch.version == after.epoch.version
        && before.epoch.doom == after.epoch.doom
        && before.readers == after.readers
}

/// Whether the doom alone is new, and someone is counted there.
fn is_doomed(before: &Word, after: &Word) -> bool {
    before.epoch.version == after.epoch.version
        && before.epoch.stage == after.epoch.stage
        && before.readers == after.readers
        && !before.epoch.doom
        && after.epoch.doom
        && after.readers > 0
}

/// What became of an anchor whose epoch changed, where so many slots are published then. None where no
/// epoch may become this one so.
pub(super) fn life_row(before: &Word, after: &Word, published: usize) -> Option<Row> {
    let (from, to) = (before.epoch.stage, after.epoch.stage);
    let may_be = match to {
        Stage::Taken => is_begun(before, after),
        _ if from == to => is_doomed(before, after),
        _ => is_raised(before, after),
    };
    if !may_be {
        return None;
    }
    let row = match (from, to) {
        (Stage::Empty, Stage::Taken) => Row::EmptyIsTaken,
        (Stage::Gone, Stage::Taken) => Row::GoneIsTaken,
        (Stage::Closed, Stage::Taken) if !before.epoch.doom => Row::ClosedIsTaken,
        (Stage::Appending, Stage::Appending) => Row::AppendingIsDoomed,
        (Stage::Closed, Stage::Closed) => Row::ClosedIsDoomed,
        (Stage::Halted, Stage::Halted) => Row::HaltedIsDoomed,
        (Stage::Taken, Stage::Halted) if published == 0 => Row::TakenIsHaltedWithNothing,
        (Stage::Taken, Stage::Halted) => Row::TakenIsHaltedWithSlots,
        (Stage::Appending, Stage::Halted) => Row::AppendingIsHalted,
        (Stage::Taken, Stage::Appending) => Row::TakenIsAppending,
        (Stage::Taken, Stage::Closed) => Row::TakenIsClosed,
        (Stage::Appending, Stage::Closed) => Row::AppendingIsClosed,
        (Stage::Freeing, Stage::Gone) => Row::FreedIsGone,
        // Nobody is counted where an entry begins to be freed.
        _ if before.readers > 0 => return None,
        (Stage::Closed, Stage::Freeing) if before.epoch.doom => Row::DoomedIsFreed,
        (Stage::Closed, Stage::Freeing) => Row::ClosedIsEvicted,
        (Stage::Halted, Stage::Freeing) => Row::HaltedIsFreed,
        _ => return None,
    };
    Some(row)
}
