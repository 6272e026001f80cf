// Slots that are wiped, and what passes and notes know of them.
use super::rows::Row;
use core_model::Sight;
use core_state::{Act, Content, Core};
use lock_word::{Stage, Word};
use std::process::Abort;
use test_core_walks::kinds::{
    CELL_IN, CELL_OUT, END_TURN, LEARN, RAISE, SYNC, TRY_TURN, WIPED, WRITE,
};
use test_core_walks::word_at;

/// What a step of a tab that frees did towards a wiped slot.
pub(super) fn wiper_row(act: &Act) -> Option<Row> {
    match (act.kind, act.value) {
        (TRY_TURN, _) => Some(Row::WiperTriesTurn),
        (CELL_OUT, _) => Some(Row::WiperTakesCellOut),
        (WRITE, _) => Some(Row::WiperWrites),
        (SYNC, _) => Some(Row::WiperSyncs),
        (CELL_IN, _) => Some(Row::WiperPutsCellBack),
        (END_TURN, WIPED) => Some(Row::WiperSaysWiped),
        (END_TURN, _) => Some(Row::WiperSaysNothing),
        _ => None,
    }
}

/// Whether a pass or a note has seen that a slot of this version was wiped.
pub(super) fn is_wiped(core: &Core, version: u32) -> bool {
    for view in core.views() {
        for sight in view.seen.as_slice() {
            match sight {
                Sight::Wiped { version: wiped, .. } if *wiped == version => return true,
                _ => {}
            }
        }
    }
    false
}

/// Whether an entry of which a slot was wiped is gone by this step, or a pass learned that one was wiped.
pub(super) fn wiped_row(core: &Core, act: &Act, word: Option<Word>, seen: usize) -> Option<Row> {
    match act.kind {
        RAISE => {
            let epoch = word?.epoch;
            let is_freed = matches!(epoch.stage, Stage::Freeing);
            (is_freed && is_wiped(core, epoch.version)).then_some(Row::WipedIsGone)
        }
        LEARN => {
            let view = core.views().get(act.pass as usize)?;
            let learned = view.seen.as_slice().get(seen..)?;
            let is_told = learned
                .iter()
                .any(|sight| matches!(sight, Sight::Wiped { .. }));
            is_told.then_some(Row::WipedIsLearned)
        }
        _ => None,
    }
}

/// A step that said that a slot was wiped: its pass has come to know so, of the doomed version that is given back there, and a
/// crash leaves the slot blank alone.
pub(super) fn watch_wiped<R: Abort>(rt: &R, core: &Core, act: &Act) {
    let view = core.views().get(act.pass as usize);
    let Some(
        Sight::Wiped {
            anchor,
            version,
            slot,
        },
    ) = view.and_then(|view| view.seen.as_slice().last().copied())
    else {
        assert!(rt; false, "{act:?} told of no slot");
        return;
    };
    assert_eq!(rt; slot, act.at, "{act:?}");
    let Some(word) = word_at(core, anchor) else {
        assert!(rt; false, "no word at anchor {anchor}");
        return;
    };
    let epoch = word.epoch;
    assert!(rt;
        epoch.version == version && epoch.doom && matches!(epoch.stage, Stage::Freeing),
        "{act:?} at {word:?}"
    );
    let Some(Some(cell)) = core.places().get(slot as usize) else {
        assert!(rt; false, "{act:?}: no cell is home");
        return;
    };
    let is_blank = matches!(cell.possible.as_slice(), [Content::Blank]);
    assert!(rt; is_blank, "{act:?}");
}
