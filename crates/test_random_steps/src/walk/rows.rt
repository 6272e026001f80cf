// What comes about on a walk, and how often.
use std::process::Abort;

/// What can come about, each to be counted.
#[derive(Clone, Copy, Debug)]
pub(super) enum Row {
    // The kinds of steps.
    Look,
    Enter,
    Leave,
    Count,
    Draw,
    Take,
    Evict,
    Raise,
    Doom,
    LoadSide,
    StoreSide,
    LookMap,
    Own,
    Disown,
    LogPiece,
    Publish,
    Loosen,
    GetLink,
    TryTurn,
    EndTurn,
    CellOut,
    CellIn,
    Note,
    Learn,
    Write,
    Sync,
    // The life of an anchor, by its word before and after a step.
    EmptyIsTaken,
    GoneIsTaken,
    ClosedIsTaken,
    ClosedIsEvicted,
    TakenIsAppending,
    TakenIsClosed,
    AppendingIsClosed,
    TakenIsHaltedWithNothing,
    TakenIsHaltedWithSlots,
    AppendingIsHalted,
    AppendingIsDoomed,
    ClosedIsDoomed,
    HaltedIsDoomed,
    DoomedIsFreed,
    HaltedIsFreed,
    FreedIsGone,
    // What tabs meet.
    HandOver,
    DoomedGetLink,
    DoomedTryTurn,
    DoomedEndTurn,
    DoomedCellOut,
    DoomedCellIn,
    RetreatingIsLast,
    RetreatedFrees,
    EndingHalts,
    LostTake,
    LostEvictByInner,
    LostEvictByLast,
    LostOwn,
    SearchBegins,
    SearchGoesOn,
    SearchEndsWithAll,
    SearchTakes,
    LostTryTurn,
    TurnTells,
    LearnedFromAnother,
    WroteNothing,
    WroteKept,
    WroteUnsure,
    WroteKeptUnsure,
    SyncedNot,
    SyncedKept,
    DurableIsPublished,
    ClosedWithOneSlot,
    ClosedWithTwoSlots,
    ClosedWithThreeSlots,
    ReadThreeSlots,
    // What a tab does that wipes a slot, and what becomes of its entry.
    WiperTriesTurn,
    WiperTakesCellOut,
    WiperWrites,
    WiperSyncs,
    WiperPutsCellBack,
    WiperSaysNothing,
    WiperSaysWiped,
    WipedIsGone,
    WipedIsLearned,
}

const ROW_COUNT: usize = 82;

/// The names of all of them, in order.
const NAMES: &str = "\
Look
Enter
Leave
Count
Draw
Take
Evict
Raise
Doom
LoadSide
StoreSide
LookMap
Own
Disown
LogPiece
Publish
Loosen
GetLink
TryTurn
EndTurn
CellOut
CellIn
Note
Learn
Write
Sync
EmptyIsTaken
GoneIsTaken
ClosedIsTaken
ClosedIsEvicted
TakenIsAppending
TakenIsClosed
AppendingIsClosed
TakenIsHaltedWithNothing
TakenIsHaltedWithSlots
AppendingIsHalted
AppendingIsDoomed
ClosedIsDoomed
HaltedIsDoomed
DoomedIsFreed
HaltedIsFreed
FreedIsGone
HandOver
DoomedGetLink
DoomedTryTurn
DoomedEndTurn
DoomedCellOut
DoomedCellIn
RetreatingIsLast
RetreatedFrees
EndingHalts
LostTake
LostEvictByInner
LostEvictByLast
LostOwn
SearchBegins
SearchGoesOn
SearchEndsWithAll
SearchTakes
LostTryTurn
TurnTells
LearnedFromAnother
WroteNothing
WroteKept
WroteUnsure
WroteKeptUnsure
SyncedNot
SyncedKept
DurableIsPublished
ClosedWithOneSlot
ClosedWithTwoSlots
ClosedWithThreeSlots
ReadThreeSlots
WiperTriesTurn
WiperTakesCellOut
WiperWrites
WiperSyncs
WiperPutsCellBack
WiperSaysNothing
WiperSaysWiped
WipedIsGone
WipedIsLearned
";

/// How often each came about.
#[derive(Drop)]
pub(super) struct Tally {
    counts: [u32; ROW_COUNT],
}

impl Tally {
    pub fn new() -> Self {
        Tally {
            counts: [0; ROW_COUNT],
        }
    }

    /// It came about once more, where anything did.
    pub fn add(&mut self, row: Option<Row>) {
        let Some(row) = row else {
            return;
        };
        if let Some(count) = self.counts.get_mut(row as usize) {
            *count = count.saturating_add(1);
        }
    }

    /// How often it came about.
    pub fn count(&self, row: Row) -> u32 {
        match self.counts.get(row as usize) {
            Some(count) => *count,
            None => 0,
        }
    }

    /// Each of them came about.
    pub fn assert_all<R: Abort>(&self, rt: &R) {
        assert_eq!(rt; NAMES.lines().count(), ROW_COUNT);
        for (name, count) in NAMES.lines().zip(self.counts.iter()) {
            assert!(rt; *count > 0, "{name} never came about: {:?}", self.counts);
        }
    }
}
