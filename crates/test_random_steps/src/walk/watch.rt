// What each step brings about, by what stood before it and after.
use super::life::life_row;
use super::log::{log_count, seen_count, watch_logged, watch_turn};
use super::rows::{Row, Tally};
use super::wiping::{watch_wiped, wiped_row, wiper_row};
use core_model::{INNER_TAB, TABS, Tab};
use core_state::{Act, Content, Core};
use lock_word::Word;
use std::process::Abort;
use test_core_walks::kinds::{
    CELL_IN, CELL_OUT, CHANGE, CLOSED, COUNT, DISOWN, DOOM, DRAW, END_TURN, ENTER, GET_LINK,
    HALTED, KEPT, KEPT_UNSURE, LEARN, LEAVE, LINK, LOG_PIECE, LOOK, LOOK_MAP, NOTE, NOTHING, OWN,
    RAISE, SIDE, STORES, SYNC, TRY_TURN, UNSURE, WIPED, WRITE,
};
use test_core_walks::{ANCHORS, PASSES, Seat, is_taken, published_at, tab_of, word_at};

const SEATS: usize = TABS * PASSES as usize;

/// How many notes are remembered.
const NOTES: usize = 32;

/// What a tab was before its step.
#[derive(Clone, Copy)]
enum Role {
    Free,
    Retreating,
    Reading {
        place: u32,
    },
    Writing {
        is_ending: bool,
        is_durable: bool,
        claim: Option<u64>,
    },
    Last,
    Freeing,
}

/// What stood before a step.
#[derive(Clone, Copy)]
pub(super) struct Before {
    words: [Option<Word>; ANCHORS as usize],
    role: Role,
    /// Where the tab was.
    anchor: Option<u32>,
    /// How much its pass had seen.
    seen: usize,
}

fn role_of(tab: &Tab<Content>) -> (Role, Option<u32>) {
    match tab {
        Tab::Free => (Role::Free, None),
        Tab::Retreating { anchor } => (Role::Retreating, Some(*anchor)),
        Tab::Reading(reader) => {
            let place = reader.place;
            (Role::Reading { place }, Some(reader.anchor))
        }
        Tab::Writing(writer) => {
            let role = Role::Writing {
                is_ending: writer.is_ending,
                is_durable: writer.is_durable,
                claim: writer.claim,
            };
            (role, Some(writer.anchor))
        }
        Tab::Last { anchor } => (Role::Last, Some(*anchor)),
        Tab::Freeing(freer) => (Role::Freeing, Some(freer.anchor)),
    }
}

impl Before {
    pub fn new(core: &Core, act: &Act) -> Self {
        let (role, anchor) = tab_of(core, seat_of(act)).map_or((Role::Free, None), role_of);
        let mut words = [None; ANCHORS as usize];
        for (anchor, word) in (0..ANCHORS).zip(words.iter_mut()) {
            *word = word_at(core, anchor);
        }
        Before {
            words,
            role,
            anchor,
            seen: seen_count(core, act),
        }
    }

    /// The word of an anchor.
    fn word(&self, anchor: u32) -> Option<Word> {
        match self.words.get(anchor as usize) {
            Some(word) => *word,
            None => None,
        }
    }

    /// Whether the tab was at an anchor whose entry was doomed.
    fn is_doomed(&self) -> bool {
        let Some(anchor) = self.anchor else {
            return false;
        };
        match self.word(anchor) {
            Some(word) => word.epoch.doom,
            None => false,
        }
    }
}

fn seat_of(act: &Act) -> Seat {
    Seat {
        pass: act.pass,
        tab: act.tab,
    }
}

/// What is remembered of a walk.
#[derive(Drop)]
pub(super) struct Watch {
    /// Whether the tab is last where it retreated before.
    has_retreated: [bool; SEATS],
    /// How many slots of its entry the tab read, one after the other.
    read: [u32; SEATS],
    /// Which pass made the note.
    makers: [u32; NOTES],
    /// How many pieces were logged.
    logged: u64,
}

fn index_of(seat: Seat) -> usize {
    seat.pass as usize * TABS + seat.tab as usize
}

fn kind_row(act: &Act) -> Option<Row> {
    let row = match act.kind {
        LOOK => Row::Look,
        ENTER => Row::Enter,
        LEAVE => Row::Leave,
        COUNT => Row::Count,
        DRAW => Row::Draw,
        CHANGE if act.value == 0 => Row::Evict,
        CHANGE => Row::Take,
        RAISE => Row::Raise,
        DOOM => Row::Doom,
        SIDE if act.at < STORES => Row::LoadSide,
        SIDE => Row::StoreSide,
        LOOK_MAP => Row::LookMap,
        OWN => Row::Own,
        DISOWN => Row::Disown,
        LOG_PIECE => Row::LogPiece,
        LINK if act.value == 0 => Row::Loosen,
        LINK => Row::Publish,
        GET_LINK => Row::GetLink,
        TRY_TURN => Row::TryTurn,
        END_TURN => Row::EndTurn,
        CELL_OUT => Row::CellOut,
        CELL_IN => Row::CellIn,
        NOTE => Row::Note,
        LEARN => Row::Learn,
        WRITE => Row::Write,
        SYNC => Row::Sync,
        _ => return None,
    };
    Some(row)
}

/// A step of a reader that goes on where its entry is doomed.
fn doomed_row(act: &Act, before: &Before) -> Option<Row> {
    if !matches!(before.role, Role::Reading { .. }) || !before.is_doomed() {
        return None;
    }
    match act.kind {
        GET_LINK => Some(Row::DoomedGetLink),
        TRY_TURN => Some(Row::DoomedTryTurn),
        END_TURN => Some(Row::DoomedEndTurn),
        CELL_OUT => Some(Row::DoomedCellOut),
        CELL_IN => Some(Row::DoomedCellIn),
        _ => None,
    }
}

/// A try that found another word than it needs.
fn lost_row(act: &Act, before: &Before, number: u64, is_same: bool) -> Option<Row> {
    match (act.kind, before.role) {
        (CHANGE, _) if act.value != 0 && is_same => Some(Row::LostTake),
        (CHANGE, Role::Last) if is_same => Some(Row::LostEvictByLast),
        (CHANGE, Role::Free) if is_same && act.tab == INNER_TAB => Some(Row::LostEvictByInner),
        (OWN, _) if is_taken(number, act.at) => Some(Row::LostOwn),
        (TRY_TURN, _) if number != 0 => Some(Row::LostTryTurn),
        _ => None,
    }
}

/// How a write or a sync ended.
fn end_row(act: &Act) -> Option<Row> {
    match (act.kind, act.value) {
        (WRITE, NOTHING) => Some(Row::WroteNothing),
        (WRITE, KEPT) => Some(Row::WroteKept),
        (WRITE, UNSURE) => Some(Row::WroteUnsure),
        (WRITE, KEPT_UNSURE) => Some(Row::WroteKeptUnsure),
        (SYNC, 0) => Some(Row::SyncedNot),
        (SYNC, 1) => Some(Row::SyncedKept),
        _ => None,
    }
}

/// What a writing tab did beside its own entry, or how it ended that.
fn writer_row(act: &Act, before: &Before, published: usize) -> Option<Row> {
    let Role::Writing {
        is_ending,
        is_durable,
        ..
    } = before.role
    else {
        return None;
    };
    match (act.kind, act.value) {
        (LINK, 0) => Some(Row::HandOver),
        (LINK, _) => is_durable.then_some(Row::DurableIsPublished),
        (RAISE, HALTED) if is_ending => Some(Row::EndingHalts),
        (RAISE, CLOSED) => match published {
            1 => Some(Row::ClosedWithOneSlot),
            2 => Some(Row::ClosedWithTwoSlots),
            3 => Some(Row::ClosedWithThreeSlots),
            _ => None,
        },
        _ => None,
    }
}

/// What a look at the map made of the search for a free slot.
fn looked_row(slots: u64, from: Option<u64>, to: Option<u64>) -> Option<Row> {
    let to = to?;
    if to >= slots {
        Some(Row::SearchEndsWithAll)
    } else {
        from.is_none().then_some(Row::SearchBegins)
    }
}

/// What a try for a slot made of it.
fn tried_row(slots: u64, slot: u32, from: Option<u64>, to: Option<u64>) -> Option<Row> {
    let from = from?;
    match to {
        None => (from == u64::from(slot)).then_some(Row::SearchTakes),
        Some(to) if to == from => None,
        Some(to) if to >= slots => Some(Row::SearchEndsWithAll),
        Some(_) => Some(Row::SearchGoesOn),
    }
}

/// What became of the search of a writing tab for a free slot.
fn search_row(core: &Core, act: &Act, before: &Before) -> Option<Row> {
    let Role::Writing { claim, .. } = before.role else {
        return None;
    };
    let now = match tab_of(core, seat_of(act)) {
        Some(Tab::Writing(writer)) => writer.claim,
        _ => None,
    };
    let slots = core.places().len() as u64;
    match act.kind {
        LOOK_MAP => looked_row(slots, claim, now),
        OWN => tried_row(slots, act.at, claim, now),
        _ => None,
    }
}

/// What a step made of each anchor: its epoch is the same, or changed as in the life of an anchor. One
/// anchor changes at most, and by one reader at most.
fn watch_anchors<R: Abort>(rt: &R, core: &Core, before: &Before, tally: &mut Tally) -> bool {
    let mut is_same = true;
    for anchor in 0..ANCHORS {
        let (Some(from), Some(to)) = (before.word(anchor), word_at(core, anchor)) else {
            assert!(rt; false, "no word at anchor {anchor}");
            return is_same;
        };
        if from == to {
            continue;
        }
        assert!(rt; is_same, "a step changed two anchors");
        is_same = false;
        if from.epoch == to.epoch {
            let readers = from.readers.abs_diff(to.readers);
            assert_eq!(rt; readers, 1, "readers at {anchor}");
            continue;
        }
        let row = life_row(&from, &to, published_at(core, anchor).len());
        assert!(rt; row.is_some(), "{from:?} became {to:?}");
        tally.add(row);
    }
    is_same
}

impl Watch {
    pub fn new() -> Self {
        Watch {
            has_retreated: [false; SEATS],
            read: [0; SEATS],
            makers: [0; NOTES],
            logged: 0,
        }
    }

    /// Counts all that a step brought about which answered this number.
    pub fn note_step<R: Abort>(
        &mut self,
        rt: &R,
        core: &Core,
        act: &Act,
        before: &Before,
        number: u64,
        tally: &mut Tally,
    ) {
        let kind = kind_row(act);
        assert!(rt; kind.is_some(), "no step is {act:?}");
        tally.add(kind);
        self.watch_log(rt, core, act, number);
        if act.kind == TRY_TURN {
            tally.add(watch_turn(rt, core, act, number, before.seen));
        }
        let is_same = watch_anchors(rt, core, before, tally);
        tally.add(doomed_row(act, before));
        tally.add(lost_row(act, before, number, is_same));
        tally.add(end_row(act));
        self.watch_wipes(rt, core, act, before, tally);
        let published = match before.anchor {
            Some(anchor) => published_at(core, anchor).len(),
            None => 0,
        };
        tally.add(writer_row(act, before, published));
        tally.add(search_row(core, act, before));
        tally.add(self.read_row(act, before));
        tally.add(self.last_row(core, act, before, is_same));
        tally.add(self.note_row(act, number));
    }

    /// What a step did towards a wiped slot, and what it tells of one.
    fn watch_wipes<R: Abort>(
        &self,
        rt: &R,
        core: &Core,
        act: &Act,
        before: &Before,
        tally: &mut Tally,
    ) {
        if matches!(before.role, Role::Freeing) {
            tally.add(wiper_row(act));
        }
        if act.kind == END_TURN && act.value == WIPED {
            watch_wiped(rt, core, act);
        }
        let word = before.anchor.and_then(|anchor| before.word(anchor));
        tally.add(wiped_row(core, act, word, before.seen));
    }

    /// The counter of logged pieces is how many were logged, and a step that logs one finds it.
    fn watch_log<R: Abort>(&mut self, rt: &R, core: &Core, act: &Act, number: u64) {
        if act.kind == LOG_PIECE {
            assert_eq!(rt; number, self.logged, "{act:?}");
            watch_logged(rt, core, act, number);
            self.logged = self.logged.saturating_add(1);
        }
        assert_eq!(rt; log_count(core), Some(self.logged), "{act:?}");
    }

    /// Whether a reader has read three slots of its entry now.
    fn read_row(&mut self, act: &Act, before: &Before) -> Option<Row> {
        let read = self.read.get_mut(index_of(seat_of(act)))?;
        match (act.kind, before.role) {
            (ENTER, _) => *read = 0,
            (CELL_IN, Role::Reading { place }) if place == *read => {
                *read = read.saturating_add(1);
                return (*read == 3).then_some(Row::ReadThreeSlots);
            }
            _ => {}
        }
        None
    }

    /// Whether a tab that retreated is last now, or has freed the entry that it left so.
    fn last_row(&mut self, core: &Core, act: &Act, before: &Before, is_same: bool) -> Option<Row> {
        let seat = seat_of(act);
        let has_retreated = self.has_retreated.get_mut(index_of(seat))?;
        match (act.kind, before.role) {
            (LEAVE, Role::Retreating) => {
                *has_retreated = matches!(tab_of(core, seat), Some(Tab::Last { .. }));
                has_retreated.then_some(Row::RetreatingIsLast)
            }
            (CHANGE, Role::Last) => {
                let frees = *has_retreated && !is_same;
                *has_retreated = false;
                frees.then_some(Row::RetreatedFrees)
            }
            (LEAVE, _) => {
                *has_retreated = false;
                None
            }
            _ => None,
        }
    }

    /// Whether a pass learned from a note of another.
    fn note_row(&mut self, act: &Act, number: u64) -> Option<Row> {
        match act.kind {
            NOTE => {
                let note = usize::try_from(number).ok()?;
                *self.makers.get_mut(note)? = act.pass;
                None
            }
            LEARN => {
                let maker = self.makers.get(act.at as usize)?;
                (*maker != act.pass).then_some(Row::LearnedFromAnother)
            }
            _ => None,
        }
    }
}
