// Steps that make sense for a tab, and now and then any step.
ghost use Rattle.std.specs.Prelude.{◌<◌};

use super::freeing::freer_act;
use super::kinds::{CHANGE, COUNT, DRAW, ENTER, KIND_END, LEARN, LEAVE, LOOK, NOTE};
use super::random::Numbers;
use super::reading::reader_act;
use super::store::Store;
use super::straying::stray_act;
use super::table::hold_of;
use super::writing::writer_act;
use super::{ANCHORS, PASSES};
use core_model::{INNER_TAB, Kind, Tab, View};
use core_state::{Act, Content, Core};
use lock_word::{Word, is_idle, is_vacant, unpack};

/// The tabs that take part, the inner one among them.
const SEATED: [u8; 4] = [0, 1, 7, INNER_TAB];

/// Chances, each one in so many: of any step, of any step of the tab there, and of a lesson.
const ANY: u32 = 16;

const STRAYS: u32 = 8;

const LEARNS: u32 = 200;

/// That the same tab goes on, and that one that is asked does, where it has no turn.
const STAYS: u32 = 2;

const GOES_ON: u32 = 2;

/// That a free tab that is asked begins something, in a lively walk and in a calm one.
const LIVELY: u32 = 12;

const CALM: u32 = 40;

/// How many tabs are asked.
const ASKED: u32 = 24;

/// Numbers of a step of any kind are below these.
const AT_END: u32 = 9;

const VALUE_END: u32 = 9;

/// A pass and a tab of it.
#[derive(Clone, Copy)]
pub struct Seat {
    pub pass: u32,
    pub tab: u8,
}

impl Seat {
    /// A step of this tab.
    pub fn act(self, kind: u8, at: u32, value: u64) -> Act {
        Act {
            pass: self.pass,
            tab: self.tab,
            kind,
            at,
            value,
        }
    }

    /// The inner tab of this pass.
    pub fn inner(self) -> Seat {
        Seat {
            pass: self.pass,
            tab: INNER_TAB,
        }
    }
}

/// How rarely a free tab begins something: every other walk is calm.
pub fn calm_of(seed: u32) -> u32
    ensures { 0 < result }
{
    if seed.is_multiple_of(2) { CALM } else { LIVELY }
}

/// Where the next step is tried: at the same tab, or at any that takes part, and sooner at a busy one.
pub fn next_seat(numbers: &mut Numbers, core: &Core, seat: Seat, calm: u32) -> Seat
    requires { 0 < calm }
{
    if numbers.is_one_in(STAYS) {
        return seat;
    }
    for _ in 0..ASKED {
        let next = any_seat(numbers);
        let is_taken = match tab_of(core, next) {
            Some(Tab::Free) => numbers.is_one_in(calm),
            Some(tab) => hold_of(tab).is_some() || numbers.is_one_in(GOES_ON),
            None => false,
        };
        if is_taken {
            return next;
        }
    }
    any_seat(numbers)
}

fn any_seat(numbers: &mut Numbers) -> Seat {
    Seat {
        pass: numbers.below(PASSES),
        tab: SEATED[numbers.below(4) as usize],
    }
}

/// The tab there.
pub fn tab_of(core: &Core, seat: Seat) -> Option<&Tab<Content>> {
    let view = core.views().get(seat.pass as usize)?;
    view.tabs.as_slice().get(seat.tab as usize)
}

/// A step that makes sense for the tab there, or now and then another.
pub fn choose(numbers: &mut Numbers, store: &Store, core: &Core, seat: Seat) -> Act {
    if numbers.is_one_in(LEARNS) {
        return note_act(core, seat);
    }
    let view = core.views().get(seat.pass as usize);
    match (view, tab_of(core, seat)) {
        (Some(view), Some(tab)) if !numbers.is_one_in(ANY) => {
            if numbers.is_one_in(STRAYS) {
                return stray_act(numbers, store, seat, view, tab);
            }
            tab_act(numbers, store, seat, view, tab)
        }
        _ => any_act(numbers, core),
    }
}

/// A lesson from the first note that is there, or else a note.
fn note_act(core: &Core, seat: Seat) -> Act {
    let mut notes = core.views().iter().skip(core.passes() as usize);
    let note = notes.position(|view| !view.seen.as_slice().is_empty());
    match note.and_then(|note| u32::try_from(note).ok()) {
        Some(note) => seat.act(LEARN, note, 0),
        None => seat.act(NOTE, 0, 0),
    }
}

/// A step of any kind, also of none that there is, with any numbers.
fn any_act(numbers: &mut Numbers, core: &Core) -> Act {
    let seat = Seat {
        pass: numbers.below(PASSES + 1),
        tab: numbers.below(u32::from(INNER_TAB) + 2) as u8,
    };
    let kind = numbers.below(KIND_END) as u8;
    let at = numbers.below(AT_END);
    let held = core
        .views()
        .get(seat.pass as usize)
        .and_then(newest_version);
    let value = match numbers.below(4) {
        0 => 0,
        1 => u64::MAX,
        2 => held.map_or(0, u64::from),
        _ => u64::from(numbers.below(VALUE_END)),
    };
    seat.act(kind, at, value)
}

pub(super) fn newest_version(view: &View<Content>) -> Option<u32> {
    view.held.as_slice().first().copied()
}

/// A step that makes sense for the tab there.
fn tab_act(
    numbers: &mut Numbers,
    store: &Store,
    seat: Seat,
    view: &View<Content>,
    tab: &Tab<Content>,
) -> Act {
    match tab {
        Tab::Free if seat.tab == INNER_TAB => evict_act(numbers, seat, view),
        Tab::Free => free_act(numbers, seat, view),
        Tab::Retreating { .. } => seat.act(LEAVE, 0, 0),
        Tab::Reading(reader) => reader_act(numbers, seat, reader),
        Tab::Writing(writer) => writer_act(numbers, store, seat, view, writer),
        Tab::Last { anchor } => last_act(numbers, seat, view, *anchor),
        Tab::Freeing(freer) => freer_act(numbers, seat, view, freer),
    }
}

/// Whether the inner tab of the pass is free, and what it gives back else.
pub fn inner_tab(view: &View<Content>) -> Option<&Tab<Content>> {
    view.tabs.as_slice().get(INNER_TAB as usize)
}

fn is_inner_free(view: &View<Content>) -> bool {
    matches!(inner_tab(view), Some(Tab::Free))
}

/// What the trail of a pass tells of an anchor and of versions.
#[derive(Clone, Copy)]
struct Knowledge {
    /// The word as the pass last found it.
    word: Option<Word>,
    /// The version that it drew since.
    drawn: Option<u32>,
    /// Whether it looked at the counter and has not drawn since.
    is_counted: bool,
}

fn knowledge_of(view: &View<Content>, anchor: u32) -> Knowledge {
    let mut known = Knowledge {
        word: None,
        drawn: None,
        is_counted: false,
    };
    for item in view.trail.as_slice() {
        match item.kind {
            Kind::Counted => known.is_counted = true,
            Kind::Drew => {
                known.is_counted = false;
                known.drawn = u32::try_from(item.found.saturating_add(1)).ok();
            }
            Kind::Looked | Kind::Entered | Kind::Left | Kind::Changed | Kind::Raised | Kind::Doomed
                if item.at == anchor => {
                known.word = unpack(item.found);
                known.drawn = None;
            }
            _ => {}
        }
    }
    known
}

/// A free tab enters, looks, or goes on towards a new entry.
fn free_act(numbers: &mut Numbers, seat: Seat, view: &View<Content>) -> Act {
    let anchor = numbers.below(ANCHORS);
    match numbers.below(8) {
        0 | 1 => seat.act(ENTER, anchor, 0),
        2 => seat.act(LOOK, anchor, 0),
        _ => begin_act(seat, view, anchor),
    }
}

/// The next step towards a new entry at an anchor: a look, a version, and the anchor itself.
fn begin_act(seat: Seat, view: &View<Content>, anchor: u32) -> Act {
    let known = knowledge_of(view, anchor);
    let is_fit = known.word.is_some_and(|word| is_vacant(&word)
        || (is_idle(&word) && is_inner_free(view)));
    if !is_fit {
        return seat.act(LOOK, anchor, 0);
    }
    match known.drawn {
        Some(version) if view.held.as_slice().contains(&version) => {
            seat.act(CHANGE, anchor, u64::from(version))
        }
        _ if known.is_counted => seat.act(DRAW, 0, 0),
        _ => seat.act(COUNT, 0, 0),
    }
}

/// The inner tab evicts an entry that its pass found idle, or looks for one.
pub(super) fn evict_act(numbers: &mut Numbers, seat: Seat, view: &View<Content>) -> Act {
    let anchor = numbers.below(ANCHORS);
    let known = knowledge_of(view, anchor);
    if known.word.is_some_and(|word| is_idle(&word)) {
        seat.act(CHANGE, anchor, 0)
    } else {
        seat.act(LOOK, anchor, 0)
    }
}

/// A tab that is last has its entry freed, once the inner tab is free.
fn last_act(numbers: &mut Numbers, seat: Seat, view: &View<Content>, anchor: u32) -> Act {
    match inner_tab(view) {
        Some(Tab::Freeing(freer)) => freer_act(numbers, seat.inner(), view, freer),
        _ => seat.act(CHANGE, anchor, 0),
    }
}
