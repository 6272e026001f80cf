// The stores over which walks go.
use super::choice::Seat;
use super::kinds::{CHANGE, COUNT, DRAW, LOOK, OWN};
use super::random::Numbers;
use super::{ANCHORS, PASSES, SLOTS};
use core_model::Writer;
use core_state::{Act, Content, Core, Step};
use std::alloc::Global;
use test_core_kit::{blank_core, make};

/// What each of the writers that fill a store has reserved, and how many of these a pass has.
const FILLED: u32 = 2;

const FILLERS: u32 = 8;

/// A store: `SLOTS` slots of it are free for the passes of a walk, and those in front of them are taken all along, by
/// writers of further passes at further anchors.
#[derive(Clone, Copy, Debug)]
pub struct Store {
    pub slots: u32,
    /// How many writers have the slots in front.
    pub fillers: u32,
    /// The most slots that a writer may come to need at each anchor of the walk, where the store is one that fits.
    pub needs: Option<[u32; ANCHORS as usize]>,
}

/// One of which nothing is said.
pub const STORE: Store = Store {
    slots: SLOTS,
    fillers: 0,
    needs: None,
};

/// Those that fit, with no slot to spare. In the last ones the free slots are the last two of the first word of the map
/// and the first two of the second, and the first word is full.
pub const STORES_THAT_FIT: [Store; 4] = [
    Store {
        slots: 4,
        fillers: 0,
        needs: Some([2, 2]),
    },
    Store {
        slots: 4,
        fillers: 0,
        needs: Some([1, 3]),
    },
    Store {
        slots: 66,
        fillers: 31,
        needs: Some([2, 2]),
    },
    Store {
        slots: 68,
        fillers: 32,
        needs: Some([3, 1]),
    },
];

impl Store {
    /// The most slots that an anchor ever holds, where the store is one that fits: it is opened over empty slots.
    pub fn capacity(&self, anchor: usize) -> Option<u32> {
        let needs = self.needs.as_ref()?;
        let need = match needs.get(anchor) {
            Some(need) => *need,
            None => FILLED,
        };
        Some(need.min(self.slots))
    }

    /// The most that all anchors of a store that fits ever hold.
    pub fn most(&self) -> u32 {
        let mut most = 0u32;
        for anchor in 0..ANCHORS.saturating_add(self.fillers) {
            let capacity = self.capacity(anchor as usize).unwrap_or(0);
            most = most.saturating_add(capacity);
        }
        most
    }

    /// Whether a writer with one slot more has no more than its anchor may hold.
    pub fn is_within(&self, writer: &Writer<Content>) -> bool {
        let Some(capacity) = self.capacity(writer.anchor as usize) else {
            return true;
        };
        let published = writer.published.as_slice().len();
        let has = published.saturating_add(writer.reserved.as_slice().len());
        has < capacity as usize
    }

    /// One of the slots that are not taken all along.
    pub fn any_slot(&self, numbers: &mut Numbers) -> u32 {
        let slot = numbers.below(SLOTS);
        self.slots.saturating_sub(SLOTS).saturating_add(slot)
    }
}

/// A new core of the store, with the slots in front taken.
pub fn core_of(alloc: Global, store: &Store) -> Option<Core> {
    let anchors = ANCHORS.saturating_add(store.fillers);
    let passes = PASSES.saturating_add(store.fillers.div_ceil(FILLERS));
    let mut core = blank_core(alloc, store.slots, anchors, passes)?;
    for filler in 0..store.fillers {
        fill(&mut core, filler)?;
    }
    Some(core)
}

/// A writer takes an anchor and reserves the next two slots.
fn fill(core: &mut Core, filler: u32) -> Option<()> {
    let seat = Seat {
        pass: PASSES.saturating_add(filler / FILLERS),
        tab: (filler % FILLERS) as u8,
    };
    let (anchor, slot) = (
        ANCHORS.saturating_add(filler),
        FILLED.saturating_mul(filler),
    );
    step(core, seat.act(LOOK, anchor, 0))?;
    step(core, seat.act(COUNT, 0, 0))?;
    let version = step(core, seat.act(DRAW, 0, 0))?.saturating_add(1);
    step(core, seat.act(CHANGE, anchor, version))?;
    step(core, seat.act(OWN, slot, 0))?;
    step(core, seat.act(OWN, slot.saturating_add(1), 0))?;
    Some(())
}

fn step(core: &mut Core, act: Act) -> Option<u64> {
    make(core, &Step::Act(act)).ok()
}
