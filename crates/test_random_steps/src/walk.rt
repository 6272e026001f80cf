// Random allowed steps of all kinds, and what each brings about.
mod crashes;
mod life;
mod log;
mod named;
mod room;
mod rows;
mod watch;
mod wiping;

use core_state::{Step, StepFault};
use log::check_log;
use room::{Near, keeps_room, watch_room};
use rows::{Row, Tally};
use std::alloc::Global;
use std::process::Abort;
use test_core_kit::make;
use test_core_walks::{
    Numbers, STORE, STORES_THAT_FIT, Seat, Store, calm_of, choose, core_of, next_seat,
};
use watch::{Before, Watch};

/// Walks, each from a core of its own, since what a pass has seen only grows; and those over each store that fits.
const WALKS: u32 = 500;

const WALKS_THAT_FIT: u32 = 25;

/// The allowed steps of each walk, and the most tries of any step.
const STEPS: u32 = 1_000;

const TRIES: u32 = 50_000;

/// A walk from a new core. A step that is not allowed is refused with its kind. In a store that fits each step keeps to
/// what is asked there, and there is room after it.
fn walk_from<R: Abort>(
    rt: &R,
    alloc: Global,
    store: &Store,
    seed: u32,
    tally: &mut Tally,
    near: &mut Near,
) {
    let Some(mut core) = core_of(alloc, store) else {
        assert!(rt; false, "no core");
        return;
    };
    let mut numbers = Numbers::new(u64::from(seed));
    let mut watch = Watch::new();
    let mut seat = Seat { pass: 0, tab: 0 };
    let calm = calm_of(seed);
    let mut made = 0;
    for _ in 0..TRIES {
        if made == STEPS {
            break;
        }
        seat = next_seat(&mut numbers, &core, seat, calm);
        let act = choose(&mut numbers, store, &core, seat);
        if !keeps_room(store, &core, &act) {
            continue;
        }
        let before = Before::new(&core, &act);
        match make(&mut core, &Step::Act(act)) {
            Ok(number) => {
                made = made.saturating_add(1);
                watch.note_step(rt, &core, &act, &before, number, tally);
                watch_room(rt, store, &core, &act, near);
            }
            Err(fault) => {
                let refused = StepFault::NotAllowed { kind: act.kind };
                assert_eq!(rt; fault, refused, "{act:?}");
            }
        }
    }
    assert_eq!(rt; made, STEPS, "the steps from {seed}");
    check_log(rt, &core);
}

#[test]
fn random_steps_bring_about_each_row(rt: HostRuntime) {
    let (mut tally, mut near) = (Tally::new(), Near::new());
    for seed in 1..=WALKS {
        walk_from(&rt, rt.alloc(), &STORE, seed, &mut tally, &mut near);
    }
    tally.assert_all(&rt);
}

/// What comes about in a store that fits, and what never does.
const BROUGHT: [Row; 8] = [
    Row::SearchBegins,
    Row::SearchGoesOn,
    Row::SearchTakes,
    Row::LostOwn,
    Row::ClosedIsTaken,
    Row::TakenIsClosed,
    Row::DoomedIsFreed,
    Row::HaltedIsFreed,
];

const NEVER: [Row; 4] = [
    Row::SearchEndsWithAll,
    Row::ClosedIsEvicted,
    Row::LostEvictByInner,
    Row::HandOver,
];

#[test]
fn searches_find_slots_in_stores_that_fit(rt: HostRuntime) {
    for store in &STORES_THAT_FIT {
        assert_eq!(rt;
            store.most(),
            store.slots,
            "{store:?} fits, with no slot to spare"
        );
        let (mut tally, mut near) = (Tally::new(), Near::new());
        for seed in 1..=WALKS_THAT_FIT {
            walk_from(&rt, rt.alloc(), store, seed, &mut tally, &mut near);
        }
        for row in BROUGHT {
            assert!(rt; tally.count(row) > 0, "{store:?}: {row:?} never came about");
        }
        for row in NEVER {
            assert_eq!(rt; tally.count(row), 0, "{store:?}: {row:?}");
        }
        near.assert_all(&rt, store);
    }
}
