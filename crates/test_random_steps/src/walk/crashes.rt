// Random steps with crashes and rebuilds among them.
use super::named::{Contents, entry_at, kept_at, words_of};
use super::wiping::is_wiped;
use core_lives::{FirstContent, Life};
use core_model::{Cell, LoggedPiece, Piece, Sight};
use core_state::{Act, Content, Core, Picks, Step, StepFault};
use std::alloc::Global;
use std::process::Abort;
use test_core_kit::{SLOT, life_over, live};
use test_core_walks::kinds::LOG_PIECE;
use test_core_walks::{
    ANCHORS, Numbers, PASSES, SLOTS, STORE, Seat, calm_of, choose, hold_of, next_seat,
};

/// Walks, each of so many allowed steps of passes, and the most tries of any step.
const WALKS: u32 = 100;

const STEPS: u32 = 1_000;

const TRIES: u32 = 20_000;

/// The chance of a crash, one in so many steps.
const CRASHES: u32 = 50;

/// The cell of a slot, at home or at the tab that has its turn.
fn cell_of(core: &Core, slot: u32) -> Option<&Cell<Content>> {
    if let Some(cell) = core.places().get(slot as usize)? {
        return Some(cell);
    }
    for view in core.views() {
        for tab in view.tabs.as_slice() {
            match hold_of(tab) {
                Some(hold) if hold.slot == slot => return Some(&hold.cell),
                _ => {}
            }
        }
    }
    None
}

/// The piece as it was logged for a slot, which some pass or note knows.
fn logged_as(core: &Core, slot: u32, piece: &Piece) -> Option<LoggedPiece> {
    for view in core.views() {
        for sight in view.seen.as_slice() {
            match sight {
                Sight::Logged(logged) if logged.slot == slot && logged.piece == *piece => {
                    return Some(*logged);
                }
                _ => {}
            }
        }
    }
    None
}

/// What a content of a slot is by names.
fn name_of(core: &Core, first: &Contents, slot: u32, content: &Content) -> Option<FirstContent> {
    match content {
        Content::Opened { .. } => first.get(slot as usize).copied(),
        Content::Offered(piece) => logged_as(core, slot, piece).map(FirstContent::Logged),
        Content::Blank => Some(FirstContent::Blank),
    }
}

/// How often what a walk is about came about.
#[derive(Debug, Drop)]
struct Counts {
    crashes: u32,
    rebuilds: u32,
    /// Crashes that met a cell in the hands of a tab.
    out: u32,
    /// Contents that were left, of those that a cell held before it was written last.
    old: u32,
    /// Entries that stand after a rebuild, with one piece and with more.
    single: u32,
    longer: u32,
    /// Entries that stand and stood at the opening before, too.
    again: u32,
    /// Pieces that are left in no entry that stands.
    parts: u32,
    /// Slots that are blank, and pieces that are left of entries of which a slot was wiped.
    blank: u32,
    wiped: u32,
}

/// A walk: its life, what slots held at the last opening, as the test has it, and the pieces that were logged.
#[derive(Drop)]
struct Walk {
    life: Life,
    first: Contents,
    offered: Vec<LoggedPiece>,
}

fn is_refused(found: &Result<u64, StepFault>, kind: u8) -> bool {
    *found == Err(StepFault::NotAllowed { kind })
}

/// One number for each slot, each of a content that a crash may leave, and what is left then.
fn pick(
    alloc: Global,
    numbers: &mut Numbers,
    walk: &Walk,
    counts: &mut Counts,
) -> Option<(Vec<u32>, Contents)> {
    let core = walk.life.core();
    let mut picks = Vec::new(alloc);
    let mut left = walk.first;
    for (slot, content) in (0..SLOTS).zip(left.iter_mut()) {
        let possible = cell_of(core, slot)?.possible.as_slice();
        let many = u32::try_from(possible.len()).ok()?;
        let number = numbers.below(many.max(1));
        picks.push(number).ok()?;
        if number > 0 {
            counts.old = counts.old.saturating_add(1);
        }
        let picked = possible.get(number as usize)?;
        *content = name_of(core, &walk.first, slot, picked)?;
    }
    Some((picks, left))
}

/// Counts what is left of entries of which a slot was wiped: no whole one of them.
fn count_wiped<R: Abort>(rt: &R, walk: &Walk, left: &Contents, counts: &mut Counts) {
    let core = walk.life.core();
    for (slot, content) in (0..SLOTS).zip(left.iter()) {
        match content {
            FirstContent::Blank => counts.blank = counts.blank.saturating_add(1),
            FirstContent::Logged(logged) if is_wiped(core, logged.piece.version) => {
                counts.wiped = counts.wiped.saturating_add(1);
                assert!(rt; entry_at(left, slot).is_none(), "{logged:?} was wiped");
            }
            _ => {}
        }
    }
}

/// Counts what stands after a rebuild of these contents, and looks whether each entry was offered.
fn count_entries<R: Abort>(rt: &R, walk: &Walk, left: &Contents, counts: &mut Counts) {
    let mut parts = 0u32;
    for content in left {
        if matches!(content, FirstContent::Logged(_)) {
            parts = parts.saturating_add(1);
        }
    }
    for anchor in 0..ANCHORS {
        let Some(entry) = kept_at(left, anchor) else {
            continue;
        };
        let count = entry.slots().len();
        if count == 1 {
            counts.single = counts.single.saturating_add(1);
        } else {
            counts.longer = counts.longer.saturating_add(1);
        }
        if walk.first.contains(&FirstContent::Logged(entry.head)) {
            counts.again = counts.again.saturating_add(1);
        }
        parts = parts.saturating_sub(u32::try_from(count).unwrap_or(0));
        assert!(rt;
            walk.offered.contains(&entry.head),
            "nobody logged {:?}",
            entry.head
        );
    }
    counts.parts = counts.parts.saturating_add(parts);
}

/// A crash comes, nothing but a rebuild is allowed then, and the core that it opens is as the test computes.
fn crash<R: Abort>(
    rt: &R,
    alloc: Global,
    numbers: &mut Numbers,
    walk: &mut Walk,
    counts: &mut Counts,
    act: &Act,
) -> Option<()> {
    let is_home = walk
        .life
        .core()
        .places()
        .iter()
        .all(|place| place.is_some());
    if !is_home {
        counts.out = counts.out.saturating_add(1);
    }
    assert!(rt;
        is_refused(&live(&mut walk.life, &Step::Rebuild), 24),
        "a rebuild without a crash"
    );
    let (picks, left) = pick(alloc, numbers, walk, counts)?;
    count_wiped(rt, walk, &left, counts);
    let again = picks.clone().ok()?;
    let picks = Picks::from_vec(picks);
    assert_eq!(rt;
        live(&mut walk.life, &Step::Crash { picks }),
        Ok(0),
        "a crash"
    );
    counts.crashes = counts.crashes.saturating_add(1);
    assert!(rt;
        is_refused(&live(&mut walk.life, &Step::Act(*act)), act.kind),
        "{act:?}"
    );
    let picks = Picks::from_vec(again);
    assert!(rt;
        is_refused(&live(&mut walk.life, &Step::Crash { picks }), 23),
        "a second crash"
    );
    assert_eq!(rt; live(&mut walk.life, &Step::Rebuild), Ok(0), "a rebuild");
    counts.rebuilds = counts.rebuilds.saturating_add(1);
    assert!(rt; walk.life.first_contents() == left.as_slice(), "{left:?}");
    check_opened(rt, alloc, &walk.life, &left)?;
    count_entries(rt, walk, &left, counts);
    walk.first = left;
    Some(())
}

/// The words and the chains of a core that was opened are those of what slots hold, and no pass knows a piece.
fn check_opened<R: Abort>(rt: &R, alloc: Global, life: &Life, left: &Contents) -> Option<()> {
    let core = life.core();
    let words = words_of(alloc, left)?;
    assert!(rt;
        core.words() == words.as_slice(),
        "{:?}, and not {words:?}",
        core.words()
    );
    for (anchor, chain) in (0..ANCHORS).zip(core.chains()) {
        let kept = kept_at(left, anchor);
        let slots = match &kept {
            Some(entry) => entry.slots(),
            None => &[],
        };
        assert!(rt;
            chain.slots.as_slice() == slots,
            "the chain of anchor {anchor}"
        );
    }
    assert_eq!(rt; core.views().len(), PASSES as usize, "passes, and no note");
    for view in core.views() {
        let pieces = view
            .seen
            .as_slice()
            .iter()
            .any(|sight| matches!(sight, Sight::Logged(_)));
        assert!(rt; !pieces, "a piece that a new pass knows");
    }
    Some(())
}

/// The piece that the pass of a step has come to know last.
fn newest_piece(core: &Core, act: &Act) -> Option<LoggedPiece> {
    let view = core.views().get(act.pass as usize)?;
    match view.seen.as_slice().last()? {
        Sight::Logged(logged) => Some(*logged),
        _ => None,
    }
}

/// A step of a pass, whether it was made.
fn act_on<R: Abort>(rt: &R, walk: &mut Walk, act: &Act) -> Option<bool> {
    match live(&mut walk.life, &Step::Act(*act)) {
        Ok(_) => {
            if act.kind == LOG_PIECE {
                let logged = newest_piece(walk.life.core(), act)?;
                walk.offered.push(logged).ok()?;
            }
            Some(true)
        }
        Err(fault) => {
            let refused = StepFault::NotAllowed { kind: act.kind };
            assert_eq!(rt; fault, refused, "{act:?}");
            Some(false)
        }
    }
}

/// A walk over a file of empty slots. None where there is no memory.
fn walk_from<R: Abort>(rt: &R, alloc: Global, seed: u32, counts: &mut Counts) -> Option<()> {
    let mut bytes = Vec::new(alloc);
    bytes.resize(SLOTS as usize * SLOT, 0).ok()?;
    let mut walk = Walk {
        life: life_over(alloc, &bytes, ANCHORS, PASSES)?,
        first: [FirstContent::File; SLOTS as usize],
        offered: Vec::new(alloc),
    };
    let mut numbers = Numbers::new(u64::from(seed));
    let mut seat = Seat { pass: 0, tab: 0 };
    let calm = calm_of(seed);
    let mut made = 0u32;
    for _ in 0..TRIES {
        if made == STEPS {
            break;
        }
        seat = next_seat(&mut numbers, walk.life.core(), seat, calm);
        let act = choose(&mut numbers, &STORE, walk.life.core(), seat);
        if act_on(rt, &mut walk, &act)? {
            made = made.saturating_add(1);
            if numbers.is_one_in(CRASHES) {
                crash(rt, alloc, &mut numbers, &mut walk, counts, &act)?;
            }
        }
    }
    assert_eq!(rt; made, STEPS, "the steps from {seed}");
    Some(())
}

#[test]
fn random_crashes_leave_what_names_tell(rt: HostRuntime) {
    let mut counts = Counts {
        crashes: 0,
        rebuilds: 0,
        out: 0,
        old: 0,
        single: 0,
        longer: 0,
        again: 0,
        parts: 0,
        blank: 0,
        wiped: 0,
    };
    for seed in 1..=WALKS {
        let walked = walk_from(&rt, rt.alloc(), seed, &mut counts);
        assert!(rt; walked.is_some(), "the walk from {seed}");
    }
    let all = [
        counts.crashes,
        counts.rebuilds,
        counts.out,
        counts.old,
        counts.single,
        counts.longer,
        counts.again,
        counts.parts,
        counts.blank,
        counts.wiped,
    ];
    assert!(rt; all.iter().all(|count| *count > 0), "{counts:?}");
}
