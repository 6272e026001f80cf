// A crash after each step by which an entry is stored, purged, and its slot wiped.
use super::{kind_of, step_in};
use core_lives::Life;
use core_state::{Picks, Step};
use std::alloc::Global;
use std::process::Abort;
use test_core_kit::{SLOT, answer_in, life_over, live, parted};

/// An entry of one slot is stored durably in a new store of one slot, and purged by its last user. The inner tab has the cell of
/// its slot out then. Each row has a step, what it answers, and the version that stands at the anchor after a crash and a
/// rebuild: by each content of the slot that a crash may leave then, the one written last first. 0: no entry stands.
const STORED: &str = "\
0 0 1 0 0 = 0 | 0
0 0 4 0 0 = 0 | 0
0 0 5 0 0 = 0 | 0
0 0 6 0 1 = 0 | 0
0 0 9 4 77 = 0 | 0
0 0 9 5 78 = 0 | 0
0 0 9 6 123 = 0 | 0
0 0 10 0 0 = 0 | 0
0 0 14 0 1 = 0 | 0
0 0 15 0 0 = 0 | 0
0 0 17 0 0 = 0 | 0
0 0 21 0 1 = 0 | 1 0
0 0 22 0 1 = 0 | 1
0 0 18 0 0 = 0 | 1
0 0 16 0 0 = 1 | 1
0 0 12 0 1 = 0 | 1
0 0 9 7 1 = 0 | 1
0 0 7 0 3 = word 1 3 0 | 1
0 1 2 0 0 = word 1 3 0 | 1
0 1 8 0 0 = word 1 11 1 | 1
0 1 3 0 0 = word 1 11 0 | 1
0 1 6 0 0 = word 1 11 0 | 1
0 8 15 0 0 = 0 | 1
0 8 17 0 0 = 0 | 1
";

/// The slot is wiped, the entry gone, and another one written over it.
const WIPED: &str = "\
0 8 21 0 1 = 0 | 0 1
0 8 22 0 1 = 0 | 0
0 8 18 0 0 = 0 | 0
0 8 16 0 2 = 1 | 0
0 8 13 0 0 = 1 | 0
0 8 12 0 0 = 1 | 0
0 8 11 0 0 = 1 | 0
0 8 7 0 6 = word 1 14 0 | 0
0 0 1 0 0 = word 1 14 0 | 0
0 0 4 0 0 = 1 | 0
0 0 5 0 0 = 1 | 0
0 0 6 0 2 = word 1 14 0 | 0
0 0 9 4 5 = 0 | 0
0 0 9 5 6 = 0 | 0
0 0 9 6 9 = 0 | 0
0 0 10 0 0 = 0 | 0
0 0 14 0 0 = 1 | 0
0 0 15 0 0 = 0 | 0
0 0 17 0 0 = 0 | 0
0 0 21 0 1 = 0 | 2 0
";

/// The same with no sync: it is not allowed to say that the slot was wiped.
const NOT_SYNCED: &str = "\
0 8 21 0 1 = 0 | 0 1
0 8 18 0 0 = 0 | 0 1
0 8 16 0 2 = refused | 0 1
0 8 16 0 0 = 1 | 0 1
0 8 13 0 0 = 1 | 0 1
0 8 12 0 0 = 1 | 0 1
0 8 11 0 0 = 1 | 0 1
0 8 7 0 6 = word 1 14 0 | 0 1
";

/// Nor where the write and the sync fail: what was written may be left, and what was there before.
const FAILED: &str = "\
0 8 21 0 2 = 0 | 0 1
0 8 21 0 0 = 0 | 0 1
0 8 22 0 0 = 0 | 0 1
0 8 18 0 0 = 0 | 0 1
0 8 16 0 2 = refused | 0 1
0 8 16 0 0 = 1 | 0 1
0 8 13 0 0 = 1 | 0 1
";

/// A new life after so many rows of these texts. None where there is no memory, or a row that nobody can read.
fn life_after<R: Abort>(rt: &R, alloc: Global, texts: &[&str; 2], count: usize) -> Option<Life> {
    let mut life = life_over(alloc, &[0; SLOT], 1, 1)?;
    let rows = texts[0].lines().chain(texts[1].lines());
    for row in rows.take(count) {
        let (made, _) = parted(row, " | ")?;
        let (step, answer) = parted(made, " = ")?;
        let step = step_in(alloc, step)?;
        let found = live(&mut life, &step);
        assert!(rt;
            Some(found) == answer_in(kind_of(&step), answer),
            "{row}: {found:?}"
        );
    }
    Some(life)
}

/// The version that stands after a crash that leaves the content of this number. None where no crash leaves it.
fn version_left(alloc: Global, life: &mut Life, number: u32) -> Option<u64> {
    let mut picks = Vec::new(alloc);
    picks.push(number).ok()?;
    let picks = Picks::from_vec(picks);
    live(life, &Step::Crash { picks }).ok()?;
    live(life, &Step::Rebuild).ok()?;
    Some(*life.core().words().first()? >> 32)
}

/// After so many rows a crash leaves what the last of them, which is this one, says, and nothing else.
fn check_row<R: Abort>(
    rt: &R,
    alloc: Global,
    texts: &[&str; 2],
    count: usize,
    row: &str,
) -> Option<()> {
    let (_, left) = parted(row, " | ")?;
    let mut number = 0u32;
    for version in left.split(' ') {
        let mut life = life_after(rt, alloc, texts, count)?;
        let found = version_left(alloc, &mut life, number);
        assert!(rt;
            found.is_some() && found == version.parse().ok(),
            "{row}: {number}, {found:?}"
        );
        number = number.saturating_add(1);
    }
    let mut life = life_after(rt, alloc, texts, count)?;
    let found = version_left(alloc, &mut life, number);
    assert!(rt; found.is_none(), "{row}: {number}, {found:?}");
    Some(())
}

#[test]
fn a_crash_after_each_step_of_a_wipe_leaves_what_it_should(rt: HostRuntime) {
    let alloc = rt.alloc();
    for (end, wanted) in [(WIPED, 44), (NOT_SYNCED, 32), (FAILED, 31)] {
        let texts = [STORED, end];
        let mut count = 0usize;
        for row in STORED.lines().chain(end.lines()) {
            count = count.saturating_add(1);
            let checked = check_row(&rt, alloc, &texts, count, row);
            assert!(rt; checked.is_some(), "{row}");
        }
        assert_eq!(rt; count, wanted);
    }
}
