// Marks are set and met.
ghost use Rattle.std.specs.Prelude.{◌≡◌, ℕ, ◌<◌, Some, None};
ghost use Rattle.std.specs.List.{Contains};
ghost use Rattle.marks.specs.Ruled.{Knows};
ghost use Rattle.marks.specs.Views.{after_met};
ghost use Rattle.marks.specs.Seats.{view, key, IsSeatOf};
ghost use Rattle.worker_pool.specs.Courses.{Kept};
ghost use Rattle.worker_pool.specs.Knowing.{HasSet, HasMet};

use crate::notes::Of;
use marks::{MarkSeat, Marks};
use script_text::Shelf;
use std::sync::Wait;
use std::sync::atomic::AtomicU64;
use std::thread;
use std::time::Duration;

/// Sets a mark to a note of the shelf.
pub(crate) fn set_mark<H: Shelf>(
    marks: &Marks<H::N, Of<H>>,
    shelf: &mut H,
    seat: &mut MarkSeat<H::N, Of<H>>,
    mark: u8,
)
    requires own { IsSeatOf marks.now seat.old }
    requires may { (mark < 64) × Contains (view seat.old).held (mark, None) }
    requires home { H.home shelf.old ≡ H.home (key marks.now) }
    ensures own { IsSeatOf marks.now seat.new }
    ensures kept { Kept H.Shelf shelf.old shelf.new }
    ensures set { HasSet H.Shelf mark shelf.old shelf.new (view seat.old) (view seat.new) }
{
    let note = shelf.note();
    marks.set(seat, mark, note);
}

// Looks until a note lies at the mark.
fn wait_for<R: Wait, H: Shelf>(
    rt: &R,
    marks: &Marks<H::N, Of<H>>,
    seat: &mut MarkSeat<H::N, Of<H>>,
    mark: u8,
) -> H::N
    requires own { IsSeatOf marks.now seat.old }
    requires mark { mark < 64 }
    ensures own { IsSeatOf marks.now seat.new }
    ensures met { (was : H.N) × (view seat.new ≡ after_met mark was result (view seat.old)) × Knows H.note_knows was result }
    ensures home { H.note_home result ≡ H.home (key marks.now) }
{
    let mut looks = 0;
    for _ in rt.forever() {
        if let Some(note) = marks.look(seat, mark) {
            return note;
        }
        rest(rt, looks);
        looks = MOST_LOOKS.min(looks + 1);
    }
    unreachable!()
}

/// How many looks a worker makes that only yields between them.
const QUICK_LOOKS: u64 = 100;

/// The looks from which on it sleeps no longer.
const MOST_LOOKS: u64 = QUICK_LOOKS + 1_000;

// Rests after so many looks: at first for others that want the processor, and then, the longer the wait the longer, for up to
// a millisecond.
fn rest<R: Wait>(rt: &R, looks: u64) {
    if looks < QUICK_LOOKS {
        thread::yield_now();
        return;
    }
    let micros = looks.min(MOST_LOOKS) - QUICK_LOOKS;
    // Nobody wakes it, so it sleeps until the time is over.
    AtomicU64::new(0).park_timeout(rt, 0, Duration::from_micros(micros));
}

/// Waits for a mark, learns the note that lies there, and leaves a new one.
pub(crate) fn meet_mark<R: Wait, H: Shelf>(
    rt: &R,
    marks: &Marks<H::N, Of<H>>,
    shelf: &mut H,
    seat: &mut MarkSeat<H::N, Of<H>>,
    mark: u8,
)
    requires own { IsSeatOf marks.now seat.old }
    requires mark { mark < 64 }
    requires home { H.home shelf.old ≡ H.home (key marks.now) }
    ensures own { IsSeatOf marks.now seat.new }
    ensures kept { Kept H.Shelf shelf.old shelf.new }
    ensures met { HasMet H.Shelf mark shelf.old shelf.new (view seat.old) (view seat.new) }
{
    let note = wait_for(rt, marks, seat, mark);
    shelf.learn(note);
    let again = shelf.note();
    marks.put(seat, mark, again);
}
