// One line is answered.
ghost use Rattle.std.specs.Prelude.{◌≡◌, ℕ, ◌<◌, ◌++◌, [], ◌∷◌, None, IfOk, OnErr};
ghost use Rattle.std.specs.List.{Contains, list_any};
ghost use Rattle.script_text.specs.Tabs.{UsesTab};
ghost use Rattle.script_text.specs.declared.request.Request.TheVariants.{Mark, Await};
ghost use Rattle.marks.specs.Seats.{view, key, IsSeatOf};
ghost use Rattle.worker_pool.specs.Courses.{Kept, sets, IsServed};
ghost use Rattle.worker_pool.specs.Knowing.{Extends, Holds, Answered};

use crate::meeting::{meet_mark, set_mark};
use crate::notes::Of;
use marks::{MarkSeat, Marks};
use rock_io::Memory;
use script_text::{Answer, Line, Request, Shelf};
use std::alloc::Global;
use std::sync::Wait;

/// Whether a line sets the mark.
fn sets_mark(line: &Line, mark: u8) -> bool
    ensures { result ≡ sets mark line.now }
{
    match &line.request {
        Request::Mark { mark: set } => *set == mark,
        _ => false,
    }
}

/// Whether one of the lines sets the mark.
fn is_set(lines: &[Line], mark: u8) -> bool
    ensures { result ≡ list_any (sets mark) lines.now }
{
    lines.iter().any(|line| sets_mark(line, mark))
}

/// Serves a line, the lines before it in the script being `earlier`.
pub(crate) fn answered<R: Wait, H: Shelf>(
    rt: &R,
    alloc: Global,
    marks: &Marks<H::N, Of<H>>,
    earlier: &[Line],
    line: &Line,
    shelf: &mut H,
    seat: &mut MarkSeat<H::N, Of<H>>,
) -> Result<Answer, Memory>
    requires own { IsSeatOf marks.now seat.old }
    requires home { H.home shelf.old ≡ H.home (key marks.now) }
    requires takes { IsServed line.now.request → H.takes shelf.old line.now }
    requires may { (m : ℕ) → line.now.request ≡ Mark m → (m < 64) × Contains (view seat.old).held (m, None) }
    requires awaited { (m : ℕ) → line.now.request ≡ Await m → m < 64 }
    ensures own { IsSeatOf marks.now seat.new }
    ensures kept { Kept H.Shelf shelf.old shelf.new }
    ensures extends { Extends (view seat.old) (view seat.new) }
    ensures holds { Holds (earlier.now ++ line.now ∷ []) (view seat.old) (view seat.new) }
    ensures answered { IfOk result (λ answer. Answered H.Shelf earlier.now line.now shelf.old answer shelf.new (view seat.new)) }
    ensures wanted { OnErr result (IsServed line.now.request × ((tab : ℕ) → UsesTab line.now.request tab → H.is_free shelf.new tab)) }
{
    match &line.request {
        Request::Mark { mark } => {
            set_mark(marks, shelf, seat, *mark);
            Ok(Answer::Marked)
        }
        Request::Await { mark } => {
            if is_set(earlier, *mark) {
                meet_mark(rt, marks, shelf, seat, *mark);
                Ok(Answer::Met)
            } else {
                Ok(Answer::Unmet)
            }
        }
        _ => shelf.serve(rt, alloc, line),
    }
}
