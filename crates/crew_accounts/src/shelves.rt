// The course of a worker on a shelf is a course of its account. The function here does nothing: the proof of a function
// that calls it may use what it ensures.
ghost use Rattle.std.specs.Prelude.{Bool, Contains, IsTrue, List, ◌≡◌};
ghost use Rattle.line_account.specs.Courses.{Leaves, lines_in};
ghost use Rattle.store_rule.specs.declared.store.Store.{Store};
ghost use Rattle.store_rule.specs.Passes.{IsNewOf, basis, view};
ghost use Rattle.worker_pool.specs.Courses.{IsServed, Linked, Stage};
ghost use Rattle.store_serve.specs.Serving.{Takes};
ghost use Rattle.worker_shelf.specs.Shelves.{Left, OnShelf};
ghost use Rattle.crew_accounts.specs.Runs.{IsTold, Past, run_of};
ghost use Rattle.crew_accounts.specs.Courses.{HasCourse};
ghost use Rattle.worker_shelf.specs.Playing.{IsStep};

use crate::course::{ends_leave, lines_add, marks_add, new_passes_track};
use rock_disk::{Cell, Station};
use store_rule::Origin;

/// A worker that ran its lines on a new shelf, whose pass took each line that it served, has an account of them: each line,
/// with its answer, adds what it should to what the worker knew before it. And leaving the tabs adds the deeds of its end.
pub fn shelves_have_courses<C: Cell, O: Origin, St: Station<C = C>>()
    ensures course { (s : Store C O) (told : Bool) (past : Past) (start end : OnShelf C O St) (stages : List (Stage (OnShelf C O St)))
        → (IsTrue told → IsTold (basis C.tells C.state O.offers s) told past C.tells)
        → start.store ≡ s → IsNewOf C.tells C.state O.offers s start.pass → Linked start stages end
        → ((x : Stage (OnShelf C O St)) → Contains stages x → IsStep C.tells C.state O.offers St.faults x
        × (IsServed x.line.request → Takes C.tells C.state O.offers s x.before.pass x.line))
        → HasCourse C.tells C.state O.offers s told past start end stages }
    ensures leaves { (s : Store C O) (told : Bool) (past : Past) (start end last : OnShelf C O St) (stages : List (Stage (OnShelf C O St)))
        → (h : HasCourse C.tells C.state O.offers s told past start end stages) → Left C.tells C.state O.offers end last
        → Leaves (run_of (basis C.tells C.state O.offers s) told past) (view end.pass) (lines_in h.course) (view last.pass) }
{
    lines_add::<C, O>();
    marks_add::<C, O>();
    new_passes_track::<C, O>();
    ends_leave::<C, O>();
}
