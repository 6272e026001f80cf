// Where a worker begins and ends, and its lines at marks. The functions here do nothing: the proof of a function that
// calls one may use what it ensures.
ghost use Rattle.std.specs.Prelude.{◌≡◌, Bool, List, [], IsTrue, ℕ};
ghost use Rattle.script_text.specs.declared.answer.Answer.{Answer};
ghost use Rattle.script_text.specs.declared.line.Line.{Line};
ghost use Rattle.script_text.specs.declared.request.Request.{Request};
ghost use Rattle.core_model.specs.declared.view.Sight.{Sight};
ghost use Rattle.line_account.specs.Courses.{Leaves};
ghost use Rattle.line_account.specs.Lines.{Served};
ghost use Rattle.store_rule.specs.declared.store.Pass.{Pass};
ghost use Rattle.store_rule.specs.declared.store.Store.{Store};
ghost use Rattle.store_rule.specs.Notes.{learning, noting};
ghost use Rattle.store_rule.specs.Passes.{IsNewOf, Keeps, basis, view};
ghost use Rattle.store_serve.specs.Serving.{Serves, Takes};
ghost use Rattle.store_serve.specs.Whole.{whole_tab};
ghost use Rattle.worker_shelf.specs.Shelves.{LeftBelow};
ghost use Rattle.worker_shelf.specs.Typed.{IsTyped};
ghost use Rattle.crew_accounts.specs.Lines.{AddsLine, line_with};
ghost use Rattle.crew_accounts.specs.Runs.{IsTold, Past, run_of};
ghost use Rattle.crew_accounts.specs.Tracks.{Tracks};

use rock_disk::Cell;
use rock_reader::bodies_are_given_from_the_front;
use store_rule::Origin;

/// A new pass tracks that no line was served.
pub fn new_passes_track<C: Cell, O: Origin>()
    ensures { (s : Store C O) (told : Bool) (past : Past) (p : Pass C) → IsNewOf C.tells C.state O.offers s p
        → Tracks C.tells C.state O.offers s told past [] p }
{}

/// Each line that is served adds to the account of its worker what it should. Its answer fits its types, and where bytes
/// are told of, this is as `IsTold` says.
pub fn lines_add<C: Cell, O: Origin>()
    ensures { (s : Store C O) (told : Bool) (past : Past) (served : List Served) (line : Line) (p q : Pass C) (a : Answer)
        (before after : ℕ)
        → (IsTrue told → IsTold (basis C.tells C.state O.offers s) told past C.tells)
        → Tracks C.tells C.state O.offers s told past served p → Takes C.tells C.state O.offers s p line
        → Serves C.tells C.state O.offers s line p a q before after
        → IsTyped a → AddsLine C.tells C.state O.offers s told past served line p a q }
{
    bodies_are_given_from_the_front();
}

/// A line at a mark adds to the account of its worker what it should: one that sets a mark (`set`), for which the pass
/// noted what it has seen; one that meets it (`met`), by which the pass learned what a note tells, and noted what it has seen then; and one
/// that does not (`unmet`).
pub fn marks_add<C: Cell, O: Origin>()
    ensures set { (s : Store C O) (told : Bool) (past : Past) (served : List Served) (worker number mark : ℕ) (p q : Pass C)
        → Tracks C.tells C.state O.offers s told past served p → Keeps C.tells C.state O.offers s p q → view q ≡ noting (view p)
        → AddsLine C.tells C.state O.offers s told past served (line_with worker number (Request.Mark mark)) p Answer.Marked q }
    ensures met { (s : Store C O) (told : Bool) (past : Past) (served : List Served) (worker number mark : ℕ) (p m q : Pass C)
        (sights : List Sight)
        → Tracks C.tells C.state O.offers s told past served p → Keeps C.tells C.state O.offers s p m → view m ≡ learning (view p) sights
        → Keeps C.tells C.state O.offers s m q → view q ≡ noting (view m)
        → AddsLine C.tells C.state O.offers s told past served (line_with worker number (Request.Await mark)) p Answer.Met q }
    ensures unmet { (s : Store C O) (told : Bool) (past : Past) (served : List Served) (worker number mark : ℕ) (p q : Pass C)
        → Tracks C.tells C.state O.offers s told past served p → q ≡ p
        → AddsLine C.tells C.state O.offers s told past served (line_with worker number (Request.Await mark)) p Answer.Unmet q }
{}

/// A worker that leaves all tabs of the script adds the deeds of its end.
pub fn ends_leave<C: Cell, O: Origin>()
    ensures { (s : Store C O) (told : Bool) (past : Past) (served : List Served) (p q : Pass C)
        → Tracks C.tells C.state O.offers s told past served p → LeftBelow C.tells C.state O.offers s whole_tab p q
        → Leaves (run_of (basis C.tells C.state O.offers s) told past) (view p) served (view q) }
{}
