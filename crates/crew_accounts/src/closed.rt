// What the workers of a store served is closed with the store, and their answers that tell faults are counted. The
// functions here do nothing: the proof of a function that calls one may use what it ensures.
ghost use Rattle.std.specs.Prelude.{Bool, IsTrue, List, min, ◌+◌, ◌-◌, ◌^◌, ◌≡◌, ◌≤◌};
ghost use Rattle.script_text.specs.declared.line.Line.{Line};
ghost use Rattle.store_rule.specs.declared.store.Store.{Store};
ghost use Rattle.store_rule.specs.Passes.{basis};
ghost use Rattle.worker_pool.specs.Running.{Account};
ghost use Rattle.worker_shelf.specs.Shelves.{OnShelf};
ghost use Rattle.crew_accounts.specs.Runs.{IsTold, Past, run_of};
ghost use Rattle.crew_accounts.specs.Playing.{HasRun};
ghost use Rattle.worker_shelf.specs.Playing.{HasSteps, fault_answers};
ghost use Rattle.crew_accounts.specs.Closings.{HasClosing};

use crate::shelves::shelves_have_courses;
use line_account::accounts_grow;
use rock_disk::{Cell, Station};
use rock_io::Octets;
use store_key::keys_have_16_bytes;
use store_rule::Origin;
use swap_meta::written_meta_is_spelled;

/// Where workers served a script, each its own lines on a new pass of a store, and the store was closed with all passes
/// behind them, their accounts are closed: each has its course, with the lines and answers of the worker in their order,
/// and what the marks hand on is handed on between the courses.
pub fn crews_are_closed<C: Cell, O: Origin, St: Station<C = C>>()
    ensures { (s : Store C O) (script : List Line) (told : Bool) (past : Past) (accounts : List (Account (OnShelf C O St))) (cells : List C)
        → (IsTrue told → IsTold (basis C.tells C.state O.offers s) told past C.tells)
        → HasRun C.tells C.state O.offers St.faults s script accounts cells
        → HasClosing (run_of (basis C.tells C.state O.offers s) told past) script accounts }
{
    shelves_have_courses::<C, O, St>();
    accounts_grow::<Octets>();
    keys_have_16_bytes();
    written_meta_is_spelled();
}

/// A station's count of faults rises in a worker's course by one at least for each answer that tells a fault, until it
/// stands at the greatest number of 64 bits (`rose`). It stays where no answer tells one (`same`).
pub fn faults_are_counted<C: Cell, O: Origin, St: Station<C = C>>()
    ensures rose { (a : Account (OnShelf C O St)) → HasSteps C.tells C.state O.offers St.faults a
        → min (St.faults a.start.station + fault_answers a) (2 ^ 64 - 1) ≤ St.faults a.end.station }
    ensures same { (a : Account (OnShelf C O St)) → HasSteps C.tells C.state O.offers St.faults a → fault_answers a ≡ 0
        → St.faults a.end.station ≡ St.faults a.start.station }
{}
