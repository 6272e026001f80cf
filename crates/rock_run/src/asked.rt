// What may be asked of a store that is offered what a script offers. The function does nothing: the proof of a function
// that calls it may use what it ensures.
ghost use Rattle.std.specs.Prelude.{◌+◌, ◌≡◌, ◌≢◌, Contains, List, Some, ℕ};
ghost use Rattle.script_text.specs.Requests.{url_in};
ghost use Rattle.script_text.specs.Script.{IsScript};
ghost use Rattle.script_text.specs.declared.line.Line.{Line};
ghost use Rattle.script_text.specs.declared.request.Request.TheVariants.{Await, Mark};
ghost use Rattle.store_rule.specs.Passes.{basis, view};
ghost use Rattle.store_rule.specs.declared.store.Pass.{Pass};
ghost use Rattle.store_rule.specs.declared.store.Store.{Store};
ghost use Rattle.worker_shelf.specs.Taking.{MayAsk, MayGo, Takes};
ghost use Rattle.rock_run.specs.Asked.{IsAsked, IsFound};
ghost use Rattle.rock_run.specs.Offered.{OffersLines, offers_of};

use rock_disk::Cell;
use store_rule::Origin;

/// A store that is offered what lines offer may be asked for each of them that is the first of its number and names a tab
/// and a URL of a script, but for those of marks. Where each anchor is left to the pass of the worker whose lines alone name
/// it, if one worker does so, the pass of each worker may go to the URLs of its lines. Workers are counted from 1 and passes
/// from 0. So the pass of each worker takes each of its lines. The lines of a script that was read are such lines.
pub fn script_lines_may_be_asked<C: Cell, O: Origin>()
    ensures asks { (s : Store C O) (lines : List Line) (line : Line)
        → OffersLines lines (basis C.tells C.state O.offers s).offers → IsFound lines line → IsAsked line.request
        → ((mark : ℕ) → line.request ≢ Mark mark) → ((mark : ℕ) → line.request ≢ Await mark)
        → MayAsk C.tells C.state O.offers s line.number line.request }
    ensures goes { (s : Store C O) (lines : List Line) (line : Line) (p : Pass C) (url : List ℕ)
        → (basis C.tells C.state O.offers s).offers ≡ offers_of lines → IsFound lines line → line.worker ≡ (view p).pass + 1
        → url_in line.request ≡ Some url → MayGo C.tells C.state O.offers s p url }
    ensures takes { (s : Store C O) (lines : List Line) (line : Line) (p : Pass C)
        → (basis C.tells C.state O.offers s).offers ≡ offers_of lines → IsFound lines line → IsAsked line.request
        → line.worker ≡ (view p).pass + 1
        → ((mark : ℕ) → line.request ≢ Mark mark) → ((mark : ℕ) → line.request ≢ Await mark)
        → Takes C.tells C.state O.offers s p line }
{}

/// Each line of a script that was read is the first of its number, and names a tab and a URL of a script.
pub fn read_lines_may_be_asked()
    ensures { (workers : ℕ) (text : List ℕ) (lines : List Line) (line : Line) → IsScript workers text lines
        → Contains lines line → IsFound lines line × IsAsked line.request }
{}
