// Lines that read, purge or wipe. The functions here do nothing: the proof of a function that calls one may use what it
// ensures.
ghost use Rattle.std.specs.Prelude.{Bool, IsTrue, List, ℕ};
ghost use Rattle.script_text.specs.declared.answer.Answer.{Answer};
ghost use Rattle.script_text.specs.declared.request.Request.{Request};
ghost use Rattle.line_account.specs.Lines.{Served};
ghost use Rattle.store_rule.specs.declared.store.Pass.{Pass};
ghost use Rattle.store_rule.specs.declared.store.Store.{Store};
ghost use Rattle.store_rule.specs.Passes.{basis};
ghost use Rattle.store_serve.specs.Serving.{Serves, Takes};
ghost use Rattle.worker_shelf.specs.Typed.{IsTyped};
ghost use Rattle.crew_accounts.specs.Lines.{AddsLine, line_with};
ghost use Rattle.crew_accounts.specs.Runs.{IsTold, Past};
ghost use Rattle.crew_accounts.specs.Tracks.{Tracks};

use rock_disk::Cell;
use rock_reader::bodies_are_given_from_the_front;
use store_rule::Origin;

/// A line that purges the entry of a URL, whose answer fits its types, adds to the account of its worker what it should.
pub fn purges_add<C: Cell, O: Origin>()
    ensures { (s : Store C O) (told : Bool) (past : Past) (served : List Served) (worker number : ℕ) (url : List ℕ) (p q : Pass C)
        (a : Answer) (before after : ℕ)
        → Tracks C.tells C.state O.offers s told past served p
        → Takes C.tells C.state O.offers s p (line_with worker number (Request.Purge url))
        → Serves C.tells C.state O.offers s (line_with worker number (Request.Purge url)) p a q before after → IsTyped a
        → AddsLine C.tells C.state O.offers s told past served (line_with worker number (Request.Purge url)) p a q }
{}

/// So does one that wipes it.
pub fn wipes_add<C: Cell, O: Origin>()
    ensures { (s : Store C O) (told : Bool) (past : Past) (served : List Served) (worker number : ℕ) (url : List ℕ) (p q : Pass C)
        (a : Answer) (before after : ℕ)
        → Tracks C.tells C.state O.offers s told past served p
        → Takes C.tells C.state O.offers s p (line_with worker number (Request.Wipe url))
        → Serves C.tells C.state O.offers s (line_with worker number (Request.Wipe url)) p a q before after → IsTyped a
        → AddsLine C.tells C.state O.offers s told past served (line_with worker number (Request.Wipe url)) p a q }
{}

/// And one that opens an entry on a tab.
pub fn opens_add<C: Cell, O: Origin>()
    ensures { (s : Store C O) (told : Bool) (past : Past) (served : List Served) (worker number t : ℕ) (url : List ℕ) (p q : Pass C)
        (a : Answer) (before after : ℕ)
        → Tracks C.tells C.state O.offers s told past served p
        → Takes C.tells C.state O.offers s p (line_with worker number (Request.OpenTab t url))
        → Serves C.tells C.state O.offers s (line_with worker number (Request.OpenTab t url)) p a q before after → IsTyped a
        → AddsLine C.tells C.state O.offers s told past served (line_with worker number (Request.OpenTab t url)) p a q }
{}

/// So does one that closes it.
pub fn closes_add<C: Cell, O: Origin>()
    ensures { (s : Store C O) (told : Bool) (past : Past) (served : List Served) (worker number t : ℕ) (p q : Pass C) (a : Answer)
        (before after : ℕ)
        → Tracks C.tells C.state O.offers s told past served p
        → Takes C.tells C.state O.offers s p (line_with worker number (Request.CloseTab t))
        → Serves C.tells C.state O.offers s (line_with worker number (Request.CloseTab t)) p a q before after
        → AddsLine C.tells C.state O.offers s told past served (line_with worker number (Request.CloseTab t)) p a q }
{}

/// And one that reads on, where bytes are told of only as `IsTold` says.
pub fn mores_add<C: Cell, O: Origin>()
    ensures { (s : Store C O) (told : Bool) (past : Past) (served : List Served) (worker number t : ℕ) (p q : Pass C) (a : Answer)
        (before after : ℕ)
        → (IsTrue told → IsTold (basis C.tells C.state O.offers s) told past C.tells)
        → Tracks C.tells C.state O.offers s told past served p
        → Takes C.tells C.state O.offers s p (line_with worker number (Request.More t))
        → Serves C.tells C.state O.offers s (line_with worker number (Request.More t)) p a q before after
        → AddsLine C.tells C.state O.offers s told past served (line_with worker number (Request.More t)) p a q }
{
    bodies_are_given_from_the_front();
}

/// So does one that gets the entry of a URL.
pub fn gets_add<C: Cell, O: Origin>()
    ensures { (s : Store C O) (told : Bool) (past : Past) (served : List Served) (worker number : ℕ) (url : List ℕ) (p q : Pass C)
        (a : Answer) (before after : ℕ)
        → (IsTrue told → IsTold (basis C.tells C.state O.offers s) told past C.tells)
        → Tracks C.tells C.state O.offers s told past served p
        → Takes C.tells C.state O.offers s p (line_with worker number (Request.Get url))
        → Serves C.tells C.state O.offers s (line_with worker number (Request.Get url)) p a q before after → IsTyped a
        → AddsLine C.tells C.state O.offers s told past served (line_with worker number (Request.Get url)) p a q }
{
    bodies_are_given_from_the_front();
}
