// Lines that write. The functions here do nothing: the proof of a function that calls one may use what it ensures.
ghost use Rattle.std.specs.Prelude.{Bool, List, ℕ};
ghost use Rattle.script_text.specs.declared.answer.Answer.{Answer};
ghost use Rattle.script_text.specs.declared.body.Body.{Body};
ghost use Rattle.script_text.specs.declared.request.Request.{Request};
ghost use Rattle.line_account.specs.Lines.{Served};
ghost use Rattle.store_rule.specs.declared.store.Pass.{Pass};
ghost use Rattle.store_rule.specs.declared.store.Store.{Store};
ghost use Rattle.store_serve.specs.Serving.{Serves, Takes};
ghost use Rattle.worker_shelf.specs.Typed.{IsTyped};
ghost use Rattle.crew_accounts.specs.Lines.{AddsLine, line_with};
ghost use Rattle.crew_accounts.specs.Runs.{Past};
ghost use Rattle.crew_accounts.specs.Tracks.{Tracks};

use rock_disk::Cell;
use store_rule::Origin;

/// A line that stores a whole response (`put`), or stores it durably (`save`), and whose answer fits its types, adds to
/// the account of its worker what it should.
pub fn puts_add<C: Cell, O: Origin>()
    ensures put { (s : Store C O) (told : Bool) (past : Past) (served : List Served) (worker number : ℕ) (url : List ℕ) (body : Body)
        (p q : Pass C) (a : Answer) (before after : ℕ)
        → Tracks C.tells C.state O.offers s told past served p
        → Takes C.tells C.state O.offers s p (line_with worker number (Request.Put url body))
        → Serves C.tells C.state O.offers s (line_with worker number (Request.Put url body)) p a q before after → IsTyped a
        → AddsLine C.tells C.state O.offers s told past served (line_with worker number (Request.Put url body)) p a q }
    ensures save { (s : Store C O) (told : Bool) (past : Past) (served : List Served) (worker number : ℕ) (url : List ℕ) (body : Body)
        (p q : Pass C) (a : Answer) (before after : ℕ)
        → Tracks C.tells C.state O.offers s told past served p
        → Takes C.tells C.state O.offers s p (line_with worker number (Request.Save url body))
        → Serves C.tells C.state O.offers s (line_with worker number (Request.Save url body)) p a q before after → IsTyped a
        → AddsLine C.tells C.state O.offers s told past served (line_with worker number (Request.Save url body)) p a q }
{}

/// So does one that begins an entry on a tab.
pub fn begins_add<C: Cell, O: Origin>()
    ensures { (s : Store C O) (told : Bool) (past : Past) (served : List Served) (worker number t : ℕ) (url : List ℕ) (body : Body)
        (p q : Pass C) (a : Answer) (before after : ℕ)
        → Tracks C.tells C.state O.offers s told past served p
        → Takes C.tells C.state O.offers s p (line_with worker number (Request.Begin t url body))
        → Serves C.tells C.state O.offers s (line_with worker number (Request.Begin t url body)) p a q before after → IsTyped a
        → AddsLine C.tells C.state O.offers s told past served (line_with worker number (Request.Begin t url body)) p a q }
{}

/// One that adds bytes of its body.
pub fn adds_add<C: Cell, O: Origin>()
    ensures { (s : Store C O) (told : Bool) (past : Past) (served : List Served) (worker number t asked : ℕ) (p q : Pass C) (a : Answer)
        (before after : ℕ)
        → Tracks C.tells C.state O.offers s told past served p
        → Takes C.tells C.state O.offers s p (line_with worker number (Request.Add t asked))
        → Serves C.tells C.state O.offers s (line_with worker number (Request.Add t asked)) p a q before after
        → AddsLine C.tells C.state O.offers s told past served (line_with worker number (Request.Add t asked)) p a q }
{}

/// One that writes it to its end.
pub fn ends_add<C: Cell, O: Origin>()
    ensures { (s : Store C O) (told : Bool) (past : Past) (served : List Served) (worker number t : ℕ) (p q : Pass C) (a : Answer)
        (before after : ℕ)
        → Tracks C.tells C.state O.offers s told past served p
        → Takes C.tells C.state O.offers s p (line_with worker number (Request.End t))
        → Serves C.tells C.state O.offers s (line_with worker number (Request.End t)) p a q before after
        → AddsLine C.tells C.state O.offers s told past served (line_with worker number (Request.End t)) p a q }
{}

/// And one that gives it up.
pub fn drops_add<C: Cell, O: Origin>()
    ensures { (s : Store C O) (told : Bool) (past : Past) (served : List Served) (worker number t : ℕ) (p q : Pass C) (a : Answer)
        (before after : ℕ)
        → Tracks C.tells C.state O.offers s told past served p
        → Takes C.tells C.state O.offers s p (line_with worker number (Request.DropTab t))
        → Serves C.tells C.state O.offers s (line_with worker number (Request.DropTab t)) p a q before after
        → AddsLine C.tells C.state O.offers s told past served (line_with worker number (Request.DropTab t)) p a q }
{}
