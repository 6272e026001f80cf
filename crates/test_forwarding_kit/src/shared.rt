// The lines of a script as the origin of a store whose passes serve the lines of several workers.
ghost use Rattle.std.specs.Prelude.{◌≡◌, ◌≢◌, List, ℕ};
ghost use Rattle.rock_run.specs.Asked.{IsAsked, IsFound};
ghost use Rattle.script_text.specs.declared.line.Line.{Line};
ghost use Rattle.script_text.specs.declared.request.Request.TheVariants.{Await, Mark};
ghost use Rattle.store_rule.specs.Passes.{basis};
ghost use Rattle.store_rule.specs.declared.store.Pass.{Pass};
ghost use Rattle.store_rule.specs.declared.store.Store.{Store};
ghost use Rattle.store_serve.specs.Serving.{MayAsk, Takes};
ghost use Rattle.store_serve.specs.Tabs.{MayGo};
ghost use Rattle.test_forwarding_kit.specs.Shared.{shared_of};

use rock_disk::Cell;
use rock_run::script_lines_may_be_asked;
use script_text::{Lines, Script};
use std::marker::Model;
use std::snapshot::Snapshot;
use store_rule::Origin;

/// A script as that which a store is offered, where no anchor is left to one pass.
#[derive(Drop)]
pub struct SharedOrigin {
    lines: Snapshot<Lines>,
}

impl Model for SharedOrigin {
    ghost use Rattle.std.specs.Prelude.{List};
    ghost use Rattle.script_text.specs.declared.line.Line.{Line};

    ghost Value = { List Line };

    ghost view = { λ origin. origin.lines.value };
}

impl SharedOrigin {
    ghost use Rattle.std.specs.Prelude.{◌≡◌};

    /// The origin of the lines of this script.
    pub fn new(script: &Script) -> Self
        ensures { result ≡ script.now.lines }
    {
        SharedOrigin {
            lines: Snapshot::of(&script.lines),
        }
    }
}

impl Origin for SharedOrigin {
    ghost use Rattle.test_forwarding_kit.specs.Shared.{shared_of};

    ghost offers = { shared_of };
}

/// A store that is offered so what lines offer may be asked for each of them that is the first of its number and names a tab and
/// a URL of a script, but for those of marks. Every pass may go to every URL, so it takes each of these lines.
pub fn shared_lines_may_be_asked<C: Cell, O: Origin>()
    ensures asks { (s : Store C O) (lines : List Line) (line : Line)
        → (basis C.tells C.state O.offers s).offers ≡ shared_of lines → IsFound lines line → IsAsked line.request
        → ((mark : ℕ) → line.request ≢ Mark mark) → ((mark : ℕ) → line.request ≢ Await mark)
        → MayAsk C.tells C.state O.offers s line.number line.request }
    ensures goes { (s : Store C O) (lines : List Line) (p : Pass C) (url : List ℕ)
        → (basis C.tells C.state O.offers s).offers ≡ shared_of lines → MayGo C.tells C.state O.offers s p url }
    ensures takes { (s : Store C O) (lines : List Line) (line : Line) (p : Pass C)
        → (basis C.tells C.state O.offers s).offers ≡ shared_of lines → IsFound lines line → IsAsked line.request
        → ((mark : ℕ) → line.request ≢ Mark mark) → ((mark : ℕ) → line.request ≢ Await mark)
        → Takes C.tells C.state O.offers s p line }
{
    script_lines_may_be_asked::<C, O>();
}
