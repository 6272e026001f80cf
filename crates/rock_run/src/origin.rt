// The lines of a script as the origin of a store.
use script_text::{Lines, Script};
use std::marker::Model;
use std::mem::size_of;
use std::snapshot::Snapshot;
use store_rule::Origin;

/// A script as that which a store is offered: the offer of a number is what the line of this number offers. Contracts
/// alone read the lines, so it takes no memory.
#[derive(Drop)]
pub struct ScriptOrigin {
    lines: Snapshot<Lines>,
}

const _: () = prove!(size_of::<ScriptOrigin>() == 0);

impl Model for ScriptOrigin {
    ghost use Rattle.std.specs.Prelude.{List};
    ghost use Rattle.script_text.specs.declared.line.Line.{Line};

    ghost Value = { List Line };

    ghost view = { λ origin. origin.lines.value };
}

impl ScriptOrigin {
    ghost use Rattle.std.specs.Prelude.{◌≡◌};

    /// The origin of the lines of this script.
    pub fn new(script: &Script) -> Self
        ensures { result ≡ script.now.lines }
    {
        ScriptOrigin {
            lines: Snapshot::of(&script.lines),
        }
    }
}

impl Origin for ScriptOrigin {
    ghost use Rattle.rock_run.specs.Offered.{offers_of};

    ghost offers = { offers_of };
}
