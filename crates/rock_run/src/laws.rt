// What a script that was read brings with it. The function does nothing: the proof of a function that calls it may use
// what it ensures.
ghost use Rattle.std.specs.Prelude.{List, ℕ};
ghost use Rattle.script_text.specs.Script.{IsScript};
ghost use Rattle.script_text.specs.declared.line.Line.{Line};
ghost use Rattle.rock_run.specs.Scripts.{MayBeServed};

use crate::asked::read_lines_may_be_asked;
use worker_pool::scripts_may_be_run;

/// The workers that a script was read for may serve its lines.
pub fn read_scripts_may_be_served()
    ensures { (workers : ℕ) (text : List ℕ) (lines : List Line) → IsScript workers text lines → MayBeServed workers lines }
{
    scripts_may_be_run();
    read_lines_may_be_asked();
}
