//! What holds of all lines. This function does nothing: the proof of a function that calls it may use what
//! it ensures.
ghost use Rattle.std.specs.Prelude.{ℕ, List, All};
ghost use Rattle.script_text.specs.Script.{IsScript};
ghost use Rattle.script_text.specs.declared.line.Line.{Line};
ghost use Rattle.plain_store.specs.Servable.{IsServable};

/// Each line of a script that was read can be served.
pub fn good_lines_are_servable()
    ensures { (workers : ℕ) (text : List ℕ) (lines : List Line) → IsScript workers text lines
        → All (λ line. IsServable line.request) lines }
{}
