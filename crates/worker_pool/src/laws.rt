// What a script that was read brings with it. The function does nothing: the proof of a function that calls it may use
// what it ensures.
ghost use Rattle.std.specs.Prelude.{Contains, List, ◌≤◌, ℕ};
ghost use Rattle.script_text.specs.Lines.{AreLines};
ghost use Rattle.script_text.specs.declared.line.Line.{Line};
ghost use Rattle.worker_pool.specs.Knowing.{HasMarks};

/// A script that was read may be run: its marks are below 64 and each is set once, and each line is for one of the
/// workers.
pub fn scripts_may_be_run()
    ensures marks { (workers : ℕ) (texts : List (List ℕ)) (lines : List Line) → AreLines workers texts lines → HasMarks lines }
    ensures workers { (workers : ℕ) (texts : List (List ℕ)) (lines : List Line) (line : Line) → AreLines workers texts lines
        → Contains lines line → (1 ≤ line.worker) × (line.worker ≤ workers) }
{}
