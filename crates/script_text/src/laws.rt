// The laws of the grammar.
ghost use Rattle.std.specs.Prelude.{◌≡◌, ◌^◌, ◌<◌, ℕ, List};
ghost use Rattle.script_text.specs.Script.{IsScript, IsBadScript};
ghost use Rattle.script_text.specs.declared.line.Line.{Line};

/// A text has at most one reading: no two lists of lines, no two first bad lines or first causes, and
/// never lines and a bad line. So how a text is cut into pieces makes no difference to what is read of it.
pub fn one_reading()
    ensures script { (workers : ℕ) (text : List ℕ) (lines others : List Line) → workers < 2 ^ 32
        → IsScript workers text lines → IsScript workers text others → lines ≡ others }
    ensures apart { (workers : ℕ) (text : List ℕ) (lines : List Line) (line cause : ℕ) → workers < 2 ^ 32
        → IsScript workers text lines → ¬ IsBadScript workers text line cause }
    ensures bad { (workers : ℕ) (text : List ℕ) (line cause other another : ℕ) → workers < 2 ^ 32
        → IsBadScript workers text line cause → IsBadScript workers text other another → (line ≡ other) × (cause ≡ another) }
{}
