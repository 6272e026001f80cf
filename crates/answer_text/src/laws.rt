//! The laws of the lines. These functions do nothing: the proof of a function that calls one may use what
//! it ensures.
ghost use Rattle.std.specs.Prelude.{◌≡◌, ℕ, ◌^◌, ◌<◌, ◌++◌, List};
ghost use Rattle.script_text.specs.declared.answer.Answer.{Answer};
ghost use Rattle.answer_text.specs.Lines.{line_of};
ghost use Rattle.answer_text.specs.Ranges.{IsAnswer};

/// A line has one reading, whatever follows it: it tells its worker, its number, its answer, and where it
/// ends. So two different answers to one line of a script never have the same text.
pub fn one_reading()
    ensures line { (worker number other another : ℕ) (answer found : Answer) (rest others : List ℕ)
        → worker < 2 ^ 32 → number < 2 ^ 32 → other < 2 ^ 32 → another < 2 ^ 32
        → IsAnswer answer → IsAnswer found
        → line_of worker number answer ++ rest ≡ line_of other another found ++ others
        → (worker ≡ other) × (number ≡ another) × (answer ≡ found) × (rest ≡ others) }
    ensures answer { (worker number : ℕ) (answer found : Answer) → worker < 2 ^ 32 → number < 2 ^ 32
        → IsAnswer answer → IsAnswer found
        → line_of worker number answer ≡ line_of worker number found → answer ≡ found }
{}
