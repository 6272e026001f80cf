// The kinds of answers.
ghost use Rattle.std.specs.Prelude.{◌≡◌};
ghost use Rattle.workload.specs.Kinds.{kind_of, is_of, hit_bytes};

use script_text::Answer;

/// The kinds of answers that a benchmark counts.
#[derive(Clone, Copy, Debug, PartialEq, Eq)]
pub enum Kind {
    Hit,
    Miss,
    Stored,
    Purged,
    /// Nothing was there to be purged.
    NoEntry,
    /// Any other answer.
    Other,
}

impl Kind {
    /// The kind of an answer.
    pub fn of(answer: &Answer) -> Kind
        ensures { result ≡ kind_of answer.now }
    {
        match answer {
            Answer::Hit { .. } => Kind::Hit,
            Answer::Miss { .. } => Kind::Miss,
            Answer::Stored { .. } => Kind::Stored,
            Answer::Purged { .. } => Kind::Purged,
            Answer::NoEntry { .. } => Kind::NoEntry,
            _ => Kind::Other,
        }
    }

    /// Whether an answer is of this kind.
    pub(crate) fn has(self, answer: &Answer) -> bool
        ensures { result ≡ is_of self answer.now }
    {
        Kind::of(answer) == self
    }
}

/// How many bytes of a body a hit gives; 0 for other answers.
pub(crate) fn hit_bytes(answer: &Answer) -> u64
    ensures { result ≡ hit_bytes answer.now }
{
    match answer {
        Answer::Hit { bytes, .. } => bytes.as_slice().len() as u64,
        _ => 0,
    }
}
