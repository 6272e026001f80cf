/// Where an entry is in its life. The numbers from 0 on, in this order, stand for the stages in the
/// shared table.
#[derive(Clone, Copy, Debug, PartialEq, Eq, PartialOrd, Ord)]
pub enum Stage {
    /// There never was an entry.
    Empty,
    /// A writer has the anchor, and nobody may read.
    Taken,
    /// A writer adds to an entry that others may read as it grows.
    Appending,
    /// The entry is whole.
    Closed,
    /// The writer gave up.
    Halted,
    /// The slots are being given back.
    Freeing,
    /// There was an entry.
    Gone,
}

impl Stage {
    ghost use Rattle.std.specs.Prelude.{◌≡◌, ◌≤◌, ◌↔◌, IsNone, IfSome};
    ghost use Rattle.lock_word.specs.Words.{stage_number};

    /// Its number in the shared table.
    pub fn number(self) -> u64
        ensures { result ≡ stage_number self }
    {
        self as u64
    }

    /// The stage of this number, if there is one.
    pub fn from_number(number: u64) -> Option<Stage>
        ensures none { IsNone result ↔ (7 ≤ number) }
        ensures stage { IfSome result (λ stage. stage_number stage ≡ number) }
    {
        match number {
            0 => Some(Stage::Empty),
            1 => Some(Stage::Taken),
            2 => Some(Stage::Appending),
            3 => Some(Stage::Closed),
            4 => Some(Stage::Halted),
            5 => Some(Stage::Freeing),
            6 => Some(Stage::Gone),
            _ => None,
        }
    }
}
