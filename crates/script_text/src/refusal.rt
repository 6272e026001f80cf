ghost use Rattle.std.specs.Prelude.{◌≡◌};

use rock_io::Memory;

/// Why a line was not read.
#[derive(Clone, Copy, Debug, PartialEq, Eq)]
pub enum Refusal {
    /// It is a bad line, by this cause.
    Bad { cause: u8 },
    Memory,
}

impl From<Memory> for Refusal {
    ghost use Rattle.script_text.specs.declared.refusal.Refusal.TheVariants as refusal;

    ghost from_gives = { λ _ fault. fault ≡ refusal.Memory };

    fn from(_error: Memory) -> Self {
        Refusal::Memory
    }
}

/// The causes for which a line is bad, by their numbers.
pub const LIMITS: u8 = 1;

pub const BYTE: u8 = 2;

pub const WORKER: u8 = 3;

pub const NAME: u8 = 4;

pub const WORDS: u8 = 5;

pub const TAB: u8 = 6;

pub const URL: u8 = 7;

pub const BODY: u8 = 8;

pub const NUMBER: u8 = 9;
