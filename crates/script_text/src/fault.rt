ghost use Rattle.std.specs.Prelude.{◌≡◌};

use rock_io::{Failed, Memory};
use thiserror::Error;

/// Why a script was not read.
#[derive(Clone, Copy, Debug, PartialEq, Eq, Error)]
pub enum ScriptFault {
    /// The first bad line, from 1, and the first of its causes, from 1 to 9.
    #[error("line {line} is wrong, by cause {cause}")]
    BadLine { line: u32, cause: u8 },
    /// The source's count of faults rose.
    #[error("the script could not be read")]
    Failed,
    #[error("out of memory")]
    Memory,
}

impl From<Memory> for ScriptFault {
    ghost use Rattle.script_text.specs.declared.fault.ScriptFault.TheVariants as fault;

    ghost from_gives = { λ _ f. f ≡ fault.Memory };

    fn from(_error: Memory) -> Self {
        ScriptFault::Memory
    }
}

impl From<Failed> for ScriptFault {
    ghost use Rattle.script_text.specs.declared.fault.ScriptFault.TheVariants as reading;

    ghost from_gives = { λ _ f. f ≡ reading.Failed };

    fn from(_error: Failed) -> Self {
        ScriptFault::Failed
    }
}
