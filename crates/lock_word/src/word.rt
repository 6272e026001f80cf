ghost use Rattle.std.specs.Prelude.{◌≡◌, ◌↔◌, ◌⊎◌, IsTrue, IsSome, IsNone, IfSome, Some};
ghost use Rattle.lock_word.specs.declared.word.Word.{Word};
ghost use Rattle.lock_word.specs.Words.{IsInRange, IsWord, HasReservedBit, word_number, epoch_of, stage_of, is_idle, is_vacant, is_left_over};
ghost use Rattle.lock_word.specs.Life.{IsIdle, IsVacant, IsLeftOver};

use crate::epoch::Epoch;
use crate::stage::Stage;

/// The bit at which the stage begins. Its three bits stand above the sixteen of the readers.
const STAGE_AT: u32 = 16;

/// The bit that is the doom.
const DOOM_AT: u32 = 19;

/// The bit at which the version begins.
const VERSION_AT: u32 = 32;

/// Bits 20 to 31, which no word has.
const RESERVED: u64 = 0xfff0_0000;

/// The greatest version that there is, as a counter of versions has it. The headers of slots have the same limit.
pub const GREATEST_VERSION: u64 = 4_294_901_760;

/// An anchor's epoch, and how many users are counted at it.
#[derive(Clone, Copy, Debug, PartialEq, Eq)]
pub struct Word {
    pub epoch: Epoch,
    pub readers: u16,
}

/// The 64 bits of a word in the shared table.
pub fn pack(word: &Word) -> u64
    ensures number { result ≡ word_number word.now }
    ensures word { IsWord result }
    ensures in_range { IsInRange word.now }
{
    let Epoch {
        version,
        doom,
        stage,
    } = word.epoch;
    let readers = word.readers;
    (u64::from(version) << VERSION_AT)
        | (u64::from(doom) << DOOM_AT)
        | (stage.number() << STAGE_AT)
        | u64::from(readers)
}

/// The word of these bits. None where a bit from 20 to 31 is set, or the stage is 7.
pub fn unpack(bits: u64) -> Option<Word>
    ensures none { IsNone result ↔ (HasReservedBit bits ⊎ (stage_of (epoch_of bits) ≡ 7)) }
    ensures word { IsSome result ↔ IsWord bits }
    ensures number { IfSome result (λ word. word_number word ≡ bits) }
    ensures in_range { IfSome result (λ word. IsInRange word) }
    ensures packed { (word : Word) → IsInRange word → bits ≡ word_number word → result ≡ Some word }
{
    if bits & RESERVED != 0 {
        return None;
    }
    let stage = Stage::from_number((bits >> STAGE_AT) & 7)?;
    let epoch = Epoch {
        version: (bits >> VERSION_AT) as u32,
        doom: (bits >> DOOM_AT) & 1 == 1,
        stage,
    };
    Some(Word {
        epoch,
        readers: (bits & 0xffff) as u16,
    })
}

/// The word of this number. Where a number may be none of a word, [unpack] tells.
pub fn word_of(bits: u64) -> Word
    requires { IsWord bits }
    ensures number { word_number result ≡ bits }
    ensures in_range { IsInRange result }
{
    match unpack(bits) {
        Some(word) => word,
        None => unreachable!(),
    }
}

/// Whether the entry is whole, not doomed, and not in use: it may be replaced or evicted.
pub fn is_idle(word: &Word) -> bool
    ensures idle { IsTrue result ↔ IsIdle word.now }
    ensures number { result ≡ is_idle (word_number word.now) }
{
    let Word { epoch, readers } = *word;
    epoch.stage == Stage::Closed && !epoch.doom && readers == 0
}

/// Whether there is no entry, and no reader that has yet to leave: the anchor may be taken.
pub fn is_vacant(word: &Word) -> bool
    ensures vacant { IsTrue result ↔ IsVacant word.now }
    ensures number { result ≡ is_vacant (word_number word.now) }
{
    let Word { epoch, readers } = *word;
    matches!(epoch.stage, Stage::Empty | Stage::Gone) && readers == 0
}

/// Whether nobody uses an entry that is doomed and whole, or was given up: its last user frees it.
pub fn is_left_over(word: &Word) -> bool
    ensures left_over { IsTrue result ↔ IsLeftOver word.now }
    ensures number { result ≡ is_left_over (word_number word.now) }
{
    let Word { epoch, readers } = *word;
    (epoch.stage == Stage::Halted || (epoch.stage == Stage::Closed && epoch.doom)) && readers == 0
}
