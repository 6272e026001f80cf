//! What a word is, judged by its number alone, whatever its reserved bits are.
ghost use Rattle.std.specs.Prelude.{◌≡◌, ◌≤◌};
ghost use Rattle.lock_word.specs.Words.{epoch_of, readers_of, mode_of, stage_of, evicted, is_readable, is_idle, is_vacant, is_left_over};

/// What the number of a word grows by where its stage becomes the next one.
pub const ONE_STAGE: u64 = 65_536;

/// The bit of a word that is the doom.
pub const DOOM_BIT: u64 = 524_288;

/// The number of a word's epoch: the word's bits but those of its readers.
pub fn epoch_bits(bits: u64) -> u64
    ensures { result ≡ epoch_of bits }
{
    bits / 65536
}

fn readers_bits(bits: u64) -> u64
    ensures { result ≡ readers_of bits }
{
    bits % 65536
}

/// The stage and the doom.
fn mode_bits(bits: u64) -> u64
    ensures { result ≡ mode_of (epoch_of bits) }
{
    epoch_bits(bits) % 65536
}

fn stage_bits(bits: u64) -> u64
    ensures { result ≡ stage_of (epoch_of bits) }
{
    epoch_bits(bits) % 8
}

/// The number of the word of an entry that is being freed, where `bits` is that of the word before: its stage is raised to
/// [`Freeing`](crate::Stage::Freeing).
pub fn evicted_number(bits: u64) -> u64
    requires { stage_of (epoch_of bits) ≤ 5 }
    ensures { result ≡ evicted bits }
{
    bits + ONE_STAGE * (5 - stage_bits(bits))
}

/// Whether the epoch of this number is [readable](crate::readable).
pub fn is_readable_number(bits: u64) -> bool
    ensures { result ≡ is_readable (epoch_of bits) }
{
    matches!(mode_bits(bits), 2 | 3)
}

/// Whether the word of this number is [idle](crate::is_idle).
pub fn is_idle_number(bits: u64) -> bool
    ensures { result ≡ is_idle bits }
{
    readers_bits(bits) == 0 && mode_bits(bits) == 3
}

/// Whether it is [vacant](crate::is_vacant).
pub fn is_vacant_number(bits: u64) -> bool
    ensures { result ≡ is_vacant bits }
{
    readers_bits(bits) == 0 && matches!(stage_bits(bits), 0 | 6)
}

/// Whether it is [left over](crate::is_left_over).
pub fn is_left_over_number(bits: u64) -> bool
    ensures { result ≡ is_left_over bits }
{
    readers_bits(bits) == 0 && (stage_bits(bits) == 4 || mode_bits(bits) == 11)
}
