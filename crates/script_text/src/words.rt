// The words of a line, and numbers as words.
ghost use Rattle.std.specs.Prelude.{◌≡◌, ℕ, ◌^◌, ◌<◌, ◌≤◌, ◌==◌, Some, map, IfOk, IfSome, MatchOption, decimal};
ghost use Rattle.script_text.specs.Words.{IsNumber, words_of};

use itoa::Buffer;
use rock_io::Memory;
use std::alloc::Global;
use std::str;

/// The words of a line, with a space between each two.
pub fn words_of<'a>(alloc: Global, line: &'a [u8]) -> Result<Vec<&'a [u8]>, Memory>
    ensures { IfOk result (λ words. map (λ w. w.now) words.items ≡ words_of line.now) }
{
    Ok(line.split(|byte| *byte == b' ').collect(alloc)?)
}

/// A number is decimal digits with no sign, and no leading zero unless it is `0`.
fn number_of(word: &[u8]) -> Option<u32>
    ensures some { IfSome result (λ n. word.now ≡ decimal n) }
    ensures none { (n : ℕ) → n < 2 ^ 32 → word.now ≡ decimal n → result ≡ Some n }
{
    let Ok(text) = str::from_utf8(word) else {
        return None;
    };
    let Ok(number) = text.parse::<u32>() else {
        return None;
    };
    let mut buffer = Buffer::new();
    if buffer.format(number) == text {
        Some(number)
    } else {
        None
    }
}

/// A number in these bounds.
pub fn number_within(word: &[u8], least: u32, most: u32) -> Option<u32>
    ensures { MatchOption result (IsNumber least most word.now
        → ⊥) (λ n. (least ≤ n) × (n ≤ most) × (word.now ≡ decimal n)) }
{
    number_of(word).filter(|number| least <= *number && *number <= most)
}
