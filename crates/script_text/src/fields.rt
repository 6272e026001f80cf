// The words behind a request's name, each read by its kind.
ghost use Rattle.std.specs.Prelude.{◌≡◌, ◌≢◌, ℕ, ◌<◌, ◌≤◌, ◌++◌, ◌∷◌, ◌↔◌, length, slice_index, IsTrue, IfOk, MatchOption, decimal};
ghost use Rattle.store_key.specs.Url.{IsUrl};
ghost use Rattle.script_text.specs.Fields.{IsText, IsFirstColon, SpellsBody, IsBodyWord, IsTabWord, IsCountWord, IsMarkWord};
ghost use Rattle.script_text.specs.Refusals.{ReadOr};

use crate::body::Body;
use crate::refusal::{BODY, NUMBER, Refusal, TAB, URL};
use crate::words::number_within;
use rock_io::{Memory, Octets};
use std::alloc::Global;
use store_key::check_url;

/// The most bytes of a text that stands for itself.
const LONGEST_TEXT: usize = 4096;

/// The most bytes that a body may have, and that one line may add to one.
const LONGEST_BODY: u32 = 4_194_304;

/// A copy of these bytes.
fn copy_of(alloc: Global, bytes: &[u8]) -> Result<Octets, Memory>
    ensures { IfOk result (λ octets. octets ≡ bytes.now) }
{
    Ok(Octets::from_vec(bytes.to_vec(alloc)?))
}

pub fn read_tab(word: &[u8]) -> Result<u8, Refusal>
    ensures { ReadOr result (λ tab. (tab ≤ 6) × (word.now ≡ decimal tab)) (λ cause. (cause ≡ 6) × ¬ IsTabWord word.now) }
{
    match number_within(word, 0, 6) {
        Some(tab) => Ok(tab as u8),
        None => Err(Refusal::Bad { cause: TAB }),
    }
}

pub fn read_url(alloc: Global, word: &[u8]) -> Result<Octets, Refusal>
    ensures { ReadOr result (λ url. (url ≡ word.now) × IsUrl word.now) (λ cause. (cause ≡ 7) × ¬ IsUrl word.now) }
{
    if check_url(word).is_err() {
        return Err(Refusal::Bad { cause: URL });
    }
    Ok(copy_of(alloc, word)?)
}

pub fn read_count(word: &[u8]) -> Result<u32, Refusal>
    ensures { ReadOr result (λ count. (1 ≤ count) × (count ≤ 4194304) × (word.now ≡ decimal count)) (λ cause. (cause ≡ 9) × ¬ IsCountWord word.now) }
{
    match number_within(word, 1, LONGEST_BODY) {
        Some(count) => Ok(count),
        None => Err(Refusal::Bad { cause: NUMBER }),
    }
}

pub fn read_mark(word: &[u8]) -> Result<u8, Refusal>
    ensures { ReadOr result (λ mark. (mark ≤ 63) × (word.now ≡ decimal mark)) (λ cause. (cause ≡ 9) × ¬ IsMarkWord word.now) }
{
    match number_within(word, 0, 63) {
        Some(mark) => Ok(mark as u8),
        None => Err(Refusal::Bad { cause: NUMBER }),
    }
}

/// Whether these bytes may stand for themselves in a body.
fn is_text(text: &[u8]) -> bool
    ensures { IsTrue result ↔ IsText text.now }
{
    !text.is_empty()
        && text.len() <= LONGEST_TEXT
        && text.iter().all(|byte| byte.is_ascii_graphic())
}

/// Where the first colon stands.
fn colon_of(word: &[u8]) -> Option<usize>
    ensures { MatchOption result ((k : ℕ) → k < length word.now → slice_index word.now k ≢ 58) (IsFirstColon word.now) }
{
    word.iter().position(|byte| *byte == b':')
}

/// The length and the shift of a body that is made, behind its `#`.
fn made_of(word: &[u8]) -> Option<(u32, u8)>
    ensures { MatchOption result ((count shift : ℕ) → count ≤ 4194304 → shift ≤ 25 → word.now ≢ decimal count ++ 58 ∷ decimal shift)
        (λ made. (made.0 ≤ 4194304) × (made.1 ≤ 25) × (word.now ≡ decimal made.0 ++ 58 ∷ decimal made.1)) }
{
    let Some(at) = colon_of(word) else {
        return None;
    };
    let Some(length) = number_within(&word[..at], 0, LONGEST_BODY) else {
        return None;
    };
    let Some(shift) = number_within(&word[at + 1..], 0, 25) else {
        return None;
    };
    Some((length, shift as u8))
}

pub fn read_body(alloc: Global, word: &[u8]) -> Result<Body, Refusal>
    ensures { ReadOr result (λ body. SpellsBody body word.now) (λ cause. (cause ≡ 8) × ¬ IsBodyWord word.now) }
{
    match word {
        b"-" => Ok(Body::Made {
            length: 0,
            shift: 0,
        }),
        [b'=', text @ ..] if is_text(text) => Ok(Body::Text(copy_of(alloc, text)?)),
        [b'#', made @ ..] => match made_of(made) {
            Some((length, shift)) => Ok(Body::Made { length, shift }),
            None => Err(Refusal::Bad { cause: BODY }),
        },
        _ => Err(Refusal::Bad { cause: BODY }),
    }
}
