//! What tests read their tables with: rows of text, one a line. The fields of a row stand apart by `;`, and its
//! numbers by spaces.
//!
//! What reads a row answers None where it can't, and its test fails with the row. To tell errors apart would take the
//! check much longer.
#![tactic(auto)]

/// The two fields of a text, of which the first ends at the first `;`.
pub fn fields(text: &str) -> Option<(&str, &str)> {
    text.split_once(';')
}

/// The three fields of a row.
pub fn three_fields(row: &str) -> Option<(&str, &str, &str)> {
    let (first, rest) = fields(row)?;
    let (second, third) = fields(rest)?;
    Some((first, second, third))
}

/// The number of a name, by a text that has each name and its number, as `empty;0 taken;1`.
fn named(names: &str, word: &str) -> Option<u64> {
    for named in names.split(' ') {
        let (name, number) = fields(named)?;
        if name == word {
            return number.parse().ok();
        }
    }
    None
}

/// The number of a word: in decimal, behind `0x` in hexadecimal, or by a name.
fn number(names: &str, word: &str) -> Option<u64> {
    if let Some(digits) = word.strip_prefix("0x") {
        return u64::from_str_radix(digits, 16).ok();
    }
    match word.parse() {
        Ok(number) => Some(number),
        Err(_) => named(names, word),
    }
}

/// The numbers of a text, which has so many. Each stands there as digits, or by one of the names, as `empty;0 taken;1`.
pub fn numbers<const N: usize>(names: &str, text: &str) -> Option<[u64; N]> {
    let mut numbers = [0; N];
    let mut words = text.split(' ');
    for place in &mut numbers {
        *place = number(names, words.next()?)?;
    }
    match words.next() {
        None => Some(numbers),
        Some(_) => None,
    }
}

/// A number of 32 bits. Any other is the greatest one.
pub fn short(number: u64) -> u32 {
    u32::try_from(number).unwrap_or(u32::MAX)
}
