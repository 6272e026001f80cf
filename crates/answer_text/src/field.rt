ghost use Rattle.std.specs.Prelude.{◌≡◌, ◌≤◌, length, decimal};
ghost use Rattle.hex.specs.Hex.{IsBytes};
ghost use Rattle.lock_word.specs.Words.{IsInRange};
ghost use Rattle.answer_text.specs.Parts.{bytes_text, epoch_text, key_text, word_text};
ghost use Rattle.answer_text.specs.Ranges.{IsEpoch};
ghost use Rattle.answer_text.specs.Fields.{field_text, Counts};
ghost use Rattle.rock_io.specs.LineBuffer.{HasRoom, Adds};

use crate::hex_digits::put_hex;
use itoa::Buffer;
use lock_word::{Epoch, Word};
use rock_io::LineBuffer;

/// A word of an answer.
#[derive(Clone, Copy, Debug)]
pub enum Field<'a> {
    /// A text that stands for itself.
    Name(&'static str),
    /// A version, or a count.
    Number(u64),
    /// An epoch: `version.stage`, and `d` where it is doomed.
    Epoch(Epoch),
    /// The word of an anchor: its epoch, `/` and its readers.
    Word(Word),
    /// A key in lower-case hexadecimal.
    Key([u8; 16]),
    /// Bytes in lower-case hexadecimal, or `-` for none.
    Bytes(&'a [u8]),
}

impl<'a> Field<'a> {
    /// An epoch, whose version is in its range.
    pub fn of_epoch(epoch: Epoch) -> Self
        ensures field { result ≡ Field.Epoch epoch }
        ensures in_range { IsEpoch epoch }
    {
        Field::Epoch(epoch)
    }

    /// The word of an anchor, whose numbers are in their ranges.
    pub fn of_word(word: Word) -> Self
        ensures field { result ≡ Field.Word word }
        ensures in_range { IsInRange word }
    {
        Field::Word(word)
    }

    /// A key, each byte of which is in its range.
    pub fn of_key(key: [u8; 16]) -> Self
        ensures field { result ≡ Field.Key key }
        ensures in_range { IsBytes key }
    {
        Field::Key(key)
    }

    /// Bytes, each in its range.
    pub fn of_bytes(bytes: &'a [u8]) -> Self
        ensures field { result ≡ Field.Bytes bytes.entry }
        ensures in_range { IsBytes bytes.now }
    {
        Field::Bytes(bytes)
    }

    /// How many bytes its text has. None where that is more than a `usize` can count.
    pub fn size(self) -> Option<usize>
        ensures { Counts result (length (field_text self.entry)) }
    {
        match self {
            Field::Name(text) => Some(text.len()),
            Field::Number(number) => Some(number_size(number)),
            Field::Epoch(epoch) => Some(epoch_size(epoch)),
            Field::Word(word) => Some(word_size(word)),
            Field::Key(key) => Some(key_size(&key)),
            Field::Bytes(bytes) => bytes_size(bytes),
        }
    }

    /// Adds its text to a line that has room for it.
    pub fn put(self, line: &mut LineBuffer)
        requires { HasRoom line.old (field_text self) }
        ensures { Adds line.old line.new (field_text self.entry) }
    {
        match self {
            Field::Name(text) => line.put(text.as_bytes()),
            Field::Number(number) => line.put_number(number),
            Field::Epoch(epoch) => put_epoch(line, epoch),
            Field::Word(word) => put_word(line, word),
            Field::Key(key) => put_hex(line, &key),
            Field::Bytes(bytes) => put_bytes(line, bytes),
        }
    }
}

/// How many digits a number has in decimal.
pub fn number_size(number: u64) -> usize
    ensures size { result ≡ length (decimal number) }
    ensures short { result ≤ 40 }
{
    Buffer::new().format(number).len()
}

fn epoch_size(epoch: Epoch) -> usize
    ensures size { result ≡ length (epoch_text epoch) }
    ensures short { result ≤ 82 }
{
    let digits = number_size(u64::from(epoch.version)) + number_size(epoch.stage.number());
    digits + 1 + usize::from(epoch.doom)
}

fn word_size(word: Word) -> usize
    ensures { result ≡ length (word_text word) }
{
    epoch_size(word.epoch) + 1 + number_size(u64::from(word.readers))
}

#[tactic(auto, using(crate::proofs::Sizes::digits_length))]
fn key_size(key: &[u8; 16]) -> usize
    ensures { result ≡ length (key_text key.now) }
{
    2 * key.len()
}

fn bytes_size(bytes: &[u8]) -> Option<usize>
    ensures { Counts result (length (bytes_text bytes.now)) }
{
    if bytes.is_empty() {
        return Some(1);
    }
    bytes.len().checked_mul(2)
}

fn put_epoch(line: &mut LineBuffer, epoch: Epoch)
    requires { HasRoom line.old (epoch_text epoch) }
    ensures { Adds line.old line.new (epoch_text epoch) }
{
    line.put_number(u64::from(epoch.version));
    line.put(b".");
    line.put_number(epoch.stage.number());
    if epoch.doom {
        line.put(b"d");
    }
}

fn put_word(line: &mut LineBuffer, word: Word)
    requires { HasRoom line.old (word_text word) }
    ensures { Adds line.old line.new (word_text word) }
{
    put_epoch(line, word.epoch);
    line.put(b"/");
    line.put_number(u64::from(word.readers));
}

fn put_bytes(line: &mut LineBuffer, bytes: &[u8])
    requires { HasRoom line.old (bytes_text bytes.now) }
    ensures { Adds line.old line.new (bytes_text bytes.now) }
{
    if bytes.is_empty() {
        line.put(b"-");
    } else {
        put_hex(line, bytes);
    }
}
