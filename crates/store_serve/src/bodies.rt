// The bytes of the body that a line offers.
ghost use Rattle.std.specs.Prelude.{length, slice_index, ◌%◌, ◌+◌, ◌<◌, ◌≡◌, ℕ};
ghost use Rattle.plain_model.specs.Serving.{bytes_of};

use script_text::Body;

/// How many bytes a body has.
pub fn body_length(body: &Body) -> usize
    ensures { result ≡ length (bytes_of body.now) }
{
    match body {
        Body::Text(text) => text.as_slice().len(),
        Body::Made { length, .. } => *length as usize,
    }
}

/// How many bytes are given at once of a body that is told by its length and shift.
pub(crate) const PIECE: usize = 512;

// The alphabet, 21 times: a piece fits in it from each letter of the first one on.
static LETTERS: [u8; 546] = *b"\
    abcdefghijklmnopqrstuvwxyzabcdefghijklmnopqrstuvwxyzabcdefghijklmnopqrstuvwxyz\
    abcdefghijklmnopqrstuvwxyzabcdefghijklmnopqrstuvwxyzabcdefghijklmnopqrstuvwxyz\
    abcdefghijklmnopqrstuvwxyzabcdefghijklmnopqrstuvwxyzabcdefghijklmnopqrstuvwxyz\
    abcdefghijklmnopqrstuvwxyzabcdefghijklmnopqrstuvwxyzabcdefghijklmnopqrstuvwxyz\
    abcdefghijklmnopqrstuvwxyzabcdefghijklmnopqrstuvwxyzabcdefghijklmnopqrstuvwxyz\
    abcdefghijklmnopqrstuvwxyzabcdefghijklmnopqrstuvwxyzabcdefghijklmnopqrstuvwxyz\
    abcdefghijklmnopqrstuvwxyzabcdefghijklmnopqrstuvwxyzabcdefghijklmnopqrstuvwxyz";

/// Bytes of a body that is told by its length and shift, from this place on.
pub(crate) fn letters(from: usize, shift: u8) -> &'static [u8]
    ensures many { length result.now ≡ PIECE }
    ensures letters { (i : ℕ) → i < PIECE → slice_index result.now i ≡ 97 + (from + i + shift) % 26 }
{
    let first = (from % 26 + shift as usize) % 26;
    &LETTERS[first..first + PIECE]
}
