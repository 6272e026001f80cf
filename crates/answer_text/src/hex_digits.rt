// Bytes are written as digits of hexadecimal.
ghost use Rattle.std.specs.Prelude.{length, ◌≤◌};
ghost use Rattle.hex.specs.Hex.{encode_lower};
ghost use Rattle.rock_io.specs.LineBuffer.{HasRoom, Adds};

use rock_io::LineBuffer;

/// How many bytes are written as digits at once.
const PIECE: usize = 64;

/// Adds two digits for each of a few bytes.
fn put_piece(line: &mut LineBuffer, piece: &[u8])
    requires few { length piece.now ≤ PIECE }
    requires room { HasRoom line.old (encode_lower piece.now) }
    ensures { Adds line.old line.new (encode_lower piece.now) }
{
    let mut room = [0; 2 * PIECE];
    let digits = &mut room[..2 * piece.len()];
    match hex::encode_to_slice(piece, digits) {
        Ok(()) => line.put(digits),
        // There is room for two digits a byte.
        Err(_) => unreachable!(),
    }
}

/// Adds two digits for each byte, with lower case letters. They are made piece by piece, so that the line is
/// written once, and not first with zeros.
pub fn put_hex(line: &mut LineBuffer, bytes: &[u8])
    requires { HasRoom line.old (encode_lower bytes.now) }
    ensures { Adds line.old line.new (encode_lower bytes.now) }
{
    let mut taken = 0;
    while taken < bytes.len() {
        let count = PIECE.min(bytes.len() - taken);
        put_piece(line, &bytes[taken..taken + count]);
        taken += count;
    }
}
