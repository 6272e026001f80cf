// The header of a piece, and the image of its slot.
ghost use Rattle.std.specs.Prelude.{◌≡◌, ◌+◌, ◌<◌, ◌≤◌, ◌^◌, ℕ, length, take, drop};
ghost use Rattle.slot_cell.specs.Header.{slot_image};
ghost use Rattle.entry_cut.specs.Content.{Cut, header, payload};
ghost use Rattle.entry_cut.specs.Labels.{IsLabelOf, ComesBehind, Fits, header_with, next_of};

use slot_cell::{HEADER_SIZE, Header};
use store_key::halves_of;

/// What every piece of an entry says of it.
#[derive(Clone, Copy, Debug, PartialEq, Eq)]
pub struct Label {
    /// The key of the entry's URL.
    pub key: [u8; 16],
    pub version: u32,
    /// The slot of the first piece.
    pub first: u32,
}

/// What comes behind a piece.
#[derive(Clone, Copy, Debug, PartialEq, Eq)]
pub enum Behind {
    /// Another piece, in this slot.
    Slot(u32),
    /// Nothing: metadata and body have this many bytes together.
    End(u64),
}

/// The header of a piece of `size` bytes. The last piece says the size of the whole and names no slot,
/// and the others name the next one and say 0, since the size need not be known yet.
pub fn piece_header(label: &Label, size: u32, behind: Behind) -> Header
    requires first { label.now.first < 2 ^ 31 }
    requires next { Fits behind }
    ensures value { result ≡ header_with label.now size behind }
    ensures piece { (c : Cut) (k : ℕ) → IsLabelOf c label.now → size ≡ length (payload c k)
        → ComesBehind c k behind → result ≡ header c k (next_of behind) }
{
    let (k0, k1) = halves_of(&label.key);
    let (entry_size, next_slot) = match behind {
        Behind::Slot(slot) => (0, slot as i32),
        Behind::End(whole) => (whole, -1),
    };
    Header {
        k0,
        k1,
        entry_size,
        payload_size: size,
        version: label.version,
        first_slot: label.first as i32,
        next_slot,
    }
}

/// Makes the image of a slot where its payload lies already, behind room for the header: puts the header
/// in front and zeros behind the payload.
pub fn put_header(header: &Header, image: &mut [u8])
    requires { HEADER_SIZE + header.now.payload_size ≤ length image.old }
    ensures { image.new ≡ slot_image header.now (take header.now.payload_size (drop HEADER_SIZE image.old)) (length image.old) }
{
    let Some((head, behind)) = image.split_first_chunk_mut() else {
        unreachable!()
    };
    let (_, zeros) = behind.split_at_mut(header.payload_size as usize);
    header.encode(head);
    zeros.fill(0);
}
