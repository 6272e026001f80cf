// What the header area of a file may record of its slots: behind a mark of eight bytes the slot size and the number of
// slots, each a little-endian number of 32 bits.
ghost use Rattle.std.specs.Prelude.{◌≡◌, length, MatchOption};
ghost use Rattle.db_layout.specs.Geometry.{IsMarked, Records, header_of};

use crate::layout::HEADER_BYTES;

/// The bytes with which a header area begins that records the geometry of its file.
const MARK: [u8; 8] = *b"RockSMP2";

/// The slots of a file, as its header area records them. The numbers may be any: a file need not have such slots.
#[derive(Clone, Copy, Debug, PartialEq, Eq)]
pub struct Geometry {
    /// The bytes of each slot.
    pub slot: u32,
    /// How many slots the file has.
    pub slots: u32,
}

/// Reads what a header area records. None exactly where it records nothing: it has fewer than 16 bytes, or does not
/// begin with the mark. Bytes behind the first 16 are not looked at.
pub fn read_geometry(header: &[u8]) -> Option<Geometry>
    ensures { MatchOption result (IsMarked header.now → ⊥) (Records header.now) }
{
    let (mark, rest) = header.split_first_chunk()?;
    let (slot, rest) = rest.split_first_chunk()?;
    let (slots, _) = rest.split_first_chunk()?;
    if *mark != MARK {
        return None;
    }
    Some(Geometry {
        slot: u32::from_le_bytes(*slot),
        slots: u32::from_le_bytes(*slots),
    })
}

/// Makes `out` a header area that records this geometry: the mark, the two numbers, and zeros to its end.
pub fn write_geometry(geometry: &Geometry, out: &mut [u8])
    requires { length out.old ≡ HEADER_BYTES }
    ensures { out.new ≡ header_of geometry.now }
{
    let Some((mark, behind)) = out.split_first_chunk_mut() else {
        unreachable!()
    };
    let Some((slot, behind)) = behind.split_first_chunk_mut() else {
        unreachable!()
    };
    let Some((slots, behind)) = behind.split_first_chunk_mut() else {
        unreachable!()
    };
    *mark = MARK;
    *slot = geometry.slot.to_le_bytes();
    *slots = geometry.slots.to_le_bytes();
    behind.fill(0);
}
