ghost use Rattle.std.specs.Prelude.{◌≡◌, ℕ, List, ◌+◌, ◌<◌, ◌≤◌, ◌↔◌, ◌⊎◌, length, IsNone, IfSome, IsSomeAnd};
ghost use Rattle.slot_cell.specs.declared.header.Header.{Header};
ghost use Rattle.slot_cell.specs.Header.{header_of, payload_of, slot_image, IsInRange, IsSane};

use crate::header::{HEADER_SIZE, Header};

/// Writes the image of a slot: its header, its payload, and zeros to the end of `out`.
pub fn build_image(header: &Header, payload: &[u8], out: &mut [u8])
    requires size { length payload.now ≡ header.now.payload_size }
    requires room { HEADER_SIZE + length payload.now ≤ length out.old }
    ensures image { out.new ≡ slot_image header.now payload.now (length out.old) }
    ensures header { header_of out.new ≡ header.now }
    ensures payload { payload_of out.new ≡ payload.now }
{
    let Some((head, behind)) = out.split_first_chunk_mut() else {
        unreachable!()
    };
    let (body, zeros) = behind.split_at_mut(payload.len());
    header.encode(head);
    body.copy_from_slice(payload);
    zeros.fill(0);
}

/// Reads a slot's header and payload from the image of the whole slot, in a file of `slots` slots.
/// What stands behind the payload is not looked at.
///
/// `None` where there are fewer than 40 bytes, or the header is not sane in such a file of slots of
/// this length.
pub fn read_image(bytes: &[u8], slots: u32) -> Option<(Header, &[u8])>
    ensures none { IsNone result ↔ ((length bytes.now < HEADER_SIZE) ⊎ ¬ IsSane (header_of bytes.now) slots (length bytes.now)) }
    ensures header { IfSome result (λ found. found.0 ≡ header_of bytes.now) }
    ensures payload { IfSome result (λ found. found.1.now ≡ payload_of bytes.now) }
    ensures sane { IfSome result (λ found. IsSane found.0 slots (length bytes.now)) }

    // What `build_image` wrote is read back.
    ensures built { (h : Header) (payload : List ℕ) → IsInRange h → length payload ≡ h.payload_size →
        IsSane h slots (length bytes.now) → bytes.now ≡ slot_image h payload (length bytes.now) →
        IsSomeAnd result (λ found. (found.0 ≡ h) × (found.1.now ≡ payload)) }
{
    let header = Header::decode(bytes)?;
    if !header.is_sane_in(slots, bytes.len()) {
        return None;
    }
    let end = HEADER_SIZE + header.payload_size as usize;
    Some((header, &bytes[HEADER_SIZE..end]))
}
