//! What holds of all headers and all bytes. These functions do nothing: the proof of a function that
//! calls one may use what it ensures.
ghost use Rattle.std.specs.Prelude.{◌≡◌, ℕ, List, ◌++◌, ◌<◌, All, length};
ghost use Rattle.slot_cell.specs.declared.header.Header.{Header};
ghost use Rattle.slot_cell.specs.Header.{header_of, header_bytes, payload_of, slot_image, IsInRange};

use crate::header::{GREATEST_VERSION, HEADER_SIZE};

/// The numbers of the limits.
pub fn limits_are_these()
    ensures header { HEADER_SIZE ≡ 40 }
    ensures version { GREATEST_VERSION ≡ 4294901760 }
{}

/// Writing a header and reading one undo each other.
pub fn headers_are_read_as_written()
    ensures read { (h : Header) (rest : List ℕ) → IsInRange h → header_of (header_bytes h ++ rest) ≡ h }
    ensures written { (bytes : List ℕ) → length bytes ≡ HEADER_SIZE → All (λ byte. byte < 256) bytes →
        header_bytes (header_of bytes) ≡ bytes }
{}

/// The image of a slot says its header and its payload.
pub fn images_are_read_as_built()
    ensures header { (h : Header) (payload : List ℕ) (slot : ℕ) → IsInRange h → header_of (slot_image h payload slot) ≡ h }
    ensures payload { (h : Header) (payload : List ℕ) (slot : ℕ) → IsInRange h → length payload ≡ h.payload_size →
        payload_of (slot_image h payload slot) ≡ payload }
{}
