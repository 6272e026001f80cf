//! What pieces make. These functions do nothing: the proof of a function that calls one may use what it
//! ensures.
ghost use Rattle.std.specs.Prelude.{◌≡◌, ◌+◌, ◌*◌, ◌<◌, ◌≤◌, ◌++◌, ℕ, List, length, take};
ghost use Rattle.rebuild_model.specs.Entry.{IsComplete};
ghost use Rattle.entry_cut.specs.Content.{Cut, room_of, slots_needed, piece};
ghost use Rattle.entry_cut.specs.Standing.{IsWritable, Stand, entry_of};
ghost use Rattle.entry_cut.specs.Filling.{CutterState, Holds};

use db_layout::MOST_SLOTS;
use slot_cell::{HEADER_SIZE, images_are_read_as_built};
use store_key::keys_have_16_bytes;
use swap_meta::written_meta_is_spelled;

/// Where the pieces of an entry stand in different slots of one file, each naming the next, there is a
/// complete entry at the first, with that URL, version and body, whatever the other slots hold.
pub fn placed_pieces_are_an_entry()
    ensures { (c : Cut) (images : List (List ℕ)) (chain : List ℕ) → IsWritable c → length images ≤ MOST_SLOTS
        → Stand c images chain → IsComplete c.slot images (entry_of c chain) }
{
    keys_have_16_bytes();
    written_meta_is_spelled();
    images_are_read_as_built();
    pieces_make_the_content();
}

/// Each piece but the last is full, the last has at least one byte, and behind it there is none.
pub fn pieces_make_the_content()
    ensures full { (content : List ℕ) (slot k : ℕ) → HEADER_SIZE < slot → k + 1 < slots_needed (length content) slot
        → length (piece (room_of slot) content k) ≡ room_of slot }
    ensures last { (content : List ℕ) (slot k : ℕ) → HEADER_SIZE < slot → k + 1 ≡ slots_needed (length content) slot
        → (0 < length (piece (room_of slot) content k)) × (length content ≡ k * room_of slot + length (piece (room_of slot) content k)) }
    ensures joined { (content : List ℕ) (room k : ℕ)
        → take ((k + 1) * room) content ≡ take (k * room) content ++ piece room content k }
{}

/// What a page holds of a content is the piece of its place: the whole piece where the slot is full, and
/// where the content ends.
pub fn filled_pages_are_pieces()
    ensures full { (cutter : CutterState) (page filled more : List ℕ) → Holds cutter page filled → cutter.held ≡ cutter.room
        → take cutter.held page ≡ piece cutter.room (filled ++ more) cutter.place }
    ensures last { (cutter : CutterState) (page filled : List ℕ) → Holds cutter page filled
        → take cutter.held page ≡ piece cutter.room filled cutter.place }
{}
