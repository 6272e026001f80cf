// What opening a file, giving its cells back and reading its header area make of the files, and tell of
// them. These functions do nothing: the proof of a function that calls one may use what it ensures.
ghost use Rattle.std.specs.Prelude.{◌≡◌, ◌+◌, ◌<◌, ◌≤◌, ◌≢◌, ◌++◌, ℕ, List, Some, length, map, All};
ghost use Rattle.std.specs.FinMap.{get, insert};
ghost use Rattle.db_layout.specs.Layout.{IsSlotSize, slots_of};
ghost use Rattle.rock_disk.specs.Cell.{CellState, shape, joined};
ghost use Rattle.rock_disk.specs.Created.{IsCreated, IsMaybeCreated};
ghost use Rattle.rock_disk.specs.File.{Files, NoneAway, IsThere, IsKept, HaveSameBytes, bytes_of, cut, rest_cut};
ghost use Rattle.rock_disk.specs.File.File.{Home, Away};
ghost use Rattle.rock_disk.specs.Opened.{AreSlots, HasShape, IsOpened, IsOut, IsPeeked};

use crate::HEADER_NUMBER;
use db_layout::{HEADER_BYTES, MOST_SLOTS};

/// A file that is cut anew and joined again has its bytes, whatever the slot size.
pub fn cutting_keeps_the_bytes()
    ensures { (slot : ℕ) (bytes : List ℕ) → bytes_of (cut slot bytes) ≡ bytes }
{}

/// Where one file was cut anew at most, each file has its bytes, and none is out that was in.
pub fn kept_files_have_their_bytes()
    ensures bytes { (slot : ℕ) (name : List ℕ) (before after : Files) → IsKept slot name before after → HaveSameBytes before after }
    ensures home { (slot : ℕ) (name : List ℕ) (before after : Files) → IsKept slot name before after → NoneAway before → NoneAway after }
{
    cutting_keeps_the_bytes();
}

/// Where a file was created, or may have been, no file is out that was in.
pub fn created_files_are_in()
    ensures created { (before after : Files) (name : List ℕ) (size : ℕ) → IsCreated before after name size → NoneAway before → NoneAway after }
    ensures maybe { (before after : Files) (name : List ℕ) → IsMaybeCreated before after name → NoneAway before → NoneAway after }
{}

/// An opened file has so many slots as its length says, at most 1,048,576, each of them as wide as a slot.
pub fn opened_slots_are_wide_and_few()
    ensures wide { (slot bytes : ℕ) (header : CellState) (cells : List CellState) → HasShape slot bytes header cells → All (λ c. c.width ≡ slot) cells }
    ensures count { (slot bytes : ℕ) (header : CellState) (cells : List CellState) → HasShape slot bytes header cells → length cells ≡ slots_of bytes slot }
    ensures few { (slot bytes : ℕ) (header : CellState) (cells : List CellState) → HasShape slot bytes header cells → length cells ≤ MOST_SLOTS }
    ensures slots { (slot bytes : ℕ) (header : CellState) (cells : List CellState) → IsSlotSize slot → HasShape slot bytes header cells → AreSlots slot cells }
{}

/// The number of a header area is the number of no slot: a file's slots have the numbers below their count,
/// which is smaller.
pub fn header_number_is_no_slots()
    ensures { (bytes slot number : ℕ) → number < slots_of bytes slot → number ≢ HEADER_NUMBER }
{}

/// The cells of an opened file hold its bytes, but for its rest. The file is there, and is out, and the
/// other files are as they were.
pub fn opened_cells_are_the_files()
    ensures bytes { (before after : Files) (name : List ℕ) (slot bytes : ℕ) (header : CellState) (cells : List CellState)
        → (o : IsOpened before after name slot bytes header cells)
        → bytes_of o.was ≡ header.now ++ (joined cells ++ rest_cut slot (bytes_of o.was)) }
    ensures away { (before after : Files) (name : List ℕ) (slot bytes : ℕ) (header : CellState) (cells : List CellState)
        → (o : IsOpened before after name slot bytes header cells)
        → get after name ≡ Some (Away (slots_of bytes slot) slot (rest_cut slot (bytes_of o.was))) }
    ensures there { (before after : Files) (name : List ℕ) (slot bytes : ℕ) (header : CellState) (cells : List CellState)
        → IsOpened before after name slot bytes header cells → IsThere after name }
    ensures others { (before after : Files) (name : List ℕ) (slot bytes : ℕ) (header : CellState) (cells : List CellState)
        → IsOpened before after name slot bytes header cells
        → (other : List ℕ) → other ≢ name → get after other ≡ get before other }
{
    cutting_keeps_the_bytes();
}

/// The cells of an opened file may be given back, also after they were written. Where they are as they
/// were, that leaves the file as opening cuts it.
pub fn opened_cells_may_be_given_back()
    ensures out { (before after : Files) (name : List ℕ) (slot bytes : ℕ) (header header_now : CellState) (cells cells_now : List CellState)
        → HasShape slot bytes header cells → IsOpened before after name slot bytes header cells
        → shape header_now ≡ shape header → map shape cells_now ≡ map shape cells
        → IsOut after name header_now cells_now }
    ensures kept { (before after final : Files) (name : List ℕ) (slot bytes : ℕ) (header : CellState) (cells : List CellState)
        → IsOpened before after name slot bytes header cells
        → ((slots slot : ℕ) (rest : List ℕ) → get after name ≡ Some (Away slots slot rest)
        → final ≡ insert after name (Home header cells rest))
        → IsKept slot name before final }
{
    opened_cells_are_the_files();
}

/// The header area that a peek reads is what the header cell of the file holds, where the file is in and was
/// cut, and what a reader of that cell finds where the file is opened. Cutting a file changes nothing of it.
pub fn peeked_headers_are_read()
    ensures home { (files : Files) (name : List ℕ) (bytes : ℕ) (front : List ℕ) (header : CellState) (cells : List CellState) (rest : List ℕ)
        → IsPeeked files name bytes front → get files name ≡ Some (Home header cells rest) → length header.now ≡ HEADER_BYTES
        → header.now ≡ front }
    ensures opened { (before after : Files) (name : List ℕ) (slot bytes seen : ℕ) (front : List ℕ) (header : CellState) (cells : List CellState)
        → IsPeeked before name seen front → IsOpened before after name slot bytes header cells
        → (header.now ≡ front) × (bytes ≡ seen) }
    ensures kept { (before after : Files) (name : List ℕ) (slot bytes : ℕ) (front : List ℕ)
        → IsPeeked before name bytes front → IsKept slot name before after → IsPeeked after name bytes front }
{}
