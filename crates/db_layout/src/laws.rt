//! How sizes and offsets fit. These functions do nothing: the proof of a function that calls one may use
//! what it ensures. Where nothing needs a slot size to be one that a file may have, nothing asks for it.
ghost use Rattle.std.specs.Prelude.{◌≡◌, ℕ, ◌+◌, ◌*◌, ◌^◌, ◌<◌, ◌≤◌, ◌↔◌};
ghost use Rattle.db_layout.specs.Layout.{IsSlotSize, IsInSlot, slots_of, offset_of, file_size};

use crate::layout::{GREATEST_SLOT, HEADER_BYTES, LEAST_SLOT, MOST_SLOTS};

/// The numbers of the limits.
pub fn limits_are_these()
    ensures header { HEADER_BYTES ≡ 16384 }
    ensures slots { MOST_SLOTS ≡ 1048576 }
    ensures least { LEAST_SLOT ≡ 512 }
    ensures greatest { GREATEST_SLOT ≡ 32768 }
{}

/// A file that was made for so many slots has as many, and with one byte less one slot less.
pub fn made_files_have_their_slots()
    ensures made { (slots slot : ℕ) → 0 < slot → slots ≤ MOST_SLOTS → slots_of (file_size slots slot) slot ≡ slots }
    ensures less { (slots slot bytes : ℕ) → 0 < slot → slots < MOST_SLOTS → bytes < file_size (slots + 1) slot → slots_of bytes slot ≤ slots }
    ensures one { (slots more slot : ℕ) → 0 < slot → file_size slots slot ≡ file_size more slot → slots ≡ more }
{}

/// A file has so many slots exactly where it is long enough for them. What is behind the last one is
/// too short for another, or the file has as many as one may have.
pub fn slots_are_whole()
    ensures counted { (bytes slot n : ℕ) → 0 < slot → 0 < n →
        ((n ≤ slots_of bytes slot) ↔ ((n ≤ MOST_SLOTS) × (file_size n slot ≤ bytes))) }
    ensures within { (bytes slot : ℕ) → HEADER_BYTES ≤ bytes → file_size (slots_of bytes slot) slot ≤ bytes }
    ensures rest { (bytes slot : ℕ) → 0 < slot → slots_of bytes slot < MOST_SLOTS →
        bytes < file_size (slots_of bytes slot) slot + slot }
    ensures most { (bytes slot : ℕ) → slots_of bytes slot ≤ MOST_SLOTS }
    ensures none { (bytes slot : ℕ) → 0 < slot → ((slots_of bytes slot ≡ 0) ↔ (bytes < HEADER_BYTES + slot)) }
{}

/// Slots lie one behind the other: behind the header area, none over another, and each whole slot before
/// the end of the file.
pub fn slots_are_apart()
    ensures first { (slot : ℕ) → offset_of 0 slot ≡ HEADER_BYTES }
    ensures next { (number slot : ℕ) → offset_of (number + 1) slot ≡ offset_of number slot + slot }
    ensures apart { (number other slot : ℕ) → number < other → offset_of number slot + slot ≤ offset_of other slot }
    ensures one { (number other slot place : ℕ) → IsInSlot number slot place → IsInSlot other slot place → number ≡ other }
    ensures behind_header { (number slot : ℕ) → HEADER_BYTES ≤ offset_of number slot }
    ensures within { (bytes slot number : ℕ) → 0 < slot → number < slots_of bytes slot → offset_of number slot + slot ≤ bytes }
    ensures within_made { (slots slot number : ℕ) → number < slots → offset_of number slot + slot ≤ file_size slots slot }
    ensures every { (slots slot place : ℕ) → 0 < slot → HEADER_BYTES ≤ place → place < file_size slots slot →
        (number : ℕ) × (number < slots) × IsInSlot number slot place }
{}

/// No slot number and no count of slots makes a sum that is too great for a file's offset.
pub fn offsets_are_in_range()
    ensures offset { (number slot : ℕ) → IsSlotSize slot → number < 2 ^ 32 → offset_of number slot + slot < 2 ^ 48 }
    ensures size { (slots slot : ℕ) → IsSlotSize slot → slots < 2 ^ 32 → file_size slots slot < 2 ^ 48 }
    ensures positive { (slot : ℕ) → IsSlotSize slot → 0 < slot }
{}
