// The laws on files that a crash leaves.
ghost use Rattle.std.specs.Prelude.{Contains, List, length, ◌<◌, ◌≡◌, ◌≤◌, ◌⊎◌, ◌^◌, ℕ};
ghost use Rattle.store_key.specs.Anchor.{anchor_of};
ghost use Rattle.rebuild_model.specs.Entry.{Entry, IsComplete};
ghost use Rattle.rebuild_model.specs.Rebuilt.{IsWinner};
ghost use Rattle.crash_entries.specs.Parts.{IsMixed, IsOfPart, Offers, Part, PartsStand};

use db_layout::MOST_SLOTS;
use entry_cut::{pieces_make_the_content, placed_pieces_are_an_entry};
use rebuild_model::one_entry_at_a_slot;
use slot_cell::images_are_read_as_built;
use store_key::keys_have_16_bytes;
use swap_meta::written_meta_is_spelled;

/// Where each slot has what it had at the opening, or a piece that was logged for it, or is not sane, each
/// complete entry is one of the opening, or the whole response of the offer of a piece that was logged, with the
/// version of that piece.
pub fn crash_images_have_known_entries()
    ensures { (slot anchors : ℕ) (o : Offers) (file images : List (List ℕ)) (log : List Part) (e : Entry)
        → slot < 2 ^ 32 → length file ≤ MOST_SLOTS → PartsStand slot anchors o file (Contains log) → IsMixed slot o file (Contains log) images
        → IsComplete slot images e → IsComplete slot file e ⊎ IsOfPart slot o (Contains log) e }
{
    images_are_read_as_built();
    keys_have_16_bytes();
    one_entry_at_a_slot();
    pieces_make_the_content();
    placed_pieces_are_an_entry();
    written_meta_is_spelled();
}

/// A complete entry of such a file is the one that a rebuild keeps at its anchor, where no piece of a greater
/// version was logged for the anchor, and no entry of the opening there is better: of a greater version, or of this
/// one and begun at a lower slot.
pub fn standing_entries_win()
    ensures { (slot anchors : ℕ) (o : Offers) (file images : List (List ℕ)) (log : List Part) (e : Entry) (a : ℕ)
        → slot < 2 ^ 32 → length file ≤ MOST_SLOTS → PartsStand slot anchors o file (Contains log) → IsMixed slot o file (Contains log) images
        → IsComplete slot images e → anchor_of e.key anchors ≡ a
        → ((p : Part) → Contains log p → p.anchor ≡ a → p.version ≤ e.version)
        → ((f : Entry) → IsComplete slot file f → anchor_of f.key anchors ≡ a → (f.version < e.version) ⊎ ((f.version ≡ e.version) × (e.first ≤ f.first)))
        → IsWinner slot images anchors a e }
{
    images_are_read_as_built();
    keys_have_16_bytes();
    one_entry_at_a_slot();
    pieces_make_the_content();
    placed_pieces_are_an_entry();
    written_meta_is_spelled();
}
