// The laws on what a crash leaves of a state.
ghost use Rattle.std.specs.Prelude.{Contains, List, Option, length, ◌<◌, ◌≡◌, ◌≤◌, ◌⊎◌, ◌^◌, ℕ};
ghost use Rattle.lock_word.specs.Words.{epoch_of, version_of};
ghost use Rattle.store_key.specs.Anchor.{anchor_of};
ghost use Rattle.rebuild_model.specs.Entry.{Entry, IsComplete};
ghost use Rattle.rebuild_model.specs.Rebuilt.{IsWinner};
ghost use Rattle.core_model.specs.declared.view.LoggedPiece.{LoggedPiece};
ghost use Rattle.core_model.specs.Layout.{Setting};
ghost use Rattle.core_model.specs.State.{State, word};
ghost use Rattle.core_model.specs.Sound.{Sound};
ghost use Rattle.core_log.specs.Logged.{CellsLogged, LinksStand, SettledStand};
ghost use Rattle.crash_entries.specs.Parts.{Offers};
ghost use Rattle.crash_laws.specs.Crashes.{AreLives};
ghost use Rattle.crash_laws.specs.Left.{IsFileOf, IsLeftWhile, IsWholeOffer, LogKeeps, StandsNew, StandsOld, entry_at};

use db_layout::MOST_SLOTS;
use entry_cut::{pieces_make_the_content, placed_pieces_are_an_entry};
use rebuild_model::one_entry_at_a_slot;
use slot_cell::images_are_read_as_built;
use store_key::keys_have_16_bytes;
use swap_meta::written_meta_is_spelled;

/// Each file that a crash may leave, between two steps or while logged pieces are being written, has as complete
/// entries those of the opening and whole responses of offers.
pub fn crashes_leave_responses<X>()
    ensures { (slot : ℕ) (o : Offers) (k : Setting X) (b : X → List ℕ) (file : List (List ℕ)) (s : State X) (log : List LoggedPiece) (images : List (List ℕ)) (e : Entry)
        → slot < 2 ^ 32 → k.slots ≤ MOST_SLOTS → IsFileOf slot o k b file → Sound k s → CellsLogged k s log → LinksStand k s log → LogKeeps slot o k log
        → IsLeftWhile k b s log images → IsComplete slot images e → IsComplete slot file e ⊎ IsWholeOffer o k.slots e }
{
    images_are_read_as_built();
    keys_have_16_bytes();
    one_entry_at_a_slot();
    pieces_make_the_content();
    placed_pieces_are_an_entry();
    written_meta_is_spelled();
}

/// An entry that is complete there with the version that stands at its anchor is kept by a rebuild, where no entry of the
/// opening at the anchor is better.
pub fn standing_entries_are_kept<X>()
    ensures { (slot : ℕ) (o : Offers) (k : Setting X) (b : X → List ℕ) (file : List (List ℕ)) (s : State X) (log : List LoggedPiece) (images : List (List ℕ)) (e : Entry) (a : ℕ)
        → slot < 2 ^ 32 → k.slots ≤ MOST_SLOTS → IsFileOf slot o k b file → Sound k s → CellsLogged k s log → LinksStand k s log → LogKeeps slot o k log
        → IsLeftWhile k b s log images → IsComplete slot images e → a < k.anchors → anchor_of e.key k.anchors ≡ a → e.version ≡ version_of (epoch_of (word s a))
        → ((f : Entry) → IsComplete slot file f → anchor_of f.key k.anchors ≡ a → (f.version < e.version) ⊎ ((f.version ≡ e.version) × (e.first ≤ f.first)))
        → IsWinner slot images k.anchors a e }
{
    images_are_read_as_built();
    keys_have_16_bytes();
    one_entry_at_a_slot();
    pieces_make_the_content();
    placed_pieces_are_an_entry();
    written_meta_is_spelled();
}

/// A new entry that stands outlives a crash: it is complete in each file that may be left, and a rebuild keeps it.
pub fn new_entries_outlive_crashes<X>()
    ensures { (slot : ℕ) (o : Offers) (k : Setting X) (b : X → List ℕ) (file : List (List ℕ)) (s : State X) (log : List LoggedPiece) (images : List (List ℕ)) (a : ℕ)
        → slot < 2 ^ 32 → k.slots ≤ MOST_SLOTS → IsFileOf slot o k b file → Sound k s → CellsLogged k s log → LinksStand k s log → LogKeeps slot o k log → SettledStand k s log
        → IsLeftWhile k b s log images → a < k.anchors → StandsNew slot o k s log a → IsWinner slot images k.anchors a (entry_at slot o k s a) }
{
    images_are_read_as_built();
    keys_have_16_bytes();
    one_entry_at_a_slot();
    pieces_make_the_content();
    placed_pieces_are_an_entry();
    written_meta_is_spelled();
}

/// So does an entry of the opening that still stands.
pub fn old_entries_outlive_crashes<X>()
    ensures { (slot : ℕ) (o : Offers) (k : Setting X) (b : X → List ℕ) (file : List (List ℕ)) (s : State X) (log : List LoggedPiece) (images : List (List ℕ)) (a : ℕ) (e : Entry)
        → slot < 2 ^ 32 → k.slots ≤ MOST_SLOTS → IsFileOf slot o k b file → Sound k s → CellsLogged k s log → LinksStand k s log → LogKeeps slot o k log → SettledStand k s log
        → IsLeftWhile k b s log images → a < k.anchors → StandsOld slot file k s a e → IsWinner slot images k.anchors a e }
{
    images_are_read_as_built();
    keys_have_16_bytes();
    one_entry_at_a_slot();
    pieces_make_the_content();
    placed_pieces_are_an_entry();
    written_meta_is_spelled();
}

/// Whatever crashes, openings and steps follow one another: the complete entries of the last file are those of the
/// first, and whole responses of offers.
pub fn lives_add_responses<X>()
    ensures { (slot : ℕ) (o : Offers) (first : List (List ℕ)) (files : List (List (List ℕ))) (last : List (List ℕ)) (e : Entry)
        → slot < 2 ^ 32 → AreLives X slot o first files last → IsComplete slot last e → IsComplete slot first e ⊎ IsWholeOffer o (length first) e }
{
    images_are_read_as_built();
    keys_have_16_bytes();
    one_entry_at_a_slot();
    pieces_make_the_content();
    placed_pieces_are_an_entry();
    written_meta_is_spelled();
}
