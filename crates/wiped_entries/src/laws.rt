// The laws on what a crash leaves of entries that were wiped.
ghost use Rattle.std.specs.Prelude.{List, ◌<◌, ◌≡◌, ◌≢◌, ◌≤◌, ◌^◌, ℕ};
ghost use Rattle.rebuild_model.specs.Entry.{Entry, IsComplete};
ghost use Rattle.rebuild_model.specs.Image.{IsSaneAt, header_at};
ghost use Rattle.core_model.specs.declared.view.LoggedPiece.{LoggedPiece};
ghost use Rattle.core_model.specs.Anchors.{opening_counter};
ghost use Rattle.core_model.specs.Layout.{Setting};
ghost use Rattle.core_model.specs.Sound.{Sound};
ghost use Rattle.core_model.specs.State.{State};
ghost use Rattle.core_log.specs.Logged.{CellsLogged, LogStands};
ghost use Rattle.core_wiped.specs.Wipes.{IsSeenWiped, WipesStand};
ghost use Rattle.crash_entries.specs.Parts.{Offers};
ghost use Rattle.crash_laws.specs.Crashes.{IsLife};
ghost use Rattle.crash_laws.specs.Left.{IsFileOf, IsLeftWhile, LogKeeps};
ghost use Rattle.wiped_entries.specs.Now.{IsLeftNow};

use db_layout::MOST_SLOTS;
use entry_cut::{pieces_make_the_content, placed_pieces_are_an_entry};
use rebuild_model::one_entry_at_a_slot;
use slot_cell::images_are_read_as_built;
use store_key::keys_have_16_bytes;
use swap_meta::written_meta_is_spelled;

/// What a crash leaves now it also leaves as `crash_laws` says it, so all laws there hold of it.
pub fn crashes_now_are_crashes_within<X>()
    ensures { (k : Setting X) (b : X → List ℕ) (s : State X) (log : List LoggedPiece) (images : List (List ℕ))
        → Sound k s → CellsLogged k s log → IsLeftNow k b s images → IsLeftWhile k b s log images }
{}

/// In no file that a crash may leave is a wiped slot sane with the version of the entry that was wiped there.
pub fn wiped_slots_are_not_of_their_entry<X>()
    ensures { (slot : ℕ) (o : Offers) (k : Setting X) (b : X → List ℕ) (file : List (List ℕ)) (s : State X) (log : List LoggedPiece)
        (images : List (List ℕ)) (a version wiped : ℕ)
        → slot < 2 ^ 32 → k.slots ≤ MOST_SLOTS → IsFileOf slot o k b file → Sound k s → LogStands k s log → LogKeeps slot o k log
        → WipesStand k s log
        → IsLeftNow k b s images → IsSeenWiped s a version wiped → IsSaneAt slot images wiped → (header_at images wiped).version ≢ version }
{
    images_are_read_as_built();
    keys_have_16_bytes();
    one_entry_at_a_slot();
    pieces_make_the_content();
    placed_pieces_are_an_entry();
    written_meta_is_spelled();
}

/// Once a slot was wiped no file that a crash may leave has a complete entry of that version which begins at the slot; and
/// where the version is above the counter of the opening, none of that version at all.
pub fn wiped_entries_are_gone<X>()
    ensures begun { (slot : ℕ) (o : Offers) (k : Setting X) (b : X → List ℕ) (file : List (List ℕ)) (s : State X) (log : List LoggedPiece)
        (images : List (List ℕ)) (a version wiped : ℕ) (e : Entry)
        → slot < 2 ^ 32 → k.slots ≤ MOST_SLOTS → IsFileOf slot o k b file → Sound k s → LogStands k s log → LogKeeps slot o k log
        → WipesStand k s log
        → IsLeftNow k b s images → IsSeenWiped s a version wiped → IsComplete slot images e → e.first ≡ wiped → e.version ≢ version }
    ensures new { (slot : ℕ) (o : Offers) (k : Setting X) (b : X → List ℕ) (file : List (List ℕ)) (s : State X) (log : List LoggedPiece)
        (images : List (List ℕ)) (a version wiped : ℕ) (e : Entry)
        → slot < 2 ^ 32 → k.slots ≤ MOST_SLOTS → IsFileOf slot o k b file → Sound k s → LogStands k s log → LogKeeps slot o k log
        → WipesStand k s log
        → IsLeftNow k b s images → IsSeenWiped s a version wiped → opening_counter k < version → IsComplete slot images e
        → e.version ≢ version }
{
    images_are_read_as_built();
    keys_have_16_bytes();
    one_entry_at_a_slot();
    pieces_make_the_content();
    placed_pieces_are_an_entry();
    written_meta_is_spelled();
}

/// So it is from each opening of a file on, whatever allowed steps follow, also where several tabs write slots at the
/// time of the crash.
pub fn lives_leave_no_wiped_entries<X>()
    ensures begun { (slot : ℕ) (o : Offers) (before after : List (List ℕ)) (l : IsLife X slot o before after) (a version wiped : ℕ)
        (e : Entry)
        → slot < 2 ^ 32 → IsLeftNow l.setting l.bytes l.state after → IsSeenWiped l.state a version wiped → IsComplete slot after e
        → e.first ≡ wiped → e.version ≢ version }
    ensures new { (slot : ℕ) (o : Offers) (before after : List (List ℕ)) (l : IsLife X slot o before after) (a version wiped : ℕ)
        (e : Entry)
        → slot < 2 ^ 32 → IsLeftNow l.setting l.bytes l.state after → IsSeenWiped l.state a version wiped
        → opening_counter l.setting < version → IsComplete slot after e → e.version ≢ version }
{
    images_are_read_as_built();
    keys_have_16_bytes();
    one_entry_at_a_slot();
    pieces_make_the_content();
    placed_pieces_are_an_entry();
    written_meta_is_spelled();
}
