// What holds of entries that were wiped along every list of steps, crashes and rebuilds.
ghost use Rattle.std.specs.Prelude.{◌≡◌, ◌≢◌, ◌<◌, List, ℕ};
ghost use mathlib.Core.Option.{some};
ghost use lib.ListN.{get_elem?};
ghost use Rattle.db_layout.specs.Layout.{IsSlotSize};
ghost use Rattle.rebuild_model.specs.declared.image.FileImage.{FileImage};
ghost use Rattle.rebuild_model.specs.Entry.{Entry, IsComplete};
ghost use Rattle.crash_entries.specs.Parts.{Offers};
ghost use Rattle.core_model.specs.Anchors.{opening_counter};
ghost use Rattle.core_table.specs.Machine.{setting_of, state_of};
ghost use Rattle.core_state.specs.declared.act.Step.{Step};
ghost use Rattle.core_lives.specs.Along.{LeadsThrough};
ghost use Rattle.core_lives.specs.Happening.{IsNewLife};
ghost use Rattle.core_lives.specs.Left.{IsFaithful, MayBeLeft};
ghost use Rattle.core_lives.specs.Lived.{IsSoundLife, Lived};
ghost use Rattle.core_wiped.specs.Wipes.{HasWipes, IsSeenWiped};

use entry_cut::{pieces_make_the_content, placed_pieces_are_an_entry};
use rebuild_model::one_entry_at_a_slot;
use slot_cell::images_are_read_as_built;
use store_key::keys_have_16_bytes;
use swap_meta::written_meta_is_spelled;

/// Along every allowed list of steps, crashes and rebuilds from a new core over a file what holds of wiped slots holds:
/// of those that were wiped since the last opening.
pub fn lives_keep_wipes()
    ensures { (file : FileImage) (anchors passes : ℕ) (steps : List Step) (lives : List Lived) (from : Lived)
        → IsNewLife file anchors passes from → IsSoundLife from → LeadsThrough steps lives → get_elem? lives 0 ≡ some from
        → (i : ℕ) (life : Lived) → get_elem? lives i ≡ some life → HasWipes (setting_of life.core) (state_of life.core) }
{}

/// Where besides each piece that is logged keeps to its offer: a file in which each slot has one of the contents that a
/// crash may leave then has no complete entry of a version that was wiped since the last opening which begins at the wiped
/// slot (`begun`), and none of that version at all, where it is above the counter of the last opening (`new`).
pub fn lives_leave_nothing_wiped()
    ensures begun { (file : FileImage) (offers : Offers) (anchors passes : ℕ) (steps : List Step) (lives : List Lived) (from : Lived)
        → IsSlotSize file.slot → IsNewLife file anchors passes from → IsSoundLife from
        → LeadsThrough steps lives → get_elem? lives 0 ≡ some from
        → ((j : ℕ) (life : Lived) → get_elem? lives j ≡ some life → IsFaithful life.file offers life.core)
        → (i : ℕ) (life : Lived) → get_elem? lives i ≡ some life
        → (images : List (List ℕ)) → MayBeLeft file offers life.first life.core images
        → (a version wiped : ℕ) → IsSeenWiped (state_of life.core) a version wiped
        → (e : Entry) → IsComplete file.slot images e → e.first ≡ wiped → e.version ≢ version }
    ensures new { (file : FileImage) (offers : Offers) (anchors passes : ℕ) (steps : List Step) (lives : List Lived) (from : Lived)
        → IsSlotSize file.slot → IsNewLife file anchors passes from → IsSoundLife from
        → LeadsThrough steps lives → get_elem? lives 0 ≡ some from
        → ((j : ℕ) (life : Lived) → get_elem? lives j ≡ some life → IsFaithful life.file offers life.core)
        → (i : ℕ) (life : Lived) → get_elem? lives i ≡ some life
        → (images : List (List ℕ)) → MayBeLeft file offers life.first life.core images
        → (a version wiped : ℕ) → IsSeenWiped (state_of life.core) a version wiped → opening_counter (setting_of life.core) < version
        → (e : Entry) → IsComplete file.slot images e → e.version ≢ version }
{
    images_are_read_as_built();
    keys_have_16_bytes();
    one_entry_at_a_slot();
    pieces_make_the_content();
    placed_pieces_are_an_entry();
    written_meta_is_spelled();
}
