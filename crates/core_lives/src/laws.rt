// What holds along every list of steps, crashes and rebuilds.
ghost use Rattle.std.specs.Prelude.{◌≡◌, ◌⊎◌, ◌<◌, ℕ, List, length};
ghost use mathlib.Core.Option.{some};
ghost use lib.ListN.{get_elem?};
ghost use Rattle.db_layout.specs.Layout.{IsSlotSize};
ghost use Rattle.rebuild_model.specs.declared.image.FileImage.{FileImage};
ghost use Rattle.rebuild_model.specs.Entry.{Entry, IsComplete};
ghost use Rattle.core_state.specs.declared.act.Step.{Step};
ghost use Rattle.crash_entries.specs.Parts.{Offers};
ghost use Rattle.crash_laws.specs.Left.{IsWholeOffer, StandsNew, StandsOld, entry_at};
ghost use Rattle.core_log.specs.Logged.{IsLogOf};
ghost use Rattle.core_model.specs.declared.view.LoggedPiece.{LoggedPiece};
ghost use Rattle.core_table.specs.Machine.{setting_of, state_of};
ghost use Rattle.rebuild_model.specs.Rebuilt.{IsWinner};
ghost use Rattle.named_bytes.specs.Bytes.{images_from};
ghost use Rattle.core_lives.specs.Along.{LeadsThrough};
ghost use Rattle.core_lives.specs.Happening.{IsNewLife};
ghost use Rattle.core_lives.specs.Left.{IsFaithful, MayBeLeft};
ghost use Rattle.core_lives.specs.Lived.{IsSoundLife, Lived};

use entry_cut::{pieces_make_the_content, placed_pieces_are_an_entry};
use rebuild_model::one_entry_at_a_slot;
use slot_cell::images_are_read_as_built;
use store_key::keys_have_16_bytes;
use swap_meta::written_meta_is_spelled;

/// From a sound life every allowed list of steps, crashes and rebuilds leads through sound lives alone: the core is
/// sound, and what was logged since the last opening is in order.
pub fn lives_stay_sound()
    ensures { (steps : List Step) (lives : List Lived) (from : Lived) → LeadsThrough steps lives
        → get_elem? lives 0 ≡ some from → IsSoundLife from
        → (i : ℕ) (life : Lived) → get_elem? lives i ≡ some life → IsSoundLife life }
{}

/// Along every such list from a new core over a file, where each piece that is logged keeps to its offer: a file in
/// which each slot has one of the contents that a crash may leave then has as complete entries only those of the
/// first file, and whole responses of offers. So has what the slots held at the last opening. And a rebuild of such a
/// file keeps each new entry that stands with all its pieces durable, and each entry that the slots held at the last
/// opening as the one to be kept, and that still stands.
pub fn lives_leave_responses()
    ensures entries { (file : FileImage) (offers : Offers) (anchors passes : ℕ) (steps : List Step) (lives : List Lived) (from : Lived)
        → IsSlotSize file.slot → IsNewLife file anchors passes from → IsSoundLife from
        → LeadsThrough steps lives → get_elem? lives 0 ≡ some from
        → ((j : ℕ) (life : Lived) → get_elem? lives j ≡ some life → IsFaithful life.file offers life.core)
        → (i : ℕ) (life : Lived) → get_elem? lives i ≡ some life
        → (images : List (List ℕ)) → MayBeLeft file offers life.first life.core images
        → (e : Entry) → IsComplete file.slot images e → IsComplete file.slot file.slots e ⊎ IsWholeOffer offers (length file.slots) e }
    ensures opened { (file : FileImage) (offers : Offers) (anchors passes : ℕ) (steps : List Step) (lives : List Lived) (from : Lived)
        → IsSlotSize file.slot → IsNewLife file anchors passes from → IsSoundLife from
        → LeadsThrough steps lives → get_elem? lives 0 ≡ some from
        → ((j : ℕ) (life : Lived) → get_elem? lives j ≡ some life → IsFaithful life.file offers life.core)
        → (i : ℕ) (life : Lived) → get_elem? lives i ≡ some life
        → (e : Entry) → IsComplete file.slot (images_from file offers 0 life.first) e
        → IsComplete file.slot file.slots e ⊎ IsWholeOffer offers (length file.slots) e }
    ensures standing_new { (file : FileImage) (offers : Offers) (anchors passes : ℕ) (steps : List Step) (lives : List Lived) (from : Lived)
        → IsSlotSize file.slot → IsNewLife file anchors passes from → IsSoundLife from
        → LeadsThrough steps lives → get_elem? lives 0 ≡ some from
        → ((j : ℕ) (life : Lived) → get_elem? lives j ≡ some life → IsFaithful life.file offers life.core)
        → (i : ℕ) (life : Lived) → get_elem? lives i ≡ some life
        → (images : List (List ℕ)) → MayBeLeft file offers life.first life.core images
        → (a : ℕ) (log : List LoggedPiece) → a < life.core.anchors → IsLogOf life.core.views log
        → StandsNew file.slot offers (setting_of life.core) (state_of life.core) log a
        → IsWinner file.slot images life.core.anchors a (entry_at file.slot offers (setting_of life.core) (state_of life.core) a) }
    ensures standing_old { (file : FileImage) (offers : Offers) (anchors passes : ℕ) (steps : List Step) (lives : List Lived) (from : Lived)
        → IsSlotSize file.slot → IsNewLife file anchors passes from → IsSoundLife from
        → LeadsThrough steps lives → get_elem? lives 0 ≡ some from
        → ((j : ℕ) (life : Lived) → get_elem? lives j ≡ some life → IsFaithful life.file offers life.core)
        → (i : ℕ) (life : Lived) → get_elem? lives i ≡ some life
        → (images : List (List ℕ)) → MayBeLeft file offers life.first life.core images
        → (a : ℕ) (e : Entry) → a < life.core.anchors
        → StandsOld file.slot (images_from file offers 0 life.first) (setting_of life.core) (state_of life.core) a e
        → IsWinner file.slot images life.core.anchors a e }
{
    images_are_read_as_built();
    keys_have_16_bytes();
    one_entry_at_a_slot();
    pieces_make_the_content();
    placed_pieces_are_an_entry();
    written_meta_is_spelled();
}
