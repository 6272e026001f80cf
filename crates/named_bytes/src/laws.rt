// The laws on names and bytes.
ghost use Rattle.std.specs.Prelude.{◌≡◌, ◌≤◌, ℕ, List, length};
ghost use Rattle.db_layout.specs.Layout.{IsSlotSize};
ghost use Rattle.db_layout.specs.declared.layout.TheConstants.{MOST_SLOTS};
ghost use Rattle.rebuild_model.specs.declared.found.Found.{Found};
ghost use Rattle.rebuild_model.specs.declared.image.FileImage.{FileImage};
ghost use Rattle.rebuild_model.specs.declared.rebuilt.Rebuilt.{Rebuilt};
ghost use Rattle.rebuild_model.specs.Entry.{Entry, IsComplete, found_of};
ghost use Rattle.rebuild_model.specs.Rebuilt.{IsRebuilt};
ghost use Rattle.crash_entries.specs.Parts.{Offers};
ghost use Rattle.named_rebuild.specs.declared.contents.FirstContent.{FirstContent};
ghost use Rattle.named_rebuild.specs.Entries.{IsNamedEntry};
ghost use Rattle.named_rebuild.specs.Keeping.{IsRebuiltOfNames};
ghost use Rattle.named_bytes.specs.Alike.{AreAlike, named};
ghost use Rattle.named_bytes.specs.Bytes.{images_from};
ghost use Rattle.named_bytes.specs.Order.{AreInOrder};

use entry_cut::{pieces_make_the_content, placed_pieces_are_an_entry};
use rebuild_model::{a_file_has_one_rebuild, one_entry_at_a_slot};
use slot_cell::images_are_read_as_built;
use store_key::keys_have_16_bytes;
use swap_meta::written_meta_is_spelled;

/// Of contents whose pieces are in order, names and bytes have the same complete entries, and a rebuild by names
/// keeps the same as one of the bytes.
pub fn names_keep_what_bytes_keep()
    ensures entries { (file : FileImage) (o : Offers) (anchors : ℕ) (contents : List FirstContent)
        → IsSlotSize file.slot → length file.slots ≤ MOST_SLOTS → length contents ≡ length file.slots → AreInOrder file o anchors contents
        → (e : Entry) → IsComplete file.slot (images_from file o 0 contents) e
        → (f : Found) × IsNamedEntry file contents f × (named f ≡ named (found_of e)) }
    ensures named { (file : FileImage) (o : Offers) (anchors : ℕ) (contents : List FirstContent)
        → IsSlotSize file.slot → length file.slots ≤ MOST_SLOTS → length contents ≡ length file.slots → AreInOrder file o anchors contents
        → (f : Found) → IsNamedEntry file contents f
        → (e : Entry) × IsComplete file.slot (images_from file o 0 contents) e × (named f ≡ named (found_of e)) }
    ensures rebuilt { (file : FileImage) (o : Offers) (anchors : ℕ) (contents : List FirstContent) (r : Rebuilt)
        → IsSlotSize file.slot → length file.slots ≤ MOST_SLOTS → length contents ≡ length file.slots → AreInOrder file o anchors contents
        → IsRebuiltOfNames file contents anchors r
        → (b : Rebuilt) × IsRebuilt file.slot (images_from file o 0 contents) anchors b × AreAlike r b }
    ensures same { (file : FileImage) (o : Offers) (anchors : ℕ) (contents : List FirstContent) (r b : Rebuilt)
        → IsSlotSize file.slot → length file.slots ≤ MOST_SLOTS → length contents ≡ length file.slots → AreInOrder file o anchors contents
        → IsRebuiltOfNames file contents anchors r → IsRebuilt file.slot (images_from file o 0 contents) anchors b
        → AreAlike r b }
{
    a_file_has_one_rebuild();
    images_are_read_as_built();
    keys_have_16_bytes();
    one_entry_at_a_slot();
    pieces_make_the_content();
    placed_pieces_are_an_entry();
    written_meta_is_spelled();
}
