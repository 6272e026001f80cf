// The laws on room.
ghost use Rattle.std.specs.Prelude.{◌<◌, ◌≡◌, List, Some, true, ℕ};
ghost use mathlib.Core.Option.{some};
ghost use lib.ListN.{get_elem?};
ghost use Rattle.rebuild_model.specs.declared.rebuilt.Rebuilt.{Rebuilt};
ghost use Rattle.core_model.specs.declared.moves.Move.{Move};
ghost use Rattle.core_model.specs.declared.tab.Freer.{Freer};
ghost use Rattle.core_model.specs.declared.tab.Hold.{Hold};
ghost use Rattle.core_model.specs.declared.tab.Tab.{Tab};
ghost use Rattle.core_model.specs.declared.tab.Writer.{Writer};
ghost use Rattle.core_model.specs.declared.view.Item.{Item};
ghost use Rattle.core_model.specs.declared.view.View.{View};
ghost use Rattle.core_model.specs.Layout.{Setting};
ghost use Rattle.core_model.specs.State.{State, chain_of};
ghost use Rattle.core_model.specs.Anchors.{IsSetting};
ghost use Rattle.core_model.specs.Opening.{IsOpened};
ghost use Rattle.core_model.specs.Sound.{Sound};
ghost use Rattle.core_model.specs.Table.{MayStep};
ghost use Rattle.core_model.specs.Steps.{after};
ghost use Rattle.core_model.specs.Holders.{IsTab};
ghost use Rattle.core_model.specs.TableForms.{MayBlank, MayRewrite, learned_from, noted_at, noted_behind, with_held, with_wiped};
ghost use Rattle.core_room.specs.Fitting.{capacity, fits};
ghost use Rattle.core_room.specs.Room.{Room};
ghost use Rattle.core_room.specs.Conditions.{KeepsRoom};

/// A store that was just opened has room: nobody searches, and each anchor has what the opening kept there.
pub fn opened_stores_have_room<X>()
    ensures { (k : Setting X) (r : Rebuilt) (s : State X) (need : ℕ → ℕ) (chain : ℕ → List ℕ)
        → IsSetting k → IsOpened k r s → ((a : ℕ) → a < k.anchors → chain a ≡ (chain_of s a).slots)
        → Room k (capacity k.slots need chain) s }
{}

/// In a store that fits, an allowed step that meets the conditions of such a store keeps room.
pub fn steps_keep_room<X>()
    ensures { (k : Setting X) (s : State X) (need : ℕ → ℕ) (chain : ℕ → List ℕ) (i : ℕ) (v : View X) (m : Move)
        → fits k.anchors k.slots need chain ≡ true → Sound k s → Room k (capacity k.slots need chain) s
        → get_elem? s.views i ≡ some v → MayStep k s v m → KeepsRoom k need v m
        → Room k (capacity k.slots need chain) (after k s i v m) }
{}

/// Where there is room, each search for a free slot has come to a slot of the table, and so none has found all
/// of them taken.
pub fn no_search_passes_all_slots<X>()
    ensures { (k : Setting X) (s : State X) (capacity : ℕ → ℕ) (i t : ℕ) (w : Writer X) (place : ℕ)
        → Room k capacity s → IsTab s i t (Tab.Writing w) → w.claim ≡ Some place → place < k.slots }
{}

/// Where the cell in the hands of a tab that writes or frees becomes another one by no step, as a disk writes and
/// syncs it, there is still room.
pub fn held_cells_keep_room<X>()
    ensures written { (k : Setting X) (s : State X) (capacity : ℕ → ℕ) (i t : ℕ) (v : View X) (w : Writer X) (old new : Hold X)
        → Room k capacity s → get_elem? s.views i ≡ some v → MayRewrite k v t w old new
        → Room k capacity (with_held s i v t w new) }
    ensures wiped { (k : Setting X) (s : State X) (capacity : ℕ → ℕ) (i t : ℕ) (v : View X) (f : Freer X) (old new : Hold X)
        → Room k capacity s → get_elem? s.views i ≡ some v → MayBlank k v t f old new
        → Room k capacity (with_wiped s i v t f new) }
{}

/// And where a note is made, behind all views or in place of one.
pub fn notes_made_keep_room<X>()
    ensures behind { (k : Setting X) (s : State X) (capacity : ℕ → ℕ) (i : ℕ) (v : View X) (item : Item)
        → Room k capacity s → get_elem? s.views i ≡ some v → Room k capacity (noted_behind s i v item) }
    ensures at { (k : Setting X) (s : State X) (capacity : ℕ → ℕ) (i : ℕ) (v : View X) (item : Item) (n : ℕ)
        → Room k capacity s → get_elem? s.views i ≡ some v → Room k capacity (noted_at s i v item n) }
{}

/// And where a pass learns what a note has seen, wherever the note is, and the note is spent.
pub fn notes_learned_keep_room<X>()
    ensures { (k : Setting X) (s : State X) (capacity : ℕ → ℕ) (i : ℕ) (v : View X) (item : Item) (n : ℕ) (u : View X)
        → Room k capacity s → get_elem? s.views i ≡ some v → Room k capacity (learned_from s i v item n u) }
{}
