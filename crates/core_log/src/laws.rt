// The laws on the log.
ghost use Rattle.std.specs.Prelude.{◌*◌, ◌<◌, ◌≤◌, ◌^◌, Contains, List, [], length, ◌++◌, ◌≡◌, ◌⊎◌, ℕ};
ghost use mathlib.Core.Option.{some};
ghost use lib.ListN.{get_elem?};
ghost use Rattle.core_model.specs.declared.moves.Move.{Move};
ghost use Rattle.core_model.specs.declared.tab.Freer.{Freer};
ghost use Rattle.core_model.specs.declared.tab.Hold.{Hold};
ghost use Rattle.core_model.specs.declared.tab.Writer.{Writer};
ghost use Rattle.core_model.specs.declared.view.LoggedPiece.{LoggedPiece};
ghost use Rattle.core_model.specs.declared.view.Sight.{Sight};
ghost use Rattle.core_model.specs.declared.view.View.{View};
ghost use Rattle.core_model.specs.TableForms.{IsNoteAt, IsSpentAt, MayBlank, MayRewrite, learned_from, noted_at, noted_behind, with_held, with_wiped};
ghost use Rattle.core_model.specs.Tabs.{IsPass};
ghost use Rattle.core_model.specs.declared.view.Item.{Item};
ghost use Rattle.core_model.specs.declared.view.Kind.{Kind};
ghost use Rattle.core_model.specs.Layout.{Setting};
ghost use Rattle.core_model.specs.State.{State, word};
ghost use Rattle.lock_word.specs.Words.{epoch_of, version_of};
ghost use Rattle.rebuild_model.specs.declared.rebuilt.Rebuilt.{Rebuilt};
ghost use Rattle.rebuild_model.specs.Rebuilt.{IsRebuilt};
ghost use Rattle.core_model.specs.Anchors.{IsSetting};
ghost use Rattle.core_model.specs.Opening.{IsOpened};
ghost use Rattle.core_model.specs.Sound.{Sound};
ghost use Rattle.core_model.specs.Table.{MayStep, sights_of};
ghost use Rattle.core_model.specs.Steps.{after, finding};
ghost use Rattle.core_log.specs.Seen.{IsSeen};
ghost use Rattle.core_log.specs.Logged.{IsLoggedRun, LogStands, PassMove, log_counter, logged_now};

use core_model::opened_stores_are_sound;

/// An allowed step keeps all that holds of the log, which gains what the step logs.
pub fn steps_keep_the_log<X>()
    ensures { (k : Setting X) (s : State X) (log : List LoggedPiece) (i : ℕ) (v : View X) (m : Move)
        → Sound k s → LogStands k s log → get_elem? s.views i ≡ some v → MayStep k s v m
        → LogStands k (after k s i v m) (logged_now k s v m ++ log) }
{}

/// Of a store that was just opened nothing is logged, and all that holds of a log holds of none.
pub fn openings_have_no_log<X>()
    ensures { (k : Setting X) (r : Rebuilt) (s : State X) (slot : ℕ) (images : List (List ℕ))
        → k.slots < 2 ^ 32 → IsSetting k → IsOpened k r s → IsRebuilt slot images k.anchors r → length images ≡ k.slots → LogStands k s [] }
{
    opened_stores_are_sound::<X>();
}

/// Whatever allowed steps follow one another, the log stands.
pub fn runs_keep_the_log<X>()
    ensures { (k : Setting X) (s : State X) (log : List LoggedPiece) (steps : List PassMove) (t : State X) (more : List LoggedPiece)
        → Sound k s → LogStands k s log → IsLoggedRun k s log steps t more → Sound k t × LogStands k t more }
{}

/// Where the cell in the hands of a tab that writes or frees becomes another one by no step, as a disk writes and syncs
/// it, the log stands.
pub fn held_cells_keep_the_log<X>()
    ensures written { (k : Setting X) (s : State X) (log : List LoggedPiece) (i t : ℕ) (v : View X) (w : Writer X) (old new : Hold X)
        → Sound k s → LogStands k s log → get_elem? s.views i ≡ some v → MayRewrite k v t w old new
        → LogStands k (with_held s i v t w new) log }
    ensures wiped { (k : Setting X) (s : State X) (log : List LoggedPiece) (i t : ℕ) (v : View X) (f : Freer X) (old new : Hold X)
        → Sound k s → LogStands k s log → get_elem? s.views i ≡ some v → MayBlank k v t f old new
        → LogStands k (with_wiped s i v t f new) log }
{}

/// The version of a logged piece is at most the one that stands at its anchor, which is one of the table's.
pub fn logged_versions_stand<X>()
    ensures { (k : Setting X) (s : State X) (log : List LoggedPiece) (l : LoggedPiece)
        → Sound k s → LogStands k s log → Contains log l
        → (l.anchor < k.anchors) × (l.piece.version ≤ version_of (epoch_of (word s l.anchor))) }
{}

/// No version that a pass holds was logged.
pub fn held_versions_are_not_logged<X>()
    ensures { (k : Setting X) (s : State X) (log : List LoggedPiece) (i : ℕ) (v : View X) (l : LoggedPiece)
        → Sound k s → LogStands k s log → get_elem? s.views i ≡ some v → Contains log l
        → Contains v.held l.piece.version → ⊥ }
{}

/// There are fewer logged pieces than slots and versions, so the counter of them never comes near what a word can
/// tell: in a store of 2^20 slots it is at most 2^52.
pub fn logged_pieces_are_few<X>()
    ensures { (k : Setting X) (s : State X) (log : List LoggedPiece) → LogStands k s log → log_counter k s ≤ k.slots * 2 ^ 32 }
{}

/// Where a note is made, behind all views or in place of a spent one, the log stands.
pub fn notes_made_keep_the_log<X>()
    ensures behind { (k : Setting X) (s : State X) (log : List LoggedPiece) (i : ℕ) (v : View X) (item : Item)
        → Sound k s → LogStands k s log → get_elem? s.views i ≡ some v → IsPass v → item.kind ≡ Kind.Noted
        → LogStands k (noted_behind s i v item) log }
    ensures at { (k : Setting X) (s : State X) (log : List LoggedPiece) (i : ℕ) (v : View X) (item : Item) (n : ℕ) (u : View X)
        → Sound k s → LogStands k s log → get_elem? s.views i ≡ some v → IsPass v → item.kind ≡ Kind.Noted → IsSpentAt s n u
        → LogStands k (noted_at s i v item n) log }
{}

/// And where a pass learns what a note has seen, wherever the note is.
pub fn notes_learned_keep_the_log<X>()
    ensures { (k : Setting X) (s : State X) (log : List LoggedPiece) (i : ℕ) (v : View X) (item : Item) (n : ℕ) (u : View X)
        → Sound k s → LogStands k s log → get_elem? s.views i ≡ some v → IsPass v → item.kind ≡ Kind.Learned → IsNoteAt s n u
        → LogStands k (learned_from s i v item n u) log }
{}

/// What some pass or note had seen, some still has after a step, and what one has seen then one had before, or the step
/// sees it. So what all of them have seen together only grows, and by what the steps see.
pub fn sights_are_kept<X>()
    ensures kept { (k : Setting X) (s : State X) (i : ℕ) (v : View X) (m : Move) (x : Sight)
        → get_elem? s.views i ≡ some v → MayStep k s v m → IsSeen s.views x → IsSeen (after k s i v m).views x }
    ensures added { (k : Setting X) (s : State X) (i : ℕ) (v : View X) (m : Move) (x : Sight)
        → get_elem? s.views i ≡ some v → MayStep k s v m → IsSeen (after k s i v m).views x → IsSeen s.views x ⊎ Contains (sights_of v m (finding k s v m)) x }
{}
