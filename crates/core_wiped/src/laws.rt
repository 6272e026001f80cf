// The laws on slots that a pass or a note has seen as wiped.
ghost use Rattle.std.specs.Prelude.{◌++◌, ◌≡◌, ◌≢◌, Contains, List, [], true, ℕ};
ghost use mathlib.Core.Option.{some};
ghost use lib.ListN.{get_elem?};
ghost use Rattle.rebuild_model.specs.declared.rebuilt.Rebuilt.{Rebuilt};
ghost use Rattle.core_model.specs.declared.moves.Move.{Move};
ghost use Rattle.core_model.specs.declared.moves.Move.TheVariants.{EndTurn};
ghost use Rattle.core_model.specs.declared.moves.Then.TheVariants.{Wiped};
ghost use Rattle.core_model.specs.declared.tab.Cell.{Cell};
ghost use Rattle.core_model.specs.declared.tab.Freer.{Freer};
ghost use Rattle.core_model.specs.declared.tab.Hold.{Hold};
ghost use Rattle.core_model.specs.declared.tab.Tab.TheVariants.{Freeing};
ghost use Rattle.core_model.specs.declared.tab.Writer.{Writer};
ghost use Rattle.core_model.specs.declared.view.Item.{Item};
ghost use Rattle.core_model.specs.declared.view.Kind.{Kind};
ghost use Rattle.core_model.specs.declared.view.LoggedPiece.{LoggedPiece};
ghost use Rattle.core_model.specs.declared.view.View.{View};
ghost use Rattle.core_model.specs.Anchors.{IsSetting};
ghost use Rattle.core_model.specs.Cells.{IsCell};
ghost use Rattle.core_model.specs.Holders.{IsTab};
ghost use Rattle.core_model.specs.Layout.{Setting};
ghost use Rattle.core_model.specs.Opening.{IsOpened};
ghost use Rattle.core_model.specs.Sound.{Sound};
ghost use Rattle.core_model.specs.State.{State};
ghost use Rattle.core_model.specs.Steps.{after};
ghost use Rattle.core_model.specs.Table.{MayStep};
ghost use Rattle.core_model.specs.TableForms.{IsNoteAt, IsSpentAt, MayBlank, MayRewrite};
ghost use Rattle.core_model.specs.TableForms.{learned_from, noted_at, noted_behind, with_held, with_wiped};
ghost use Rattle.core_model.specs.Tabs.{IsPass};
ghost use Rattle.core_log.specs.Logged.{IsLogOf, IsLoggedRun, LogStands, PassMove, logged_now};
ghost use Rattle.core_wiped.specs.Wipes.{HasWipes, IsLeftOf, IsSeenWiped, IsOfOther, IsOver, LeavesWiped, WipesStand};

/// An allowed step keeps all that holds of slots that were wiped, also the end of a turn by which one is wiped.
pub fn steps_keep_wipes<X>()
    ensures { (k : Setting X) (s : State X) (log : List LoggedPiece) (i : ℕ) (v : View X) (m : Move)
        → Sound k s → LogStands k s log → WipesStand k s log → get_elem? s.views i ≡ some v → MayStep k s v m
        → WipesStand k (after k s i v m) (logged_now k s v m ++ log) }
{}

/// By the end of a turn that says that the slot is wiped the pass sees so, of the version that its tab frees and of the
/// first slot of that tab's chain. A crash then leaves the slot blank and nothing else.
pub fn wiped_turns_are_seen<X>()
    ensures { (k : Setting X) (s : State X) (log : List LoggedPiece) (i : ℕ) (v : View X) (t slot : ℕ)
        → Sound k s → LogStands k s log → get_elem? s.views i ≡ some v → MayStep k s v (EndTurn t slot Wiped)
        → LeavesWiped k (after k s i v (EndTurn t slot Wiped)) v t slot }
{}

/// In a store that was just opened nothing is wiped, and all that holds of wiped slots holds.
pub fn openings_have_no_wipes<X>()
    ensures { (k : Setting X) (r : Rebuilt) (s : State X) → IsSetting k → IsOpened k r s → WipesStand k s [] }
{}

/// Whatever allowed steps follow one another, what holds of wiped slots holds.
pub fn runs_keep_wipes<X>()
    ensures { (k : Setting X) (s : State X) (log : List LoggedPiece) (steps : List PassMove) (t : State X) (more : List LoggedPiece)
        → Sound k s → LogStands k s log → WipesStand k s log → IsLoggedRun k s log steps t more → WipesStand k t more }
{}

/// Where the cell in the hands of a tab that writes or frees becomes another one by no step, as a disk writes and syncs
/// it, what holds of wiped slots holds.
pub fn held_cells_keep_wipes<X>()
    ensures written { (k : Setting X) (s : State X) (log : List LoggedPiece) (i t : ℕ) (v : View X) (w : Writer X) (old new : Hold X)
        → Sound k s → LogStands k s log → WipesStand k s log → get_elem? s.views i ≡ some v → MayRewrite k v t w old new
        → WipesStand k (with_held s i v t w new) log }
    ensures wiped { (k : Setting X) (s : State X) (log : List LoggedPiece) (i t : ℕ) (v : View X) (f : Freer X) (old new : Hold X)
        → Sound k s → LogStands k s log → WipesStand k s log → get_elem? s.views i ≡ some v → MayBlank k v t f old new
        → WipesStand k (with_wiped s i v t f new) log }
{}

/// Where a note is made, behind all views or in place of a spent one, what holds of wiped slots holds.
pub fn notes_made_keep_wipes<X>()
    ensures behind { (k : Setting X) (s : State X) (log : List LoggedPiece) (i : ℕ) (v : View X) (item : Item)
        → Sound k s → WipesStand k s log → get_elem? s.views i ≡ some v → IsPass v → item.kind ≡ Kind.Noted
        → WipesStand k (noted_behind s i v item) log }
    ensures at { (k : Setting X) (s : State X) (log : List LoggedPiece) (i : ℕ) (v : View X) (item : Item) (n : ℕ) (u : View X)
        → Sound k s → WipesStand k s log → get_elem? s.views i ≡ some v → IsPass v → item.kind ≡ Kind.Noted → IsSpentAt s n u
        → WipesStand k (noted_at s i v item n) log }
{}

/// And where a pass learns what a note has seen, wherever the note is.
pub fn notes_learned_keep_wipes<X>()
    ensures { (k : Setting X) (s : State X) (log : List LoggedPiece) (i : ℕ) (v : View X) (item : Item) (n : ℕ) (u : View X)
        → Sound k s → WipesStand k s log → get_elem? s.views i ≡ some v → IsPass v → item.kind ≡ Kind.Learned → IsNoteAt s n u
        → WipesStand k (learned_from s i v item n u) log }
{}

/// The version of an entry whose slot was wiped is over at its anchor: it is given back or gone there, no tab writes it,
/// and no pass holds it.
pub fn wiped_versions_are_over<X>()
    ensures { (k : Setting X) (s : State X) (log : List LoggedPiece) (a version slot : ℕ)
        → Sound k s → WipesStand k s log → IsSeenWiped s a version slot → IsOver k s a version }
{}

/// And no step logs a piece of it.
pub fn wiped_versions_are_not_logged<X>()
    ensures { (k : Setting X) (s : State X) (log : List LoggedPiece) (i : ℕ) (v : View X) (m : Move) (a version slot : ℕ) (l : LoggedPiece)
        → Sound k s → LogStands k s log → WipesStand k s log → get_elem? s.views i ≡ some v → MayStep k s v m → IsSeenWiped s a version slot
        → Contains (logged_now k s v m) l → l.piece.version ≢ version }
{}

/// A crash leaves of a wiped slot the blank content, or a piece of another version that was logged for the slot.
pub fn wiped_slots_are_left_to_others<X>()
    ensures { (k : Setting X) (s : State X) (log : List LoggedPiece) (a version slot : ℕ) (c : Cell X) (x : X)
        → WipesStand k s log → IsSeenWiped s a version slot → IsCell s slot c → Contains c.possible x → IsOfOther k log version slot x }
{}

/// A crash leaves of any slot what the opening had there, or the blank content, or a piece that was logged for the slot: one
/// of another version than was wiped, or one that says that its entry begins at the wiped slot, which is another one. So an
/// entry that was wiped begins nowhere, where its version is not one of the opening.
pub fn wiped_entries_begin_nowhere<X>()
    ensures { (k : Setting X) (s : State X) (log : List LoggedPiece) (a version wiped slot : ℕ) (c : Cell X) (x : X)
        → LogStands k s log → WipesStand k s log → IsSeenWiped s a version wiped → IsCell s slot c → Contains c.possible x
        → IsLeftOf k log version wiped slot x }
{}

/// A tab that frees a doomed entry at FREEING, of which no slot has left the chain, has a slot of it.
pub fn doomed_entries_have_a_slot<X>()
    ensures { (k : Setting X) (s : State X) (log : List LoggedPiece) (i t : ℕ) (f : Freer X)
        → Sound k s → WipesStand k s log → IsTab s i t (Freeing f) → f.is_freeing ≡ true → f.is_whole ≡ true → f.is_doomed ≡ true
        → f.rest ≢ [] }
{}

/// All lists that are the log of a state have the same pieces, so what holds of wiped slots holds with each of them.
pub fn wipes_hold_with_any_log<X>()
    ensures { (k : Setting X) (s : State X) (log : List LoggedPiece) → IsLogOf s.views log → WipesStand k s log → HasWipes k s }
{}
