// The laws on entries whose writer gave up.
ghost use Rattle.std.specs.Prelude.{Contains, ◌++◌, ◌≡◌, ℕ};
ghost use mathlib.Core.Option.{some};
ghost use lib.ListN.{get_elem?};
ghost use Rattle.core_model.specs.declared.moves.Move.{Move};
ghost use Rattle.core_model.specs.declared.moves.Move.TheVariants.{GetLink, Look};
ghost use Rattle.core_model.specs.declared.tab.Freer.{Freer};
ghost use Rattle.core_model.specs.declared.tab.Hold.{Hold};
ghost use Rattle.core_model.specs.declared.tab.Reader.{Reader};
ghost use Rattle.core_model.specs.declared.tab.Tab.TheVariants.{Reading};
ghost use Rattle.core_model.specs.declared.tab.Writer.{Writer};
ghost use Rattle.core_model.specs.declared.view.Item.{Item};
ghost use Rattle.core_model.specs.declared.view.Kind.{Kind};
ghost use Rattle.core_model.specs.declared.view.Place.TheVariants.{Link};
ghost use Rattle.core_model.specs.declared.view.View.{View};
ghost use Rattle.core_model.specs.Layout.{Setting, word_in};
ghost use Rattle.core_model.specs.Opening.{new_views};
ghost use Rattle.core_model.specs.Sound.{Sound};
ghost use Rattle.core_model.specs.State.{Finding, State, chain_of, word};
ghost use Rattle.core_model.specs.Steps.{after, number_found, view_after};
ghost use Rattle.core_model.specs.Table.{MayStep};
ghost use Rattle.core_model.specs.TableForms.{IsNoteAt, IsSpentAt, MayBlank, MayRewrite, learned_from, noted_at, noted_behind, with_held, with_wiped};
ghost use Rattle.core_model.specs.Tabs.{tab_at};
ghost use Rattle.core_halts.specs.Halts.{FoundEnd, HaltsStand, HasHalted, SaysHalted};

/// Each step that is allowed in a sound state keeps it.
pub fn steps_keep_halts<X>()
    ensures { (k : Setting X) (s : State X) (i : ℕ) (v : View X) (m : Move)
        → Sound k s → get_elem? s.views i ≡ some v → MayStep k s v m → HaltsStand s → HaltsStand (after k s i v m) }
{}

/// It holds of a store that was just opened, where nobody has made a step.
pub fn openings_have_no_halts<X>()
    ensures { (k : Setting X) (s : State X) → s.views ≡ new_views k 0 k.passes → HaltsStand s }
{}

/// Where a note is made, behind all views or in place of a spent one, it holds.
pub fn notes_made_keep_halts<X>()
    ensures behind { (s : State X) (i : ℕ) (v : View X) (item : Item)
        → HaltsStand s → get_elem? s.views i ≡ some v → item.kind ≡ Kind.Noted → HaltsStand (noted_behind s i v item) }
    ensures at { (s : State X) (i : ℕ) (v : View X) (item : Item) (n : ℕ) (u : View X)
        → HaltsStand s → get_elem? s.views i ≡ some v → item.kind ≡ Kind.Noted → IsSpentAt s n u
        → HaltsStand (noted_at s i v item n) }
{}

/// And where a pass learns what a note has seen, wherever the note is.
pub fn notes_learned_keep_halts<X>()
    ensures { (s : State X) (i : ℕ) (v : View X) (item : Item) (n : ℕ) (u : View X)
        → HaltsStand s → get_elem? s.views i ≡ some v → item.kind ≡ Kind.Learned → IsNoteAt s n u
        → HaltsStand (learned_from s i v item n u) }
{}

/// Where the cell in the hands of a tab that writes or frees becomes another one by no step, as a disk writes and syncs
/// it, it holds.
pub fn held_cells_keep_halts<X>()
    ensures written { (k : Setting X) (s : State X) (i t : ℕ) (v : View X) (w : Writer X) (old new : Hold X)
        → HaltsStand s → get_elem? s.views i ≡ some v → MayRewrite k v t w old new → HaltsStand (with_held s i v t w new) }
    ensures wiped { (k : Setting X) (s : State X) (i t : ℕ) (v : View X) (f : Freer X) (old new : Hold X)
        → HaltsStand s → get_elem? s.views i ≡ some v → MayBlank k v t f old new → HaltsStand (with_wiped s i v t f new) }
{}

/// What a pass found once it has found after each later step: a look at an anchor that finds an entry given up is found,
/// and behind one a look at a link that finds none.
pub fn found_ends_stay_found<X>()
    ensures looked { (v : View X) (a version : ℕ) (x : Finding X) → SaysHalted version x.word
        → HasHalted a version (view_after v (Look a) x).trail }
    ensures followed { (v : View X) (t a version slot : ℕ) (x : Finding X) → HasHalted a version v.trail → x.word ≡ 0
        → FoundEnd (view_after v (GetLink t slot) x) a version slot }
    ensures halted { (v : View X) (m : Move) (x : Finding X) (a version : ℕ) → HasHalted a version v.trail
        → HasHalted a version (view_after v m x).trail }
    ensures end { (v : View X) (m : Move) (x : Finding X) (a version slot : ℕ) → FoundEnd v a version slot
        → FoundEnd (view_after v m x) a version slot }
{}

/// Where a tab reads an entry that its pass found given up, the anchor says so still. Where the pass found that the entry
/// goes no further than a slot, a look of the tab at the link of that slot finds none. And no link is in that slot, while
/// the anchor says so and the slot is of its chain, or the tail of this.
pub fn halted_entries_go_no_further<X>()
    ensures stays { (k : Setting X) (s : State X) (i t : ℕ) (v : View X) (r : Reader X)
        → Sound k s → HaltsStand s → get_elem? s.views i ≡ some v → get_elem? v.tabs t ≡ some (Reading r)
        → HasHalted r.anchor r.version v.trail → SaysHalted r.version (word s r.anchor) }
    ensures found { (k : Setting X) (s : State X) (i t slot : ℕ) (v : View X) (r : Reader X)
        → Sound k s → HaltsStand s → get_elem? s.views i ≡ some v → MayStep k s v (GetLink t slot) → tab_at v t ≡ Reading r
        → FoundEnd v r.anchor r.version slot → number_found k s v (GetLink t slot) ≡ 0 }
    ensures unwritten { (k : Setting X) (s : State X) (i a version slot : ℕ) (v : View X)
        → Sound k s → HaltsStand s → get_elem? s.views i ≡ some v → SaysHalted version (word s a) → FoundEnd v a version slot
        → Contains ((chain_of s a).slots ++ (chain_of s a).tail) slot → word_in k s.words (Link slot) ≡ 0 }
{}
