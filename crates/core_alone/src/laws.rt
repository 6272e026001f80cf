// The laws on anchors that are left to one pass.
ghost use Rattle.std.specs.Prelude.{Bool, Contains, List, Some, [], true, ◌+◌, ◌++◌, ◌<◌, ◌≡◌, ◌≢◌, ◌≤◌, ℕ};
ghost use mathlib.Core.Option.{some};
ghost use lib.ListN.{get_elem?};
ghost use Rattle.link_word.specs.Map.{taken_in};
ghost use Rattle.link_word.specs.declared.link.Link.{Link as LinkOf};
ghost use Rattle.lock_word.specs.Words.{epoch_of, stage_of};
ghost use Rattle.core_model.specs.declared.moves.Move.{Move};
ghost use Rattle.core_model.specs.declared.moves.Move.TheVariants.{Draw, GetLink, Loosen, Own, Publish};
ghost use Rattle.core_model.specs.declared.moves.Side.{Side};
ghost use Rattle.core_model.specs.declared.moves.Side.TheVariants.{Start};
ghost use Rattle.core_model.specs.declared.tab.Freer.{Freer};
ghost use Rattle.core_model.specs.declared.tab.Hold.{Hold};
ghost use Rattle.core_model.specs.declared.tab.Tab.{Tab};
ghost use Rattle.core_model.specs.declared.tab.Writer.{Writer};
ghost use Rattle.core_model.specs.declared.view.Item.{Item};
ghost use Rattle.core_model.specs.declared.view.Kind.{Kind};
ghost use Rattle.core_model.specs.declared.view.Place.{Place};
ghost use Rattle.core_model.specs.declared.view.Place.TheVariants.{Anchor, Beside, Link};
ghost use Rattle.core_model.specs.declared.view.View.{View};
ghost use Rattle.core_model.specs.Chains.{IsSpelled};
ghost use Rattle.core_model.specs.Layout.{Setting, index};
ghost use Rattle.core_model.specs.Opening.{new_views};
ghost use Rattle.core_model.specs.Slots.{told};
ghost use Rattle.core_model.specs.Sound.{AnchorsSound, Sound};
ghost use Rattle.core_model.specs.State.{Finding, State, chain_of, word};
ghost use Rattle.core_model.specs.Steps.{after, number_found, view_after};
ghost use Rattle.core_model.specs.Table.{MayStep, left_by, place};
ghost use Rattle.core_model.specs.TableForms.{IsNoteAt, IsSpentAt, MayBlank, MayRewrite, learned_from, noted_at, noted_behind, with_held, with_wiped};
ghost use Rattle.core_model.specs.Tabs.{IsPass, inner, tab_at};
ghost use Rattle.core_model.specs.Trails.{drawn};
ghost use Rattle.core_alone.specs.Alone.{ComesRight, HoldsSlot, IsTabAt, MayCome, StandsAlone, has_word, link_in};
ghost use Rattle.core_alone.specs.Touched.{touched_by};
ghost use Rattle.core_alone.specs.Versions.{renamed_from};

/// What passes know of the anchors that are left to them they know after each step of any pass, if that comes to no
/// anchor that is left to another one.
pub fn steps_keep_what_is_alone<X>()
    ensures { (left : ℕ → ℕ → Bool) (k : Setting X) (s : State X) (i : ℕ) (v : View X) (m : Move)
        → Sound k s → get_elem? s.views i ≡ some v → MayStep k s v m → StandsAlone left k s → ComesRight left s i m
        → StandsAlone left k (after k s i v m) }
{}

/// It holds of a store that was just opened, where nobody has made a step.
pub fn openings_stand_alone<X>()
    ensures { (left : ℕ → ℕ → Bool) (k : Setting X) (s : State X)
        → s.words ≡ k.words → s.views ≡ new_views k 0 k.passes → StandsAlone left k s }
{}

/// Where a note is made, behind all views or in place of a spent one, it holds.
pub fn notes_made_keep_what_is_alone<X>()
    ensures behind { (left : ℕ → ℕ → Bool) (k : Setting X) (s : State X) (i : ℕ) (v : View X) (item : Item)
        → StandsAlone left k s → get_elem? s.views i ≡ some v → item.kind ≡ Kind.Noted → StandsAlone left k (noted_behind s i v item) }
    ensures at { (left : ℕ → ℕ → Bool) (k : Setting X) (s : State X) (i : ℕ) (v : View X) (item : Item) (n : ℕ) (u : View X)
        → StandsAlone left k s → get_elem? s.views i ≡ some v → item.kind ≡ Kind.Noted → IsSpentAt s n u
        → StandsAlone left k (noted_at s i v item n) }
{}

/// And where a pass learns what a note has seen, wherever the note is.
pub fn notes_learned_keep_what_is_alone<X>()
    ensures { (left : ℕ → ℕ → Bool) (k : Setting X) (s : State X) (i : ℕ) (v : View X) (item : Item) (n : ℕ) (u : View X)
        → StandsAlone left k s → get_elem? s.views i ≡ some v → item.kind ≡ Kind.Learned → IsNoteAt s n u
        → StandsAlone left k (learned_from s i v item n u) }
{}

/// Where the cell in the hands of a tab that writes or frees becomes another one by no step, as a disk writes and syncs
/// it, it holds.
pub fn held_cells_keep_what_is_alone<X>()
    ensures written { (left : ℕ → ℕ → Bool) (k : Setting X) (s : State X) (i t : ℕ) (v : View X) (w : Writer X) (old new : Hold X)
        → StandsAlone left k s → get_elem? s.views i ≡ some v → MayRewrite k v t w old new
        → StandsAlone left k (with_held s i v t w new) }
    ensures wiped { (left : ℕ → ℕ → Bool) (k : Setting X) (s : State X) (i t : ℕ) (v : View X) (f : Freer X) (old new : Hold X)
        → StandsAlone left k s → get_elem? s.views i ≡ some v → MayBlank k v t f old new
        → StandsAlone left k (with_wiped s i v t f new) }
{}

/// A step at an anchor that is left to its pass finds what the pass has: on the anchor's word, on one beside it, and on
/// the link of a slot of the chain there, of its tail, or of a slot that a tab there has reserved or has yet to give
/// back.
pub fn what_is_alone_is_found<X>()
    ensures word { (left : ℕ → ℕ → Bool) (k : Setting X) (s : State X) (i : ℕ) (v : View X) (m : Move) (a : ℕ)
        → StandsAlone left k s → get_elem? s.views i ≡ some v → MayStep k s v m → a < k.anchors → left v.pass a ≡ true
        → place v m ≡ Some (Anchor a) → number_found k s v m ≡ has_word k v (Anchor a) }
    ensures side { (left : ℕ → ℕ → Bool) (k : Setting X) (s : State X) (i : ℕ) (v : View X) (m : Move) (side : Side) (a : ℕ)
        → StandsAlone left k s → get_elem? s.views i ≡ some v → MayStep k s v m → a < k.anchors → left v.pass a ≡ true
        → place v m ≡ Some (Beside side a) → number_found k s v m ≡ has_word k v (Beside side a) }
    ensures link { (left : ℕ → ℕ → Bool) (k : Setting X) (s : State X) (i : ℕ) (v : View X) (m : Move) (a slot : ℕ)
        → StandsAlone left k s → get_elem? s.views i ≡ some v → MayStep k s v m → a < k.anchors → left v.pass a ≡ true
        → Contains ((chain_of s a).slots ++ (chain_of s a).tail) slot
        → place v m ≡ Some (Link slot) → number_found k s v m ≡ has_word k v (Link slot) }
    ensures held { (left : ℕ → ℕ → Bool) (k : Setting X) (s : State X) (i : ℕ) (v : View X) (m : Move) (t a slot : ℕ) (tab : Tab X)
        → StandsAlone left k s → get_elem? s.views i ≡ some v → MayStep k s v m → left v.pass a ≡ true
        → get_elem? v.tabs t ≡ some tab → IsTabAt tab a → HoldsSlot tab slot
        → place v m ≡ Some (Link slot) → number_found k s v m ≡ has_word k v (Link slot) }
{}

/// A step on a link, by a tab at an anchor that is left to its pass, finds what the pass has: where a slot is published,
/// where one is taken out of a chain that is given back, and where a tab looks at the link of its next slot.
pub fn links_are_known_alone<X>()
    ensures published { (left : ℕ → ℕ → Bool) (k : Setting X) (s : State X) (i : ℕ) (v : View X) (t a slot : ℕ) (link : LinkOf)
        → Sound k s → StandsAlone left k s → get_elem? s.views i ≡ some v → MayStep k s v (Publish t slot link)
        → IsTabAt (tab_at v t) a → left v.pass a ≡ true
        → number_found k s v (Publish t slot link) ≡ has_word k v (Link slot) }
    ensures loosened { (left : ℕ → ℕ → Bool) (k : Setting X) (s : State X) (i : ℕ) (v : View X) (t a slot : ℕ)
        → Sound k s → StandsAlone left k s → get_elem? s.views i ≡ some v → MayStep k s v (Loosen t slot)
        → IsTabAt (tab_at v inner) a → left v.pass a ≡ true
        → number_found k s v (Loosen t slot) ≡ has_word k v (Link slot) }
    ensures looked { (left : ℕ → ℕ → Bool) (k : Setting X) (s : State X) (i : ℕ) (v : View X) (t a slot : ℕ)
        → Sound k s → StandsAlone left k s → get_elem? s.views i ≡ some v → MayStep k s v (GetLink t slot)
        → IsTabAt (tab_at v t) a → left v.pass a ≡ true
        → number_found k s v (GetLink t slot) ≡ has_word k v (Link slot) }
{}

/// What a pass has of words after a step of it: of the word that the step is on what the step left, of a slot that it
/// reserved no link, and of each word that it did not touch what it had before.
pub fn passes_have_what_they_left<X>()
    ensures left { (k : Setting X) (v : View X) (m : Move) (x : Finding X) (p : Place)
        → place v m ≡ Some p → has_word k (view_after v m x) p ≡ left_by v m x.word }
    ensures reserved { (k : Setting X) (v : View X) (t slot : ℕ) (x : Finding X)
        → taken_in x.word slot ≡ 0 → has_word k (view_after v (Own t slot) x) (Link slot) ≡ 0 }
    ensures untouched { (k : Setting X) (v : View X) (m : Move) (x : Finding X) (p : Place)
        → ((q : Place) → Contains (touched_by v m x.word) q → index k q ≡ index k p → ⊥)
        → has_word k (view_after v m x) p ≡ has_word k v p }
{}

/// What a pass has of words spells the chain of each anchor that is left to it, and nothing else: while the entry
/// grows, when it is whole, and when its writer gave up.
pub fn chains_are_known_alone<X>()
    ensures known { (left : ℕ → ℕ → Bool) (k : Setting X) (s : State X) (i : ℕ) (v : View X) (a : ℕ)
        → Sound k s → StandsAlone left k s → get_elem? s.views i ≡ some v → v.tabs ≢ [] → a < k.anchors → left v.pass a ≡ true
        → 2 ≤ stage_of (epoch_of (word s a)) → stage_of (epoch_of (word s a)) ≤ 4
        → IsSpelled (has_word k v (Beside Start a)) (λ slot. told k.slots slot (link_in k v slot)) (chain_of s a).slots (chain_of s a).end }
    ensures only { (left : ℕ → ℕ → Bool) (k : Setting X) (s : State X) (i : ℕ) (v : View X) (a : ℕ) (slots : List ℕ) (end : LinkOf)
        → Sound k s → StandsAlone left k s → get_elem? s.views i ≡ some v → v.tabs ≢ [] → a < k.anchors → left v.pass a ≡ true
        → 2 ≤ stage_of (epoch_of (word s a)) → stage_of (epoch_of (word s a)) ≤ 4
        → IsSpelled (has_word k v (Beside Start a)) (λ slot. told k.slots slot (link_in k v slot)) slots end
        → (slots ≡ (chain_of s a).slots) × (end ≡ (chain_of s a).end) }
{}

/// A pass may come to an anchor that is left to no other number than its own, and the only pass of a store to each.
pub fn passes_come_to_their_own<X>()
    ensures number { (left : ℕ → ℕ → Bool) (k : Setting X) (s : State X) (i : ℕ) (v : View X) (a : ℕ)
        → AnchorsSound k s → get_elem? s.views i ≡ some v → IsPass v → ((pass : ℕ) → left pass a ≡ true → pass ≡ v.pass)
        → MayCome left s i a }
    ensures lone { (left : ℕ → ℕ → Bool) (k : Setting X) (s : State X) (i : ℕ) (v : View X) (a : ℕ)
        → AnchorsSound k s → get_elem? s.views i ≡ some v → IsPass v → k.passes ≡ 1 → MayCome left s i a }
{}

/// A version that a pass drew is at most the number that any later draw finds. That draws the next one, so the versions
/// that a pass draws rise.
pub fn drawn_versions_rise<X>()
    ensures { (k : Setting X) (s : State X) (i : ℕ) (v w : View X) (version : ℕ)
        → AnchorsSound k s → get_elem? s.views i ≡ some v → 0 < drawn version v.trail → version ≤ number_found k s w Draw }
{}

/// Versions that stand for versions, later ones for later ones, go on with one that is above all that stand for versions
/// up to c: up to c they are as before, the next one stands for this version, and they still rise.
pub fn renamings_go_on()
    ensures before { (rename : ℕ → ℕ) (c version v : ℕ) → v ≤ c → renamed_from rename c version v ≡ rename v }
    ensures next { (rename : ℕ → ℕ) (c version : ℕ) → renamed_from rename c version (c + 1) ≡ version }
    ensures rises { (rename : ℕ → ℕ) (c version : ℕ) → ((v w : ℕ) → v < w → rename v < rename w) → rename c < version
        → (v w : ℕ) → v < w → renamed_from rename c version v < renamed_from rename c version w }
{}
