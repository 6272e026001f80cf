// What steps leave alone, what they answer, and what they add up to.
ghost use Rattle.std.specs.Prelude.{◌+◌, ◌<◌, ◌∷◌, ◌≡◌, ◌≢◌, ◌≤◌, List, Some, false, true, ℕ};
ghost use Rattle.link_word.specs.declared.link.Link.{Link as LinkOf};
ghost use Rattle.lock_word.specs.Words.{doom_of, doomed, epoch_of, readers_of, stage_of};
ghost use Rattle.core_halts.specs.Halts.{FoundEnd, HasHalted, SaysHalted};
ghost use Rattle.core_model.specs.AnchorMoves.{deed_of};
ghost use Rattle.core_model.specs.Chains.{IsSpelled};
ghost use Rattle.core_model.specs.Slots.{told};
ghost use Rattle.core_model.specs.State.{chain_of, word};
ghost use Rattle.core_model.specs.Tabs.{IsPass, anchor_of, inner, tab_at};
ghost use Rattle.core_model.specs.declared.moves.Move.{Move};
ghost use Rattle.core_model.specs.declared.moves.Move.TheVariants.{Doom, Enter, GetLink, Look, Loosen, Publish};
ghost use Rattle.core_model.specs.declared.moves.Side.TheVariants.{Start};
ghost use Rattle.core_model.specs.declared.tab.Reader.{Reader};
ghost use Rattle.core_model.specs.declared.tab.Tab.TheVariants.{Reading};
ghost use Rattle.core_model.specs.declared.view.Kind.TheVariants.{Doomed, Entered};
ghost use Rattle.core_model.specs.declared.view.Place.TheVariants.{Anchor, Beside, Link};
ghost use Rattle.core_model.specs.declared.view.View.{View};
ghost use Rattle.core_model.specs.Table.{answer, left_by, place};
ghost use Rattle.core_model.specs.declared.view.Place.{Place};
ghost use Rattle.core_alone.specs.Alone.{IsTabAt};
ghost use Rattle.store_rule.specs.Ground.{Ground, left_to};
ghost use Rattle.store_rule.specs.Told.{Stands, Steps, found_as};
ghost use Rattle.store_rule.specs.Runs.{Added, Went, added_by, nothing_added, together};
ghost use Rattle.store_rule.specs.Words.{Mine, has};
ghost use Rattle.store_rule.specs.Calls.{IsFresh, Others};
ghost use Rattle.store_rule.specs.Quiet.{CountsNoReader, DoomsNothing, IsQuietMove, Quiet};
ghost use Rattle.store_rule.specs.Steps.{ActsFor, Misses};

/// A step changes the tab that it is made for, and the inner one, and no other.
pub fn steps_leave_other_tabs<X>()
    ensures { (g : Ground X) (v w : View X) (m : Move) (n t : ℕ) → Steps g v m n w → ActsFor m t → Others t v w }
{}

/// The epoch that a step on an anchor answers is not below what the pass has seen there, and it has
/// seen it afterwards. Of a take or an eviction this is said where it finds another word than expected.
pub fn epochs_are_fresh<X>()
    ensures { (g : Ground X) (v w : View X) (m : Move) (n a : ℕ) → Steps g v m n w → place v m ≡ Some (Anchor a) → Misses v m n
        → IsFresh a (epoch_of (answer v m n)) v w }
{}

/// No step but an entering leaves the word of an anchor with more readers, and none but a doom leaves it
/// doomed where it was not. Each of the two is a deed of its pass.
pub fn enterings_count_and_dooms_doom<X>()
    ensures counts { (g : Ground X) (v w : View X) (m : Move) (n a : ℕ) → Steps g v m n w → place v m ≡ Some (Anchor a)
        → readers_of n < readers_of (left_by v m n) → (t : ℕ) × (m ≡ Enter t a) }
    ensures dooms { (g : Ground X) (v w : View X) (m : Move) (n a : ℕ) → Steps g v m n w → place v m ≡ Some (Anchor a)
        → doom_of (epoch_of n) ≡ 0 → doom_of (epoch_of (left_by v m n)) ≡ 1 → (t : ℕ) × (m ≡ Doom t) }
    ensures entered { (g : Ground X) (v w : View X) (n t a : ℕ) → Steps g v (Enter t a) n w
        → w.deeds ≡ deed_of v Entered a (n + 1) false ∷ v.deeds }
    ensures doomed { (g : Ground X) (v w : View X) (n t : ℕ) → Steps g v (Doom t) n w
        → w.deeds ≡ deed_of v Doomed (anchor_of (tab_at v t)) (doomed n) false ∷ v.deeds }
{}

/// Quiet calls add up: no step, one that is no entering and no doom, and quiet ones behind others. A step that counts
/// no reader leaves the word of an anchor with no more readers, and one that dooms nothing leaves it doomed only where
/// it was.
pub fn quiet_calls_add_up<X>()
    ensures none { (v : View X) → Quiet v v }
    ensures one { (g : Ground X) (v w : View X) (m : Move) (n : ℕ) → Steps g v m n w → IsQuietMove m → Quiet v w }
    ensures behind { (v u w : View X) → Quiet v u → Quiet u w → Quiet v w }
    ensures counts { (g : Ground X) (v w : View X) (m : Move) (n a : ℕ) → Steps g v m n w → place v m ≡ Some (Anchor a)
        → CountsNoReader v w → readers_of (left_by v m n) ≤ readers_of n }
    ensures dooms { (g : Ground X) (v w : View X) (m : Move) (n a : ℕ) → Steps g v m n w → place v m ≡ Some (Anchor a)
        → DoomsNothing v w → doom_of (epoch_of n) ≡ 0 → doom_of (epoch_of (left_by v m n)) ≡ 0 }
{}

/// What steps add to what a pass knows and to its records adds up: of no step, of one, and of some behind
/// others.
pub fn runs_add_up<X>()
    ensures none { (g : Ground X) (v : View X) → Went g v nothing_added v }
    ensures one { (g : Ground X) (v w : View X) (m : Move) (n : ℕ) → (step : Steps g v m n w) → Stands g w
        → Went g v (added_by v m (found_as g.setting step.state v m n)) w }
    ensures behind { (g : Ground X) (v u w : View X) (earlier later : Added) → Went g v earlier u → Went g u later w
        → Went g v (together later earlier) w }
{}

/// Where nobody else changes a word, a step on it finds what the pass knows of it, and what the step leaves
/// is known afterwards.
pub fn words_are_known<X>()
    ensures found { (g : Ground X) (v w : View X) (m : Move) (n : ℕ) (p : Place) → Steps g v m n w → Mine g v p
        → place v m ≡ Some p → n ≡ has g v p }
    ensures left { (g : Ground X) (v w : View X) (m : Move) (n : ℕ) (p : Place) → Steps g v m n w
        → place v m ≡ Some p → has g w p ≡ left_by v m n }
{}

/// So does a step on a link, by a tab at an anchor that is left to its pass: where a slot is published, where one is taken
/// out of a chain that is given back, and where a tab looks at the link of its next slot.
pub fn links_are_known<X>()
    ensures published { (g : Ground X) (v w : View X) (n t a slot : ℕ) (link : LinkOf) → Steps g v (Publish t slot link) n w
        → IsTabAt (tab_at v t) a → left_to g v.pass a ≡ true → n ≡ has g v (Link slot) }
    ensures loosened { (g : Ground X) (v w : View X) (n t a slot : ℕ) → Steps g v (Loosen t slot) n w
        → IsTabAt (tab_at v inner) a → left_to g v.pass a ≡ true → n ≡ has g v (Link slot) }
    ensures looked { (g : Ground X) (v w : View X) (n t a slot : ℕ) → Steps g v (GetLink t slot) n w
        → IsTabAt (tab_at v t) a → left_to g v.pass a ≡ true → n ≡ has g v (Link slot) }
{}

/// What a pass has of words spells the chain of each anchor that is left to it, and nothing else: while the entry grows,
/// when it is whole, and when its writer gave up.
pub fn chains_are_known<X>()
    ensures known { (g : Ground X) (v : View X) (a : ℕ) → (st : Stands g v) → IsPass v → a < g.setting.anchors
        → left_to g v.pass a ≡ true → 2 ≤ stage_of (epoch_of (word st.state a)) → stage_of (epoch_of (word st.state a)) ≤ 4
        → IsSpelled (has g v (Beside Start a)) (λ slot. told g.setting.slots slot (has g v (Link slot)))
        (chain_of st.state a).slots (chain_of st.state a).end }
    ensures only { (g : Ground X) (v : View X) (a : ℕ) (slots : List ℕ) (end : LinkOf) → (st : Stands g v) → IsPass v
        → a < g.setting.anchors → left_to g v.pass a ≡ true
        → 2 ≤ stage_of (epoch_of (word st.state a)) → stage_of (epoch_of (word st.state a)) ≤ 4
        → IsSpelled (has g v (Beside Start a)) (λ slot. told g.setting.slots slot (has g v (Link slot))) slots end
        → (slots ≡ (chain_of st.state a).slots) × (end ≡ (chain_of st.state a).end) }
{}

/// What a pass found of an entry that was given up it has found after later steps too: that a look at the anchor found it
/// so, and that a look at the link of a slot behind that found none.
pub fn ends_are_known<X>()
    ensures looked { (g : Ground X) (v w : View X) (n a version : ℕ) → Steps g v (Look a) n w → SaysHalted version n
        → HasHalted a version w.trail }
    ensures followed { (g : Ground X) (v w : View X) (n t a version slot : ℕ) → Steps g v (GetLink t slot) n w
        → HasHalted a version v.trail → n ≡ 0 → FoundEnd w a version slot }
    ensures halted { (g : Ground X) (v w : View X) (m : Move) (n a version : ℕ) → Steps g v m n w
        → HasHalted a version v.trail → HasHalted a version w.trail }
    ensures end { (g : Ground X) (v w : View X) (m : Move) (n a version slot : ℕ) → Steps g v m n w
        → FoundEnd v a version slot → FoundEnd w a version slot }
{}

/// And it finds the same again, while a tab of it reads the entry: a look at the anchor finds it given up, and a look of
/// the tab at the link of the slot finds none.
pub fn halted_links_stay_unwritten<X>()
    ensures halted { (g : Ground X) (v w : View X) (n t : ℕ) (r : Reader X) → Steps g v (Look r.anchor) n w → t ≤ inner
        → tab_at v t ≡ Reading r → HasHalted r.anchor r.version v.trail → SaysHalted r.version n }
    ensures unwritten { (g : Ground X) (v w : View X) (n t slot : ℕ) (r : Reader X) → Steps g v (GetLink t slot) n w
        → tab_at v t ≡ Reading r → FoundEnd v r.anchor r.version slot → n ≡ 0 }
{}
