//! The laws of the core. These functions do nothing: the proof of a function that calls one may use
//! what it ensures.
ghost use Rattle.std.specs.Prelude.{◌≡◌, ◌≢◌, ◌⊎◌, ℕ, ◌+◌, ◌<◌, ◌≤◌, List, [], length, slice_index, slice_index_or, Some, None, Contains, true, false};
ghost use mathlib.Core.Option.{some};
ghost use lib.ListN.{get_elem?};
ghost use Rattle.core_model.specs.declared.moves.Move.{Move};
ghost use Rattle.core_model.specs.declared.tab.Cell.{Cell};
ghost use Rattle.core_model.specs.declared.tab.Piece.{Piece};
ghost use Rattle.core_model.specs.declared.tab.Hold.{Hold};
ghost use Rattle.core_model.specs.declared.tab.Turn.{Turn};
ghost use Rattle.core_model.specs.declared.tab.Writer.{Writer};
ghost use Rattle.core_model.specs.declared.tab.Freer.{Freer};
ghost use Rattle.core_model.specs.declared.tab.Tab.{Tab};
ghost use Rattle.core_model.specs.declared.view.Kind.{Kind};
ghost use Rattle.core_model.specs.declared.view.Item.{Item};
ghost use Rattle.core_model.specs.declared.view.Deed.{Deed};
ghost use Rattle.core_model.specs.declared.view.View.{View};
ghost use Rattle.link_word.specs.declared.link.Link.{Link};
ghost use Rattle.rebuild_model.specs.declared.rebuilt.Rebuilt.{Rebuilt};
ghost use Rattle.rebuild_model.specs.Rebuilt.{IsRebuilt};
ghost use Rattle.core_model.specs.declared.spot.Spot.{Spot};
ghost use Rattle.core_model.specs.declared.view.Place.{Place};
ghost use Rattle.core_model.specs.Layout.{Setting, index, word_count, IsPlace};
ghost use Rattle.lock_word.specs.Words.{doom_of, epoch_of, version_of, stage_of, is_written};
ghost use Rattle.core_model.specs.State.{State, word, Finding, turn_word};
ghost use Rattle.core_model.specs.Tabs.{turn_of, IsPass};
ghost use Rattle.core_model.specs.AllowedByView.{MayMake};
ghost use Rattle.core_model.specs.Chains.{IsSpelled};
ghost use Rattle.core_model.specs.Steps.{number_found, view_after, after};
ghost use Rattle.core_model.specs.Told.{Tells};
ghost use Rattle.core_model.specs.Anchors.{IsSetting};
ghost use Rattle.core_model.specs.Opening.{IsOpened};
ghost use Rattle.core_model.specs.Spots.{HasOneSpot, IsIn, IsReplaced, IsUnwritten, free_below, slots_used, IsUnheld};
ghost use Rattle.core_model.specs.Cells.{IsHome};
ghost use Rattle.core_model.specs.Entries.{EntryAfter, ChoiceAfter};
ghost use Rattle.core_model.specs.Anchors.{opening_counter};
ghost use Rattle.core_model.specs.Deeds.{ClosedVersion, EvictedVersion, IsDone, IsEpochAt, HaltedVersion, IsOldEpoch, TookVersion};
ghost use Rattle.core_model.specs.Sound.{AnchorsSound, WordsSound, Sound};
ghost use Rattle.core_model.specs.Table.{MayStep};
ghost use Rattle.core_model.specs.TableForms.{noted_behind, noted_at, learned_from, IsNoteAt, IsSpentAt, MayRewrite, MayBlank, with_held, with_wiped};
ghost use Rattle.core_model.specs.Holders.{IsTab, MatchesWriter, MatchesFreer, HasWriter, HasFreer, HasHolder, IsAway, IsBeingWritten, IsWipedBy, IsBeingWiped, IsBeingRead, AllFree, IsFinished};

/// A step that is allowed in a sound state leaves a sound state.
pub fn steps_keep_sound<X>()
    ensures { (k : Setting X) (s : State X) (i : ℕ) (v : View X) (m : Move)
        → Sound k s → get_elem? s.views i ≡ some v → MayStep k s v m → Sound k (after k s i v m) }
{}

/// What a step makes of the entry at an anchor: it stays as it was, nothing is published there
/// afterwards, or a tab of the pass published the piece that it chose.
pub fn steps_change_entries<X>()
    ensures { (k : Setting X) (s : State X) (i : ℕ) (v : View X) (m : Move) (a : ℕ)
        → Sound k s → get_elem? s.views i ≡ some v → MayStep k s v m → a < k.anchors → EntryAfter k s (after k s i v m) i a }
{}

/// A store that was just opened is sound.
pub fn openings_are_sound<X>()
    ensures { (k : Setting X) (r : Rebuilt) (s : State X)
        → IsSetting k → IsOpened k r s → AnchorsSound k s }
{}

/// Each slot is at exactly one spot. Its link word is 0 but where it is published or is still in a chain
/// that is given back. Nobody holds its turn where it is free or has left its chain. Where it is still in a
/// chain that is given back, the turn is free, or held by the tab that gives it back.
pub fn slots_have_one_spot<X>()
    ensures one { (k : Setting X) (s : State X) (slot : ℕ)
        → WordsSound k s → slot < k.slots → HasOneSpot k s slot }
    ensures unwritten { (k : Setting X) (s : State X) (slot : ℕ) (spot : Spot)
        → WordsSound k s → slot < k.slots → IsUnwritten spot → IsIn k s slot spot
        → slice_index s.words (index k (Place.Link slot)) ≡ 0 }
    ensures unheld { (k : Setting X) (s : State X) (slot : ℕ) (spot : Spot)
        → Sound k s → slot < k.slots → IsUnheld spot → IsIn k s slot spot → turn_word k s slot ≡ 0 }
    ensures rests { (k : Setting X) (s : State X) (slot i t : ℕ)
        → Sound k s → slot < k.slots → IsIn k s slot (Spot.Resting i t) → (turn_word k s slot ≡ 0) ⊎ IsWipedBy s slot i t }
{}

/// What is being given back of an anchor is at one inner tab. Where the anchor is not at FREEING, a tab of
/// the same pass replaces the entry, and has no slot there yet.
pub fn rests_have_one_tab<X>()
    ensures one { (k : Setting X) (s : State X) (i j t u : ℕ) (f g : Freer X)
        → WordsSound k s → IsTab s i t (Tab.Freeing f) → IsTab s j u (Tab.Freeing g) → f.anchor ≡ g.anchor
        → (i ≡ j) × (t ≡ u) }
    ensures replaced { (k : Setting X) (s : State X) (i t : ℕ) (f : Freer X)
        → WordsSound k s → IsTab s i t (Tab.Freeing f) → f.is_freeing ≡ false → IsReplaced s i f.anchor }
{}

/// A store that was just opened with what a rebuild kept is sound in all parts: each slot is at one place,
/// the words spell the chains, and the cells are home with what the file has.
pub fn opened_stores_are_sound<X>()
    ensures { (k : Setting X) (r : Rebuilt) (s : State X) (slot : ℕ) (images : List (List ℕ))
        → IsSetting k → IsOpened k r s → IsRebuilt slot images k.anchors r → length images ≡ k.slots → Sound k s }
{}

/// Each place of the table has a word of its own within it, and each word is that of a place.
pub fn places_are_apart<X>()
    ensures apart { (k : Setting X) (p q : Place) → IsPlace k p → IsPlace k q → index k p ≡ index k q → p ≡ q }
    ensures within { (k : Setting X) (p : Place) → IsPlace k p → index k p < word_count k }
    ensures each { (k : Setting X) (n : ℕ) → n < word_count k → (p : Place) × IsPlace k p × (index k p ≡ n) }
{}

/// The turn at a slot's cell has one holder, which has the cell. A turn that is taken has one, and where
/// the turn is free the cell is home.
pub fn turns_have_one_holder<X>()
    ensures one { (k : Setting X) (s : State X) (i j t u : ℕ) (x y : Tab X) (g h : Hold X)
        → Sound k s → IsTab s i t x → IsTab s j u y → turn_of x ≡ Turn.Has g → turn_of y ≡ Turn.Has h → g.slot ≡ h.slot
        → (i ≡ j) × (t ≡ u) }
    ensures away { (k : Setting X) (s : State X) (i t : ℕ) (x : Tab X) (h : Hold X)
        → Sound k s → IsTab s i t x → turn_of x ≡ Turn.Has h → (h.slot < k.slots) × IsAway k s h.slot }
    ensures taken { (k : Setting X) (s : State X) (slot : ℕ)
        → Sound k s → slot < k.slots → turn_word k s slot ≢ 0 → HasHolder s slot }
    ensures home { (k : Setting X) (s : State X) (slot : ℕ)
        → Sound k s → slot < k.slots → turn_word k s slot ≡ 0
        → (c : Cell X) × (slice_index_or s.places slot None ≡ Some c) }
{}

/// While a tab reads an entry that has a slot, or has the slot's turn to read it, no tab has the turn to
/// write it, or to wipe it.
pub fn slots_are_not_written_while_read<X>()
    ensures written { (k : Setting X) (s : State X) (slot : ℕ)
        → Sound k s → IsBeingWritten s slot → IsBeingRead s slot → ⊥ }
    ensures wiped { (k : Setting X) (s : State X) (slot : ℕ)
        → Sound k s → IsBeingWiped s slot → IsBeingRead s slot → ⊥ }
{}

/// The piece that a writing tab wrote is in the cell of its first reserved slot, which is home, with a free
/// turn, until the tab publishes the slot or gives one back.
pub fn written_pieces_are_home<X>()
    ensures { (k : Setting X) (s : State X) (i t : ℕ) (w : Writer X) (p : Piece)
        → Sound k s → IsTab s i t (Tab.Writing w) → w.is_ending ≡ false → w.is_written ≡ true → w.chosen ≡ Some p
        → (h : IsHome k s w p) × (turn_word k s h.slot ≡ 0) }
{}

/// Where each tab is free nothing is left to do for an anchor: nobody is counted, and no entry is being
/// written or freed or waits to be freed.
pub fn idle_stores_are_settled<X>()
    ensures { (k : Setting X) (s : State X) (a : ℕ)
        → AnchorsSound k s → a < k.anchors → AllFree s → IsFinished (word s a) }
{}

/// What a step tells the pass that makes it in a sound state, of the number that it finds.
pub fn finds_are_known<X>()
    ensures { (k : Setting X) (s : State X) (i : ℕ) (v : View X) (m : Move)
        → Sound k s → get_elem? s.views i ≡ some v → MayStep k s v m → Tells k s v m (number_found k s v m) }
{}

/// What tabs know of the words of their anchors is so, and each word at TAKEN, APPENDING or FREEING has
/// its one tab.
pub fn tabs_match_words<X>()
    ensures writer { (k : Setting X) (s : State X) (i t : ℕ) (w : Writer X)
        → AnchorsSound k s → IsTab s i t (Tab.Writing w) → MatchesWriter s w }
    ensures written { (k : Setting X) (s : State X) (a : ℕ)
        → AnchorsSound k s → a < k.anchors → is_written (epoch_of (word s a)) ≡ true → HasWriter s a }
    ensures one_writer { (k : Setting X) (s : State X) (i j t u : ℕ) (w x : Writer X)
        → AnchorsSound k s → IsTab s i t (Tab.Writing w) → IsTab s j u (Tab.Writing x) → w.anchor ≡ x.anchor
        → (i ≡ j) × (t ≡ u) }
    ensures freer { (k : Setting X) (s : State X) (i t : ℕ) (f : Freer X)
        → AnchorsSound k s → IsTab s i t (Tab.Freeing f) → f.is_freeing ≡ true → stage_of (epoch_of (word s f.anchor)) ≡ 5 }
    ensures freer_knows { (k : Setting X) (s : State X) (i t : ℕ) (f : Freer X)
        → AnchorsSound k s → IsTab s i t (Tab.Freeing f) → f.is_freeing ≡ true → MatchesFreer s f }
    ensures freed { (k : Setting X) (s : State X) (a : ℕ)
        → AnchorsSound k s → a < k.anchors → stage_of (epoch_of (word s a)) ≡ 5 → HasFreer s a }
{}

/// A step that is allowed by what the view of its pass tells is allowed in each sound state that has the
/// view.
pub fn views_tell_what_is_allowed<X>()
    ensures { (k : Setting X) (s : State X) (i : ℕ) (v : View X) (m : Move)
        → Sound k s → get_elem? s.views i ≡ some v → MayMake k v m → MayStep k s v m }
{}

/// A pass may make a note of what it has seen, behind all views or in place of one that was learned, with
/// any item of this kind.
pub fn notes_may_be_made<X>()
    ensures behind { (k : Setting X) (s : State X) (i : ℕ) (v : View X) (item : Item)
        → Sound k s → get_elem? s.views i ≡ some v → IsPass v → item.kind ≡ Kind.Noted → Sound k (noted_behind s i v item) }
    ensures at { (k : Setting X) (s : State X) (i : ℕ) (v : View X) (item : Item) (n : ℕ) (u : View X)
        → Sound k s → get_elem? s.views i ≡ some v → IsPass v → item.kind ≡ Kind.Noted → IsSpentAt s n u
        → Sound k (noted_at s i v item n) }
{}

/// A pass may learn what a note has seen, wherever the note is, and with any item of this kind.
pub fn notes_may_be_learned<X>()
    ensures { (k : Setting X) (s : State X) (i : ℕ) (v : View X) (item : Item) (n : ℕ) (u : View X)
        → Sound k s → get_elem? s.views i ≡ some v → IsPass v → item.kind ≡ Kind.Learned → IsNoteAt s n u
        → Sound k (learned_from s i v item n u) }
{}

/// The cell that a writing or freeing tab has in its hands may become another one by no step, as a disk
/// writes and syncs it.
pub fn held_cells_may_be_rewritten<X>()
    ensures written { (k : Setting X) (s : State X) (i t : ℕ) (v : View X) (w : Writer X) (old new : Hold X)
        → Sound k s → get_elem? s.views i ≡ some v → IsPass v → MayRewrite k v t w old new
        → Sound k (with_held s i v t w new) }
    ensures wiped { (k : Setting X) (s : State X) (i t : ℕ) (v : View X) (f : Freer X) (old new : Hold X)
        → Sound k s → get_elem? s.views i ≡ some v → IsPass v → MayBlank k v t f old new
        → Sound k (with_wiped s i v t f new) }
{}

/// Words spell one chain at most.
pub fn chains_are_spelled_once()
    ensures { (start : ℕ) (links : ℕ → ℕ) (slots others : List ℕ) (end other_end : Link)
        → IsSpelled start links slots end → IsSpelled start links others other_end
        → (slots ≡ others) × (end ≡ other_end) }
{}

/// The slots that are free, and those that tabs hold and that stand in chains, are together all.
pub fn slots_are_counted<X>()
    ensures { (k : Setting X) (s : State X) → WordsSound k s → free_below k s k.slots + slots_used s ≡ k.slots }
{}

/// A pass has nine tabs after each of its steps.
pub fn steps_keep_nine_tabs<X>()
    ensures { (v : View X) (m : Move) (x : Finding X) → IsPass v → IsPass (view_after v m x) }
{}

/// Deeds stand in the views of passes alone.
pub fn deeds_are_of_passes<X>()
    ensures { (k : Setting X) (s : State X) (i : ℕ) (v : View X) (d : Deed)
        → AnchorsSound k s → get_elem? s.views i ≡ some v → Contains v.deeds d → v.tabs ≢ [] }
{}

/// What a tab has chosen after a step: the tab had chosen it before, or the step logged it.
pub fn steps_change_choices<X>()
    ensures { (k : Setting X) (s : State X) (i : ℕ) (v : View X) (m : Move) (j t : ℕ) (w : Writer X) (p : Piece)
        → get_elem? s.views i ≡ some v → MayStep k s v m → IsTab (after k s i v m) j t (Tab.Writing w) → w.chosen ≡ Some p
        → ChoiceAfter s i m j t w p }
{}

/// Epochs have their deeds, where they stand or were seen. One with a version of the opening has the
/// version that its anchor had then, with the stage it had then or one of an entry that is given back, and
/// so is not TAKEN, APPENDING or HALTED. It is given back only where the anchor had an entry. For one with
/// a new version a deed took the anchor, with that version. For one at HALTED, doomed or not, a deed halted
/// that version there. One with a new version is not at EMPTY, and a doomed one is at APPENDING or later.
/// For an undoomed one with a new version at CLOSED a deed raised that version to CLOSED, undoomed, and so
/// for a new version that was evicted from an idle word.
pub fn epochs_have_their_deeds<X>()
    ensures old { (k : Setting X) (s : State X) (a e : ℕ)
        → Sound k s → IsEpochAt k s a e → version_of e ≤ opening_counter k → IsOldEpoch k a e }
    ensures quiet { (k : Setting X) (s : State X) (a e : ℕ)
        → Sound k s → IsEpochAt k s a e → version_of e ≤ opening_counter k
        → (stage_of e ≢ 1) × (stage_of e ≢ 2) × (stage_of e ≢ 4) }
    ensures taken { (k : Setting X) (s : State X) (a e : ℕ)
        → Sound k s → IsEpochAt k s a e → opening_counter k < version_of e → IsDone s (TookVersion a (version_of e)) }
    ensures halted { (k : Setting X) (s : State X) (a e : ℕ)
        → Sound k s → IsEpochAt k s a e → stage_of e ≡ 4 → IsDone s (HaltedVersion a (version_of e)) }
    ensures begun { (k : Setting X) (s : State X) (a e : ℕ)
        → Sound k s → IsEpochAt k s a e → opening_counter k < version_of e → 1 ≤ stage_of e }
    ensures grown { (k : Setting X) (s : State X) (a e : ℕ)
        → Sound k s → IsEpochAt k s a e → doom_of e ≡ 1 → 2 ≤ stage_of e }
    ensures closed { (k : Setting X) (s : State X) (a e : ℕ)
        → Sound k s → IsEpochAt k s a e → opening_counter k < version_of e → stage_of e ≡ 3 → doom_of e ≡ 0
        → IsDone s (ClosedVersion a (version_of e)) }
    ensures evicted { (k : Setting X) (s : State X) (a version : ℕ)
        → Sound k s → opening_counter k < version → IsDone s (EvictedVersion a version) → IsDone s (ClosedVersion a version) }
{}
