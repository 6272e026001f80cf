// The laws of the definitions.
ghost use Rattle.std.specs.Prelude.{◌≡◌, ◌≢◌, ◌+◌, ◌<◌, ℕ, List, [], ◌∷◌, ◌++◌, length, map, slice_index, Contains};
ghost use Rattle.std.specs.List.Sorted.{IsStrictlyIncreasing};
ghost use Rattle.store_key.specs.Anchor.{anchor_of};
ghost use Rattle.rebuild_model.specs.Image.{IsGreatest, image_at};
ghost use Rattle.rebuild_model.specs.Entry.{Entry, IsChain, IsComplete};
ghost use Rattle.rebuild_model.specs.Keeping.{HasNoneAt, IsKept, AreWinners, AreOwners};
ghost use Rattle.rebuild_model.specs.Rebuilt.{IsWinner, IsRebuilt};
ghost use Rattle.rebuild_model.specs.declared.found.Found.{Found};
ghost use Rattle.rebuild_model.specs.declared.rebuilt.Rebuilt.{Rebuilt};

use swap_meta::no_spelling_is_a_prefix;

/// At most one complete entry begins at a slot.
pub fn one_entry_at_a_slot()
    ensures { (slot : ℕ) (images : List (List ℕ)) (e f : Entry)
        → IsComplete slot images e → IsComplete slot images f → e.first ≡ f.first → e ≡ f }
{
    no_spelling_is_a_prefix();
}

/// Whether an entry is complete depends on the bytes of its slots alone: it is complete in each file of as many
/// slots where these have the same bytes.
pub fn entries_depend_on_their_slots()
    ensures { (slot : ℕ) (images others : List (List ℕ)) (e : Entry)
        → length others ≡ length images
        → ((s : ℕ) → Contains e.chain s → image_at others s ≡ image_at images s)
        → IsComplete slot images e → IsComplete slot others e }
{}

/// Chains that begin at different slots share no slot, and so complete entries do not either.
pub fn chains_are_apart()
    ensures chains { (slot : ℕ) (images : List (List ℕ)) (s t : ℕ) (xs ys : List ℕ)
        → IsChain slot images s xs → IsChain slot images t ys → s ≢ t
        → (u : ℕ) → Contains xs u → Contains ys u → ⊥ }
    ensures entries { (slot : ℕ) (images : List (List ℕ)) (e f : Entry)
        → IsComplete slot images e → IsComplete slot images f → e.first ≢ f.first
        → (s : ℕ) → Contains e.chain s → Contains f.chain s → ⊥ }
{}

/// At most one entry is kept at an anchor, and it is complete.
pub fn one_winner_at_an_anchor()
    ensures complete { (slot : ℕ) (images : List (List ℕ)) (anchors anchor : ℕ) (e : Entry)
        → IsWinner slot images anchors anchor e → IsComplete slot images e }
    ensures one { (slot : ℕ) (images : List (List ℕ)) (anchors anchor : ℕ) (e f : Entry)
        → IsWinner slot images anchors anchor e → IsWinner slot images anchors anchor f → e ≡ f }
{
    one_entry_at_a_slot();
}

/// Entries that are kept at different anchors share no slot.
pub fn winners_are_apart()
    ensures { (slot : ℕ) (images : List (List ℕ)) (anchors a b : ℕ) (e f : Entry)
        → IsWinner slot images anchors a e → IsWinner slot images anchors b f → a ≢ b
        → (s : ℕ) → Contains e.chain s → Contains f.chain s → ⊥ }
{
    chains_are_apart();
}

/// The entries that are kept may be gathered anchor by anchor: there are none at first, and each
/// anchor has none or adds one.
pub fn winners_are_gathered()
    ensures none { (slot : ℕ) (images : List (List ℕ)) (anchors : ℕ) → AreWinners slot images anchors 0 [] }
    ensures passed { (slot : ℕ) (images : List (List ℕ)) (anchors anchor : ℕ) (winners : List Found)
        → AreWinners slot images anchors anchor winners → HasNoneAt slot images anchors anchor
        → AreWinners slot images anchors (anchor + 1) winners }
    ensures more { (slot : ℕ) (images : List (List ℕ)) (anchors anchor : ℕ) (winners : List Found) (found : Found)
        → AreWinners slot images anchors anchor winners → IsKept slot images anchors anchor found
        → AreWinners slot images anchors (anchor + 1) (winners ++ found ∷ []) }
{}

/// The entries that are kept at all anchors, the owners of the slots and the greatest version make a
/// rebuild.
pub fn winners_and_owners_make_a_rebuild()
    ensures { (slot : ℕ) (images : List (List ℕ)) (anchors : ℕ) (rebuilt : Rebuilt)
        → 0 < anchors → AreWinners slot images anchors anchors rebuilt.winners
        → length rebuilt.owner ≡ length images → AreOwners anchors rebuilt.winners rebuilt.owner
        → IsGreatest slot images rebuilt.greatest → IsRebuilt slot images anchors rebuilt }
{
    one_entry_at_a_slot();
}

/// What is known of the entries that a rebuild keeps: each is the one that the file has at its anchor;
/// their anchors are those of the store, and stand in order; and each of their slots is a slot of the file,
/// and theirs.
pub fn finds_are_known()
    ensures all { (slot : ℕ) (images : List (List ℕ)) (anchors : ℕ) (rebuilt : Rebuilt)
        → IsRebuilt slot images anchors rebuilt → (f : Found) → Contains rebuilt.winners f
        → IsKept slot images anchors (anchor_of f.key anchors) f }
    ensures below { (slot : ℕ) (images : List (List ℕ)) (anchors : ℕ) (rebuilt : Rebuilt)
        → 0 < anchors → IsRebuilt slot images anchors rebuilt → (f : Found) → Contains rebuilt.winners f
        → anchor_of f.key anchors < anchors }
    ensures anchors { (slot : ℕ) (images : List (List ℕ)) (anchors : ℕ) (rebuilt : Rebuilt)
        → IsRebuilt slot images anchors rebuilt
        → IsStrictlyIncreasing (map (λ f. anchor_of f.key anchors) rebuilt.winners) }
    ensures slots { (slot : ℕ) (images : List (List ℕ)) (anchors : ℕ) (rebuilt : Rebuilt)
        → IsRebuilt slot images anchors rebuilt → (f : Found) (s : ℕ) → Contains rebuilt.winners f → Contains f.chain s
        → (s < length images) × (slice_index rebuilt.owner s ≡ anchor_of f.key anchors + 1) }
{}

/// A file has one rebuild for so many anchors.
pub fn a_file_has_one_rebuild()
    ensures { (slot : ℕ) (images : List (List ℕ)) (anchors : ℕ) (a b : Rebuilt)
        → IsRebuilt slot images anchors a → IsRebuilt slot images anchors b → a ≡ b }
{
    one_winner_at_an_anchor();
}
