// What holds along every list of steps, crashes and rebuilds, from each opening on.
ghost use Rattle.std.specs.Prelude.{◌≡◌, ◌<◌, ◌+◌, ℕ, List, Some, length};
ghost use mathlib.Core.Option.{some};
ghost use lib.ListN.{get_elem?};
ghost use Rattle.db_layout.specs.Layout.{IsSlotSize};
ghost use Rattle.lock_word.specs.Words.{epoch_of, stage_of};
ghost use Rattle.rebuild_model.specs.declared.image.FileImage.{FileImage};
ghost use Rattle.rebuild_model.specs.declared.rebuilt.Rebuilt.{Rebuilt};
ghost use Rattle.rebuild_model.specs.Rebuilt.{IsRebuilt};
ghost use Rattle.crash_entries.specs.Parts.{Offers};
ghost use Rattle.core_model.specs.declared.tab.Cell.{Cell};
ghost use Rattle.core_model.specs.Cells.{IsCell};
ghost use Rattle.core_model.specs.State.{chain_of, word};
ghost use Rattle.core_table.specs.declared.content.Content.{Content};
ghost use Rattle.core_table.specs.Machine.{state_of};
ghost use Rattle.core_table.specs.New.{IsNew};
ghost use Rattle.core_state.specs.declared.act.Step.{Step};
ghost use Rattle.core_state.specs.declared.act.Step.TheVariants as step;
ghost use Rattle.named_rebuild.specs.declared.contents.FirstContent.{FirstContent};
ghost use Rattle.named_rebuild.specs.Keeping.{IsRebuiltOfNames};
ghost use Rattle.named_bytes.specs.Alike.{AreAlike};
ghost use Rattle.named_bytes.specs.Bytes.{images_from};
ghost use Rattle.core_lives.specs.Along.{LeadsThrough};
ghost use Rattle.core_lives.specs.Happening.{IsNewLife};
ghost use Rattle.core_lives.specs.Lived.{IsSoundLife, Lived};
ghost use Rattle.core_runs.specs.Offered.{AllOffered};
ghost use Rattle.core_runs.specs.Responses.{AreBytes, IsPublishedAs, SpellsResponse, bytes_of};
ghost use Rattle.core_runs.specs.Runs.{SlotsApart};
ghost use Rattle.life_runs.specs.Keeping.{KeepsOffers};
ghost use Rattle.life_runs.specs.Opening.{IsOpenSince, file_of, responses_of};

use entry_cut::{pieces_make_the_content, placed_pieces_are_an_entry};
use named_bytes::names_keep_what_bytes_keep;
use rebuild_model::one_entry_at_a_slot;
use slot_cell::images_are_read_as_built;
use store_key::keys_have_16_bytes;
use swap_meta::written_meta_is_spelled;

/// Along every allowed list of steps, crashes and rebuilds from a new core over a file, where each piece that is logged
/// keeps to its offer and has its key: a rebuild by names of what a crash left keeps what a rebuild of its bytes keeps.
/// So a core that was opened anew is one that was opened over these bytes.
pub fn rebuilds_open_what_is_left()
    ensures same { (file : FileImage) (o : Offers) (anchors passes : ℕ) (steps : List Step) (lives : List Lived) (from : Lived)
        → IsSlotSize file.slot → IsNewLife file anchors passes from → IsSoundLife from
        → LeadsThrough steps lives → get_elem? lives 0 ≡ some from
        → ((j : ℕ) (life : Lived) → get_elem? lives j ≡ some life → KeepsOffers o life)
        → (i : ℕ) (life : Lived) → get_elem? lives i ≡ some life
        → (left : List FirstContent) → life.left ≡ Some left
        → (r b : Rebuilt) → IsRebuiltOfNames file left anchors r → IsRebuilt file.slot (images_from file o 0 left) anchors b
        → AreAlike r b }
    ensures opened { (file : FileImage) (o : Offers) (anchors passes : ℕ) (steps : List Step) (lives : List Lived) (from : Lived)
        → IsSlotSize file.slot → IsNewLife file anchors passes from → IsSoundLife from
        → LeadsThrough steps lives → get_elem? lives 0 ≡ some from
        → ((j : ℕ) (life : Lived) → get_elem? lives j ≡ some life → KeepsOffers o life)
        → (i : ℕ) (life : Lived) → get_elem? steps i ≡ some step.Rebuild → get_elem? lives (i + 1) ≡ some life
        → IsNew (file_of file o life.first) (length file.slots) anchors passes life.core }
{
    images_are_read_as_built();
    keys_have_16_bytes();
    names_keep_what_bytes_keep();
    one_entry_at_a_slot();
    pieces_make_the_content();
    placed_pieces_are_an_entry();
    written_meta_is_spelled();
}

/// From a sound life every allowed list of steps, crashes and rebuilds leads through cores in which each slot is at exactly
/// one spot, free or with one entry, and no tab has the turn to write it while any tab reads it.
pub fn slots_are_apart_along_lives()
    ensures { (steps : List Step) (lives : List Lived) (from : Lived) → LeadsThrough steps lives
        → get_elem? lives 0 ≡ some from → IsSoundLife from
        → (i : ℕ) (life : Lived) → get_elem? lives i ≡ some life → SlotsApart life.core }
{}

/// What published slots hold as bytes, along such a list from a new core over a file. Each holds what it held at the last
/// opening, or the piece of its offer for its place. And where each piece that is logged keeps to its offer and has its
/// key, the chain of each closed entry spells one complete entry, with the URL and the body of its offer, or it is one
/// of what slots held at the last opening.
pub fn lives_publish_responses()
    ensures cells { (steps : List Step) (lives : List Lived) (from : Lived) → LeadsThrough steps lives
        → get_elem? lives 0 ≡ some from → IsSoundLife from
        → (i : ℕ) (life : Lived) → get_elem? lives i ≡ some life
        → (o : Offers) (a place slot : ℕ) (cell : Cell Content) → a < life.core.anchors
        → get_elem? (chain_of (state_of life.core) a).slots place ≡ some slot → IsCell (state_of life.core) slot cell
        → IsPublishedAs (file_of life.file o life.first) (responses_of o) life.core a place slot
        (bytes_of (file_of life.file o life.first) (responses_of o) cell.now) }
    ensures closed { (file : FileImage) (o : Offers) (anchors passes : ℕ) (steps : List Step) (lives : List Lived) (from : Lived)
        → IsSlotSize file.slot → IsNewLife file anchors passes from → IsSoundLife from
        → LeadsThrough steps lives → get_elem? lives 0 ≡ some from
        → ((j : ℕ) (life : Lived) → get_elem? lives j ≡ some life → KeepsOffers o life)
        → (i : ℕ) (life : Lived) → get_elem? lives i ≡ some life
        → (images : List (List ℕ)) → AreBytes (file_of file o life.first) (responses_of o) life.core images
        → (a : ℕ) → a < life.core.anchors → stage_of (epoch_of (word (state_of life.core) a)) ≡ 3
        → SpellsResponse (file_of file o life.first) (responses_of o) life.core a images }
{
    images_are_read_as_built();
    keys_have_16_bytes();
    names_keep_what_bytes_keep();
    one_entry_at_a_slot();
    pieces_make_the_content();
    placed_pieces_are_an_entry();
    written_meta_is_spelled();
}

/// Along such a list, from each opening on, until a crash: each entry is one of the opening's or one of its offer, where
/// each piece that is logged keeps to its offer and has its key.
pub fn offers_stand_along_lives()
    ensures { (file : FileImage) (o : Offers) (anchors passes : ℕ) (steps : List Step) (lives : List Lived) (from : Lived)
        → IsSlotSize file.slot → IsNewLife file anchors passes from → IsSoundLife from
        → LeadsThrough steps lives → get_elem? lives 0 ≡ some from
        → ((j : ℕ) (life : Lived) → get_elem? lives j ≡ some life → KeepsOffers o life)
        → (i j : ℕ) (opened life : Lived) → IsOpenSince steps i j
        → get_elem? lives i ≡ some opened → get_elem? lives j ≡ some life
        → AllOffered (file_of file o opened.first) (responses_of o) opened.core life.core }
{
    images_are_read_as_built();
    keys_have_16_bytes();
    names_keep_what_bytes_keep();
    one_entry_at_a_slot();
    pieces_make_the_content();
    placed_pieces_are_an_entry();
    written_meta_is_spelled();
}
