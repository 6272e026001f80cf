//! What holds along every list of steps. These functions do nothing: the proof of a function that calls
//! one may use what it ensures.
ghost use Rattle.std.specs.Prelude.{◌≡◌, ◌<◌, ◌≤◌, ℕ, List, length};
ghost use mathlib.Core.Option.{some};
ghost use lib.ListN.{get_elem?};
ghost use Rattle.lock_word.specs.Words.{epoch_of, stage_of};
ghost use Rattle.db_layout.specs.Layout.{IsSlotSize};
ghost use Rattle.rebuild_model.specs.declared.image.FileImage.{FileImage};
ghost use Rattle.core_model.specs.declared.tab.Cell.{Cell};
ghost use Rattle.core_model.specs.State.{word, chain_of};
ghost use Rattle.core_model.specs.Cells.{IsCell};
ghost use Rattle.core_model.specs.Holders.{AllFree, IsFinished};
ghost use Rattle.core_state.specs.declared.act.Step.{Step};
ghost use Rattle.core_table.specs.declared.content.Content.{Content};
ghost use Rattle.core_table.specs.Machine.{Machine, state_of};
ghost use Rattle.core_table.specs.New.{IsNew};
ghost use Rattle.core_runs.specs.Responses.{Offers, AreBytes, IsFaithful, IsPublishedAs, SpellsResponse, bytes_of};
ghost use Rattle.core_runs.specs.Offered.{AllOffered};
ghost use Rattle.core_runs.specs.Runs.{IsRun, IsSound, SlotsApart};

use db_layout::MOST_SLOTS;
use entry_cut::placed_pieces_are_an_entry;

/// From a sound core every allowed list of steps leads through sound cores alone.
pub fn runs_stay_sound()
    ensures { (steps : List Step) (cores : List Machine) (from : Machine) → IsRun steps cores
        → get_elem? cores 0 ≡ some from → IsSound from
        → (i : ℕ) (core : Machine) → get_elem? cores i ≡ some core → IsSound core }
{}

/// Along every allowed list of steps each slot is at exactly one spot, free or with one entry, and no tab
/// has the turn to write it while any tab reads it.
pub fn slots_are_apart_along_runs()
    ensures { (steps : List Step) (cores : List Machine) (from : Machine) → IsRun steps cores
        → get_elem? cores 0 ≡ some from → IsSound from
        → (i : ℕ) (core : Machine) → get_elem? cores i ≡ some core → SlotsApart core }
{}

/// What published slots hold as bytes. In any sound core each holds what it held in the file at the
/// opening, or the piece of its offer for its place. And along every allowed list of steps from a core that
/// was opened over a file, where each tab that chose a piece keeps to its offer, the chain of each closed
/// entry spells one complete entry, with the URL and the body of its offer.
pub fn published_slots_hold_responses()
    ensures cells { (file : FileImage) (offers : Offers) (core : Machine) (a place slot : ℕ) (cell : Cell Content)
        → IsSound core → a < core.anchors → get_elem? (chain_of (state_of core) a).slots place ≡ some slot
        → IsCell (state_of core) slot cell → IsPublishedAs file offers core a place slot (bytes_of file offers cell.now) }
    ensures closed { (file : FileImage) (offers : Offers) (anchors passes : ℕ) (steps : List Step) (cores : List Machine) (from : Machine)
        → IsSlotSize file.slot → length file.slots ≤ MOST_SLOTS → IsNew file (length file.slots) anchors passes from
        → IsRun steps cores → get_elem? cores 0 ≡ some from → IsSound from
        → ((j : ℕ) (core : Machine) → get_elem? cores j ≡ some core → IsFaithful file offers core)
        → (i : ℕ) (core : Machine) → get_elem? cores i ≡ some core
        → (images : List (List ℕ)) → AreBytes file offers core images
        → (a : ℕ) → a < core.anchors → stage_of (epoch_of (word (state_of core) a)) ≡ 3 → SpellsResponse file offers core a images }
{
    placed_pieces_are_an_entry();
}

/// In a core that was opened over a file each entry is the opening's, and along every allowed list of steps
/// from it, where each tab that chose a piece keeps to its offer, each entry is the opening's or one of
/// its offer.
pub fn offers_stand_along_runs()
    ensures opened { (file : FileImage) (offers : Offers) (anchors passes : ℕ) (from : Machine)
        → IsNew file (length file.slots) anchors passes from → IsSound from → AllOffered file offers from from }
    ensures kept { (file : FileImage) (offers : Offers) (steps : List Step) (cores : List Machine) (from : Machine)
        → IsRun steps cores → get_elem? cores 0 ≡ some from → IsSound from → AllOffered file offers from from
        → ((j : ℕ) (core : Machine) → get_elem? cores j ≡ some core → IsFaithful file offers core)
        → (i : ℕ) (core : Machine) → get_elem? cores i ≡ some core → AllOffered file offers from core }
{}

/// Wherever along an allowed list of steps each tab is free, and so at its end, nothing is left over at an anchor: no
/// reader is counted, no entry is being written, has halted or is being freed, and none is closed and doomed.
pub fn idle_runs_are_settled()
    ensures { (steps : List Step) (cores : List Machine) (from : Machine) → IsRun steps cores
        → get_elem? cores 0 ≡ some from → IsSound from
        → (i : ℕ) (core : Machine) → get_elem? cores i ≡ some core → AllFree (state_of core)
        → (a : ℕ) → a < core.anchors → IsFinished (word (state_of core) a) }
{}
