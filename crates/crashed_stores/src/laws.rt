// The laws on what a crash leaves of a running store.
ghost use Rattle.std.specs.Prelude.{Contains, IsTrue, List, length, map, ◌<◌, ◌^◌, ◌≡◌, ◌≤◌, ◌⊎◌, ℕ};
ghost use Rattle.lock_word.specs.Words.{epoch_of, stage_of, version_of};
ghost use Rattle.std.specs.Global.{Vec};
ghost use mathlib.Core.Option.{some};
ghost use lib.ListN.{get_elem?};
ghost use Rattle.core_model.specs.Cells.{IsCell};
ghost use Rattle.core_model.specs.declared.tab.Cell.{Cell as CoreCell};
ghost use Rattle.rock_disk.specs.Crash.{IsCrashImage};
ghost use Rattle.core_model.specs.declared.view.Sight.TheVariants.{Wiped};
ghost use Rattle.core_model.specs.declared.view.View.{View};
ghost use Rattle.core_model.specs.State.{State, chain_of, word};
ghost use Rattle.rebuild_model.specs.Entry.{Entry, IsComplete};
ghost use Rattle.store_rule.specs.Closing.{Closed};
ghost use Rattle.store_rule.specs.Ground.{Ground, Rule};
ghost use Rattle.store_rule.specs.Passes.{basis};
ghost use Rattle.rock_open.specs.Opening.{IsStoreOver};
ghost use Rattle.rebuild_model.specs.Rebuilt.{IsWinner};
ghost use Rattle.crash_laws.specs.Left.{entry_at};
ghost use Rattle.rock_writer.specs.Durable.{LoggedWhole};
ghost use Rattle.rock_writer.specs.Entries.{Entry as Written};
ghost use Rattle.crashed_stores.specs.Finished.{AreSeen, IsFoundIn};
ghost use Rattle.wiped_entries.specs.Now.{IsLeftNow};
ghost use Rattle.crashed_stores.specs.Gone.{HaveNone};
ghost use Rattle.crashed_stores.specs.Left.{IsDurableEntry, IsLeftOf, IsOfOrigin, bytes_now, offers_in};
ghost use Rattle.crashed_stores.specs.Within.{IsLeftWithin};
ghost use Rattle.crashed_stores.specs.Standing.{HaveEntry, IsLasting, offer_at};

use db_layout::MOST_SLOTS;
use entry_cut::{pieces_make_the_content, placed_pieces_are_an_entry};
use rebuild_model::{one_entry_at_a_slot, one_winner_at_an_anchor};
use rock_disk::Cell;
use slot_cell::images_are_read_as_built;
use store_key::keys_have_16_bytes;
use store_rule::{Origin, Pass, Store};
use swap_meta::written_meta_is_spelled;

/// A store was opened over these cells, and its rule holds in some state: between any two atomic steps of its
/// workers. Whatever a crash leaves then, while any number of workers write pieces, each complete entry is one
/// that the cells had at the opening, or a whole response that was offered.
pub fn crashes_of_stores_leave_responses<C: Cell, O: Origin>()
    ensures { (slot anchors many : ℕ) (origin : O) (cells : List C) (store : Store C O) (passes : Vec (Pass C)) (s : State (List ℕ)) (images : List (List ℕ)) (e : Entry)
        → IsTrue C.tells → slot < 2 ^ 32 → length cells ≤ MOST_SLOTS → IsStoreOver C.tells C.state O.offers slot anchors many origin cells store passes
        → (rule : Rule (basis C.tells C.state O.offers store) s) → IsLeftOf (basis C.tells C.state O.offers store) s rule.logged.log images
        → IsComplete slot images e → IsComplete slot (bytes_now C.state cells) e ⊎ IsOfOrigin (O.offers origin) e }
{
    images_are_read_as_built();
    keys_have_16_bytes();
    one_entry_at_a_slot();
    pieces_make_the_content();
    placed_pieces_are_an_entry();
    written_meta_is_spelled();
}

/// What a crash leaves while any number of calls write slots, within their writes and syncs or between them, is as the laws
/// here ask of what a crash leaves of a state.
pub fn calls_under_way_leave_pieces()
    ensures { (g : Ground (List ℕ)) (s : State (List ℕ)) (images : List (List ℕ)) → (rule : Rule g s) → IsLeftWithin g s images → IsLeftOf g s rule.logged.log images }
{}

/// A new entry that was closed, each of whose pieces was logged as durable, is in all that a crash may leave, and a
/// rebuild keeps it at its anchor.
pub fn durable_entries_outlive_crashes<C: Cell, O: Origin>()
    ensures { (slot anchors many : ℕ) (origin : O) (cells : List C) (store : Store C O) (passes : Vec (Pass C)) (s : State (List ℕ)) (images : List (List ℕ)) (a : ℕ)
        → IsTrue C.tells → slot < 2 ^ 32 → length cells ≤ MOST_SLOTS → IsStoreOver C.tells C.state O.offers slot anchors many origin cells store passes
        → (rule : Rule (basis C.tells C.state O.offers store) s) → IsLeftOf (basis C.tells C.state O.offers store) s rule.logged.log images
        → a < anchors → IsDurableEntry (basis C.tells C.state O.offers store) s rule.logged.log a
        → IsWinner slot images anchors a (entry_at slot (offers_in (basis C.tells C.state O.offers store)) (basis C.tells C.state O.offers store).setting s a) }
{
    images_are_read_as_built();
    keys_have_16_bytes();
    one_entry_at_a_slot();
    pieces_make_the_content();
    placed_pieces_are_an_entry();
    written_meta_is_spelled();
}

/// Of each slot of such an entry a crash leaves only what is published there.
pub fn durable_slots_have_one_content()
    ensures { (g : Ground (List ℕ)) (s : State (List ℕ)) (a place slot : ℕ) (c : CoreCell (List ℕ)) (x : List ℕ) → (rule : Rule g s)
        → a < g.setting.anchors → IsDurableEntry g s rule.logged.log a → get_elem? (chain_of s a).slots place ≡ some slot → IsCell s slot c
        → Contains c.possible x → x ≡ c.now }
{}

/// An entry of which a pass knew, with this view, each piece as logged and as durable, and that all of them were
/// published, is durable in each later state in which its version stands with its slots. So it is of an entry that
/// `rock_writer::finish` closed as durable.
pub fn finished_entries_are_durable()
    ensures { (g : Ground (List ℕ)) (entry : Written) (v : View (List ℕ)) (s : State (List ℕ)) → LoggedWhole g entry v → AreSeen s v
        → (rule : Rule g s) → version_of (epoch_of (word s entry.anchor)) ≡ entry.version → 0 < length (chain_of s entry.anchor).slots
        → IsDurableEntry g s rule.logged.log entry.anchor }
{}

/// So it is in all that a crash may leave then, with its URL and its whole body, and a rebuild keeps it at its anchor.
pub fn finished_entries_outlive_crashes<C: Cell, O: Origin>()
    ensures { (slot anchors many : ℕ) (origin : O) (cells : List C) (store : Store C O) (passes : Vec (Pass C)) (s : State (List ℕ)) (images : List (List ℕ)) (entry : Written) (v : View (List ℕ))
        → IsTrue C.tells → slot < 2 ^ 32 → length cells ≤ MOST_SLOTS → IsStoreOver C.tells C.state O.offers slot anchors many origin cells store passes
        → (rule : Rule (basis C.tells C.state O.offers store) s) → IsLeftOf (basis C.tells C.state O.offers store) s rule.logged.log images
        → LoggedWhole (basis C.tells C.state O.offers store) entry v → AreSeen s v
        → version_of (epoch_of (word s entry.anchor)) ≡ entry.version → 0 < length (chain_of s entry.anchor).slots
        → IsFoundIn slot anchors (basis C.tells C.state O.offers store) entry images }
{
    images_are_read_as_built();
    keys_have_16_bytes();
    one_entry_at_a_slot();
    pieces_make_the_content();
    placed_pieces_are_an_entry();
    written_meta_is_spelled();
}

/// An entry that was kept at the opening, and still stands at its anchor with its version and with slots, is in all
/// that a crash may leave, and a rebuild keeps it there.
pub fn kept_entries_outlive_crashes<C: Cell, O: Origin>()
    ensures { (slot anchors many : ℕ) (origin : O) (cells : List C) (store : Store C O) (passes : Vec (Pass C)) (s : State (List ℕ)) (images : List (List ℕ)) (a : ℕ) (e : Entry)
        → IsTrue C.tells → slot < 2 ^ 32 → length cells ≤ MOST_SLOTS → IsStoreOver C.tells C.state O.offers slot anchors many origin cells store passes
        → (rule : Rule (basis C.tells C.state O.offers store) s) → IsLeftOf (basis C.tells C.state O.offers store) s rule.logged.log images
        → a < anchors → IsWinner slot (bytes_now C.state cells) anchors a e → 0 < length (chain_of s a).slots → version_of (epoch_of (word s a)) ≡ e.version
        → IsWinner slot images anchors a e }
{
    images_are_read_as_built();
    keys_have_16_bytes();
    one_entry_at_a_slot();
    one_winner_at_an_anchor();
    pieces_make_the_content();
    placed_pieces_are_an_entry();
    written_meta_is_spelled();
}

/// An entry whose first slot was wiped, as `purge_entry::purge_durable` leaves it where it answers `Gone`: a pass has seen so,
/// with this view. In nothing that a crash leaves from then on is there a complete entry of its version that begins at the
/// slot, and where the version is above the greatest one of the file at the opening, there is none of it at all. So it is of
/// each state, also while any number of workers write and wipe slots (`running`), and of the cells of a store that was
/// closed (`closed`).
pub fn wiped_entries_do_not_come_back<C: Cell, O: Origin>()
    ensures running { (slot anchors many : ℕ) (origin : O) (cells : List C) (store : Store C O) (passes : Vec (Pass C)) (s : State (List ℕ)) (images : List (List ℕ)) (v : View (List ℕ)) (a version wiped : ℕ)
        → IsTrue C.tells → slot < 2 ^ 32 → length cells ≤ MOST_SLOTS → IsStoreOver C.tells C.state O.offers slot anchors many origin cells store passes
        → Rule (basis C.tells C.state O.offers store) s → IsLeftNow (basis C.tells C.state O.offers store).setting (λ x. x) s images
        → Contains v.seen (Wiped a version wiped) → AreSeen s v → HaveNone slot (basis C.tells C.state O.offers store) version wiped images }
    ensures closed { (slot anchors many : ℕ) (origin : O) (cells : List C) (store : Store C O) (passes : Vec (Pass C)) (views : List (View (List ℕ))) (left : List C) (images : List (List ℕ)) (v : View (List ℕ)) (j a version wiped : ℕ)
        → IsTrue C.tells → slot < 2 ^ 32 → length cells ≤ MOST_SLOTS → IsStoreOver C.tells C.state O.offers slot anchors many origin cells store passes
        → Closed C.tells C.state (basis C.tells C.state O.offers store) views left → IsCrashImage (map C.state left) images
        → get_elem? views j ≡ some v → Contains v.seen (Wiped a version wiped) → HaveNone slot (basis C.tells C.state O.offers store) version wiped images }
{
    images_are_read_as_built();
    keys_have_16_bytes();
    one_entry_at_a_slot();
    pieces_make_the_content();
    placed_pieces_are_an_entry();
    written_meta_is_spelled();
}

/// Where the store was closed, a crash leaves of its cells no other entries than those either.
pub fn closed_cells_leave_responses<C: Cell, O: Origin>()
    ensures { (slot anchors many : ℕ) (origin : O) (cells : List C) (store : Store C O) (passes : Vec (Pass C)) (views : List (View (List ℕ))) (closed : List C) (images : List (List ℕ)) (e : Entry)
        → IsTrue C.tells → slot < 2 ^ 32 → length cells ≤ MOST_SLOTS → IsStoreOver C.tells C.state O.offers slot anchors many origin cells store passes
        → Closed C.tells C.state (basis C.tells C.state O.offers store) views closed → IsCrashImage (map C.state closed) images
        → IsComplete slot images e → IsComplete slot (bytes_now C.state cells) e ⊎ IsOfOrigin (O.offers origin) e }
{
    images_are_read_as_built();
    keys_have_16_bytes();
    one_entry_at_a_slot();
    pieces_make_the_content();
    placed_pieces_are_an_entry();
    written_meta_is_spelled();
}

/// Where the store was closed, and an entry stands closed at an anchor: the cells as they are have it, and a rebuild keeps
/// it there. So it is in all that a crash may leave of them, where the entry is one of the opening, or each of its pieces
/// was logged as durable.
pub fn closed_entries_win<C: Cell, O: Origin>()
    ensures { (slot anchors many : ℕ) (origin : O) (cells : List C) (store : Store C O) (passes : Vec (Pass C)) (views : List (View (List ℕ))) (left : List C) (a : ℕ)
        → IsTrue C.tells → slot < 2 ^ 32 → length cells ≤ MOST_SLOTS → IsStoreOver C.tells C.state O.offers slot anchors many origin cells store passes
        → (closed : Closed C.tells C.state (basis C.tells C.state O.offers store) views left)
        → a < anchors → stage_of (epoch_of (word closed.gathered.state a)) ≡ 3
        → HaveEntry slot anchors (basis C.tells C.state O.offers store) (bytes_now C.state cells) closed.gathered.state closed.gathered.rule.logged.log (map C.state left) a }
{
    images_are_read_as_built();
    keys_have_16_bytes();
    one_entry_at_a_slot();
    pieces_make_the_content();
    placed_pieces_are_an_entry();
    written_meta_is_spelled();
}

/// An entry of which a pass of a store that was closed knew, with this view, each piece as logged and as durable lasts:
/// where its version stands closed then, each piece that is published there was logged as durable (`lasting`). Its offer
/// is the one that stands there (`offer`).
pub fn finished_entries_last<C: Cell>()
    ensures lasting { (g : Ground (List ℕ)) (views : List (View (List ℕ))) (left : List C) (entry : Written) (v : View (List ℕ)) (j : ℕ)
        → (closed : Closed C.tells C.state g views left) → get_elem? views j ≡ some v → LoggedWhole g entry v
        → version_of (epoch_of (word closed.gathered.state entry.anchor)) ≡ entry.version → stage_of (epoch_of (word closed.gathered.state entry.anchor)) ≡ 3
        → IsLasting g closed.gathered.state closed.gathered.rule.logged.log entry.anchor }
    ensures offer { (g : Ground (List ℕ)) (views : List (View (List ℕ))) (left : List C) (entry : Written) (v : View (List ℕ)) (j : ℕ)
        → (closed : Closed C.tells C.state g views left) → get_elem? views j ≡ some v → LoggedWhole g entry v
        → version_of (epoch_of (word closed.gathered.state entry.anchor)) ≡ entry.version
        → offer_at g closed.gathered.state entry.anchor ≡ entry.offer }
{}
