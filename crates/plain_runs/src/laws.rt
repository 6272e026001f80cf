// A store with one pass is a plain store. The functions here do nothing: the proof of a function that calls one may use
// what it ensures.
ghost use Rattle.std.specs.Prelude.{Contains, IsTrue, List, length, map, ◌+◌, ◌<◌, ◌≡◌, ◌≢◌, ℕ};
ghost use Rattle.std.specs.Global.{Vec};
ghost use lib.ListN.{get_elem?};
ghost use mathlib.Core.Option.{some};
ghost use Rattle.lock_word.specs.Words.{epoch_of, stage_of, word_number};
ghost use Rattle.rock_disk.specs.Opened.{AreSlots};
ghost use Rattle.core_model.specs.declared.moves.Side.TheVariants.{Offer};
ghost use Rattle.core_model.specs.declared.view.View.{View};
ghost use Rattle.core_model.specs.State.{side_word, word};
ghost use Rattle.script_text.specs.declared.answer.Answer.{Answer};
ghost use Rattle.script_text.specs.declared.line.Line.{Line};
ghost use Rattle.plain_model.specs.declared.store.Plain.{Plain};
ghost use Rattle.plain_model.specs.Opening.{IsOpened};
ghost use Rattle.plain_model.specs.Serving.{lines_for};
ghost use Rattle.plain_laws.specs.Fitting.{Fits};
ghost use Rattle.plain_model.specs.declared.entry.Entry.{Entry as PlainEntry};
ghost use Rattle.plain_model.specs.declared.entry.Life.TheVariants.{Whole};
ghost use Rattle.plain_model.specs.Store.{entry_at, word_at};
ghost use Rattle.store_rule.specs.declared.store.Pass.{Pass};
ghost use Rattle.store_rule.specs.declared.store.Store.{Store};
ghost use Rattle.store_rule.specs.Closing.{Closed};
ghost use Rattle.store_rule.specs.Passes.{IsNewOf, basis, view};
ghost use Rattle.rock_open.specs.Opening.{IsStoreOver};
ghost use Rattle.rock_reader.specs.Responses.{IsResponse};
ghost use Rattle.worker_pool.specs.Courses.{At, Stage};
ghost use Rattle.worker_pool.specs.Running.{Account};
ghost use Rattle.worker_shelf.specs.Shelves.{OnShelf};
ghost use Rattle.crew_accounts.specs.Playing.{HasRun};
ghost use Rattle.plain_runs.specs.Words.{IsLone, setting_of};
ghost use Rattle.plain_runs.specs.Ends.{SpellsResponse, StandsClosed};
ghost use Rattle.plain_runs.specs.Alone.{IsAloneAtItsAnchors};
ghost use Rattle.plain_runs.specs.PrivateRuns.{IsPrivateRun, left_private};
ghost use Rattle.plain_runs.specs.Runs.{IsPlainRun, Numbered, ShowsPlain, setting_over};

use crew_accounts::faults_are_counted;
use entry_cut::placed_pieces_are_an_entry;
use rebuild_model::{one_entry_at_a_slot, one_winner_at_an_anchor};
use rock_disk::{Cell, Station};
use rock_reader::{bodies_are_given_from_the_front, opened_stores_hold_their_files};
use store_rule::Origin;
use store_serve::requests_keep_other_tabs;

/// Where a store was opened over cells that tell what they hold, there is a plain store that is opened on their images
/// (`opens`), and a new pass shows each such plain store (`shows`).
pub fn new_passes_show_plain_stores<C: Cell, O: Origin>()
    ensures opens { (slot anchors passes : ℕ) (origin : O) (cells : List C) (s : Store C O) (ps : Vec (Pass C)) → IsTrue C.tells
        → IsStoreOver C.tells C.state O.offers slot anchors passes origin cells s ps
        → (plain : Plain) × IsOpened slot (map (λ c. (C.state c).now) cells) anchors plain }
    ensures shows { (slot anchors passes : ℕ) (origin : O) (cells : List C) (s : Store C O) (ps : Vec (Pass C)) (p : Pass C) (plain : Plain) → IsTrue C.tells
        → AreSlots slot (map C.state cells) → IsStoreOver C.tells C.state O.offers slot anchors passes origin cells s ps
        → IsNewOf C.tells C.state O.offers s p → IsOpened slot (map (λ c. (C.state c).now) cells) anchors plain
        → ShowsPlain C.tells C.state O.offers s p plain }
{
    one_winner_at_an_anchor();
}

/// Where a store was opened over cells that tell what they hold, and was closed, each closed entry is a complete one in the
/// cells that were left, with the URL and the body of its offer and the version that stood there, whatever workers did.
pub fn closed_entries_are_complete<C: Cell, O: Origin>()
    ensures { (slot anchors passes : ℕ) (origin : O) (cells left : List C) (s : Store C O) (ps : Vec (Pass C)) (views : List (View (List ℕ)))
        (a : ℕ) (url body : List ℕ) → IsTrue C.tells
        → AreSlots slot (map C.state cells) → IsStoreOver C.tells C.state O.offers slot anchors passes origin cells s ps
        → (closed : Closed C.tells C.state (basis C.tells C.state O.offers s) views left)
        → a < (basis C.tells C.state O.offers s).setting.anchors → stage_of (epoch_of (word closed.gathered.state a)) ≡ 3
        → IsResponse (basis C.tells C.state O.offers s) a (side_word (basis C.tells C.state O.offers s).setting closed.gathered.state Offer a) url body
        → SpellsResponse (basis C.tells C.state O.offers s) closed.gathered.state (map (λ c. (C.state c).now) left) a url body }
{
    one_winner_at_an_anchor();
    placed_pieces_are_an_entry();
}

/// When a store with one pass was closed, each anchor had the word of the plain store that the pass showed: its version, its
/// stage and its doom, and as many readers as tabs read there.
pub fn closed_words_are_plain<C: Cell, O: Origin>()
    ensures { (s : Store C O) (p : Pass C) (plain : Plain) (views : List (View (List ℕ))) (left : List C)
        (closed : Closed C.tells C.state (basis C.tells C.state O.offers s) views left) (a : ℕ) → IsLone (basis C.tells C.state O.offers s)
        → get_elem? views 0 ≡ some (view p) → ShowsPlain C.tells C.state O.offers s p plain → a < (basis C.tells C.state O.offers s).setting.anchors
        → word closed.gathered.state a ≡ word_number (word_at (setting_of (basis C.tells C.state O.offers s)) plain a) }
{}

/// When a store with one pass was closed, each whole entry of the plain store that the pass showed stood closed at its
/// anchor, with its version and its doom, and its offer has its URL and its body.
pub fn whole_entries_stand_closed<C: Cell, O: Origin>()
    ensures { (s : Store C O) (p : Pass C) (plain : Plain) (views : List (View (List ℕ))) (left : List C)
        (closed : Closed C.tells C.state (basis C.tells C.state O.offers s) views left) (a : ℕ) (e : PlainEntry) → IsLone (basis C.tells C.state O.offers s)
        → get_elem? views 0 ≡ some (view p) → ShowsPlain C.tells C.state O.offers s p plain → a < (basis C.tells C.state O.offers s).setting.anchors
        → entry_at plain a ≡ Some e → e.life ≡ Whole
        → StandsClosed (basis C.tells C.state O.offers s) closed.gathered.state plain a e }
{}

/// Where one worker served a script whose lines are numbered in order, on the only pass of a store that was opened over
/// cells that tell what they hold, and its station met no fault, the worker's lines are answered as by each plain store
/// that is opened on the images of the cells. When the store was closed, the pass showed what the script leaves of the
/// plain store, and the cells that were left hold each entry of it that is whole.
pub fn lone_runs_are_plain<C: Cell, O: Origin, St: Station<C = C>>()
    ensures { (slot anchors : ℕ) (origin : O) (cells left : List C) (s : Store C O) (ps : Vec (Pass C)) (script : List Line)
        (accounts : List (Account (OnShelf C O St))) (a : Account (OnShelf C O St)) (plain : Plain) → IsTrue C.tells
        → AreSlots slot (map C.state cells) → IsStoreOver C.tells C.state O.offers slot anchors 1 origin cells s ps
        → Numbered 0 script → HasRun C.tells C.state O.offers St.faults s script accounts left → At accounts 0 a
        → St.faults a.end.station ≡ 0 → IsOpened slot (map (λ c. (C.state c).now) cells) anchors plain
        → IsPlainRun C.tells C.state O.offers s slot anchors (length cells) script plain a left }
{
    one_entry_at_a_slot();
    one_winner_at_an_anchor();
    bodies_are_given_from_the_front();
    opened_stores_hold_their_files();
    placed_pieces_are_an_entry();
    requests_keep_other_tabs::<C, O>();
    faults_are_counted::<C, O, St>();
}

/// In a store that fits, the private lines of a worker whose station met no fault are answered as by each plain store that
/// is opened on the images of the cells, but for versions, however many passes the store has. When the store was closed,
/// each private anchor that is left to its pass had the word of what these lines leave of the plain store, and the cells
/// that were left hold each whole entry of that there, but for versions. Each private line names no anchor but those that
/// are left to its pass, each of its tabs is opened at private anchors alone or at others alone, and none of its lines was
/// answered that no version is left.
pub fn private_runs_are_plain<C: Cell, O: Origin, St: Station<C = C>>()
    ensures { (slot anchors passes : ℕ) (origin : O) (cells left : List C) (s : Store C O) (ps : Vec (Pass C)) (script : List Line)
        (accounts : List (Account (OnShelf C O St))) (w : ℕ) (a : Account (OnShelf C O St)) (plain : Plain) → IsTrue C.tells
        → AreSlots slot (map C.state cells) → IsStoreOver C.tells C.state O.offers slot anchors passes origin cells s ps
        → Numbered 0 script → (run : HasRun C.tells C.state O.offers St.faults s script accounts left) → At accounts w a
        → St.faults a.end.station ≡ 0 → IsOpened slot (map (λ c. (C.state c).now) cells) anchors plain
        → 0 < anchors → ((x : Stage (OnShelf C O St)) → Contains a.stages x → (versions : ℕ) → x.answer ≢ Answer.Spent versions)
        → IsAloneAtItsAnchors (basis C.tells C.state O.offers s) script (w + 1) w
        → Fits (setting_over slot anchors (length cells)) (lines_for (w + 1) script) plain
        → IsPrivateRun slot (setting_over slot anchors (length cells)) script (w + 1) plain (map (λ x. x.answer) a.stages)
        (left_private (basis C.tells C.state O.offers s) script (w + 1) w)
        (left_private (basis C.tells C.state O.offers s) script (w + 1) w) (word run.closed.gathered.state) (map (λ c. (C.state c).now) left) }
{
    one_entry_at_a_slot();
    one_winner_at_an_anchor();
    bodies_are_given_from_the_front();
    opened_stores_hold_their_files();
    placed_pieces_are_an_entry();
    requests_keep_other_tabs::<C, O>();
    faults_are_counted::<C, O, St>();
}
