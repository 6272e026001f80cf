// What lines stored, saved and wiped, when a store is closed. The functions here do nothing: the proof of a function that calls
// one may use what it ensures.
ghost use Rattle.std.specs.Prelude.{Contains, List, ◌<◌, ◌≡◌, ℕ};
ghost use Rattle.lock_word.specs.declared.epoch.Epoch.{Epoch};
ghost use Rattle.lock_word.specs.Words.{doom_of, epoch_of, stage_of, version_of};
ghost use Rattle.core_model.specs.declared.moves.Side.TheVariants.{Offer};
ghost use Rattle.core_model.specs.Anchors.{opening_counter};
ghost use Rattle.core_model.specs.State.{side_word, word};
ghost use Rattle.script_text.specs.declared.answer.Answer.{Answer};
ghost use Rattle.script_text.specs.declared.body.Body.{Body};
ghost use Rattle.script_text.specs.declared.line.Line.{Line};
ghost use Rattle.script_text.specs.declared.request.Request.{Request};
ghost use Rattle.store_rule.specs.declared.store.Store.{Store};
ghost use Rattle.store_rule.specs.Ground.{anchor_for};
ghost use Rattle.store_rule.specs.Passes.{basis, view};
ghost use Rattle.worker_pool.specs.Courses.{Stage};
ghost use Rattle.worker_pool.specs.Running.{Account};
ghost use Rattle.rock_writer.specs.Durable.{LoggedWhole};
ghost use Rattle.store_serve.specs.Serving.{offer_of};
ghost use Rattle.store_serve.specs.Tabs.{IsOffered};
ghost use Rattle.worker_shelf.specs.Shelves.{OnShelf};
ghost use Rattle.crew_accounts.specs.Playing.{HasRun};
ghost use Rattle.worker_shelf.specs.Playing.{IsPlayed};
ghost use Rattle.crew_accounts.specs.Saved.{HasWiped, IsOfLine, saved_as};

use crate::shelves::shelves_have_courses;
use line_account::accounts_grow;
use rock_disk::{Cell, Station};
use rock_io::Octets;
use store_key::keys_have_16_bytes;
use store_rule::Origin;
use swap_meta::written_meta_is_spelled;

/// Where a `save` line of a worker was answered STORED, the worker's pass knows at its end each piece of the version as
/// logged and as durable, that all of them were published, and of which offer they are (`known`). What it knew when the
/// line was served it knows still: over its other lines, the marks that it set or met, and the tabs that it left. What a
/// `save` line offers is the offer of its number (`offered`).
pub fn saved_entries_stay_known<C: Cell, O: Origin, St: Station<C = C>>()
    ensures known { (s : Store C O) (script : List Line) (w : ℕ) (a : Account (OnShelf C O St)) (x : Stage (OnShelf C O St)) (url : List ℕ)
        (body : Body) (version : ℕ)
        → IsPlayed C.tells C.state O.offers St.faults s script w a → Contains a.stages x
        → x.line.request ≡ Request.Save url body → x.answer ≡ Answer.Stored version
        → LoggedWhole (basis C.tells C.state O.offers s) (saved_as (basis C.tells C.state O.offers s) x.line.number url version)
        (view a.end.pass) }
    ensures offered { (s : Store C O) (script : List Line) (w : ℕ) (a : Account (OnShelf C O St)) (x : Stage (OnShelf C O St))
        (url : List ℕ) (body : Body)
        → IsPlayed C.tells C.state O.offers St.faults s script w a → Contains a.stages x → x.line.request ≡ Request.Save url body
        → IsOffered C.tells C.state O.offers s (offer_of C.tells C.state O.offers s x.line.number) url body }
{}

/// Where a `wipe` line of a worker was answered WIPED, the worker's pass has seen at its end that a slot was wiped, for the
/// version that the answer tells.
pub fn wiped_slots_stay_seen<C: Cell, O: Origin, St: Station<C = C>>()
    ensures { (s : Store C O) (script : List Line) (w : ℕ) (a : Account (OnShelf C O St)) (x : Stage (OnShelf C O St)) (url : List ℕ) (epoch : Epoch)
        → IsPlayed C.tells C.state O.offers St.faults s script w a → Contains a.stages x
        → x.line.request ≡ Request.Wipe url → x.answer ≡ Answer.Wiped epoch
        → HasWiped (view a.end.pass) (anchor_for (basis C.tells C.state O.offers s) url) epoch.version }
{}

/// Where an entry stands closed and not doomed at an anchor when a store was closed, and its version is none of the
/// opening, it is the offer of a line of the script. If that is a `save`, it was answered STORED with the version.
pub fn closed_entries_are_of_lines<C: Cell, O: Origin, St: Station<C = C>>()
    ensures { (s : Store C O) (script : List Line) (accounts : List (Account (OnShelf C O St))) (cells : List C) (a : ℕ)
        → (h : HasRun C.tells C.state O.offers St.faults s script accounts cells) → a < (basis C.tells C.state O.offers s).setting.anchors
        → stage_of (epoch_of (word h.closed.gathered.state a)) ≡ 3 → doom_of (epoch_of (word h.closed.gathered.state a)) ≡ 0
        → opening_counter (basis C.tells C.state O.offers s).setting < version_of (epoch_of (word h.closed.gathered.state a))
        → IsOfLine (basis C.tells C.state O.offers s) script accounts a (version_of (epoch_of (word h.closed.gathered.state a)))
        (side_word (basis C.tells C.state O.offers s).setting h.closed.gathered.state Offer a) }
{
    shelves_have_courses::<C, O, St>();
    accounts_grow::<Octets>();
    keys_have_16_bytes();
    written_meta_is_spelled();
}
