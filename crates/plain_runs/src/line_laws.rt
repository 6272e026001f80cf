// A line that the only pass of a store serves is a line of the plain store, and a line elsewhere leaves what a pass shows of a
// lot. The functions here do nothing: the proof of a function that calls one may use what it ensures.
ghost use Rattle.std.specs.Prelude.{IsTrue, List, false, true, ◌<◌, ◌≡◌, ℕ};
ghost use Rattle.script_text.specs.declared.answer.Answer.{Answer};
ghost use Rattle.script_text.specs.declared.line.Line.{Line};
ghost use Rattle.plain_model.specs.declared.store.Plain.{Plain};
ghost use Rattle.plain_model.specs.declared.store.Tab.TheVariants.{Free};
ghost use Rattle.plain_model.specs.Serving.{leave, serve};
ghost use Rattle.plain_model.specs.Store.{tab_at};
ghost use Rattle.store_rule.specs.declared.store.Pass.{Pass};
ghost use Rattle.store_rule.specs.declared.store.Store.{Store};
ghost use Rattle.store_rule.specs.Ground.{fits, left_to};
ghost use Rattle.store_rule.specs.Passes.{basis, view};
ghost use Rattle.rock_reader.specs.Responses.{HoldsFile};
ghost use Rattle.store_serve.specs.Answers.{is_fault};
ghost use Rattle.store_serve.specs.Serving.{Serves, Takes};
ghost use Rattle.store_serve.specs.Whole.{whole_tab};
ghost use Rattle.worker_shelf.specs.Shelves.{LeftTab};
ghost use Rattle.worker_shelf.specs.Typed.{IsTyped};
ghost use Rattle.plain_runs.specs.Elsewhere.{IsElse, IsLeftLot};
ghost use Rattle.plain_runs.specs.Shows.{Shows, ShowsLot};
ghost use Rattle.plain_runs.specs.Words.{IsLone, Lot, setting_of};

use rebuild_model::one_entry_at_a_slot;
use rock_disk::Cell;
use rock_reader::bodies_are_given_from_the_front;
use store_rule::Origin;
use store_serve::requests_keep_other_tabs;

/// Where the only pass of a store whose cells tell what they hold shows a plain store in which the tab of whole requests is
/// free, a line that it serves, and that no fault meets, is answered as by the plain store, and the pass shows what the
/// line leaves of that.
pub fn lone_lines_are_plain<C: Cell, O: Origin>()
    ensures { (s : Store C O) (script : List Line) (line : Line) (p q : Pass C) (a : Answer) (before after : ℕ) (plain : Plain) → IsTrue C.tells
        → IsLone (basis C.tells C.state O.offers s) → HoldsFile (basis C.tells C.state O.offers s) → (basis C.tells C.state O.offers s).slot < 4294967296
        → Takes C.tells C.state O.offers s p line → Serves C.tells C.state O.offers s line p a q before after → IsTyped a → is_fault a ≡ false
        → Shows C.tells C.state O.offers s (λ v. v) p plain → tab_at plain whole_tab ≡ Free
        → (a ≡ (serve (setting_of (basis C.tells C.state O.offers s)) script line plain).answer)
        × Shows C.tells C.state O.offers s (λ v. v) q (serve (setting_of (basis C.tells C.state O.offers s)) script line plain).after }
{
    one_entry_at_a_slot();
    requests_keep_other_tabs::<C, O>();
    bodies_are_given_from_the_front();
}

/// Where it shows a plain store, and a tab is left at the end of a script, it shows what leaving the tab leaves of that.
pub fn lone_tabs_are_left_plainly<C: Cell, O: Origin>()
    ensures { (s : Store C O) (t : ℕ) (p q : Pass C) (plain : Plain) → IsLone (basis C.tells C.state O.offers s)
        → t < whole_tab → LeftTab C.tells C.state O.offers s t p q
        → Shows C.tells C.state O.offers s (λ v. v) p plain → Shows C.tells C.state O.offers s (λ v. v) q (leave t plain) }
{
    one_entry_at_a_slot();
    requests_keep_other_tabs::<C, O>();
}

/// Where a pass shows a plain store for a lot whose anchors are all left to it, however many passes the store has, and a tab
/// of the lot is left at the end of a script, it shows for the lot what leaving the tab leaves of that, by the same names of
/// versions.
pub fn private_tabs_are_left_plainly<C: Cell, O: Origin>()
    ensures { (s : Store C O) (lot : Lot) (rename : ℕ → ℕ) (t : ℕ) (p q : Pass C) (plain : Plain)
        → ((a : ℕ) → a < (basis C.tells C.state O.offers s).setting.anchors → lot.anchors a ≡ true
        → left_to (basis C.tells C.state O.offers s) (view p).pass a ≡ true) → lot.tabs t ≡ true
        → t < whole_tab → LeftTab C.tells C.state O.offers s t p q
        → ShowsLot C.tells C.state O.offers s rename p plain lot → ShowsLot C.tells C.state O.offers s rename q (leave t plain) lot }
{
    one_entry_at_a_slot();
    requests_keep_other_tabs::<C, O>();
}

/// Where a pass of a store that fits shows a plain store of a lot that is left to it, with the tab of whole requests, which is
/// free, a line that it serves at other anchors and on other tabs leaves that, whatever it is answered.
pub fn other_lines_leave_the_lot<C: Cell, O: Origin>()
    ensures { (s : Store C O) (rename : ℕ → ℕ) (lot : Lot) (line : Line) (p q : Pass C) (a : Answer) (before after : ℕ) (plain : Plain)
        → fits (basis C.tells C.state O.offers s) ≡ true → IsLeftLot (basis C.tells C.state O.offers s) lot (view p).pass
        → lot.tabs whole_tab ≡ true → tab_at plain whole_tab ≡ Free → IsElse C.tells C.state O.offers s lot line.request
        → Serves C.tells C.state O.offers s line p a q before after
        → ShowsLot C.tells C.state O.offers s rename p plain lot → ShowsLot C.tells C.state O.offers s rename q plain lot }
{
    one_entry_at_a_slot();
    requests_keep_other_tabs::<C, O>();
}
