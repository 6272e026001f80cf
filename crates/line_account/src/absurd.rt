//! Examples: lines that no run explains, for the rules refuse them. Each says by which rule.
ghost use Rattle.std.specs.Prelude.{◌≡◌, ◌≢◌, ◌∷◌, IsTrue, ℕ, List, [], true};
ghost use Rattle.lock_word.specs.Words.{epoch_number, version_of};
ghost use Rattle.lock_word.specs.declared.epoch.Epoch.{Epoch};
ghost use Rattle.lock_word.specs.declared.stage.Stage.TheVariants as stage;
ghost use Rattle.store_key.specs.Key.{key_of};
ghost use Rattle.script_text.specs.declared.answer.Answer.{Answer};
ghost use Rattle.script_text.specs.declared.body.Body.{Body};
ghost use Rattle.script_text.specs.declared.line.Line.{Line};
ghost use Rattle.script_text.specs.declared.request.Request.{Request};
ghost use Rattle.core_model.specs.Anchors.{opening_epoch};
ghost use Rattle.line_account.specs.Lines.{Served};
ghost use Rattle.line_account.specs.Answers.{Run};
ghost use Rattle.line_account.specs.Closing.{LineIn, Worker};
ghost use Rattle.line_account.specs.Alone.{alone, home};
ghost use Rattle.line_account.specs.Printed.{NeedsTooMany};
ghost use Rattle.line_account.specs.Rules.{KeepsRules};
ghost use Rattle.line_account.specs.ScriptOrder.{◌then◌};

/// `begin` printed BEGUN and `drop` DROPPED, and another worker's `get` printed HIT with the version: what was given up is
/// no hit (`bodies.not_halted`).
pub fn nothing_dropped_is_hit<X>()
    ensures { (r : Run X) (script : List Line) (u w : Worker) (b d g : Served) (url bytes : List ℕ) (body : Body) (x : ℕ)
        → KeepsRules r script (u ∷ w ∷ []) → IsTrue r.tells → u.served ≡ [] then b then d → w.served ≡ [] then g
        → b.asked.request ≡ Request.Begin 0 url body → b.answer ≡ Answer.Begun x → d.asked.request ≡ Request.DropTab 0
        → d.answer ≡ Answer.Dropped
        → g.asked.request ≡ Request.Get url → g.answer ≡ Answer.Hit x bytes → ⊥ }
{}

/// `begin` printed BEGUN, and the worker has no other line. A `get` of another worker printed HIT with the version: what was left
/// to a worker's end is no hit (`bodies.not_halted`).
pub fn nothing_left_is_hit<X>()
    ensures { (r : Run X) (script : List Line) (u w : Worker) (b g : Served) (url bytes : List ℕ) (body : Body) (x : ℕ)
        → KeepsRules r script (u ∷ w ∷ []) → IsTrue r.tells → u.served ≡ [] then b → w.served ≡ [] then g
        → b.asked.request ≡ Request.Begin 0 url body → b.answer ≡ Answer.Begun x
        → g.asked.request ≡ Request.Get url → g.answer ≡ Answer.Hit x bytes → ⊥ }
{}

/// `open` printed OPEN 0 at an anchor that had nothing when the store was opened (`epochs.found_old`).
pub fn nothing_is_opened_that_never_was<X>()
    ensures { (r : Run X) (script : List Line) (w : Worker) (s : Served) (url : List ℕ)
        → KeepsRules r script (alone w) → w.served ≡ [] then s → opening_epoch r.setting (home r url) ≡ 0
        → s.asked.request ≡ Request.OpenTab 0 url → s.answer ≡ Answer.Opened 0 → ⊥ }
{}

/// `purge` printed PURGED 0.0d: an anchor at EMPTY has no entry that may be purged (`epochs.purged_stage`). Nor has one at
/// GONE, PURGED 0.6d.
pub fn nothing_is_purged_that_never_was<X>()
    ensures empty { (r : Run X) (script : List Line) (w : Worker) (s : Served) (url : List ℕ) (x : ℕ)
        → KeepsRules r script (alone w) → w.served ≡ [] then s → s.asked.request ≡ Request.Purge url
        → s.answer ≡ Answer.Purged (record { version = x; stage = stage.Empty; doom = true }) → ⊥ }
    ensures gone { (r : Run X) (script : List Line) (w : Worker) (s : Served) (url : List ℕ) (x : ℕ)
        → KeepsRules r script (alone w) → w.served ≡ [] then s → s.asked.request ≡ Request.Purge url
        → s.answer ≡ Answer.Purged (record { version = x; stage = stage.Gone; doom = true }) → ⊥ }
{}

/// `get` printed HIT, and a later `put` of the same worker and URL printed STORED with that version: nothing is hit before it is
/// stored (`order.begun`).
pub fn nothing_is_hit_before_it_is_stored<X>()
    ensures { (r : Run X) (script : List Line) (w : Worker) (g p : Served) (url bytes : List ℕ) (body : Body) (x : ℕ)
        → KeepsRules r script (alone w) → w.served ≡ [] then g then p → g.asked.request ≡ Request.Get url → g.answer ≡ Answer.Hit x bytes
        → p.asked.request ≡ Request.Put url body → p.answer ≡ Answer.Stored x → ⊥ }
{}

/// `put` printed STORED of a body that needs more slots than an entry may have (`answers.small`).
pub fn nothing_too_large_is_stored<X>()
    ensures { (r : Run X) (script : List Line) (w : Worker) (p : Served) (url : List ℕ) (body : Body) (x : ℕ)
        → KeepsRules r script (alone w) → w.served ≡ [] then p → p.asked.request ≡ Request.Put url body → p.answer ≡ Answer.Stored x
        → NeedsTooMany r url body → ⊥ }
{}

/// A line printed FULL in a run that fits, of however many workers (`answers.full`).
pub fn nothing_is_full_where_lines_fit<X>()
    ensures { (r : Run X) (script : List Line) (crew : List Worker) → KeepsRules r script crew → IsTrue r.fits
        → LineIn crew (λ earlier s. s.answer ≡ Answer.Full) → ⊥ }
{}

/// `open` printed OPEN, and `more` on its tab PART with another version: a tab stays at its entry (`tabs.part`).
pub fn no_tab_changes_its_entry<X>()
    ensures { (r : Run X) (script : List Line) (w : Worker) (o m : Served) (url bytes : List ℕ) (x : ℕ) (e : Epoch)
        → KeepsRules r script (alone w) → w.served ≡ [] then o then m → o.asked.request ≡ Request.OpenTab 0 url → o.answer ≡ Answer.Opened x
        → m.asked.request ≡ Request.More 0 → m.answer ≡ Answer.Part e bytes → version_of (epoch_number e) ≢ x → ⊥ }
{}

/// `put` of one URL printed STORED, and a `purge` of another URL, with another key, printed PURGED with the version
/// (`keys.found_new`).
pub fn no_neighbour_is_purged<X>()
    ensures { (r : Run X) (script : List Line) (w : Worker) (p s : Served) (url other : List ℕ) (body : Body) (x : ℕ)
        → KeepsRules r script (alone w) → w.served ≡ [] then p then s → key_of other ≢ key_of url
        → p.asked.request ≡ Request.Put other body → p.answer ≡ Answer.Stored x
        → s.asked.request ≡ Request.Purge url → s.answer ≡ Answer.Purged (record { version = x; stage = stage.Closed; doom = true }) → ⊥ }
{}
