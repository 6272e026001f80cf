//! Examples: epochs that no run shows, for the rules refuse them. Each says by which rule.
ghost use Rattle.std.specs.Prelude.{◌≡◌, ◌≤◌, ◌∷◌, IsTrue, ℕ, List, [], false, true};
ghost use Rattle.lock_word.specs.declared.cause.Cause.{Cause};
ghost use Rattle.lock_word.specs.declared.epoch.Epoch.{Epoch};
ghost use Rattle.lock_word.specs.declared.stage.Stage.TheVariants as stage;
ghost use Rattle.lock_word.specs.declared.word.Word.{Word};
ghost use Rattle.script_text.specs.declared.answer.Answer.{Answer};
ghost use Rattle.script_text.specs.declared.body.Body.{Body};
ghost use Rattle.script_text.specs.declared.line.Line.{Line};
ghost use Rattle.script_text.specs.declared.request.Request.{Request};
ghost use Rattle.core_model.specs.Anchors.{opening_counter, opening_epoch};
ghost use Rattle.line_account.specs.Alone.{alone, home};
ghost use Rattle.line_account.specs.Answers.{Run, TellsDoom};
ghost use Rattle.line_account.specs.Closing.{LineIn, Worker};
ghost use Rattle.line_account.specs.Lines.{IsAt, Served};
ghost use Rattle.line_account.specs.Refusals.{Any};
ghost use Rattle.line_account.specs.Rules.{KeepsRules};
ghost use Rattle.line_account.specs.ScriptOrder.{◌then◌};

/// `put` printed BUSY 0.5/0 0.5/0 at an anchor that had nothing when the store was opened: no entry is given back where none
/// was (`epochs.empty`).
pub fn nothing_is_given_back_that_never_was<X>()
    ensures { (r : Run X) (script : List Line) (w : Worker) (s : Served) (url : List ℕ) (body : Body) (held : Word)
        → KeepsRules r script (alone w) → w.served ≡ [] then s → opening_epoch r.setting (home r url) ≡ 0
        → s.asked.request ≡ Request.Put url body → s.answer ≡ Answer.Busy held held
        → held.epoch ≡ record { version = 0; stage = stage.Freeing; doom = false } → ⊥ }
{}

/// `put` printed STORED, and another worker's `get` of the URL printed MISS absent at EMPTY with that version: a version that
/// a line began is not at EMPTY (`epochs.begun`).
pub fn no_begun_version_is_at_empty<X>()
    ensures { (r : Run X) (script : List Line) (u w : Worker) (p g : Served) (url : List ℕ) (body : Body) (x : ℕ)
        → KeepsRules r script (u ∷ w ∷ []) → u.served ≡ [] then p → w.served ≡ [] then g
        → p.asked.request ≡ Request.Put url body → p.answer ≡ Answer.Stored x → g.asked.request ≡ Request.Get url
        → g.answer ≡ Answer.Miss (Cause.Absent (record { version = x; stage = stage.Empty; doom = false })) → ⊥ }
{}

/// `get` printed MISS writing with a doomed epoch at TAKEN: nothing is doomed before its first slot (`epochs.doomed_stage`).
pub fn nothing_is_doomed_at_taken<X>()
    ensures { (r : Run X) (script : List Line) (w : Worker) (s : Served) (url : List ℕ) (x : ℕ)
        → KeepsRules r script (alone w) → w.served ≡ [] then s → s.asked.request ≡ Request.Get url
        → s.answer ≡ Answer.Miss (Cause.Writing (record { version = x; stage = stage.Taken; doom = true })) → ⊥ }
{}

/// `get` printed MISS leaving with a doomed epoch, and no line, of however many workers, printed PURGED, WIPED or LATER with its version,
/// nor did a `wipe` print FAULT: nothing is doomed by itself (`epochs.doomed`).
pub fn nothing_is_doomed_by_itself<X>()
    ensures { (r : Run X) (script : List Line) (crew : List Worker) (url : List ℕ) (x : ℕ)
        → KeepsRules r script crew
        → LineIn crew (λ earlier s. (s.asked.request ≡ Request.Get url)
        × (s.answer ≡ Answer.Miss (Cause.Leaving (record { version = x; stage = stage.Closed; doom = true }))))
        → ((e : Epoch) → e.version ≡ x → LineIn crew (λ earlier s. TellsDoom s.answer e) → ⊥)
        → ((other : List ℕ) → LineIn crew (λ earlier s. (s.asked.request ≡ Request.Wipe other) × (s.answer ≡ Answer.Fault)) → ⊥)
        → ⊥ }
{}

/// `put` printed DOOMED at an anchor that had nothing when the store was opened, and another worker's `get` of the URL
/// printed MISS absent at GONE with that version, not doomed: only what is whole is evicted (`epochs.given_back`).
pub fn nothing_is_evicted_that_was_not_whole<X>()
    ensures { (r : Run X) (script : List Line) (u w : Worker) (p g : Served) (url : List ℕ) (body : Body) (x : ℕ)
        → KeepsRules r script (u ∷ w ∷ []) → u.served ≡ [] then p → w.served ≡ [] then g → opening_epoch r.setting (home r url) ≡ 0
        → p.asked.request ≡ Request.Put url body → p.answer ≡ Answer.Doomed x → g.asked.request ≡ Request.Get url
        → g.answer ≡ Answer.Miss (Cause.Absent (record { version = x; stage = stage.Gone; doom = false })) → ⊥ }
{}

/// `get` printed MISS absent at GONE, not doomed, with a version of the opening, in a run that fits: what the file had is not
/// lost there unless a line purges or replaces it (`epochs.given_back_new`).
pub fn nothing_of_the_file_is_lost_where_lines_fit<X>()
    ensures { (r : Run X) (script : List Line) (u w : Worker) (g : Served) (url : List ℕ) (x : ℕ)
        → KeepsRules r script (u ∷ w ∷ []) → IsTrue r.fits → w.served ≡ [] then g → x ≤ opening_counter r.setting
        → g.asked.request ≡ Request.Get url
        → g.answer ≡ Answer.Miss (Cause.Absent (record { version = x; stage = stage.Gone; doom = false })) → ⊥ }
{}

/// The same of an entry at FREEING, of which a `put` printed BUSY (`epochs.given_back_new`).
pub fn nothing_of_the_file_is_freed_where_lines_fit<X>()
    ensures { (r : Run X) (script : List Line) (u w : Worker) (s : Served) (url : List ℕ) (body : Body) (held : Word) (x : ℕ)
        → KeepsRules r script (u ∷ w ∷ []) → IsTrue r.fits → w.served ≡ [] then s → x ≤ opening_counter r.setting
        → s.asked.request ≡ Request.Put url body → s.answer ≡ Answer.Busy held held
        → held.epoch ≡ record { version = x; stage = stage.Freeing; doom = false } → ⊥ }
{}

/// All lines of a run, of however many workers, printed BUSY with the same words, at FREEING and not doomed: none of them came
/// so far that it could evict (`epochs.given_back`).
pub fn nothing_is_given_back_by_refusals<X>()
    ensures { (r : Run X) (script : List Line) (crew : List Worker) (a x : ℕ) (held : Word)
        → KeepsRules r script crew → ((p : LineIn crew Any) → p.served.answer ≡ Answer.Busy held held)
        → LineIn crew (λ earlier s. IsAt r.setting.anchors earlier s a)
        → held.epoch ≡ record { version = x; stage = stage.Freeing; doom = false } → ⊥ }
{}

/// A lone `begin` printed BUSY with a word at FREEING, not doomed: no line was there that may evict (`epochs.given_back`).
pub fn nothing_is_given_back_by_itself<X>()
    ensures { (r : Run X) (script : List Line) (w : Worker) (s : Served) (url : List ℕ) (body : Body) (held : Word) (x : ℕ)
        → KeepsRules r script (alone w) → w.served ≡ [] then s → s.asked.request ≡ Request.Begin 0 url body
        → s.answer ≡ Answer.Busy held held
        → held.epoch ≡ record { version = x; stage = stage.Freeing; doom = false } → ⊥ }
{}
