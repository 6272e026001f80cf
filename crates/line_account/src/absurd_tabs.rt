//! Examples: what no tab is given, for the rules refuse it. Each says by which rule.
ghost use Rattle.std.specs.Prelude.{◌≡◌, ◌≢◌, ◌<◌, ◌∷◌, IsTrue, ℕ, List, []};
ghost use Rattle.lock_word.specs.declared.word.Word.{Word};
ghost use Rattle.plain_model.specs.Serving.{bytes_of};
ghost use Rattle.store_key.specs.Key.{key_of};
ghost use Rattle.script_text.specs.declared.answer.Answer.{Answer};
ghost use Rattle.script_text.specs.declared.body.Body.{Body};
ghost use Rattle.script_text.specs.declared.line.Line.{Line};
ghost use Rattle.script_text.specs.declared.request.Request.{Request};
ghost use Rattle.line_account.specs.Alone.{alone};
ghost use Rattle.line_account.specs.Answers.{Run};
ghost use Rattle.line_account.specs.Closing.{Worker};
ghost use Rattle.line_account.specs.Lines.{Served};
ghost use Rattle.line_account.specs.Rules.{KeepsRules};
ghost use Rattle.line_account.specs.ScriptOrder.{◌then◌};

/// `begin` printed BEGUN and `add` FULL, and another worker's `open` of the URL printed OPEN with the version and `more` on its
/// tab END: what was given up is not given whole (`bodies.not_halted`).
pub fn nothing_refused_is_given_whole<X>()
    ensures { (r : Run X) (script : List Line) (u w : Worker) (b d o m : Served) (url bytes : List ℕ) (body : Body) (x count : ℕ)
        → KeepsRules r script (u ∷ w ∷ []) → IsTrue r.tells → u.served ≡ [] then b then d → w.served ≡ [] then o then m
        → b.asked.request ≡ Request.Begin 0 url body → b.answer ≡ Answer.Begun x
        → d.asked.request ≡ Request.Add 0 count → d.answer ≡ Answer.Full
        → o.asked.request ≡ Request.OpenTab 0 url → o.answer ≡ Answer.Opened x
        → m.asked.request ≡ Request.More 0 → m.answer ≡ Answer.End bytes → ⊥ }
{}

/// `put` of one URL printed STORED, and `open` of another URL, with another key, OPEN with the version (`keys.found_new`).
pub fn no_neighbour_is_opened<X>()
    ensures { (r : Run X) (script : List Line) (w : Worker) (p s : Served) (url other : List ℕ) (body : Body) (x : ℕ)
        → KeepsRules r script (alone w) → w.served ≡ [] then p then s → key_of other ≢ key_of url
        → p.asked.request ≡ Request.Put other body → p.answer ≡ Answer.Stored x
        → s.asked.request ≡ Request.OpenTab 0 url → s.answer ≡ Answer.Opened x → ⊥ }
{}

/// `put` printed STORED, `open` of the URL OPEN with the version, and `more` on its tab END with other bytes than the body that was put
/// (`tabs.new`).
pub fn no_tab_gives_another_body<X>()
    ensures { (r : Run X) (script : List Line) (w : Worker) (p o m : Served) (url bytes : List ℕ) (body : Body) (x : ℕ)
        → KeepsRules r script (alone w) → IsTrue r.tells → w.served ≡ [] then p then o then m → p.asked.request ≡ Request.Put url body
        → p.answer ≡ Answer.Stored x → o.asked.request ≡ Request.OpenTab 0 url → o.answer ≡ Answer.Opened x
        → m.asked.request ≡ Request.More 0 → m.answer ≡ Answer.End bytes → bytes ≢ bytes_of body → ⊥ }
{}

/// `put` printed STORED, `open` of the URL OPEN with the version, and `more` on its tab HALTED: what was stored was not given up
/// (`tabs.halted`).
pub fn nothing_stored_is_halted<X>()
    ensures { (r : Run X) (script : List Line) (w : Worker) (p o m : Served) (url bytes : List ℕ) (body : Body) (x : ℕ)
        → KeepsRules r script (alone w) → w.served ≡ [] then p then o then m → p.asked.request ≡ Request.Put url body
        → p.answer ≡ Answer.Stored x → o.asked.request ≡ Request.OpenTab 0 url → o.answer ≡ Answer.Opened x
        → m.asked.request ≡ Request.More 0 → m.answer ≡ Answer.Halted bytes → ⊥ }
{}

/// `open` printed OPEN, and the same worker's `put` of the URL BUSY with a word of no reader: its own tab is counted
/// (`answers.counted`).
pub fn no_own_tab_is_uncounted<X>()
    ensures { (r : Run X) (script : List Line) (w : Worker) (o p : Served) (url : List ℕ) (body : Body) (x : ℕ) (looked other : Word)
        → KeepsRules r script (alone w) → w.served ≡ [] then o then p → o.asked.request ≡ Request.OpenTab 0 url
        → o.answer ≡ Answer.Opened x → p.asked.request ≡ Request.Put url body → p.answer ≡ Answer.Busy looked other
        → looked.readers ≡ 0 → ⊥ }
{}

/// Of two workers, the `put` of one that has no other line printed BUSY with more readers than the other one has tabs
/// (`answers.counted`).
pub fn nothing_has_more_readers_than_tabs<X>()
    ensures { (r : Run X) (script : List Line) (u w : Worker) (p : Served) (url : List ℕ) (body : Body) (looked other : Word)
        → KeepsRules r script (u ∷ w ∷ []) → w.served ≡ [] then p → p.asked.request ≡ Request.Put url body
        → p.answer ≡ Answer.Busy looked other → 9 < looked.readers → ⊥ }
{}
