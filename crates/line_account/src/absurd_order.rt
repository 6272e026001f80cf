//! Examples: lines in an order that no run explains, for the rules refuse them. Each says by which rule.
ghost use Rattle.std.specs.Prelude.{◌≡◌, ◌≢◌, ◌≤◌, ◌∷◌, ℕ, List, [], false, true};
ghost use Rattle.lock_word.specs.declared.cause.Cause.{Cause};
ghost use Rattle.lock_word.specs.declared.stage.Stage.TheVariants as stage;
ghost use Rattle.script_text.specs.declared.answer.Answer.{Answer};
ghost use Rattle.script_text.specs.declared.body.Body.{Body};
ghost use Rattle.script_text.specs.declared.line.Line.{Line};
ghost use Rattle.script_text.specs.declared.request.Request.{Request};
ghost use Rattle.line_account.specs.Alone.{alone, home};
ghost use Rattle.line_account.specs.Answers.{Run};
ghost use Rattle.line_account.specs.Closing.{Worker};
ghost use Rattle.line_account.specs.Lines.{Served};
ghost use Rattle.line_account.specs.Rules.{KeepsRules};
ghost use Rattle.line_account.specs.ScriptOrder.{◌then◌};

/// A worker's `put` printed STORED, and it set a mark. A second one met the mark and set another, and a third one met this. Then its
/// `get` of the URL printed MISS absent 0.0: what is told is told on (`order.known`).
pub fn nothing_told_twice_is_forgotten<X>()
    ensures { (r : Run X) (script : List Line) (u v w : Worker) (p a b c d g : Served) (url : List ℕ) (body : Body) (x m n : ℕ)
        → KeepsRules r script (u ∷ v ∷ w ∷ []) → u.served ≡ [] then p then a → v.served ≡ [] then b then c → w.served ≡ [] then d then g
        → p.asked.request ≡ Request.Put url body → p.answer ≡ Answer.Stored x → a.asked.request ≡ Request.Mark m
        → b.asked.request ≡ Request.Await m → b.answer ≡ Answer.Met → c.asked.request ≡ Request.Mark n
        → d.asked.request ≡ Request.Await n → d.answer ≡ Answer.Met → g.asked.request ≡ Request.Get url
        → g.answer ≡ Answer.Miss (Cause.Absent (record { version = 0; stage = stage.Empty; doom = false })) → ⊥ }
{}

/// `purge` printed PURGED, and the same worker's next `purge` of the URL printed PURGED with the same version: what is doomed is found
/// no more (`order.known`).
pub fn nothing_is_purged_twice<X>()
    ensures { (r : Run X) (script : List Line) (w : Worker) (p s : Served) (url : List ℕ) (x : ℕ)
        → KeepsRules r script (alone w) → w.served ≡ [] then p then s → p.asked.request ≡ Request.Purge url
        → s.asked.request ≡ Request.Purge url
        → p.answer ≡ Answer.Purged (record { version = x; stage = stage.Closed; doom = true })
        → s.answer ≡ Answer.Purged (record { version = x; stage = stage.Closed; doom = true }) → ⊥ }
{}

/// `wipe` printed WIPED, or LATER, and the same worker's next `wipe` of the URL printed WIPED with the same epoch: what is doomed is found
/// no more, neither to be erased again nor to be erased after all (`order.known`).
pub fn nothing_is_wiped_twice<X>()
    ensures wiped { (r : Run X) (script : List Line) (w : Worker) (p s : Served) (url : List ℕ) (x : ℕ)
        → KeepsRules r script (alone w) → w.served ≡ [] then p then s → p.asked.request ≡ Request.Wipe url
        → s.asked.request ≡ Request.Wipe url
        → p.answer ≡ Answer.Wiped (record { version = x; stage = stage.Closed; doom = true })
        → s.answer ≡ Answer.Wiped (record { version = x; stage = stage.Closed; doom = true }) → ⊥ }
    ensures later { (r : Run X) (script : List Line) (w : Worker) (p s : Served) (url : List ℕ) (x : ℕ)
        → KeepsRules r script (alone w) → w.served ≡ [] then p then s → p.asked.request ≡ Request.Wipe url
        → s.asked.request ≡ Request.Wipe url
        → p.answer ≡ Answer.Later (record { version = x; stage = stage.Closed; doom = true })
        → s.answer ≡ Answer.Wiped (record { version = x; stage = stage.Closed; doom = true }) → ⊥ }
{}

/// `put` printed STORED, and the same worker's `get` of the URL MISS leaving x.2d with its version: no stage falls, though the entry was
/// doomed (`order.known`).
pub fn no_stage_falls<X>()
    ensures { (r : Run X) (script : List Line) (w : Worker) (p g : Served) (url : List ℕ) (body : Body) (x : ℕ)
        → KeepsRules r script (alone w) → w.served ≡ [] then p then g → p.asked.request ≡ Request.Put url body → p.answer ≡ Answer.Stored x
        → g.asked.request ≡ Request.Get url
        → g.answer ≡ Answer.Miss (Cause.Leaving (record { version = x; stage = stage.Appending; doom = true })) → ⊥ }
{}

/// `put` printed STORED, and the same worker's next `put`, of whatever URL, STORED with a version that is not later: in the lines of a
/// worker versions rise over all anchors (`order.begun`).
pub fn no_version_falls<X>()
    ensures { (r : Run X) (script : List Line) (w : Worker) (p q : Served) (url other : List ℕ) (body next : Body) (x y : ℕ)
        → KeepsRules r script (alone w) → w.served ≡ [] then p then q → p.asked.request ≡ Request.Put url body → p.answer ≡ Answer.Stored x
        → q.asked.request ≡ Request.Put other next → q.answer ≡ Answer.Stored y → y ≤ x → ⊥ }
{}

/// A worker's `put` printed STORED, and it set a mark. Another one met the mark, and its `put`, of whatever URL, printed STORED with a
/// version that is not later (`order.begun`).
pub fn no_version_falls_behind_a_mark<X>()
    ensures { (r : Run X) (script : List Line) (v w : Worker) (p a b q : Served) (url other : List ℕ) (body next : Body) (x y m : ℕ)
        → KeepsRules r script (v ∷ w ∷ []) → v.served ≡ [] then p then a → w.served ≡ [] then b then q
        → p.asked.request ≡ Request.Put url body → p.answer ≡ Answer.Stored x → a.asked.request ≡ Request.Mark m
        → b.asked.request ≡ Request.Await m → b.answer ≡ Answer.Met → q.asked.request ≡ Request.Put other next
        → q.answer ≡ Answer.Stored y → y ≤ x → ⊥ }
{}

/// A worker's `put` printed FULL, and its next one, of a URL with another anchor, STORED. Another worker's `get` of the first URL printed MISS
/// absent at GONE, of a version that is no earlier, and no other line begins any: what was given up first has the earlier version, though
/// no line printed that it began it (`order.draws`).
pub fn nothing_given_up_before_is_later<X>()
    ensures { (r : Run X) (script : List Line) (u w : Worker) (p q g : Served) (url other : List ℕ) (body next : Body) (x y : ℕ)
        → KeepsRules r script (u ∷ w ∷ []) → u.served ≡ [] then p then q → w.served ≡ [] then g → home r url ≢ home r other
        → p.asked.request ≡ Request.Put url body → p.answer ≡ Answer.Full → q.asked.request ≡ Request.Put other next
        → q.answer ≡ Answer.Stored x → g.asked.request ≡ Request.Get url
        → g.answer ≡ Answer.Miss (Cause.Absent (record { version = y; stage = stage.Gone; doom = false })) → x ≤ y → ⊥ }
{}

/// `open` printed OPEN, `more` on its tab END, and the next one something else than END with no byte: PART, OTHERURL, HALTED or FAULT,
/// or END again with bytes (`tabs.behind_end`). A tab that came to its end stays there.
pub fn nothing_comes_behind_an_end<X>()
    ensures { (r : Run X) (script : List Line) (w : Worker) (o e m : Served) (url bytes : List ℕ) (x : ℕ)
        → KeepsRules r script (alone w) → w.served ≡ [] then o then e then m → o.asked.request ≡ Request.OpenTab 0 url
        → o.answer ≡ Answer.Opened x → e.asked.request ≡ Request.More 0 → e.answer ≡ Answer.End bytes
        → m.asked.request ≡ Request.More 0 → m.answer ≢ Answer.End [] → ⊥ }
{}

/// `open` printed OPEN, `more` on its tab OTHERURL, and the next one something else (`tabs.behind_other`): a tab that turned from its
/// entry does not come back to it.
pub fn nothing_comes_behind_another_url<X>()
    ensures { (r : Run X) (script : List Line) (w : Worker) (o e m : Served) (url : List ℕ) (x : ℕ)
        → KeepsRules r script (alone w) → w.served ≡ [] then o then e then m → o.asked.request ≡ Request.OpenTab 0 url
        → o.answer ≡ Answer.Opened x → e.asked.request ≡ Request.More 0 → e.answer ≡ Answer.OtherUrl
        → m.asked.request ≡ Request.More 0 → m.answer ≢ Answer.OtherUrl → ⊥ }
{}

/// `open` printed OPEN, `more` on its tab HALTED, and the next one anything but HALTED with no byte (`tabs.behind_halted`): an entry that
/// was given up grows no more, and nothing of it is read again.
pub fn nothing_grows_behind_a_halt<X>()
    ensures { (r : Run X) (script : List Line) (w : Worker) (o e m : Served) (url bytes : List ℕ) (x : ℕ)
        → KeepsRules r script (alone w) → w.served ≡ [] then o then e then m → o.asked.request ≡ Request.OpenTab 0 url
        → o.answer ≡ Answer.Opened x → e.asked.request ≡ Request.More 0 → e.answer ≡ Answer.Halted bytes
        → m.asked.request ≡ Request.More 0 → m.answer ≢ Answer.Halted [] → ⊥ }
{}
