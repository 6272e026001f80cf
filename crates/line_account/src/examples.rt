//! Examples: lines of one worker that have an account, and lines that differ from them and have none.
ghost use Rattle.std.specs.Prelude.{◌≡◌, ◌<◌, ◌≤◌, IsTrue, ℕ, List, [], true};
ghost use Rattle.lock_word.specs.Words.{epoch_number, version_of, version_limit};
ghost use Rattle.lock_word.specs.declared.epoch.Epoch.{Epoch};
ghost use Rattle.plain_model.specs.Serving.{bytes_of};
ghost use Rattle.script_text.specs.declared.answer.Answer.{Answer};
ghost use Rattle.script_text.specs.declared.body.Body.{Body};
ghost use Rattle.script_text.specs.declared.request.Request.{Request};
ghost use Rattle.lock_word.specs.declared.cause.Cause.{Cause};
ghost use Rattle.core_model.specs.Anchors.{opening_counter};
ghost use Rattle.core_model.specs.declared.view.View.{View};
ghost use Rattle.line_account.specs.Lines.{Served, gives_up};
ghost use Rattle.line_account.specs.Accounts.{Account, epoch_in};
ghost use Rattle.line_account.specs.Answers.{Run};
ghost use Rattle.line_account.specs.Courses.{Course, Stage};
ghost use Rattle.line_account.specs.Order.{HandsOver};
ghost use Rattle.line_account.specs.Closing.{Closed, Worker};
ghost use Rattle.line_account.specs.Parts.{IsCourseOf};
ghost use Rattle.line_account.specs.Alone.{alone, hit_line, next_version, OffersNothing, stored_line, view_after};
ghost use Rattle.lock_word.specs.declared.stage.Stage.TheVariants as stage;
ghost use Rattle.line_account.specs.EpochNames.{IsAtStage, undoomed_at};
ghost use Rattle.line_account.specs.ScriptOrder.{◌then◌};

/// `put` of an empty body that printed STORED with the next version, and `get` of it that printed HIT with
/// that version and no bytes, have an account.
pub fn a_put_and_a_get_have_an_account<X>()
    ensures { (r : Run X) (url : List ℕ) → OffersNothing r url
        → Account r (view_after r url) ([] then stored_line url (next_version r) then hit_line url (next_version r)) true }
{}

/// A lone line that printed STORED printed the version after the counter of the opening, and no other.
pub fn a_lone_version_is_the_next_one<X>()
    ensures { (r : Run X) (w : Worker) (s : Served) (url : List ℕ) (body : Body) (x : ℕ) → Closed r (alone w) → w.served ≡ [] then s
        → s.asked.request ≡ Request.Put url body
        → s.answer ≡ Answer.Stored x → x ≡ next_version r }
{}

/// A hit of the URL behind it has this version too, and the body that the line offers, and no other.
pub fn a_hit_has_what_was_stored<X>()
    ensures { (r : Run X) (w : Worker) (start end : View X) (p g : Stage X) (url bytes : List ℕ) (body : Body) (x y : ℕ)
        → Closed r (alone w) → IsTrue r.tells
        → IsCourseOf r w start ([] then p then g) end → p.served.asked.request ≡ Request.Put url body → p.served.answer ≡ Answer.Stored x
        → g.served.asked.request ≡ Request.Get url → g.served.answer ≡ Answer.Hit y bytes
        → (x ≡ next_version r) × (y ≡ next_version r) × (bytes ≡ bytes_of body) }
{}

/// The number of a lone SPENT is the counter of the opening, and no other.
pub fn a_lone_spent_number_is_the_counter<X>()
    ensures { (r : Run X) (w : Worker) (s : Served) (n : ℕ) → Closed r (alone w) → w.served ≡ [] then s → s.answer ≡ Answer.Spent n
        → opening_counter r.setting ≡ version_limit → n ≡ version_limit }
{}

/// Behind PURGED no hit of the URL has its version.
pub fn no_hit_follows_a_purge<X>()
    ensures { (r : Run X) (w : Worker) (start end : View X) (p g : Stage X) (url bytes : List ℕ) (e : Epoch) (y : ℕ)
        → IsCourseOf r w start ([] then p then g) end
        → p.served.asked.request ≡ Request.Purge url → p.served.answer ≡ Answer.Purged e
        → g.served.asked.request ≡ Request.Get url → g.served.answer ≡ Answer.Hit y bytes → version_of (epoch_number e) ≡ y → ⊥ }
{}

/// Nor has one behind WIPED or LATER.
pub fn no_hit_follows_a_wipe<X>()
    ensures wiped { (r : Run X) (w : Worker) (start end : View X) (p g : Stage X) (url bytes : List ℕ) (e : Epoch) (y : ℕ)
        → IsCourseOf r w start ([] then p then g) end
        → p.served.asked.request ≡ Request.Wipe url → p.served.answer ≡ Answer.Wiped e
        → g.served.asked.request ≡ Request.Get url → g.served.answer ≡ Answer.Hit y bytes → version_of (epoch_number e) ≡ y → ⊥ }
    ensures later { (r : Run X) (w : Worker) (start end : View X) (p g : Stage X) (url bytes : List ℕ) (e : Epoch) (y : ℕ)
        → IsCourseOf r w start ([] then p then g) end
        → p.served.asked.request ≡ Request.Wipe url → p.served.answer ≡ Answer.Later e
        → g.served.asked.request ≡ Request.Get url → g.served.answer ≡ Answer.Hit y bytes → version_of (epoch_number e) ≡ y → ⊥ }
{}

/// Behind a `put` that printed FULL, LARGE or FAULT no hit of the URL has its version: it is that of an entry
/// of the opening.
pub fn nothing_given_up_is_hit<X>()
    ensures { (r : Run X) (w : Worker) (p g : Served) (url bytes : List ℕ) (body : Body) (y : ℕ) → Closed r (alone w) → IsTrue r.tells
        → w.served ≡ [] then p then g
        → p.asked.request ≡ Request.Put url body → gives_up p.answer ≡ true → g.asked.request ≡ Request.Get url
        → g.answer ≡ Answer.Hit y bytes → y ≤ opening_counter r.setting }
{}

/// Where the one line of a worker only looks, and no line gave a writing up, it shows no epoch at HALTED.
pub fn nothing_is_halted_by_itself<X>()
    ensures { (r : Run X) (w : Worker) (s : Served) (url : List ℕ) (e : Epoch) → Closed r (alone w) → w.served ≡ [] then s
        → s.asked.request ≡ Request.Get url
        → s.answer ≡ Answer.Miss (Cause.Leaving e) → IsAtStage stage.Halted (epoch_number e) → ⊥ }
{}

/// In a run that fits it shows no epoch at GONE that is not doomed either.
pub fn nothing_gives_way_where_lines_fit<X>()
    ensures { (r : Run X) (w : Worker) (s : Served) (url : List ℕ) (e : Epoch) → Closed r (alone w) → IsTrue r.fits → w.served ≡ [] then s
        → s.asked.request ≡ Request.Get url
        → s.answer ≡ Answer.Miss (Cause.Absent e) → IsAtStage stage.Gone (epoch_number e) → e.doom ≡ true }
{}

/// Where a worker met the mark that another set behind a `put` that printed STORED, its `get` of the URL
/// misses at no epoch below that of the stored entry.
pub fn no_old_miss_follows_a_mark<X>()
    ensures { (r : Run X) (start end other last : View X) (p m n g : Stage X) (url : List ℕ) (body : Body) (x : ℕ) (cause : Cause)
        → Course r start ([] then n then g) end → Course r other ([] then p then m) last
        → p.served.asked.request ≡ Request.Put url body → p.served.answer ≡ Answer.Stored x → HandsOver m n
        → g.served.asked.request ≡ Request.Get url → g.served.answer ≡ Answer.Miss cause
        → undoomed_at stage.Closed x ≤ epoch_number (epoch_in cause) }
{}
