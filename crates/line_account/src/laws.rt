//! The laws of printed lines. These functions do nothing: the proof of a function that calls one may use
//! what it ensures.
ghost use Rattle.std.specs.Prelude.{◌≡◌, ◌+◌, ◌-◌, ◌<◌, ◌≤◌, ◌↔◌, ◌⊎◌, Contains, IsTrue, ℕ, List, [], length, min, true, false};
ghost use Rattle.plain_model.specs.Serving.{bytes_of};
ghost use Rattle.lock_word.specs.Words.{version_of, stage_of, epoch_number, is_readable, version_limit};
ghost use Rattle.lock_word.specs.declared.cause.Cause.{Cause};
ghost use Rattle.lock_word.specs.declared.epoch.Epoch.{Epoch};
ghost use Rattle.lock_word.specs.declared.word.Word.{Word};
ghost use Rattle.store_key.specs.Key.{key_of};
ghost use Rattle.script_text.specs.declared.answer.Answer.{Answer};
ghost use Rattle.script_text.specs.declared.body.Body.{Body};
ghost use Rattle.script_text.specs.declared.line.Line.{Line};
ghost use Rattle.core_model.specs.Opening.{new_view, new_views};
ghost use Rattle.core_model.specs.Sound.{Sound};
ghost use Rattle.core_model.specs.State.{State};
ghost use Rattle.core_model.specs.Anchors.{opening_counter, opening_epoch};
ghost use Rattle.line_account.specs.Lines.{Fits, Offers, Served, added, offers};
ghost use Rattle.line_account.specs.Stopping.{ReadsBehind, is_end, is_halted, is_other_url};
ghost use Rattle.line_account.specs.Tabs.{IsFrontOfLine, IsFrontOfOld, ReadsHalted, ReadsOn};
ghost use Rattle.line_account.specs.Tabs.{ReadsOther, ReadsPart, ReadsUnder};
ghost use Rattle.line_account.specs.Deeds.{Begins, PrintsBegun, PrintsBegunVersion};
ghost use Rattle.line_account.specs.Requests.{IsAnswerTo};
ghost use Rattle.line_account.specs.Crews.{HaveCourses};
ghost use Rattle.line_account.specs.Ordering.{AreInOrder, AreNotShort};
ghost use Rattle.line_account.specs.Scripts.{ServesScript, offering};
ghost use Rattle.line_account.specs.Idle.{idle_workers};
ghost use Rattle.line_account.specs.Order.{FindsEntry, PrintsAlone};
ghost use Rattle.line_account.specs.Answers.{AreCounted, IsCauseOf, IsLong, Refuses, Run, TellsDoom, bytes_with, readers_at};
ghost use Rattle.core_model.specs.declared.view.Deed.{Deed};
ghost use Rattle.core_model.specs.declared.view.Item.{Item};
ghost use Rattle.core_model.specs.declared.view.Sight.{Sight};
ghost use Rattle.core_model.specs.declared.view.View.{View};
ghost use Rattle.core_model.specs.Trails.{drawn, draws};
ghost use Rattle.line_account.specs.Accounts.{Account, epoch_in};
ghost use Rattle.core_model.specs.Knowing.{KnowsAll};
ghost use Rattle.line_account.specs.Courses.{Adds, Begins as BeginsWork, Course, Leaves, Stage, lines_in};
ghost use Rattle.line_account.specs.Steps.{IsAfter, IsIdle, IsMarkLine, IsTabLine};
ghost use Rattle.line_account.specs.Printed.{AnotherComes, PrintsBusy, EndsBegun, AreFirstOnes, ReadsOf, GivenBackIn, HadEntry, PrintsAdded, HasBusyWords, HasOtherUrl, HitIn, IsBodyAsPrinted, IsBodyOfLine, IsKeyOfLine, IsOldBody, IsOldUrl, KeyIn, NeedsTooMany, OffersAtOnce, PrintsEnded, PrintsFinished, PrintsLarge, PrintsOther, ReadsWhole, Finds, FinishedIn, PrintsReaders};
ghost use Rattle.line_account.specs.Closing.{Closed, Worker, BegunIn, TellsBegunIn, ShownIn, StoredIn, HaltedIn, PurgedIn, IsSameLine, LineIn, PrintsHalted, PrintsDoomed, SomeHalted, offered};
ghost use Rattle.lock_word.specs.declared.stage.Stage.TheVariants as stage;
ghost use Rattle.line_account.specs.EpochNames.{IsAtStage, IsDoomed, IsFromStage, IsUndoomed, IsUpToStage};
ghost use Rattle.line_account.specs.ScriptOrder.{◌then◌};

/// Each version is begun by one line, and at one anchor, and a line begins one version at most. It offers a
/// body, and printed BEGUN, STORED, DOOMED, FULL, LARGE or FAULT. A `begin` that printed BEGUN with a version
/// began it, and so did a `put` or a `save` that printed STORED or DOOMED with it. So no two lines print so
/// of one version.
pub fn versions_are_begun_by_one_line<X>()
    ensures version { (anchors : ℕ) (s : Served) (a b x y : ℕ) → Begins anchors s a x → Begins anchors s b y → x ≡ y }
    ensures printed { (anchors : ℕ) (s : Served) (a x : ℕ) → Begins anchors s a x → (offers s.asked.request ≡ true) × PrintsBegun s.answer }
    ensures line { (r : Run X) (crew : List Worker) (a b x : ℕ) → Closed r crew → (p : BegunIn r crew a x) → (q : BegunIn r crew b x)
        → IsSameLine crew (λ earlier s. Begins r.setting.anchors s a x) (λ earlier s. Begins r.setting.anchors s b x) p q }
    ensures anchor { (r : Run X) (crew : List Worker) (a b x : ℕ) → Closed r crew → BegunIn r crew a x → BegunIn r crew b x → a ≡ b }
    ensures told { (r : Run X) (crew : List Worker) (a x : ℕ) → Closed r crew → (p : TellsBegunIn r crew a x)
        → Begins r.setting.anchors p.served a x }
    ensures once { (r : Run X) (crew : List Worker) (a b x : ℕ) → Closed r crew → (p : TellsBegunIn r crew a x)
        → (q : TellsBegunIn r crew b x)
        → IsSameLine crew (λ earlier s. PrintsBegunVersion r.setting.anchors s a x)
        (λ earlier s. PrintsBegunVersion r.setting.anchors s b x) p q }
{}

/// A version that a line began is above the counter of the opening, and at most that and one for each
/// line that offers a body.
pub fn begun_versions_have_bounds<X>()
    ensures { (r : Run X) (crew : List Worker) (a x : ℕ) → Closed r crew → BegunIn r crew a x
        → (opening_counter r.setting < x) × (x ≤ opening_counter r.setting + offered crew) }
{}

/// The version of an epoch that a line shows is the one that its anchor had at the opening, and then the
/// epoch is not TAKEN, APPENDING or HALTED: it is at the stage that it had then, or its entry is given back,
/// which the anchor did have. Where the anchor had none, it is at EMPTY and not doomed. Or a line began it
/// there, and it is not at EMPTY.
pub fn epochs_have_versions<X>()
    ensures old { (r : Run X) (crew : List Worker) (a e : ℕ) → Closed r crew → ShownIn r crew a e
        → version_of e ≤ opening_counter r.setting
        → (version_of e ≡ version_of (opening_epoch r.setting a)) × (¬ IsAtStage stage.Taken e) × (¬ IsAtStage stage.Appending e)
        × (¬ IsAtStage stage.Halted e) }
    ensures stage { (r : Run X) (crew : List Worker) (a e : ℕ) → Closed r crew → ShownIn r crew a e
        → version_of e ≤ opening_counter r.setting
        → (stage_of e ≡ stage_of (opening_epoch r.setting a)) ⊎ (IsFromStage stage.Freeing e × HadEntry r a) }
    ensures empty { (r : Run X) (crew : List Worker) (a e : ℕ) → Closed r crew → ShownIn r crew a e
        → version_of e ≤ opening_counter r.setting
        → IsAtStage stage.Empty (opening_epoch r.setting a) → IsAtStage stage.Empty e × IsUndoomed e }
    ensures new { (r : Run X) (crew : List Worker) (a e : ℕ) → Closed r crew → ShownIn r crew a e
        → opening_counter r.setting < version_of e
        → BegunIn r crew a (version_of e) }
    ensures begun { (r : Run X) (crew : List Worker) (a e : ℕ) → Closed r crew → ShownIn r crew a e
        → opening_counter r.setting < version_of e
        → IsFromStage stage.Taken e }
{}

/// So is a version that is printed alone, by BEGUN, STORED, DOOMED, OPEN or HIT.
pub fn versions_printed_alone_are_known<X>()
    ensures old { (r : Run X) (crew : List Worker) (a x : ℕ) → Closed r crew
        → LineIn crew (λ earlier s. PrintsAlone r.setting.anchors earlier s a x)
        → x ≤ opening_counter r.setting → x ≡ version_of (opening_epoch r.setting a) }
    ensures new { (r : Run X) (crew : List Worker) (a x : ℕ) → Closed r crew
        → LineIn crew (λ earlier s. PrintsAlone r.setting.anchors earlier s a x)
        → opening_counter r.setting < x → BegunIn r crew a x }
{}

/// A version that a line began is shown CLOSED and not doomed only where a line of its writing printed
/// that it is stored.
pub fn entries_are_stored_by_lines<X>()
    ensures { (r : Run X) (crew : List Worker) (a e : ℕ) → Closed r crew → ShownIn r crew a e → opening_counter r.setting < version_of e
        → IsUndoomed e → IsAtStage stage.Closed e → StoredIn r crew a (version_of e) }
{}

/// An epoch at HALTED, and a HALTED line, comes only where the writing of its version was
/// halted: by a line that printed DROPPED, FULL, LARGE or FAULT, or by its worker's end.
pub fn halted_entries_were_given_up<X>()
    ensures epoch { (r : Run X) (crew : List Worker) (a e : ℕ) → Closed r crew → ShownIn r crew a e → IsAtStage stage.Halted e
        → HaltedIn r crew a (version_of e) }
    ensures line { (r : Run X) (crew : List Worker) (a : ℕ) → Closed r crew
        → LineIn crew (λ earlier s. PrintsHalted r.setting.anchors earlier s a) → SomeHalted r crew a }
{}

/// A doomed epoch, and a DOOMED line, comes only where a line printed PURGED, WIPED or LATER with its version, or a
/// `wipe` of a URL of the anchor printed FAULT; and such an epoch is at APPENDING or later. And the epoch of PURGED, WIPED
/// and LATER is doomed, at APPENDING, CLOSED or HALTED.
pub fn doomed_entries_were_purged<X>()
    ensures epoch { (r : Run X) (crew : List Worker) (a e : ℕ) → Closed r crew → ShownIn r crew a e → IsDoomed e
        → PurgedIn r crew a (version_of e) }
    ensures epoch_stage { (r : Run X) (crew : List Worker) (a e : ℕ) → Closed r crew → ShownIn r crew a e → IsDoomed e
        → IsFromStage stage.Appending e }
    ensures line { (r : Run X) (crew : List Worker) (a x : ℕ) → Closed r crew
        → LineIn crew (λ earlier s. PrintsDoomed r.setting.anchors earlier s a x) → PurgedIn r crew a x }
    ensures purged { (r : Run X) (crew : List Worker) (e : Epoch) → Closed r crew
        → LineIn crew (λ earlier s. TellsDoom s.answer e) → e.doom ≡ true }
    ensures stage { (r : Run X) (crew : List Worker) (e : Epoch) → Closed r crew → LineIn crew (λ earlier s. TellsDoom s.answer e)
        → IsFromStage stage.Appending (epoch_number e) × IsUpToStage stage.Halted (epoch_number e) }
{}

/// A pass of a store that was just opened begins. A worker that begins has an account of no lines; each line that it serves leaves one of
/// that line too, and so does the end. So it has one of all lines along its course.
pub fn accounts_grow<X>()
    ensures opened { (r : Run X) (pass : ℕ) → BeginsWork r (new_view r.setting pass) }
    ensures begin { (r : Run X) (v : View X) → BeginsWork r v → Account r v [] false }
    ensures line { (r : Run X) (v w : View X) (served : List Served) (s : Served) → Account r v served false → Adds r v served s w
        → Account r w (served then s) false }
    ensures end { (r : Run X) (v w : View X) (served : List Served) → Account r v served false → Leaves r v served w
        → Account r w served true }
    ensures course { (r : Run X) (start end : View X) (stages : List (Stage X)) → BeginsWork r start → Course r start stages end
        → Account r end (lines_in stages) false }
{}

/// A key that a line prints is that of one URL: of the entry that the anchor had at the opening, where its
/// version is of then, and the anchor did have one; or of the line that began its version there.
pub fn keys_are_of_lines<X>()
    ensures old { (r : Run X) (crew : List Worker) (a : ℕ) (epoch : Epoch) (key url : List ℕ) → Closed r crew → KeyIn r crew a epoch key
        → version_of (epoch_number epoch) ≤ opening_counter r.setting → IsOldUrl r a url → key ≡ key_of url }
    ensures kept { (r : Run X) (crew : List Worker) (a : ℕ) (epoch : Epoch) (key : List ℕ) → Closed r crew → KeyIn r crew a epoch key
        → version_of (epoch_number epoch) ≤ opening_counter r.setting → HadEntry r a }
    ensures new { (r : Run X) (crew : List Worker) (a : ℕ) (epoch : Epoch) (key : List ℕ) → Closed r crew → KeyIn r crew a epoch key
        → opening_counter r.setting < version_of (epoch_number epoch) → IsKeyOfLine r crew a (version_of (epoch_number epoch)) key }
{}

/// The bytes of a hit are the whole body of the entry that the anchor had at the opening, where the version
/// is of then, or of the body that the line which began the version offers; and its URL is that one's.
pub fn hits_are_of_lines<X>()
    ensures old { (r : Run X) (crew : List Worker) (a x : ℕ) (url bytes : List ℕ) → Closed r crew → IsTrue r.tells
        → HitIn r crew a x url bytes
        → x ≤ opening_counter r.setting → IsOldBody r a url bytes }
    ensures new { (r : Run X) (crew : List Worker) (a x : ℕ) (url bytes : List ℕ) → Closed r crew → IsTrue r.tells
        → HitIn r crew a x url bytes
        → opening_counter r.setting < x → IsBodyOfLine r crew a x url bytes }
{}

/// A version that is hit, and that a line began, was printed by that line: by BEGUN, or by STORED or DOOMED
/// of a `put` or a `save`. So the body of the hit is the one that this line offers.
pub fn hit_versions_were_printed<X>()
    ensures begun { (r : Run X) (crew : List Worker) (a x : ℕ) (url bytes : List ℕ) → Closed r crew → IsTrue r.tells
        → HitIn r crew a x url bytes
        → (p : BegunIn r crew a x) → PrintsBegunVersion r.setting.anchors p.served a x }
    ensures finished { (r : Run X) (crew : List Worker) (a x : ℕ) (url bytes : List ℕ) → Closed r crew → IsTrue r.tells
        → HitIn r crew a x url bytes
        → (p : BegunIn r crew a x) → OffersAtOnce p.served.asked.request → PrintsFinished p.served x }
    ensures body { (r : Run X) (crew : List Worker) (a x : ℕ) (url bytes : List ℕ) → Closed r crew → IsTrue r.tells
        → HitIn r crew a x url bytes
        → opening_counter r.setting < x → IsBodyAsPrinted r crew a x url bytes }
{}

/// OPEN, HIT, PURGED, WIPED and LATER come of an entry that was found at an epoch of the printed version, at which it may
/// be read. A version that one of these or the PART of a `get` tells is that of an entry with the key of the URL: of the
/// one that the anchor had at the opening, which it did have, or of the line that began the version.
pub fn entries_found_were_there<X>()
    ensures opened { (r : Run X) (crew : List Worker) (x : ℕ) → Closed r crew → (p : LineIn crew (λ earlier s. FindsEntry s.answer x))
        → (version_of p.served.opened ≡ x) × (is_readable p.served.opened ≡ true) }
    ensures there { (r : Run X) (crew : List Worker) (a x : ℕ) (url : List ℕ) → Closed r crew
        → LineIn crew (λ earlier s. Finds r.setting.anchors s a x url) → x ≤ opening_counter r.setting → HadEntry r a }
    ensures old { (r : Run X) (crew : List Worker) (a x : ℕ) (url kept : List ℕ) → Closed r crew
        → LineIn crew (λ earlier s. Finds r.setting.anchors s a x url) → x ≤ opening_counter r.setting → IsOldUrl r a kept
        → key_of url ≡ key_of kept }
    ensures new { (r : Run X) (crew : List Worker) (a x : ℕ) (url : List ℕ) → Closed r crew
        → LineIn crew (λ earlier s. Finds r.setting.anchors s a x url) → opening_counter r.setting < x
        → IsKeyOfLine r crew a x (key_of url) }
{}

/// A version above the counter of the opening that is given to its end, by HIT or by END, was finished by a line of its
/// writing, which printed STORED or DOOMED with it. And no line gave the writing up, nor did the end of a worker.
pub fn entries_given_whole_were_finished<X>()
    ensures finished { (r : Run X) (crew : List Worker) (a x : ℕ) → Closed r crew → IsTrue r.tells
        → LineIn crew (λ earlier s. ReadsWhole r.setting.anchors earlier s a x) → opening_counter r.setting < x → FinishedIn r crew a x }
    ensures kept { (r : Run X) (crew : List Worker) (a x : ℕ) → Closed r crew → IsTrue r.tells
        → LineIn crew (λ earlier s. ReadsWhole r.setting.anchors earlier s a x) → opening_counter r.setting < x → HaltedIn r crew a x → ⊥ }
{}

/// The bytes that lines gave of an entry since it was opened are the first ones of a body that is stored
/// under its URL: of the entry that the anchor had at the opening, or of a line that began a version there.
/// They are all of it where the answer is HIT or END. A FAULT that gave no byte claims nothing.
pub fn bytes_are_of_lines<X>()
    ensures { (r : Run X) (crew : List Worker) (first : Served) (url : List ℕ) → Closed r crew → IsTrue r.tells
        → (p : LineIn crew (λ earlier s. ReadsOf earlier s first url))
        → AreFirstOnes r crew p.served.answer url (bytes_with p.earlier p.served) }
{}

/// OTHERURL comes only where another URL has the key of the URL that is read: that of the entry which the
/// anchor had at the opening, or of a line that began a version there.
pub fn other_urls_have_the_key<X>()
    ensures { (r : Run X) (crew : List Worker) (url : List ℕ) → Closed r crew → IsTrue r.tells
        → LineIn crew (λ earlier s. PrintsOther earlier s url) → HasOtherUrl r crew url }
{}

/// A word of BUSY has more readers than the worker's own tabs that read there only where another worker
/// opens, gets, purges or wipes a URL of the anchor.
pub fn more_readers_come_from_others<X>()
    ensures { (r : Run X) (crew : List Worker) (a : ℕ) → Closed r crew
        → (p : LineIn crew (λ earlier s. PrintsReaders r.setting.anchors earlier s a)) → AnotherComes r crew p.j a }
{}

/// Each word of BUSY counts all tabs of the worker that read at the anchor, and of each other worker nine tabs
/// at most.
pub fn busy_words_count_readers<X>()
    ensures { (r : Run X) (crew : List Worker) (a : ℕ) (looked other : Word) → Closed r crew
        → (p : LineIn crew (λ earlier s. PrintsBusy r.setting.anchors earlier s a looked other))
        → AreCounted (length crew) (readers_at r.setting.anchors p.earlier a) looked.readers
        × AreCounted (length crew) (readers_at r.setting.anchors p.earlier a) other.readers }
{}

/// The number of SPENT is at least the greatest version that may be drawn, and at most the counter of the
/// opening and the number of the other lines that offer a body.
pub fn spent_numbers_have_bounds<X>()
    ensures { (r : Run X) (crew : List Worker) (n : ℕ) → Closed r crew → LineIn crew (λ earlier s. s.answer ≡ Answer.Spent n)
        → (version_limit ≤ n) × (n < opening_counter r.setting + offered crew) }
{}

/// Each answer is one that its request may get, and refusals have their causes. That of MISS and NONE is the
/// one of the epoch and the key that it tells, for the URL of the line. LARGE comes only where the body of the line, or of the one that
/// began its tab's writing, needs more slots than an entry may have, and STORED and DOOMED only where it needs no more. LONGURL comes
/// exactly where a body is offered under a URL that leaves no room for its metadata, on a tab that is as the request needs it. TAB comes
/// exactly where the tab is not so. The epoch of PART is at APPENDING.
pub fn refusals_have_causes<X>()
    ensures answer { (r : Run X) (crew : List Worker) → Closed r crew → (p : LineIn crew (λ earlier s. Unit {0}))
        → IsAnswerTo p.served.asked.request p.served.answer }
    ensures cause { (r : Run X) (crew : List Worker) (cause : Cause) → Closed r crew
        → (p : LineIn crew (λ earlier s. Refuses s.answer cause)) → IsCauseOf p.served (epoch_in cause) cause }
    ensures busy { (r : Run X) (crew : List Worker) (looked other : Word) → Closed r crew
        → LineIn crew (λ earlier s. s.answer ≡ Answer.Busy looked other) → HasBusyWords looked other }
    ensures large { (r : Run X) (crew : List Worker) (first : Served) (url : List ℕ) (body : Body) → Closed r crew
        → LineIn crew (λ earlier s. PrintsLarge earlier s first) → Offers first.asked.request url body → NeedsTooMany r url body }
    ensures small { (r : Run X) (crew : List Worker) (first : Served) (url : List ℕ) (body : Body) → Closed r crew
        → LineIn crew (λ earlier s. PrintsEnded earlier s first) → Offers first.asked.request url body → ¬ NeedsTooMany r url body }
    ensures long { (r : Run X) (crew : List Worker) → Closed r crew → (p : LineIn crew (λ earlier s. s.answer ≡ Answer.LongUrl))
        → IsLong r p.served }
    ensures short { (r : Run X) (crew : List Worker) (url : List ℕ) (body : Body) → Closed r crew
        → (p : LineIn crew (λ earlier s. Offers s.asked.request url body × Fits earlier s.asked.request)) → r.room < 32 + length url
        → p.served.answer ≡ Answer.LongUrl }
    ensures tab { (r : Run X) (crew : List Worker) → Closed r crew → (p : LineIn crew (λ earlier s. Unit {0}))
        → ((p.served.answer ≡ Answer.Tab) ↔ ¬ Fits p.earlier p.served.asked.request) }
    ensures part { (r : Run X) (crew : List Worker) (epoch : Epoch) (bytes : List ℕ) → Closed r crew
        → LineIn crew (λ earlier s. s.answer ≡ Answer.Part epoch bytes) → IsAtStage stage.Appending (epoch_number epoch) }
{}

/// What a worker prints at an anchor is not below what the anchor had at the opening, nor below what a line
/// counts as there of which the worker knew: one of its own, or one that the setter of a mark knew of which
/// the worker met, and so on. A version that it printed that it began is later than all of these.
pub fn lines_are_in_order<X>()
    ensures { (r : Run X) (crew : List Worker) (view_at : ℕ → View X) → HaveCourses r crew view_at → AreInOrder r crew }
{}

/// An epoch at HALTED, FREEING or GONE that is not doomed comes only where the writing of its version was
/// halted; or where the run does not fit, some line is one of those that may evict an entry, and the version
/// was whole: its writing printed STORED, or the anchor had it at the opening.
pub fn entries_are_given_back_by_lines<X>()
    ensures { (r : Run X) (crew : List Worker) (a e : ℕ) → Closed r crew → ShownIn r crew a e → IsUndoomed e
        → IsFromStage stage.Halted e → GivenBackIn r crew a (version_of e) }
{}

/// In a run that fits nothing is evicted and no slot is wanting: an epoch at HALTED, FREEING or GONE that is
/// not doomed comes only where the writing of its version was halted, so with no version of the opening;
/// and no line prints FULL.
pub fn runs_that_fit_lose_nothing<X>()
    ensures given_back { (r : Run X) (crew : List Worker) (a e : ℕ) → Closed r crew → IsTrue r.fits → ShownIn r crew a e → IsUndoomed e
        → IsFromStage stage.Halted e → HaltedIn r crew a (version_of e) }
    ensures old { (r : Run X) (crew : List Worker) (a e : ℕ) → Closed r crew → IsTrue r.fits → ShownIn r crew a e → IsUndoomed e
        → IsFromStage stage.Halted e → opening_counter r.setting < version_of e }
    ensures full { (r : Run X) (crew : List Worker) → Closed r crew → IsTrue r.fits → LineIn crew (λ earlier s. s.answer ≡ Answer.Full)
        → ⊥ }
{}

/// The count of ADDED is that which was asked for, or what the body had left, if that is less.
pub fn added_counts_are_exact<X>()
    ensures { (r : Run X) (crew : List Worker) (first : Served) (url : List ℕ) (body : Body) (tab asked count : ℕ) → Closed r crew
        → (p : LineIn crew (λ earlier s. PrintsAdded earlier s first tab asked count)) → Offers first.asked.request url body
        → count ≡ min asked (length (bytes_of body) - added tab p.earlier) }
{}

/// What the tab of a PART line was given since it was opened, or a `get` in its own line, is at least the
/// bytes in the slots that an ADDED of the version published, and at least what lines of one tab gave of the
/// version since it was opened, where the worker knew of these lines.
pub fn parts_are_not_short<X>()
    ensures { (r : Run X) (crew : List Worker) → (c : Closed r crew) → HaveCourses r crew c.view_at → IsTrue r.tells → AreNotShort r crew }
{}

/// Where the lines of the workers are those of a script, no more of them offer a body than of the script's.
/// So the bounds on versions hold with the script's lines too.
pub fn scripts_bound_what_is_offered<X>()
    ensures offered { (lines : List Line) (crew : List Worker) → ServesScript lines crew → offered crew ≤ offering lines }
    ensures versions { (r : Run X) (lines : List Line) (crew : List Worker) (a x : ℕ) → Closed r crew → ServesScript lines crew
        → BegunIn r crew a x
        → x ≤ opening_counter r.setting + offering lines }
    ensures spent { (r : Run X) (lines : List Line) (crew : List Worker) (n : ℕ) → Closed r crew → ServesScript lines crew
        → LineIn crew (λ earlier s. s.answer ≡ Answer.Spent n) → n < opening_counter r.setting + offering lines }
{}

/// Workers of a store that was just opened, and who served nothing, have accounts and a closing, each at the view of its new
/// pass.
pub fn idle_workers_are_closed<X>()
    ensures { (r : Run X) (s : State X) → Sound r.setting s → s.views ≡ new_views r.setting 0 r.setting.passes
        → (c : Closed r (idle_workers r.setting.passes)) × ((j : ℕ) → c.view_at j ≡ new_view r.setting j) }
{}

/// What steps of a pass add is kept: it knows what it knew, its draws add up, and a deed is one of before or
/// was added.
pub fn additions_are_kept<X>()
    ensures keeps { (v w : View X) (items : List Item) (sights : List Sight) (done : List Deed) (meetings : List ℕ)
        → IsAfter v items sights done meetings w → KnowsAll v w }
    ensures drawn { (v w : View X) (items : List Item) (sights : List Sight) (done : List Deed) (meetings : List ℕ) (x : ℕ)
        → IsAfter v items sights done meetings w
        → drawn x w.trail ≡ drawn x items + drawn x v.trail }
    ensures draws { (v w : View X) (items : List Item) (sights : List Sight) (done : List Deed) (meetings : List ℕ)
        → IsAfter v items sights done meetings w
        → draws w.trail ≡ draws items + draws v.trail }
    ensures deeds { (v w : View X) (items : List Item) (sights : List Sight) (done : List Deed) (meetings : List ℕ) (d : Deed)
        → IsAfter v items sights done meetings w
        → Contains w.deeds d → Contains v.deeds d ⊎ Contains done d }
{}

/// A line that sets or meets a mark, or does not meet it, and a line whose tab is not as it needs it, add
/// what they should where the worker drew nothing and did nothing.
pub fn quiet_lines_add_nothing<X>()
    ensures mark { (r : Run X) (v w : View X) (earlier : List Served) (s : Served) → IsMarkLine s → IsIdle v w → Adds r v earlier s w }
    ensures tab { (r : Run X) (v w : View X) (earlier : List Served) (s : Served) → IsTabLine r earlier s → IsIdle v w
        → Adds r v earlier s w }
{}

/// The version of STORED or DOOMED at `end` is the one with which its tab's writing was begun.
pub fn ends_tell_the_version_begun<X>()
    ensures { (r : Run X) (crew : List Worker) (version x : ℕ) → Closed r crew
        → LineIn crew (λ earlier s. EndsBegun earlier s version x) → x ≡ version }
{}

/// A tab that reads stays at the entry of which its OPEN told the version: PART is of that version, HALTED comes only where its
/// writing was halted, and all bytes since OPEN are the first ones of its body, the whole of it at END. Behind END the tab
/// prints END and no byte, behind OTHERURL OTHERURL, and behind HALTED HALTED and no byte. Of one version under one URL either
/// OTHERURL is printed, or HIT, PART, END and HALTED.
pub fn tabs_stay_at_their_entries<X>()
    ensures part { (r : Run X) (crew : List Worker) (a x : ℕ) (epoch : Epoch) → Closed r crew
        → LineIn crew (λ earlier s. ReadsPart r.setting.anchors earlier s a x epoch) → version_of (epoch_number epoch) ≡ x }
    ensures halted { (r : Run X) (crew : List Worker) (a x : ℕ) → Closed r crew
        → LineIn crew (λ earlier s. ReadsHalted r.setting.anchors earlier s a x) → HaltedIn r crew a x }
    ensures old { (r : Run X) (crew : List Worker) (a x : ℕ) → Closed r crew → IsTrue r.tells
        → (p : LineIn crew (λ earlier s. ReadsOn r.setting.anchors earlier s a x)) → x ≤ opening_counter r.setting
        → IsFrontOfOld r a p.served.answer (bytes_with p.earlier p.served) }
    ensures new { (r : Run X) (crew : List Worker) (a x : ℕ) → Closed r crew → IsTrue r.tells
        → (p : LineIn crew (λ earlier s. ReadsOn r.setting.anchors earlier s a x)) → opening_counter r.setting < x
        → IsFrontOfLine r crew a x p.served.answer (bytes_with p.earlier p.served) }
    ensures behind_end { (r : Run X) (crew : List Worker) (tab : ℕ) → Closed r crew
        → (p : LineIn crew (λ earlier s. ReadsBehind is_end earlier s tab)) → p.served.answer ≡ Answer.End [] }
    ensures behind_other { (r : Run X) (crew : List Worker) (tab : ℕ) → Closed r crew
        → (p : LineIn crew (λ earlier s. ReadsBehind is_other_url earlier s tab)) → p.served.answer ≡ Answer.OtherUrl }
    ensures behind_halted { (r : Run X) (crew : List Worker) (tab : ℕ) → Closed r crew
        → (p : LineIn crew (λ earlier s. ReadsBehind is_halted earlier s tab)) → p.served.answer ≡ Answer.Halted [] }
    ensures one_url { (r : Run X) (crew : List Worker) (a x : ℕ) (url : List ℕ) → Closed r crew → IsTrue r.tells
        → LineIn crew (λ earlier s. ReadsUnder r.setting.anchors earlier s a x url)
        → LineIn crew (λ earlier s. ReadsOther r.setting.anchors earlier s a x url) → ⊥ }
{}
