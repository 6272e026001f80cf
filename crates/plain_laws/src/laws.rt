// The laws.
ghost use Rattle.std.specs.Prelude.{◌≡◌, ◌⊎◌, ◌+◌, ◌<◌, ◌≤◌, ℕ, List, length, map, filter, All, Contains, Bool, Some};
ghost use Rattle.script_text.specs.Tabs.{IsOnTab};
ghost use Rattle.script_text.specs.Script.{IsScript};
ghost use Rattle.script_text.specs.declared.line.Line.{Line};
ghost use Rattle.script_text.specs.declared.answer.Answer.{Answer};
ghost use Rattle.plain_model.specs.declared.entry.Entry.{Entry};
ghost use Rattle.plain_model.specs.declared.store.Setting.{Setting};
ghost use Rattle.plain_model.specs.declared.store.Plain.{Plain};
ghost use Rattle.plain_model.specs.Slots.{held};
ghost use Rattle.plain_model.specs.Store.{entry_at, place_at};
ghost use Rattle.plain_model.specs.Serving.{answers, after, lines_for, left_by, get, fresh};
ghost use Rattle.slot_cell.specs.declared.header.TheConstants.{HEADER_SIZE};
ghost use Rattle.rebuild_model.specs.Entry.{Entry as FileEntry, IsComplete};
ghost use Rattle.rebuild_model.specs.Rebuilt.{IsRebuilt};
ghost use Rattle.rebuild_model.specs.declared.rebuilt.Rebuilt.{Rebuilt};
ghost use Rattle.plain_model.specs.Opening.{kept_of, opened, IsOpened};
ghost use Rattle.plain_model.specs.declared.kept.Kept.{Kept};
ghost use Rattle.plain_laws.specs.Offered.{HasOrigin, IsOfLines, IsOfFile};
ghost use Rattle.plain_laws.specs.Begun.{begun, RiseAbove};
ghost use Rattle.plain_laws.specs.Hit.{IsHit};
ghost use Rattle.plain_laws.specs.Holding.{HoldsItsSlots, slots_held};
ghost use Rattle.plain_laws.specs.Fitting.{Fits, IsAtRest, RunsInRoom};
ghost use Rattle.plain_laws.specs.Renaming.{CountsVersions, IsRenaming, renamed};
ghost use Rattle.plain_laws.specs.Private.{TabsApart, AnswersAlone, IsServedAlone, answers_to, is_private, private_lines};
ghost use Rattle.plain_laws.specs.Opened.{FitsFile, HoldsOfFile};

/// A version is begun by one line: those that lines begin rise, and are above all that were given out
/// before. And no version stands at an anchor that was not given out, if none did before, nor once a
/// worker's tabs were left.
pub fn versions_are_begun_once()
    ensures once { (s : Setting) (script lines : List Line) (p : Plain)
        → RiseAbove p.counter (begun lines (answers s script lines p)) }
    ensures counted { (s : Setting) (script lines : List Line) (p : Plain)
        → CountsVersions p → CountsVersions (after s script lines p) }
    ensures left { (s : Setting) (script : List Line) (worker : ℕ) (p : Plain)
        → CountsVersions p → CountsVersions (left_by s script worker p) }
{}

/// The entry of an anchor is what one of the lines offers, under its URL and with its whole body, or one
/// that the store had there before; where the store was opened on a file, one that a rebuild keeps there.
pub fn entries_are_of_lines()
    ensures store { (s : Setting) (script lines : List Line) (p : Plain) (anchor : ℕ) (e : Entry)
        → entry_at (after s script lines p) anchor ≡ Some e → HasOrigin s lines p anchor e }
    ensures file { (s : Setting) (slot : ℕ) (images : List (List ℕ)) (script lines : List Line) (p : Plain) (anchor : ℕ) (e : Entry)
        → IsOpened slot images s.anchors p → entry_at (after s script lines p) anchor ≡ Some e
        → IsOfLines s lines anchor e ⊎ IsOfFile slot images s.anchors anchor e }
{}

/// A whole hit has the body of the entry at the anchor of the URL: one that is whole and has that URL, and
/// the version that the answer tells.
pub fn hits_are_whole()
    ensures { (s : Setting) (url : List ℕ) (p : Plain) (version : ℕ) (bytes : List ℕ)
        → (get s url p).answer ≡ Answer.Hit version bytes → IsHit s p url version bytes }
{}

/// The slots that entries hold are never more than there are, nor once a worker's tabs were left.
pub fn held_slots_are_there()
    ensures along { (s : Setting) (script lines : List Line) (p : Plain)
        → 0 < s.room → 0 < s.anchors → length p.places ≡ s.anchors → HoldsItsSlots s p → HoldsItsSlots s (after s script lines p) }
    ensures left { (s : Setting) (script : List Line) (worker : ℕ) (p : Plain)
        → 0 < s.room → 0 < s.anchors → length p.places ≡ s.anchors → HoldsItsSlots s p → HoldsItsSlots s (left_by s script worker p) }
{}

/// A script that fits is never answered FULL, and nothing is evicted for it: an anchor that no line names
/// stays as it is, and so does the hand. Where lines fit, so do fewer of them, as those of one worker.
pub fn fitting_scripts_have_room()
    ensures room { (s : Setting) (script lines : List Line) (p : Plain)
        → 0 < s.room → 0 < s.anchors → 0 < s.slots → length p.places ≡ s.anchors → IsAtRest p → Fits s lines p → RunsInRoom s script lines p }
    ensures fewer { (s : Setting) (lines : List Line) (p : Plain) (these : Line → Bool)
        → Fits s lines p → Fits s (filter these lines) p }
{}

/// The private lines of a worker are answered as they are by themselves but for the numbers of versions,
/// and leave the same at private anchors, where its lines fit and each of its tabs names private anchors
/// alone or others alone. The tabs of a good script are never the one of whole requests.
pub fn private_lines_are_answered_alone()
    ensures alone { (s : Setting) (script : List Line) (worker : ℕ) (p : Plain)
        → 0 < s.room → 0 < s.anchors → 0 < s.slots → length p.places ≡ s.anchors → IsAtRest p → CountsVersions p
        → Fits s (lines_for worker script) p → TabsApart s script worker → AnswersAlone s script worker p }
    ensures tabs { (workers : ℕ) (text : List ℕ) (script : List Line) → IsScript workers text script
        → (worker : ℕ) (line : Line) → Contains (lines_for worker script) line → IsOnTab line.request }
{}

/// A worker is served alone where the answers that it was given to its private lines are the plain store's to
/// these lines by themselves, but for versions: that the versions which they begin stand for one another in turn
/// follows (`told`). The versions that a worker's private lines begin then rise, and are above all that were given
/// out before (`rise`).
pub fn workers_are_served_alone()
    ensures told { (s : Setting) (script : List Line) (worker : ℕ) (p : Plain) (given : List Answer) (rename : ℕ → ℕ) → IsRenaming p.counter rename
        → answers_to (is_private s script worker) (lines_for worker script) given ≡ map (renamed rename) (answers s script (private_lines s script worker) p)
        → IsServedAlone s script worker p given }
    ensures rise { (s : Setting) (script : List Line) (worker : ℕ) (p : Plain) (given : List Answer) → IsServedAlone s script worker p given
        → RiseAbove p.counter (begun (private_lines s script worker) (answers_to (is_private s script worker) (lines_for worker script) given)) }
{}

/// A store that was never written, and one that is opened on entries of a file, are at rest and have a
/// place for each anchor. One that is opened on a file holds no more slots than the file has, and no version
/// stands in it that was not given out: what a rebuild keeps of a file fits it. So does each list of entries
/// that fit.
pub fn stores_begin_at_rest()
    ensures fresh { (s : Setting)
        → IsAtRest (fresh s.anchors) × HoldsItsSlots s (fresh s.anchors) × (length (fresh s.anchors).places ≡ s.anchors) × CountsVersions (fresh s.anchors) }
    ensures opened { (s : Setting) (kept : List Kept) (greatest : ℕ)
        → IsAtRest (opened s.anchors kept greatest) × (length (opened s.anchors kept greatest).places ≡ s.anchors)
        × (slots_held s (opened s.anchors kept greatest) ≤ s.slots → HoldsItsSlots s (opened s.anchors kept greatest)) }
    ensures fits { (s : Setting) (kept : List Kept) (greatest : ℕ) → FitsFile s kept greatest
        → HoldsItsSlots s (opened s.anchors kept greatest) × CountsVersions (opened s.anchors kept greatest) }
    ensures kept { (s : Setting) (images : List (List ℕ)) (rebuilt : Rebuilt) (is : IsRebuilt (s.room + HEADER_SIZE) images s.anchors rebuilt)
        → s.slots ≡ length images → FitsFile s (map (kept_of images) is.entries) rebuilt.greatest }
    ensures file { (s : Setting) (images : List (List ℕ)) (p : Plain)
        → s.slots ≡ length images → IsOpened (s.room + HEADER_SIZE) images s.anchors p
        → IsAtRest p × HoldsItsSlots s p × (length p.places ≡ s.anchors) × CountsVersions p }
{}

/// An anchor of a store that is opened on a file holds no more slots than the entry of the file has that a rebuild keeps there, and none
/// where it keeps nothing.
pub fn anchors_hold_slots_of_the_file()
    ensures { (room : ℕ) (images : List (List ℕ)) (anchors anchor : ℕ) (p : Plain) → IsOpened (room + HEADER_SIZE) images anchors p
        → (held room (place_at p anchor) ≡ 0) ⊎ HoldsOfFile (room + HEADER_SIZE) images anchors anchor room p }
{}

/// A store that is opened on slots of zeros is one that was never written.
pub fn unwritten_slots_open_fresh_stores()
    ensures { (slot : ℕ) (images : List (List ℕ)) (anchors : ℕ) (p : Plain)
        → All (λ image. All (λ b. b ≡ 0) image) images → IsOpened slot images anchors p → p ≡ fresh anchors }
{}

/// Slots whose bytes are all 0 have no complete entry.
pub fn unwritten_slots_have_no_entry()
    ensures { (slot : ℕ) (images : List (List ℕ)) (e : FileEntry) → All (λ image. All (λ b. b ≡ 0) image) images
        → IsComplete slot images e → ⊥ }
{}
