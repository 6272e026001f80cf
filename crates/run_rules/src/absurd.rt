//! Examples: what no run prints, for it is not explained.
ghost use Rattle.std.specs.Prelude.{Bool, Contains, List, [], false, ◌+◌, ◌++◌, ◌∷◌, ◌≡◌, ℕ};
ghost use lib.ListN.{get_elem?};
ghost use mathlib.Core.Option.{some};
ghost use Rattle.lock_word.specs.declared.stage.Stage.TheVariants as stage;
ghost use Rattle.lock_word.specs.declared.word.Word.{Word};
ghost use Rattle.rock_disk.specs.File.{Files};
ghost use Rattle.script_text.specs.declared.answer.Answer.{Answer};
ghost use Rattle.script_text.specs.declared.body.Body.{Body};
ghost use Rattle.script_text.specs.declared.line.Line.{Line};
ghost use Rattle.script_text.specs.declared.request.Request.{Request};
ghost use Rattle.rock_disk.specs.Counts.{Counts};
ghost use Rattle.run_rules.specs.Fitting.{FitsInto};
ghost use Rattle.run_rules.specs.Runs.{IsExplained};

use line_account::nothing_is_given_back_by_refusals;
use rock_io::Octets;

/// Two workers printed FAULT, and no station was made for them (`made`; `many` of `IsExplained` refuses it). Or one was made for each, and
/// ended with no fault (`counted`; `faults` refuses it).
pub fn no_fault_comes_of_no_call()
    ensures made { (tells : Bool) (files : Files) (name : List ℕ) (slot anchors m n : ℕ) (script : List Line) (before after : Counts)
        → IsExplained tells files name slot anchors 2 script (((m, Answer.Fault) ∷ []) ∷ ((n, Answer.Fault) ∷ []) ∷ []) before after
        → after.made ≡ before.made + 1 → ⊥ }
    ensures counted { (tells : Bool) (files : Files) (name : List ℕ) (slot anchors m n : ℕ) (script : List Line) (before after : Counts)
        → IsExplained tells files name slot anchors 2 script (((m, Answer.Fault) ∷ []) ∷ ((n, Answer.Fault) ∷ []) ∷ []) before after
        → after.ended ≡ before.ended ++ 0 ∷ 0 ∷ 0 ∷ [] → ⊥ }
{}

/// A lone worker's `put` printed BUSY 0.5/0 0.5/0: no entry has version 0, so none of this version is given back (`zero` of `IsExplained`).
pub fn no_entry_has_version_0()
    ensures { (tells : Bool) (files : Files) (name : List ℕ) (slot anchors : ℕ) (url : List ℕ) (body : Body) (held : Word)
        (before after : Counts)
        → IsExplained tells files name slot anchors 1 (record { worker = 1; number = 1; request = Request.Put url body } ∷ [])
        (((1, Answer.Busy held held) ∷ []) ∷ []) before after
        → held.epoch ≡ record { version = 0; stage = stage.Freeing; doom = false } → ⊥ }
{}

/// A line printed FULL though the script fits into the file (`fits_is` of `IsExplained`, with `rules.answers.full`).
pub fn nothing_is_full_where_the_script_fits()
    ensures { (tells : Bool) (files : Files) (name : List ℕ) (slot anchors workers : ℕ) (script : List Line)
        (answers : List (List (ℕ × Answer))) (before after : Counts) (j number : ℕ) (mine : List (ℕ × Answer))
        → (e : IsExplained tells files name slot anchors workers script answers before after)
        → FitsInto slot anchors e.images script → get_elem? answers j ≡ some mine → Contains mine (number, Answer.Full) → ⊥ }
{}

/// Two workers' `put` of a URL printed BUSY with the same words, those of an entry at FREEING that is not doomed and that nobody reads, as
/// the file's winner would be while it is evicted: no line came so far that it could evict (`rules.epochs.given_back`).
pub fn no_winner_is_freed_by_refusals()
    ensures { (tells : Bool) (files : Files) (name : List ℕ) (slot anchors x : ℕ) (url : List ℕ) (body other : Body) (held : Word)
        (before after : Counts)
        → IsExplained tells files name slot anchors 2
        (record { worker = 1; number = 1; request = Request.Put url body }
        ∷ record { worker = 2; number = 2; request = Request.Put url other } ∷ [])
        (((1, Answer.Busy held held) ∷ []) ∷ ((2, Answer.Busy held held) ∷ []) ∷ []) before after
        → held.epoch ≡ record { version = x; stage = stage.Freeing; doom = false } → ⊥ }
{
    nothing_is_given_back_by_refusals::<Octets>();
}
