//! What holds of the numbers of words, for all of them: a step of the shared table adds to such a
//! number, sets a bit of it, or puts another in its place, and its proof needs no bits but these
//! rules. The functions with no body do nothing, and the proof of a function that calls one may use
//! what it ensures.
ghost use Rattle.std.specs.Prelude.{◌≡◌, ℕ, List, ◌+◌, ◌-◌, ◌*◌, ◌^◌, ◌<◌, ◌≤◌, ◌⊎◌, ◌↔◌, IsTrue, IsFalse, IsNone, false};
ghost use Rattle.std.specs.Cmp.{IsTotalOrder};
ghost use Rattle.std.specs.Ordering.{nat_cmp};
ghost use Rattle.lock_word.specs.declared.epoch.Epoch.{Epoch};
ghost use Rattle.lock_word.specs.declared.stage.Stage.{Stage};
ghost use Rattle.lock_word.specs.declared.word.Word.{Word};
ghost use Rattle.lock_word.specs.Words.{IsInRange, IsWord, HasReservedBit, stage_number, doom_number, epoch_number, word_number};
ghost use Rattle.lock_word.specs.Words.{readers_of, epoch_of, version_of, mode_of, stage_of, doom_of};
ghost use Rattle.lock_word.specs.Words.{is_readable, is_written, is_idle, is_vacant, is_left_over};
ghost use Rattle.lock_word.specs.Words.{epoch_at, word_at, doomed, raised, evicted};
ghost use Rattle.lock_word.specs.Order.{epoch_cmp};
ghost use Rattle.lock_word.specs.Life.{IsReadable, IsWritten, IsIdle, IsVacant, IsLeftOver};
ghost use Rattle.lock_word.specs.Cause.{cause_of};

use crate::epoch::Epoch;
use std::cmp::Ordering;

/// The parts of a word's number are the word's parts.
pub fn parts_of_words()
    ensures readers { (w : Word) → IsInRange w → readers_of (word_number w) ≡ w.readers }
    ensures epoch { (w : Word) → IsInRange w → epoch_of (word_number w) ≡ epoch_number w.epoch }
    ensures version { (e : Epoch) → version_of (epoch_number e) ≡ e.version }
    ensures doom { (e : Epoch) → doom_of (epoch_number e) ≡ doom_number e.doom }
    ensures stage { (e : Epoch) → stage_of (epoch_number e) ≡ stage_number e.stage }
    ensures mode { (e : Epoch) → mode_of (epoch_number e) ≡ 8 * doom_number e.doom + stage_number e.stage }
{}

/// Which numbers are those of words, and that each is the number of one word.
pub fn numbers_of_words()
    ensures of_word { (w : Word) → IsInRange w → IsWord (word_number w) }
    ensures some_word { (n : ℕ) → IsWord n → (w : Word) × IsInRange w × (word_number w ≡ n) }
    ensures one_word { (w v : Word) → IsInRange w → IsInRange v → word_number w ≡ word_number v → w ≡ v }
    ensures one_epoch { (e f : Epoch) → epoch_number e ≡ epoch_number f → e ≡ f }
    ensures reserved { (n : ℕ) → (HasReservedBit n ↔ (16 ≤ mode_of (epoch_of n))) }
{}

/// A number is its epoch and its readers, and an epoch its version, doom and stage.
pub fn numbers_have_parts()
    ensures whole { (n : ℕ) → n ≡ 65536 * epoch_of n + readers_of n }
    ensures readers { (n : ℕ) → readers_of n < 65536 }
    ensures same { (n m : ℕ) → epoch_of n ≡ epoch_of m → readers_of n ≡ readers_of m → n ≡ m }
    ensures epoch { (e : ℕ) → e ≡ 65536 * version_of e + mode_of e }
    ensures mode { (e : ℕ) → mode_of e < 16 → mode_of e ≡ 8 * doom_of e + stage_of e }
{}

/// Epochs are ordered as their numbers, and that is a total order.
pub fn epochs_are_ordered()
    ensures number { (e f : Epoch) → epoch_cmp e f ≡ nat_cmp (epoch_number e) (epoch_number f) }
    ensures total { IsTotalOrder epoch_cmp }
    ensures below { (e f : Epoch) → ((epoch_cmp e f ≡ Ordering.Less) ↔ (epoch_number e < epoch_number f)) }
    ensures same { (e f : Epoch) → ((epoch_cmp e f ≡ Ordering.Equal) ↔ (e ≡ f)) }
{}

/// What `cmp` answers: by version, then doom, then stage, and so by number.
pub fn epochs_compare(left: &Epoch, right: &Epoch) -> Ordering
    ensures parts { result ≡ epoch_cmp left.now right.now }
    ensures number { result ≡ nat_cmp (epoch_number left.now) (epoch_number right.now) }
{
    left.cmp(right)
}

/// What `<` answers.
pub fn epochs_are_below(left: &Epoch, right: &Epoch) -> bool
    ensures { IsTrue result ↔ (epoch_number left.now < epoch_number right.now) }
{
    left < right
}

/// One reader more, or one less, leaves the epoch alone.
pub fn readers_are_counted()
    ensures more { (n : ℕ) → readers_of n < 65535 → readers_of (n + 1) ≡ readers_of n + 1 }
    ensures more_epoch { (n : ℕ) → readers_of n < 65535 → epoch_of (n + 1) ≡ epoch_of n }
    ensures more_word { (n : ℕ) → IsWord n → readers_of n < 65535 → IsWord (n + 1) }
    ensures less { (n : ℕ) → 0 < readers_of n → readers_of (n - 1) + 1 ≡ readers_of n }
    ensures less_epoch { (n : ℕ) → 0 < readers_of n → epoch_of (n - 1) ≡ epoch_of n }
    ensures less_word { (n : ℕ) → IsWord n → 0 < readers_of n → IsWord (n - 1) }
{}

/// A stage that is raised to another leaves readers, version and doom alone, and raises the epoch.
pub fn stages_are_raised()
    ensures readers { (n by : ℕ) → readers_of (raised n by) ≡ readers_of n }
    ensures epoch { (n by : ℕ) → epoch_of (raised n by) ≡ epoch_of n + by }
    ensures version { (n by : ℕ) → stage_of (epoch_of n) + by < 7 →
        version_of (epoch_of (raised n by)) ≡ version_of (epoch_of n) }
    ensures doom { (n by : ℕ) → stage_of (epoch_of n) + by < 7 →
        doom_of (epoch_of (raised n by)) ≡ doom_of (epoch_of n) }
    ensures stage { (n by : ℕ) → stage_of (epoch_of n) + by < 7 →
        stage_of (epoch_of (raised n by)) ≡ stage_of (epoch_of n) + by }
    ensures stage_to { (n to : ℕ) → stage_of (epoch_of n) ≤ to → to < 7 →
        stage_of (epoch_of (raised n (to - stage_of (epoch_of n)))) ≡ to }
    ensures mode { (n by : ℕ) → stage_of (epoch_of n) + by < 7 →
        mode_of (epoch_of (raised n by)) ≡ mode_of (epoch_of n) + by }
    ensures word { (n by : ℕ) → IsWord n → stage_of (epoch_of n) + by < 7 → IsWord (raised n by) }
{}

/// Setting the doom bit leaves readers, version and stage alone, and does not lower the epoch.
pub fn words_are_doomed()
    ensures readers { (n : ℕ) → readers_of (doomed n) ≡ readers_of n }
    ensures epoch { (n : ℕ) → epoch_of n ≤ epoch_of (doomed n) }
    ensures version { (n : ℕ) → version_of (epoch_of (doomed n)) ≡ version_of (epoch_of n) }
    ensures doom { (n : ℕ) → doom_of (epoch_of (doomed n)) ≡ 1 }
    ensures stage { (n : ℕ) → stage_of (epoch_of (doomed n)) ≡ stage_of (epoch_of n) }
    ensures word { (n : ℕ) → IsWord n → IsWord (doomed n) }

    // What it adds.
    ensures added { (n : ℕ) → doom_of (epoch_of n) ≡ 0 → doomed n ≡ n + 524288 }
    ensures mode { (n : ℕ) → doom_of (epoch_of n) ≡ 0 → mode_of (epoch_of (doomed n)) ≡ mode_of (epoch_of n) + 8 }
    ensures again { (n : ℕ) → doom_of (epoch_of n) ≡ 1 → doomed n ≡ n }

    // What it allows.
    ensures readable { (n : ℕ) → IsFalse (is_readable (epoch_of (doomed n))) }
    ensures idle { (n : ℕ) → IsFalse (is_idle (doomed n)) }
    ensures written { (n : ℕ) → is_written (epoch_of (doomed n)) ≡ is_written (epoch_of n) }
{}

/// The word that a step puts in place of another has no readers and no doom, and a greater version
/// raises the epoch.
pub fn words_are_put()
    ensures readers { (version stage : ℕ) → readers_of (word_at version stage) ≡ 0 }
    ensures epoch { (version stage : ℕ) → epoch_of (word_at version stage) ≡ epoch_at version stage }
    ensures version { (version stage : ℕ) → stage < 7 → version_of (epoch_at version stage) ≡ version }
    ensures doom { (version stage : ℕ) → stage < 7 → doom_of (epoch_at version stage) ≡ 0 }
    ensures stage { (version stage : ℕ) → stage < 7 → stage_of (epoch_at version stage) ≡ stage }
    ensures mode { (version stage : ℕ) → stage < 7 → mode_of (epoch_at version stage) ≡ stage }
    ensures word { (version stage : ℕ) → version < 2 ^ 32 → stage < 7 → IsWord (word_at version stage) }
    ensures rises { (n version stage : ℕ) → version_of (epoch_of n) < version →
        epoch_of n < epoch_of (word_at version stage) }
    ensures above { (e version stage : ℕ) → version_of e < version → e < epoch_at version stage }
    ensures taken { (version : ℕ) → IsTrue (is_written (epoch_at version 1)) }
{}

/// An anchor that is taken for a version has the word of it at Taken, without doom and readers.
pub fn entries_are_taken()
    ensures number { (version : ℕ) →
        word_number (record { epoch = record { version = version; doom = false; stage = Stage.Taken }; readers = 0 }) ≡ word_at version 1 }
    ensures word { (version : ℕ) → version < 2 ^ 32 → IsWord (word_at version 1) }
    ensures readers { (version : ℕ) → readers_of (word_at version 1) ≡ 0 }
    ensures version { (version : ℕ) → version_of (epoch_of (word_at version 1)) ≡ version }
    ensures doom { (version : ℕ) → doom_of (epoch_of (word_at version 1)) ≡ 0 }
    ensures stage { (version : ℕ) → stage_of (epoch_of (word_at version 1)) ≡ 1 }
{}

/// An entry that is freed has its word at Freeing: the readers, the version and the doom are as they were.
pub fn entries_are_evicted()
    ensures number { (w : Word) → IsInRange w → stage_number w.epoch.stage ≤ 5 →
        word_number (record w { epoch = record w.epoch { stage = Stage.Freeing } }) ≡ evicted (word_number w) }
    ensures word { (n : ℕ) → IsWord n → stage_of (epoch_of n) ≤ 5 → IsWord (evicted n) }
    ensures readers { (n : ℕ) → readers_of (evicted n) ≡ readers_of n }
    ensures version { (n : ℕ) → stage_of (epoch_of n) ≤ 5 →
        version_of (epoch_of (evicted n)) ≡ version_of (epoch_of n) }
    ensures doom { (n : ℕ) → stage_of (epoch_of n) ≤ 5 → doom_of (epoch_of (evicted n)) ≡ doom_of (epoch_of n) }
    ensures stage { (n : ℕ) → stage_of (epoch_of n) ≤ 5 → stage_of (epoch_of (evicted n)) ≡ 5 }
    ensures rises { (n : ℕ) → stage_of (epoch_of n) < 5 → epoch_of n < epoch_of (evicted n) }
    ensures left_over { (n : ℕ) → IsTrue (is_left_over n) → stage_of (epoch_of n) ≤ 5 }
    ensures idle { (n : ℕ) → IsTrue (is_idle n) → stage_of (epoch_of n) ≤ 5 }
{}

/// What the tests of a number tell of its parts.
pub fn tests_tell_parts()
    ensures readable { (e : ℕ) → (IsTrue (is_readable e) ↔ ((mode_of e ≡ 2) ⊎ (mode_of e ≡ 3))) }
    ensures readable_stage { (e : ℕ) → IsTrue (is_readable e) → (stage_of e ≡ 2) ⊎ (stage_of e ≡ 3) }
    ensures readable_doom { (e : ℕ) → IsTrue (is_readable e) → doom_of e ≡ 0 }
    ensures written { (e : ℕ) → (IsTrue (is_written e) ↔ ((stage_of e ≡ 1) ⊎ (stage_of e ≡ 2))) }
    ensures idle { (n : ℕ) → (IsTrue (is_idle n) ↔ ((mode_of (epoch_of n) ≡ 3) × (readers_of n ≡ 0))) }
    ensures vacant { (n : ℕ) → (IsTrue (is_vacant n)
        ↔ (((stage_of (epoch_of n) ≡ 0) ⊎ (stage_of (epoch_of n) ≡ 6)) × (readers_of n ≡ 0))) }
    ensures left_over { (n : ℕ) → (IsTrue (is_left_over n)
        ↔ (((stage_of (epoch_of n) ≡ 4) ⊎ (mode_of (epoch_of n) ≡ 11)) × (readers_of n ≡ 0))) }
{}

/// A word is at most one of idle, vacant and left over, and nobody writes at such a word.
pub fn tests_exclude_each_other()
    ensures idle_or_vacant { (n : ℕ) → IsTrue (is_idle n) → IsFalse (is_vacant n) }
    ensures idle_or_left_over { (n : ℕ) → IsTrue (is_idle n) → IsFalse (is_left_over n) }
    ensures vacant_or_left_over { (n : ℕ) → IsTrue (is_vacant n) → IsFalse (is_left_over n) }
    ensures idle_or_written { (n : ℕ) → IsTrue (is_idle n) → IsFalse (is_written (epoch_of n)) }
    ensures vacant_or_written { (n : ℕ) → IsTrue (is_vacant n) → IsFalse (is_written (epoch_of n)) }
    ensures left_over_or_written { (n : ℕ) → IsTrue (is_left_over n) → IsFalse (is_written (epoch_of n)) }
{}

/// The tests of a number say of a word what is said of its parts.
pub fn tests_agree()
    ensures readable { (e : Epoch) → (IsTrue (is_readable (epoch_number e)) ↔ IsReadable e) }
    ensures written { (e : Epoch) → (IsTrue (is_written (epoch_number e)) ↔ IsWritten e) }
    ensures idle { (w : Word) → IsInRange w → (IsTrue (is_idle (word_number w)) ↔ IsIdle w) }
    ensures vacant { (w : Word) → IsInRange w → (IsTrue (is_vacant (word_number w)) ↔ IsVacant w) }
    ensures left_over { (w : Word) → IsInRange w → (IsTrue (is_left_over (word_number w)) ↔ IsLeftOver w) }
{}

/// A look-up hits exactly where the entry may be read and has the wanted key, and where it may not be
/// read the keys do not matter.
pub fn hits_are_readable()
    ensures hit { (e : Epoch) (key wanted : List ℕ) → (IsNone (cause_of e key wanted) ↔ (IsReadable e × (key ≡ wanted))) }
    ensures keyless { (e : Epoch) (key wanted other another : List ℕ) → ¬ IsReadable e →
        cause_of e key wanted ≡ cause_of e other another }
{}
