//! The word of an anchor: who reads its entry, at which stage of its life the entry is, whether it
//! is doomed, and its version. One word of 64 bits in the shared table is all of that.
//!
//! `specs/Words.antt` has the numbers that words are there, and the functions of `laws` have their
//! arithmetic, once and over plain numbers. docs/STATE-MACHINE.md has the life of an anchor.
#![tactic(auto)]

mod cause;
mod epoch;
mod laws;
mod number;
mod stage;
mod word;

pub use cause::{Cause, cause_of};
pub use epoch::{Epoch, readable};
pub use laws::{
    entries_are_evicted, entries_are_taken, epochs_are_below, epochs_are_ordered, epochs_compare,
    hits_are_readable, numbers_have_parts, numbers_of_words, parts_of_words, readers_are_counted,
    stages_are_raised, tests_agree, tests_exclude_each_other, tests_tell_parts, words_are_doomed,
    words_are_put,
};
pub use number::{
    DOOM_BIT, ONE_STAGE, epoch_bits, evicted_number, is_idle_number, is_left_over_number,
    is_readable_number, is_vacant_number,
};
pub use stage::Stage;
pub use word::{GREATEST_VERSION, Word, is_idle, is_left_over, is_vacant, pack, unpack, word_of};
