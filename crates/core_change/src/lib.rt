//! The table of a store as it runs in the pure core, and a step as one change of it: the step is worked out first,
//! with all the memory that it takes, and then made at once by [`make_change`], or not at all. [`opened_table`]
//! makes the table that a rebuild leaves.
//!
//! `Plans` in `specs/` says when a change is what a step does. The crates above work such changes out.
#![tactic(auto)]

mod change;
mod opened;
mod refusal;
mod tab_change;
mod table;
mod tabs;
mod turn_change;

pub use change::{
    ChainChange, Change, NotesChange, TabsChange, WordChange, anchor_addition, bare_addition,
    counter_addition, make_change, word_addition,
};
pub use opened::{no_chain, opened_table};
pub use refusal::Refusal;
pub use tab_change::TabChange;
pub use table::Table;
pub use tabs::{anchor_of, inner_is_free, tab_at};
pub use turn_change::TurnChange;
