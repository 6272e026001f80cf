//! The pure state machine that everything concurrent stands on: what a worker holds and knows, the
//! state of the shared table, the atomic steps on it, and what holds between any two of them.
//!
//! The definitions stand in `specs/`: `State` and `Layout` say what the state is, `Steps` the table
//! of steps, and `Sound` what holds in between, a page for each topic. The types here are what they
//! speak of. They are generic in `X`, the content of a cell: bytes in a running store, names in the
//! pure core. The functions of `laws` do nothing: what they ensure are the laws.
#![tactic(auto)]

mod adding;
mod chain;
mod laws;
mod list;
mod moves;
mod spot;
mod tab;
mod view;

pub use adding::{Addition, Names};
pub use chain::Chain;
pub use laws::{
    chains_are_spelled_once, deeds_are_of_passes, epochs_have_their_deeds, finds_are_known,
    held_cells_may_be_rewritten, idle_stores_are_settled, notes_may_be_learned, notes_may_be_made,
    opened_stores_are_sound, openings_are_sound, places_are_apart, rests_have_one_tab,
    slots_are_counted, slots_are_not_written_while_read, slots_have_one_spot, steps_change_choices,
    steps_change_entries, steps_keep_nine_tabs, steps_keep_sound, tabs_match_words,
    turns_have_one_holder, views_tell_what_is_allowed, written_pieces_are_home,
};
pub use list::{Log, Row};
pub use moves::{Move, Outcome, Side, Then};
pub use spot::Spot;
pub use tab::{Cell, Freer, Hold, INNER_TAB, Piece, Reader, TABS, Tab, Turn, Writer};
pub use view::{Deed, Item, Kind, LoggedPiece, Place, Sight, Trace, View};
