//! What a database file holds: its complete entries, and what a rebuild of the store keeps of them.
//!
//! The definitions stand in `specs/`, over the images of a file's slots. The functions of `laws` do nothing: what
//! they ensure are the laws.
#![tactic(auto)]

mod found;
mod found_list;
mod image;
mod laws;
mod rebuilt;

pub use found::Found;
pub use found_list::FoundList;
pub use image::{FileImage, Images};
pub use laws::{
    a_file_has_one_rebuild, chains_are_apart, entries_depend_on_their_slots, finds_are_known,
    one_entry_at_a_slot, one_winner_at_an_anchor, winners_and_owners_make_a_rebuild,
    winners_are_apart, winners_are_gathered,
};
pub use rebuilt::Rebuilt;
