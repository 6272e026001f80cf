//! What a pass of the shared store has at hand of its tabs: what each is at, and what it is at after each
//! step of the pass. And what each tab works on: its buffer, and the draft of what it writes.
#![tactic(auto)]

mod desks;
mod hands;
mod tab_slots;
mod tabs;

pub use desks::{Desk, Desks, Draft, NO_DRAFT};
pub use hands::{Hands, all_hands};
pub use tab_slots::{
    ended_at, followed_at, given_back_at, loaded_at, loosen_at, next_slot, published_at,
    reserved_at,
};
pub use tabs::{
    At, FreeingAt, ReadingAt, WritingAt, anchor_at, entered_at, evict_at, held_at, left_at,
    raised_at, take_at,
};
