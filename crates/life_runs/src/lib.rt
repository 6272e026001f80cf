//! What holds along every list of steps, crashes and rebuilds, from each opening on: a rebuild by names opens the core
//! over the bytes that were left, and what lists of steps keep is kept from there. These functions do nothing: the
//! proof of a function that calls one may use what it ensures.
#![tactic(auto)]

mod laws;

pub use laws::{
    lives_publish_responses, offers_stand_along_lives, rebuilds_open_what_is_left,
    slots_are_apart_along_lives,
};
