//! What tests of forwarding begin with: another worker, a sink in whose midst it goes on, and what a line came to as text.
#![tactic(auto)]

mod other;
mod serving;
mod shared;
mod telling;

pub use other::{Midst, Other};
pub use shared::{SharedOrigin, shared_lines_may_be_asked};
pub use telling::{forwarded, spelled, told};
