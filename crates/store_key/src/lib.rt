//! URLs, their keys, and the anchors that keys belong to.
#![tactic(auto)]

mod anchor;
mod key;
mod laws;
mod url;

pub use anchor::{anchor_of, halves_of};
pub use key::key_of;
pub use laws::keys_have_16_bytes;
pub use url::{UrlFault, check_url};
