//! What contents that are told by names are as bytes, and that a rebuild by names keeps the same as a rebuild of the
//! bytes. Definitions and laws: the functions do nothing.
#![tactic(auto)]

mod laws;

pub use laws::names_keep_what_bytes_keep;
