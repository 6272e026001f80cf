//! What holds of the script of a benchmark, as plain stores serve it, and of summaries of answers. These functions do nothing: the proof
//! of a function that calls one may use what it ensures.
#![tactic(auto)]

mod laws;

pub use laws::{
    bench_lines_are_private, bench_lines_fit, summaries_add_up, summaries_tell_no_versions,
};
