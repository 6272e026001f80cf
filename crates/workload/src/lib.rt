//! The script of a benchmark, made from a number, and the summary of its answers.
//!
//! [`bench_script`] makes the lines. [`summary_of`] counts a list of answers by their kinds, whatever made them, and
//! [`summary_line`] is the line that tells the counts.
#![tactic(auto)]

mod kind;
mod laws;
mod numbers;
mod requests;
mod script;
mod shares;
mod summary;
mod urls;

pub use kind::Kind;
pub use laws::{answers_are_of_one_kind, bench_lines_may_be_served};
pub use script::bench_script;
pub use summary::{Summary, summary_line, summary_of};
