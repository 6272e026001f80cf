//! The command `bench`: a file is made, the script of a benchmark is run over it, and one line sums up what its workers
//! were answered.
#![tactic(auto)]

mod answers;
mod command;
mod printing;
mod running;

pub use command::bench_command;
pub use running::BenchTarget;
