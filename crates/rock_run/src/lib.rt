//! A script is run over a file: the file is opened as a store, workers serve the lines of the script on threads, the
//! store is closed, and its cells are given back.
#![tactic(auto)]

mod asked;
mod crew;
mod faults;
mod laws;
mod origin;
mod run;
mod serving;
mod stations;

pub use asked::{read_lines_may_be_asked, script_lines_may_be_asked};
pub use faults::status_of_run;
pub use laws::read_scripts_may_be_served;
pub use origin::ScriptOrigin;
pub use run::run_script;
