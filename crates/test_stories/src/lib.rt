//! Stories for tests: texts that say what is done to a volume of files in memory, and what comes of it. What a command does is
//! the caller's: this crate stands below all that it is to test.
#![tactic(auto)]

mod act;
mod command;
mod files;
mod images;
mod listings;
mod looks;
mod numbers;
mod paragraphs;
mod pipes;
mod stage;
mod texts;
mod watched;

pub use act::Act;
pub use command::{Ended, words_of};
pub use files::file_of;
pub use images::{Images, volume_with};
pub use listings::Listings;
pub use paragraphs::with_number;
pub use pipes::Pipes;
pub use stage::{Command, Crashes, Stage, Task};
pub use texts::push_text;
pub use watched::Watched;
