//! A cache over one to eight database files. A new entry is begun in one file after the other in turn, and a look-up
//! asks all of them.
//!
//! Only `open_dirs` takes memory, and none but `dir_more` may wait. A file is named by its number, from 0; a tab is
//! the number of one of the tabs 0 to 7 of a pass.
#![tactic(auto)]

mod beginning;
mod dirs;
mod fault;
mod files;
mod notes;
mod opening;
mod parts;
mod purging;
mod reading;
mod writing;

pub use beginning::dir_begin;
pub use dirs::{DirPass, Dirs, MOST_DIRS};
pub use fault::{DirBeginFault, DirFault, DirMiss};
pub use files::{OpenDirs, close_dirs, new_caches_may_be_closed, open_dirs};
pub use notes::{DirNote, dir_learn, dir_note};
pub use opening::dir_open;
pub use parts::DirHome;
pub use purging::dir_purge;
pub use reading::{dir_close, dir_more};
pub use writing::{dir_abort, dir_append, dir_finish};
