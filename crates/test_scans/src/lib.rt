//! Tests of complete entries and of what a rebuild keeps: as plain functions tell it, and as a scan finds it. Of the slot size
//! of a file, as its header area and what is given tell it. Of reports of a file by that slot size. And of files whose header
//! areas are made to record their slots.
#![tactic(auto)]

#[cfg(test)]
mod entries;
#[cfg(test)]
mod finding;
#[cfg(test)]
mod migrating;
#[cfg(test)]
mod reports;
#[cfg(test)]
mod rows;
#[cfg(test)]
mod scans;
