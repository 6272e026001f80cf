//! Tests of files in memory, and of the metadata at the front of an entry.
#![tactic(auto)]

#[cfg(test)]
mod cells;
#[cfg(test)]
mod metadata;
#[cfg(test)]
mod peeks;
#[cfg(test)]
mod rows;
#[cfg(test)]
mod volumes;
