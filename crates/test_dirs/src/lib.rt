//! Tests of a cache over several files.
#![tactic(auto)]

#[cfg(test)]
mod files;
#[cfg(test)]
mod opening;
#[cfg(test)]
mod openings;
#[cfg(test)]
mod shelf;
#[cfg(test)]
mod stories;
mod urls;
