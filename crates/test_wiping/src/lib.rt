//! Tests of entries that are purged on the disk too.
#![tactic(auto)]

#[cfg(test)]
mod left;
#[cfg(test)]
mod rows;
#[cfg(test)]
mod serving;
