//! Tests of what is counted in a store that is closed.
#![tactic(auto)]

#[cfg(test)]
mod closing;
#[cfg(test)]
mod pages;
#[cfg(test)]
mod rows;
#[cfg(test)]
mod taken;
