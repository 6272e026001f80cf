//! Tests of the pure core over lists of steps, and over crashes and rebuilds among them.
#![tactic(auto)]

#[cfg(test)]
mod lives;
#[cfg(test)]
mod runs;
