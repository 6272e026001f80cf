//! Tests of forwarding.
#![tactic(auto)]

#[cfg(test)]
mod cases;
#[cfg(test)]
mod fetching;
#[cfg(test)]
mod playing;
