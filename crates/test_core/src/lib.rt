//! Tests of the pure core: steps, and what each answers.
#![tactic(auto)]

#[cfg(test)]
mod player;
#[cfg(test)]
mod steps;
