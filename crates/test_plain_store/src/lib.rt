//! Tests of the plain store: scripts and their answers.
#![tactic(auto)]

#[cfg(test)]
mod plain;
