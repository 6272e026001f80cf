//! Tests of files of the system, over a folder of the test's own and over a system that is made for the tests.
#![tactic(auto)]

#[cfg(test)]
mod files;
#[cfg(test)]
mod made;
#[cfg(test)]
mod made_system;
#[cfg(test)]
mod signals;
#[cfg(test)]
mod together;
