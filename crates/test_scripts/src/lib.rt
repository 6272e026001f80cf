//! Tests of scripts as they are read, and of their answers as they are written and printed.
#![tactic(auto)]

#[cfg(test)]
mod answers;
#[cfg(test)]
mod printing;
#[cfg(test)]
mod rows;
#[cfg(test)]
mod scripts;
