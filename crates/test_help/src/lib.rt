//! Tests of what the program says to people: the line on standard error of each status, and the help text.
#![tactic(auto)]

#[cfg(test)]
mod help;
#[cfg(test)]
mod lines;
