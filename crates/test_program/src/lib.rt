//! Tests of the program's command lines, over files in memory. All are stories: texts that are played.
#![tactic(auto)]

#[cfg(test)]
mod tests;
