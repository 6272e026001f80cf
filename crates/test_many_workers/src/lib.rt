//! Tests of the program's command `run` that are no stories: many workers at once, workers that meet, and a station that lies.
#![tactic(auto)]

#[cfg(test)]
mod tests;
