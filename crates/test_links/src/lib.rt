//! Tests of the words of slots: links, the map of taken slots, and searches in it.
#![tactic(auto)]

#[cfg(test)]
mod links;
#[cfg(test)]
mod map;
