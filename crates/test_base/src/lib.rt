//! Tests of the lowest crates: sources and sinks, the words, headers, keys and offsets of a database file, what its header
//! area records, and how an entry is cut into slots.
#![tactic(auto)]

#[cfg(test)]
mod cells;
#[cfg(test)]
mod cuts;
#[cfg(test)]
mod geometries;
#[cfg(test)]
mod keys;
#[cfg(test)]
mod layouts;
#[cfg(test)]
mod locks;
#[cfg(test)]
mod rows;
#[cfg(test)]
mod streams;
