//! Tests of marks, of pages and the passes that have them, of workers on threads, and of the script and the summary of a benchmark.
#![tactic(auto)]

#[cfg(test)]
mod buffers;
#[cfg(test)]
mod loads;
#[cfg(test)]
mod marking;
#[cfg(test)]
mod pages;
#[cfg(test)]
mod rows;
#[cfg(test)]
mod summaries;
#[cfg(test)]
mod workers;
