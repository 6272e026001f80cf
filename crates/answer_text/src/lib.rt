//! The lines of answers, as bytes, and how those of all workers are printed.
//!
//! [`answer_line`] gives a worker's answer to a line of a script as text. For every worker, number and
//! answer the bytes are exactly those of the grammar in `specs/Lines.antt`, the line feed with them: the
//! grammar says which words each answer has, and a line is its words with a space between each two. A line
//! has one reading, whatever follows it ([`one_reading`]): it tells its worker, its number and its answer,
//! and where it ends. That law asks that the numbers of an answer are in the ranges of their types, which
//! `answer_line` says of each answer that it is given.
//!
//! Want of memory may come at any time, and no clause says when. The room for a line is reserved once, by
//! its exact size; what is added later asks for room that is left, and takes no memory.
//!
//! [`print_answers`] prints the lines of all workers, in order, through a buffer.
#![tactic(auto)]

mod field;
mod fields;
mod hex_digits;
mod laws;
mod line;
mod print;

pub use laws::one_reading;
pub use line::answer_line;
pub use print::{PrintFault, print_answers};
