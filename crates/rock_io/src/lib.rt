//! Bytes that come in and go out, and the lists that contracts speak of.
//!
//! A [`Source`] gives bytes and a [`Sink`] takes them. Each counts its own failures, so that a
//! caller's contract can say that a fault came from outside and was not made up.
//!
//! [`MemSource`] and [`MemSink`] keep their bytes in memory and fail where they are told to, so
//! code can be tried out on faults. A [`Plan`] says which calls fail, here and in other crates.
//! [`StdSource`] and [`StdSink`] stand over readers and writers of std. A [`LineBuffer`] gathers lines before a sink takes
//! them.
#![tactic(auto)]

mod fault;
mod line_buffer;
mod list;
mod mem_sink;
mod mem_source;
mod plan;
mod sink;
mod source;
mod std_sink;
mod std_source;

pub use fault::{Failed, Memory};
pub use line_buffer::{BUFFER_BYTES, LineBuffer};
pub use list::{Numbers, Octets, Words};
pub use mem_sink::MemSink;
pub use mem_source::MemSource;
pub use plan::Plan;
pub use sink::{Sink, write_all};
pub use source::Source;
pub use std_sink::StdSink;
pub use std_source::StdSource;
