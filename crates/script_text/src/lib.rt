//! Scripts: the lines that tell workers what to ask of a store, and the answers to them.
#![tactic(auto)]

mod answer;
mod body;
mod fault;
mod fields;
mod head;
mod laws;
mod line;
mod reading;
mod refusal;
mod request;
mod requests;
mod script;
mod shapes;
mod shelf;
mod verb;
mod words;

pub use answer::Answer;
pub use body::Body;
pub use fault::ScriptFault;
pub use laws::one_reading;
pub use line::{Line, Lines, Script};
pub use request::Request;
pub use script::read_script;
pub use shelf::Shelf;
