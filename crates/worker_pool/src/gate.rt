/// Asked before each request, by the worker that serves it.
pub trait Gate {
    fn before(&self, worker: u32, number: u32);
}

/// A gate that does nothing.
#[derive(Drop)]
pub struct OpenGate;

impl Gate for OpenGate {
    fn before(&self, _worker: u32, _number: u32) {}
}
