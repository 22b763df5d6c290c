// What is called around each message that reaches the counter.

/// It is called around each message that reaches a counter, outside any turn. Workers are numbered from 0.
/// The messages of a connection are numbered from 1, and all of them are counted.
pub trait Gate {
    /// Runs before the message is put to the counter.
    fn before(&self, worker: u32, message: u32);

    /// Runs after the counter answered it.
    fn after(&self, worker: u32, message: u32);
}

/// It does nothing.
#[derive(Clone, Copy, PartialEq, Eq)]
pub struct OpenGate;

impl Gate for OpenGate {
    fn before(&self, _worker: u32, _message: u32) {}

    fn after(&self, _worker: u32, _message: u32) {}
}
