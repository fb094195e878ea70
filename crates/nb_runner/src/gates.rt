//! What is done round each command.

/// What a run does round each command of its workers: the worker's number, and the command's, which
/// counts from 0 within the worker and the phase.
pub trait Gate {
    /// Is called in the worker's thread, just before the command's call. A gate that waits holds up
    /// this worker, and with it the end of the phase.
    fn before(&self, worker: usize, number: usize);

    /// Is called in the same thread, once the call has returned.
    fn after(&self, worker: usize, number: usize);
}

/// The gate that does nothing.
#[derive(Clone, Copy, Debug, PartialEq, Eq)]
pub struct Open;

impl Gate for Open {
    fn before(&self, _worker: usize, _number: usize) {}

    fn after(&self, _worker: usize, _number: usize) {}
}
