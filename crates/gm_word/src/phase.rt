//! The phases of a worker.

/// The phase of the worker in a slot, as the book has it.
#[derive(Clone, Copy, Debug, PartialEq, Eq)]
pub enum Phase {
    /// It is awake: it asks by itself.
    Awake,
    /// It sleeps, and is to be woken when there is work.
    Asleep,
    /// It sleeps, and is owed a NOOP, which wakes it.
    Owed,
}
