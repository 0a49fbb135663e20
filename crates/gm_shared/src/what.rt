//! The entries of the history.

use crate::events::Noop;
use gm_bytes::ByteQueue;
use gm_notes::{Done, Event};

/// The entry of an actor's one holding of the book.
#[derive(Clone, Copy)]
pub(crate) enum What<'a> {
    /// The state in which a NOOP was found, and then the event, if it was taken, with its answer.
    Call(Noop, Event<'a>, Option<Done>),
    /// A drain of a slot, and the bytes that it gave.
    Drain(u32, &'a ByteQueue),
    /// Nothing: it only sees the history as it is.
    Nothing,
}
