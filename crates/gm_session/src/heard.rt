//! The account of the bytes read from a slot's connections. Only proofs know it.

use gm_ghost::Worth;
use gm_shared::Entry;
use std::collections::LinkedList;
use std::marker::Brand;

/// The account of a connection that is gone: the bytes read from it. Only proofs have such a value: none is made.
#[derive(Drop)]
pub struct Heard {
    /// The history that the slot's desk had seen when the connection before this one was closed.
    pub since: LinkedList<Entry>,
    /// The history that it had seen when this one was closed.
    pub until: LinkedList<Entry>,
    /// The number of the socket through which it was read; none if no thread served the connection.
    pub socket: Option<i32>,
    /// All that was read.
    pub read: LinkedList<u8>,
    /// Whether all whole units of that were handed in.
    pub is_whole: bool,
}

/// A slot's connections that are gone, the newest first, and what its desk had seen when the last was closed. None but
/// a blank one is made.
#[derive(Drop)]
pub struct Hearings {
    pub past: LinkedList<Heard>,
    pub since: LinkedList<Entry>,
}

impl Worth<Hearings> for Brand {
    ghost use Rattle.std.specs.Prelude.{[]};

    ghost worth = { record { past = []; since = [] } };
}
