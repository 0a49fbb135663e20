//! The account of the bytes written to a slot's connections. Only proofs know it.

use gm_ghost::Worth;
use gm_shared::Entry;
use std::collections::LinkedList;
use std::marker::Brand;

/// A connection that is gone: the history that its slot's pen had seen when it came and when it went, how many NOOPs
/// the pen had taken then, its socket's number, all that was written to it, and whether that is all that the pen gave.
/// No value is made.
#[derive(Drop)]
pub struct Past {
    pub since: LinkedList<Entry>,
    pub takes: u64,
    pub until: LinkedList<Entry>,
    pub takes_after: u64,
    pub socket: i32,
    pub log: LinkedList<u8>,
    pub is_whole: bool,
}

/// A slot's connections that are gone, the newest first, and what the pen had seen and taken when the last went or the
/// present one came. None but a blank one is made.
#[derive(Drop)]
pub struct Sendings {
    pub past: LinkedList<Past>,
    pub since: LinkedList<Entry>,
    pub takes: u64,
}

impl Worth<Sendings> for Brand {
    ghost use Rattle.std.specs.Prelude.{[]};

    ghost worth = { record { past = []; since = []; takes = 0 } };
}
