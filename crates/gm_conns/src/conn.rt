//! The record of one connection.

ghost use Rattle.std.specs.Prelude.{◌≡◌, ℕ, ◌<◌, ◌==◌, not, ◌&&◌, ◌||◌, IsTrue, IfSome, IfNone, OnOk, OnErr, [], length};
ghost use Rattle.gm_conns.specs.Connections.{closed, with_ability, without_ability, is_able};

use gm_bytes::ByteQueue;
use gm_notes::Phase;
use indexmap::IndexMap;
use std::alloc::{AllocError, Global};
use std::marker::Model;

/// The record of the connection in a slot. In a slot that isn't open all fields are as `new` makes them.
#[derive(Drop)]
pub(crate) struct Conn {
    pub(crate) open: bool,
    pub(crate) shut: bool,
    /// Whether the option is set.
    pub(crate) option: bool,
    pub(crate) phase: Phase,
    pub(crate) addr: Vec<u8>,
    pub(crate) id: Vec<u8>,
    /// The timeout of each function that it can do, in the order added.
    pub(crate) abilities: IndexMap<u32, u32>,
    /// The function of its last job.
    pub(crate) last: Option<u32>,
    /// The bytes that wait for it.
    pub(crate) queue: ByteQueue,
}

impl Model for Conn {
    ghost use Rattle.gm_conns.specs.Connections.{Connection};

    ghost Value = { Connection };

    ghost view = { λ c. record { is_open = c.open; is_shut = c.shut; has_option = c.option; phase = c.phase; addr = c.addr.items; id = c.id.items; abilities = c.abilities.entries; last = c.last; waiting = c.queue.bytes; room = c.queue.room } };
}

impl Conn {
    /// No connection.
    pub(crate) fn new(alloc: Global) -> Conn
        ensures { result ≡ closed }
    {
        Conn {
            open: false,
            shut: false,
            option: false,
            phase: Phase::Awake,
            addr: Vec::new(alloc),
            id: Vec::new(alloc),
            abilities: IndexMap::new(alloc),
            last: None,
            queue: ByteQueue::new(alloc),
        }
    }

    /// It can do the function, with this timeout.
    pub(crate) fn can_do(&mut self, f: u32, timeout: u32) -> Result<(), AllocError>
        ensures ok { OnOk result (self.new ≡ with_ability f timeout self.old) }
        ensures able { OnOk result ((g : ℕ) → is_able g self.new ≡ ((g == f) || is_able g self.old)) }
        ensures err { OnErr result (self.new ≡ self.old) }
    {
        self.abilities.insert(f, timeout)?;
        Ok(())
    }

    /// It can't do the function any more.
    pub(crate) fn cant_do(&mut self, f: u32)
        ensures abilities { self.new ≡ without_ability f self.old }
        ensures able { (g : ℕ) → is_able g self.new ≡ (not (g == f) && is_able g self.old) }
    {
        let _timeout = self.abilities.shift_remove(&f);
    }

    /// Takes out the ability that was added last.
    pub(crate) fn pop_ability(&mut self) -> Option<u32>
        ensures others { self.new ≡ record self.old { abilities = self.new.abilities } }
        ensures some { IfSome result (λ f. IsTrue (is_able f self.old)) }
        ensures able { IfSome result (λ f. (g : ℕ) → is_able g self.new ≡ (not (g == f) && is_able g self.old)) }
        ensures shorter { IfSome result (λ f. length self.new.abilities < length self.old.abilities) }
        ensures none { IfNone result (self.new.abilities ≡ []) }
        ensures kept { IfNone result (self.new ≡ self.old) }
    {
        let (f, _) = self.abilities.pop()?;
        Some(f)
    }

    /// Whether it can do the function.
    pub(crate) fn is_able(&self, f: u32) -> bool
        ensures { result ≡ is_able f self.now }
    {
        self.abilities.contains_key(&f)
    }
}
