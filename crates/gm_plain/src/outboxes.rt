//! The bytes that wait for each slot.

ghost use Rattle.std.specs.Prelude.{◌≡◌, ◌<◌, [], length, replicate, slice_set, IfOk, OnOk, OnErr};
ghost use Rattle.std.specs.List.{All, slice_index_or};
ghost use Rattle.gm_plain.specs.Outboxes.{bytes_of, with_bytes, with_bytes_each};

use std::alloc::{AllocError, Global};
use std::marker::Model;
use std::mem;

/// A copy of each outbox.
fn copy_each(alloc: Global, outboxes: &[Vec<u8>]) -> Result<Vec<Vec<u8>>, AllocError>
    ensures { IfOk result (λ copies. bytes_of copies.items ≡ bytes_of outboxes.now) }
{
    let mut copies = Vec::new(alloc);
    for outbox in outboxes {
        copies.push(Vec::from_slice(alloc, outbox.as_slice())?)?;
    }
    Ok(copies)
}

/// The bytes that wait, slot by slot.
#[derive(Drop)]
pub struct Outboxes {
    outboxes: Vec<Vec<u8>>,
}

impl Model for Outboxes {
    ghost use Rattle.std.specs.Prelude.{List, ℕ, map};

    ghost Value = { List (List ℕ) };

    ghost view = { λ a. map (λ outbox. outbox.items) a.outboxes.items };
}

impl Outboxes {
    /// Nothing waits for any slot.
    pub fn new(alloc: Global, slots: u32) -> Result<Outboxes, AllocError>
        ensures { IfOk result (λ outboxes. outboxes ≡ replicate slots []) }
    {
        let mut outboxes = Vec::with_capacity(alloc, slots as usize)?;
        for _ in 0..slots {
            outboxes.push(Vec::new(alloc))?;
        }
        Ok(Outboxes { outboxes })
    }

    /// A copy of all that waits.
    pub fn copy(&self, alloc: Global) -> Result<Outboxes, AllocError>
        ensures { IfOk result (λ copy. copy ≡ self.now) }
    {
        let outboxes = copy_each(alloc, self.outboxes.as_slice())?;
        Ok(Outboxes { outboxes })
    }

    /// Queues a text to a slot. Out of memory, it changes nothing.
    pub fn give(&mut self, slot: u32, text: &[u8]) -> Result<(), AllocError>
        requires { slot < length self.old }
        ensures ok { OnOk result (self.new ≡ with_bytes slot text.now self.old) }
        ensures err { OnErr result (self.new ≡ self.old) }
        ensures len { length self.new ≡ length self.old }
    {
        let outbox = &mut self.outboxes[slot as usize];
        outbox.extend_from_slice(text)
    }

    /// Queues a text to each of these slots, as often as it is listed. Out of memory, it changes nothing.
    pub fn give_all(&mut self, alloc: Global, slots: &[u32], text: &[u8]) -> Result<(), AllocError>
        requires { All (λ c. c < length self.old) slots.now }
        ensures ok { OnOk result (self.new ≡ with_bytes_each text.now slots.now self.old) }
        ensures err { OnErr result (self.new ≡ self.old) }
        ensures len { length self.new ≡ length self.old }
    {
        let mut copy = self.copy(alloc)?;
        for slot in slots {
            copy.give(*slot, text)?;
        }
        *self = copy;
        Ok(())
    }

    /// Takes what waits for a slot.
    pub fn take(&mut self, slot: u32) -> Vec<u8>
        requires { slot < length self.old }
        ensures taken { result.items ≡ slice_index_or self.old slot [] }
        ensures rest { self.new ≡ slice_set self.old slot [] }
        ensures len { length self.new ≡ length self.old }
    {
        let outbox = &mut self.outboxes[slot as usize];
        let empty = Vec::new(*outbox.allocator());
        mem::replace(outbox, empty)
    }
}
