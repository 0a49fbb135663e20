//! The table of connections.

ghost use Rattle.std.specs.Prelude.{◌≡◌, ℕ, ◌<◌, ◌≤◌, ◌↔◌, ◌⊎◌, true, false, not, ◌&&◌, ◌==◌, [], IsTrue, length, slice_get};
ghost use Rattle.std.specs.Prelude.{IfSome, IfNone, IfOk, IfErr, OnOk, OnErr, Err};
ghost use Rattle.gm_conns.specs.Connections.{closed, opened, shut, with_option, with_phase, with_id, with_ability, without_ability};
ghost use Rattle.gm_conns.specs.Connections.{without_abilities, with_last, index_of, timeout_of};
ghost use Rattle.gm_conns.specs.ConnTables.{conn, IsOpen, is_touched, able_count, is_sleeper, Changes, IsLeastFree, IsFull, LosesAbilities};

mod waiting;

use crate::able::{AbleSet, cover};
use crate::conn::Conn;
use crate::slot_set::SlotSet;
use gm_notes::{ApplyError, Phase};
use std::alloc::{AllocError, Global};
use std::marker::Model;

/// The connections of a server, by slot.
///
/// Every call with a slot, except `is_open`, requires it to be open. A refused call changes nothing, and a call that
/// can't be refused takes no memory.
#[derive(Drop)]
pub struct Conns {
    alloc: Global,
    conns: Vec<Conn>,
    // By function.
    able: Vec<AbleSet>,
    free: SlotSet,
    asleep: SlotSet,
    touched: SlotSet,
}

impl Model for Conns {
    ghost use Rattle.gm_conns.specs.ConnTables.{Table, IsKept};

    ghost Value = { Table };

    ghost view = { λ t. record { conns = t.conns.items; touched = t.touched } };

    ghost invariant = { λ t. IsKept t.conns.items t.able.items t.free t.asleep };
}

impl Conns {
    /// A table of at most 1,024 slots, none of them open.
    pub fn new(alloc: Global, slots: u32) -> Result<Conns, AllocError>
        requires { slots ≤ 1024 }
        ensures slots { IfOk result (λ table. length table.conns ≡ slots) }
        ensures closed { IfOk result (λ table. (c : ℕ) → conn table c ≡ closed) }
        ensures untouched { IfOk result (λ table. (c : ℕ) → is_touched table c ≡ false) }
    {
        let mut conns = Vec::new(alloc);
        let mut free = SlotSet::new();
        for slot in 0..slots {
            conns.push(Conn::new(alloc))?;
            free.insert(slot);
        }
        Ok(Conns {
            alloc,
            conns,
            able: Vec::new(alloc),
            free,
            asleep: SlotSet::new(),
            touched: SlotSet::new(),
        })
    }

    /// How many slots there are.
    pub fn slots(&self) -> u32
        ensures value { result ≡ length self.now.conns }
        ensures most { result ≤ 1024 }
    {
        self.conns.len() as u32
    }

    /// Whether a connection is in the slot. If not, nothing is known of the slot and nothing waits for it.
    pub fn is_open(&self, slot: u32) -> bool
        ensures value { result ≡ (conn self.now slot).is_open }
        ensures closed { result ≡ false → conn self.now slot ≡ closed }
    {
        match self.conns.get(slot as usize) {
            Some(conn) => conn.open,
            None => false,
        }
    }

    /// Opens a connection from this address in the least slot that isn't open. `NoSlot` comes if every slot is
    /// open, and otherwise `Memory` if there is no memory for the address.
    pub fn open(&mut self, addr: &[u8]) -> Result<u32, ApplyError>
        ensures slot { IfOk result (λ slot. IsLeastFree slot self.old) }
        ensures opened { IfOk result (λ slot. Changes slot (λ _. opened addr.now) true self.old self.new) }
        ensures full { (result ≡ Err ApplyError.NoSlot) ↔ IsFull self.old }
        ensures refusal { IfErr result (λ e. (e ≡ ApplyError.NoSlot) ⊎ (e ≡ ApplyError.Memory)) }
        ensures err { OnErr result (self.new ≡ self.old) }
    {
        let Some(slot) = self.free.next(0) else {
            return Err(ApplyError::NoSlot);
        };
        let addr = Vec::from_slice(self.alloc, addr)?;
        let conn = &mut self.conns[slot as usize];
        conn.open = true;
        conn.addr = addr;
        self.free.remove(slot);
        self.touched.insert(slot);
        Ok(slot)
    }

    /// The connection ends, with all that was known of it.
    pub fn close(&mut self, slot: u32)
        requires { IsOpen self.old slot }
        ensures { Changes slot (λ _. closed) true self.old self.new }
    {
        self.reset(slot);
        let conn = &mut self.conns[slot as usize];
        *conn = Conn::new(self.alloc);
        self.free.insert(slot);
        self.asleep.remove(slot);
        self.touched.insert(slot);
    }

    /// The connection takes no more requests.
    pub fn shut_down(&mut self, slot: u32)
        requires { IsOpen self.old slot }
        ensures { Changes slot shut true self.old self.new }
    {
        let conn = &mut self.conns[slot as usize];
        conn.shut = true;
        self.touched.insert(slot);
    }

    /// Whether the connection was shut down.
    pub fn is_shut(&self, slot: u32) -> bool
        requires { IsOpen self.now slot }
        ensures { result ≡ (conn self.now slot).is_shut }
    {
        self.conns[slot as usize].shut
    }

    /// The connection can do the function, with this timeout. An ability that it had keeps its position. Out of
    /// memory, nothing changes.
    pub fn can_do(&mut self, slot: u32, f: u32, timeout: u32) -> Result<(), AllocError>
        requires { IsOpen self.old slot }
        ensures ok { OnOk result (Changes slot (with_ability f timeout) false self.old self.new) }
        ensures err { OnErr result (self.new ≡ self.old) }
    {
        cover(&mut self.able, f)?;
        let conn = &mut self.conns[slot as usize];
        let was_able = conn.is_able(f);
        conn.can_do(f, timeout)?;
        if !was_able {
            let able = &mut self.able[f as usize];
            able.insert(slot);
        }
        Ok(())
    }

    /// The connection can't do the function any more.
    pub fn cant_do(&mut self, slot: u32, f: u32)
        requires { IsOpen self.old slot }
        ensures { Changes slot (without_ability f) false self.old self.new }
    {
        let conn = &mut self.conns[slot as usize];
        let was_able = conn.is_able(f);
        conn.cant_do(f);
        if was_able {
            let able = &mut self.able[f as usize];
            able.remove(slot);
        }
    }

    // Takes out the ability that was added last, if there is one.
    fn pop_ability(&mut self, slot: u32) -> bool
        requires { IsOpen self.old slot }
        ensures loses { LosesAbilities slot self.old self.new }
        ensures shorter { IsTrue result → length (conn self.new slot).abilities < length (conn self.old slot).abilities }
        ensures none { result ≡ false → (conn self.new slot).abilities ≡ [] }
    {
        let conn = &mut self.conns[slot as usize];
        match conn.pop_ability() {
            Some(f) => {
                let able = &mut self.able[f as usize];
                able.remove(slot);
                true
            }
            None => false,
        }
    }

    /// The connection can do nothing any more.
    pub fn reset(&mut self, slot: u32)
        requires { IsOpen self.old slot }
        ensures { Changes slot without_abilities false self.old self.new }
    {
        while self.pop_ability(slot) {}
    }

    /// The ability at an index, in the order added: the function and its timeout.
    pub fn able(&self, slot: u32, i: usize) -> Option<(u32, u32)>
        requires { IsOpen self.now slot }
        ensures { result ≡ slice_get (conn self.now slot).abilities i }
    {
        let conn = &self.conns[slot as usize];
        match conn.abilities.get_index(i) {
            Some((f, timeout)) => Some((*f, *timeout)),
            None => None,
        }
    }

    /// How many functions the connection can do.
    pub fn abilities_len(&self, slot: u32) -> usize
        requires { IsOpen self.now slot }
        ensures { result ≡ length (conn self.now slot).abilities }
    {
        let conn = &self.conns[slot as usize];
        conn.abilities.len()
    }

    /// The timeout of the ability for the function.
    pub fn timeout_of(&self, slot: u32, f: u32) -> Option<u32>
        requires { IsOpen self.now slot }
        ensures { result ≡ timeout_of f (conn self.now slot) }
    {
        let conn = &self.conns[slot as usize];
        conn.abilities.get(&f).copied()
    }

    /// The position of the ability for the function, in the order added.
    pub fn index_of(&self, slot: u32, f: u32) -> Option<usize>
        requires { IsOpen self.now slot }
        ensures value { result ≡ index_of f (conn self.now slot) }
        ensures within { IfSome result (λ i. i < length (conn self.now slot).abilities) }
    {
        let conn = &self.conns[slot as usize];
        conn.abilities.get_index_of(&f)
    }

    /// The last job that the connection was given was one of this function.
    pub fn set_last(&mut self, slot: u32, f: u32)
        requires { IsOpen self.old slot }
        ensures { Changes slot (with_last f) false self.old self.new }
    {
        let conn = &mut self.conns[slot as usize];
        conn.last = Some(f);
    }

    /// The function of the last job that the connection was given; none before the first.
    pub fn last(&self, slot: u32) -> Option<u32>
        requires { IsOpen self.now slot }
        ensures { result ≡ (conn self.now slot).last }
    {
        let conn = &self.conns[slot as usize];
        conn.last
    }

    /// How many connections can do the function. Of a slot without a connection nothing is known, so it isn't counted.
    pub fn able_count(&self, f: u32) -> u32
        ensures value { result ≡ able_count self.now f }
        ensures closed { (c : ℕ) → (conn self.now c).is_open ≡ false → conn self.now c ≡ closed }
    {
        match self.able.get(f as usize) {
            Some(able) => able.count(),
            None => 0,
        }
    }

    /// Gives the connection this id. Out of memory, nothing changes.
    pub fn set_id(&mut self, slot: u32, id: &[u8]) -> Result<(), AllocError>
        requires { IsOpen self.old slot }
        ensures ok { OnOk result (Changes slot (with_id id.now) false self.old self.new) }
        ensures err { OnErr result (self.new ≡ self.old) }
    {
        let id = Vec::from_slice(self.alloc, id)?;
        let conn = &mut self.conns[slot as usize];
        conn.id = id;
        Ok(())
    }

    /// The id of the connection, empty until it is set.
    pub fn id(&self, slot: u32) -> &[u8]
        requires { IsOpen self.now slot }
        ensures { result.now ≡ (conn self.now slot).id }
    {
        let conn = &self.conns[slot as usize];
        conn.id.as_slice()
    }

    /// The address that the connection came from.
    pub fn addr(&self, slot: u32) -> &[u8]
        requires { IsOpen self.now slot }
        ensures { result.now ≡ (conn self.now slot).addr }
    {
        let conn = &self.conns[slot as usize];
        conn.addr.as_slice()
    }

    /// Sets the option of the connection.
    pub fn set_option(&mut self, slot: u32)
        requires { IsOpen self.old slot }
        ensures { Changes slot with_option false self.old self.new }
    {
        let conn = &mut self.conns[slot as usize];
        conn.option = true;
    }

    /// Whether the option was set.
    pub fn has_option(&self, slot: u32) -> bool
        requires { IsOpen self.now slot }
        ensures { result ≡ (conn self.now slot).has_option }
    {
        let conn = &self.conns[slot as usize];
        conn.option
    }

    /// Whether the connection sleeps.
    pub fn phase(&self, slot: u32) -> Phase
        requires { IsOpen self.now slot }
        ensures { result ≡ (conn self.now slot).phase }
    {
        let conn = &self.conns[slot as usize];
        conn.phase
    }

    /// Puts the connection to sleep, or wakes it.
    pub fn set_phase(&mut self, slot: u32, phase: Phase)
        requires { IsOpen self.old slot }
        ensures { Changes slot (with_phase phase) true self.old self.new }
    {
        let conn = &mut self.conns[slot as usize];
        conn.phase = phase;
        self.asleep.set(slot, phase.is_asleep());
        self.touched.insert(slot);
    }

    /// The least slot from `from` on that sleeps and can do the function.
    pub fn next_sleeper(&self, f: u32, from: u32) -> Option<u32>
        ensures found { IfSome result (λ slot. (from ≤ slot) × IsTrue (is_sleeper f (conn self.now slot))) }
        ensures open { IfSome result (λ slot. IsOpen self.now slot) }
        ensures within { IfSome result (λ slot. (slot < length self.now.conns) × (slot < 1024)) }
        ensures least { IfSome result (λ slot. (c : ℕ) → from ≤ c → c < slot → is_sleeper f (conn self.now c) ≡ false) }
        ensures none { IfNone result ((c : ℕ) → from ≤ c → is_sleeper f (conn self.now c) ≡ false) }
    {
        match self.able.get(f as usize) {
            Some(able) => self.asleep.next_in_both(able.slots(), from),
            None => None,
        }
    }

    /// The least slot that was touched since it was last taken, which is taken out: a slot is touched when
    /// it is opened, closed or shut, when its phase is set, and when bytes come to wait. So none is missing whose
    /// phase or shut have changed, or for which more bytes wait.
    pub fn take_touched(&mut self) -> Option<u32>
        ensures found { IfSome result (λ slot. IsTrue (is_touched self.old slot)) }
        ensures least { IfSome result (λ slot. (c : ℕ) → c < slot → is_touched self.old c ≡ false) }
        ensures rest { IfSome result (λ slot. (c : ℕ) → is_touched self.new c ≡ (not (c == slot) && is_touched self.old c)) }
        ensures none { IfNone result ((c : ℕ) → is_touched self.old c ≡ false) }
        ensures conns { self.new.conns ≡ self.old.conns }
    {
        match self.touched.next(0) {
            Some(slot) => {
                self.touched.remove(slot);
                Some(slot)
            }
            None => None,
        }
    }
}
