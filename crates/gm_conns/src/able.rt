//! The slots that can do a function.

ghost use Rattle.std.specs.Prelude.{◌≡◌, ℕ, ◌+◌, ◌<◌, ◌&&◌, ◌||◌, ◌==◌, not, OnOk, false};
ghost use Rattle.std.specs.Vec.{vec_len};
ghost use Rattle.gm_conns.specs.Slots.{has};
ghost use Rattle.gm_conns.specs.ConnTables.{able_of};

use crate::slot_set::SlotSet;
use std::alloc::AllocError;
use std::marker::Model;

/// The slots that can do a function, and how many they are.
#[derive(Drop)]
pub(crate) struct AbleSet {
    slots: SlotSet,
    count: u32,
}

impl Model for AbleSet {
    ghost use Rattle.gm_conns.specs.ConnTables.{Able};

    ghost Value = { Able };

    ghost view = { λ s. record { slots = s.slots; count = s.count } };
}

impl AbleSet {
    pub(crate) fn new() -> AbleSet
        ensures slots { (i : ℕ) → has result.slots i ≡ false }
        ensures count { result.count ≡ 0 }
    {
        AbleSet {
            slots: SlotSet::new(),
            count: 0,
        }
    }

    pub(crate) fn slots(&self) -> &SlotSet
        ensures { result.now ≡ self.now.slots }
    {
        &self.slots
    }

    pub(crate) fn count(&self) -> u32
        ensures { result ≡ self.now.count }
    {
        self.count
    }

    /// One slot more can do it.
    pub(crate) fn insert(&mut self, slot: u32)
        requires within { slot < 1024 }
        requires few { self.old.count < 1024 }
        ensures slots { (i : ℕ) → has self.new.slots i ≡ ((i == slot) || has self.old.slots i) }
        ensures count { self.new.count ≡ self.old.count + 1 }
    {
        self.slots.insert(slot);
        self.count += 1;
    }

    /// One slot less can do it.
    pub(crate) fn remove(&mut self, slot: u32)
        requires within { slot < 1024 }
        requires some { 0 < self.old.count }
        ensures slots { (i : ℕ) → has self.new.slots i ≡ (not (i == slot) && has self.old.slots i) }
        ensures count { self.new.count + 1 ≡ self.old.count }
    {
        self.slots.remove(slot);
        self.count -= 1;
    }
}

/// Makes the table of functions long enough for this one.
pub(crate) fn cover(able: &mut Vec<AbleSet>, f: u32) -> Result<(), AllocError>
    ensures slots { (g i : ℕ) → has (able_of able.new.items g).slots i ≡ has (able_of able.old.items g).slots i }
    ensures counts { (g : ℕ) → (able_of able.new.items g).count ≡ (able_of able.old.items g).count }
    ensures ok { OnOk result (f < vec_len able.new) }
{
    while able.len() <= f as usize {
        able.push(AbleSet::new())?;
    }
    Ok(())
}
