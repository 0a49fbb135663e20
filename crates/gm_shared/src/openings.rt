//! How often each slot of a book was opened.

ghost use Rattle.std.specs.Prelude.{◌≡◌, replicate, IfOk};
ghost use Rattle.gm_shared.specs.Openings.{count_at, counted_up, total_of};

use gm_notes::Done;
use std::alloc::{AllocError, Global};
use std::marker::Model;

/// How often each slot of a book was opened. At the greatest `u64` a count stays there. Contracts see the counts.
#[derive(Drop)]
pub struct Openings {
    counts: Vec<u64>,
}

impl Model for Openings {
    ghost use Rattle.std.specs.Prelude.{ℕ, List};

    ghost Value = { List ℕ };

    ghost view = { λ o. o.counts.items };
}

impl Openings {
    /// None of this many slots was opened.
    pub(crate) fn new(alloc: Global, slots: u32) -> Result<Openings, AllocError>
        ensures { IfOk result (λ openings. openings ≡ replicate slots 0) }
    {
        let mut counts = Vec::new(alloc);
        counts.resize(slots as usize, 0)?;
        Ok(Openings { counts })
    }

    /// How often this slot was opened.
    pub fn of(&self, slot: u32) -> u64
        ensures { result ≡ count_at slot self.now }
    {
        match self.counts.get(slot as usize) {
            Some(count) => *count,
            None => 0,
        }
    }

    /// How often slots were opened in all. At the greatest `u64` it stays there.
    pub fn total(&self) -> u64
        ensures { result ≡ total_of self.now }
    {
        let mut total = 0u64;
        for count in &self.counts {
            total = total.saturating_add(*count);
        }
        total
    }

    /// Counts the opening that an event made, if it made one.
    pub(crate) fn count(&mut self, done: &Done)
        ensures { self.new ≡ counted_up done.now.opened self.old }
    {
        if let Some(slot) = done.opened
            && let Some(count) = self.counts.get_mut(slot as usize)
        {
            *count = count.saturating_add(1);
        }
    }
}
