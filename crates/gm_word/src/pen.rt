//! The seat of a slot's pen.

ghost use Rattle.std.specs.Prelude.{◌≡◌, ◌+◌, MatchBool};

use crate::book::{AWAKE, OWED};
use crate::rule::Take;
use crate::table::SleepTable;
use crate::view::WordView;
use atomic_table::Seat;
use std::marker::Model;

/// Takes the NOOPs of one slot. There is one for each slot; it may cross threads.
///
/// Contracts see its slot, how many NOOPs it has taken, and how often it has asked the word for one (`tries`).
#[derive(Drop)]
pub struct PenSeat {
    pub(crate) seat: Seat<(), WordView>,
    pub(crate) slot: u32,
}

impl Model for PenSeat {
    ghost use Rattle.gm_word.specs.Seats.{PenState, takes_in, tries_in, SitsAtPen};

    ghost Value = { PenState };

    ghost view = { λ p. record { table = p.seat.table_id; slot = p.slot; takes = takes_in p.seat.me.0; tries = tries_in p.seat.me.0 } };

    ghost invariant = { λ p. SitsAtPen p.seat p.slot };
}

impl PenSeat {
    /// Takes the NOOP that the slot is owed: true if this call took it, false if none was owed, or it was withdrawn
    /// first. One try, without waiting: the lock of the book isn't needed.
    pub fn take(&mut self, table: &SleepTable) -> bool
        requires { self.old.table ≡ table.now }
        ensures { MatchBool result (self.new ≡ record self.old { takes = self.old.takes + 1; tries = self.old.tries + 1 }) (self.new ≡ record self.old { tries = self.old.tries + 1 }) }
    {
        // Modelled in models/lane.h.
        let found = table
            .words
            .shared
            .compare_exchange::<Take>(&mut self.seat, self.slot as usize, OWED, AWAKE);
        found == OWED
    }
}
