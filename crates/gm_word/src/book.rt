//! The seat of the book.

ghost use Rattle.std.specs.Prelude.{◌≡◌, ◌<◌, length, MatchBool};
ghost use Rattle.gm_word.specs.declared.phase.Phase.TheVariants.{Awake, Asleep, Owed};
ghost use Rattle.gm_word.specs.Lines.{number, phase_for, kind_to, line_to, with_sleep, with_wake, with_stir, with_withdrawal};
ghost use Rattle.gm_word.specs.Lines.{with_take_found};
ghost use Rattle.gm_word.specs.Steps.{line_at};
ghost use Rattle.gm_word.specs.Seats.{with_line, looked};

use crate::phase::Phase;
use crate::rule::{Look, Swap, Withdraw};
use crate::table::SleepTable;
use crate::view::WordView;
use atomic_table::Seat;
use std::marker::Model;

pub(crate) const AWAKE: u64 = 0;

pub(crate) const OWED: u64 = 2;

// The word of a phase.
fn word_of(phase: Phase) -> u64
    ensures { result ≡ number phase }
{
    match phase {
        Phase::Awake => AWAKE,
        Phase::Asleep => 1,
        Phase::Owed => OWED,
    }
}

/// Changes the words as the book says. There is one for each table; it may cross threads.
///
/// Contracts see a line for each slot: the phase, how many NOOPs the slot was owed, how many of these
/// the book has found taken (`entered`), how many it has withdrawn, and how often it has asked the word (`looks`).
#[derive(Drop)]
pub struct BookSeat {
    pub(crate) seat: Seat<(), WordView>,
    // The phases of the lines, since a seat has no bytes.
    pub(crate) phases: Vec<Phase>,
}

impl Model for BookSeat {
    ghost use Rattle.gm_word.specs.Seats.{BookState, lines_of, SitsAtBook};

    ghost Value = { BookState };

    ghost view = { λ b. record { table = b.seat.table_id; lines = lines_of b.seat.me.0 } };

    ghost invariant = { λ b. SitsAtBook b.seat b.phases.items };
}

impl BookSeat {
    /// The phase of a slot. It takes no atomic step.
    pub fn phase(&self, slot: u32) -> Phase
        requires { slot < length self.now.lines }
        ensures { result ≡ (line_at slot self.now.lines).phase }
    {
        let at = slot as usize;
        self.phases[at]
    }

    // Writes the word of a phase, if no pen can change the word at the same time.
    fn swap_to(&mut self, table: &SleepTable, slot: u32, phase: Phase)
        requires table { self.old.table ≡ table.now }
        requires slot { slot < length self.old.lines }
        requires before { (line_at slot self.old.lines).phase ≡ phase_for (kind_to phase) }
        ensures { self.new ≡ with_line slot (line_to phase) self.old }
    {
        table
            .words
            .shared
            .swap::<Swap>(&mut self.seat, slot as usize, word_of(phase));
        self.phases[slot as usize] = phase;
    }

    /// The worker of the slot, which is awake, goes to sleep.
    pub fn sleep(&mut self, table: &SleepTable, slot: u32)
        requires table { self.old.table ≡ table.now }
        requires slot { slot < length self.old.lines }
        requires awake { (line_at slot self.old.lines).phase ≡ Awake }
        ensures { self.new ≡ with_line slot with_sleep self.old }
    {
        self.swap_to(table, slot, Phase::Asleep);
    }

    /// The worker of the slot, which is asleep, is owed a NOOP from now on.
    pub fn wake(&mut self, table: &SleepTable, slot: u32)
        requires table { self.old.table ≡ table.now }
        requires slot { slot < length self.old.lines }
        requires asleep { (line_at slot self.old.lines).phase ≡ Asleep }
        ensures { self.new ≡ with_line slot with_wake self.old }
    {
        self.swap_to(table, slot, Phase::Owed);
    }

    /// The worker of the slot, which is asleep, woke up by itself or is gone.
    pub fn stir(&mut self, table: &SleepTable, slot: u32)
        requires table { self.old.table ≡ table.now }
        requires slot { slot < length self.old.lines }
        requires asleep { (line_at slot self.old.lines).phase ≡ Asleep }
        ensures { self.new ≡ with_line slot with_stir self.old }
    {
        self.swap_to(table, slot, Phase::Awake);
    }

    /// Withdraws the NOOP that the slot is owed. True if it was withdrawn, false if the pen had taken it; the slot is
    /// awake after both. One try.
    pub fn withdraw(&mut self, table: &SleepTable, slot: u32) -> bool
        requires table { self.old.table ≡ table.now }
        requires slot { slot < length self.old.lines }
        requires owed { (line_at slot self.old.lines).phase ≡ Owed }
        ensures { MatchBool result (self.new ≡ with_line slot with_withdrawal self.old) (self.new ≡ with_line slot with_take_found self.old) }
    {
        // Modelled in models/jobs.pml.
        let found = table
            .words
            .shared
            .compare_exchange::<Withdraw>(&mut self.seat, slot as usize, OWED, AWAKE);
        self.phases[slot as usize] = Phase::Awake;
        found == OWED
    }

    /// Whether the NOOP that the slot is owed was taken; the slot is awake then. False if it is owed none, or the
    /// word says that it is still owed.
    pub fn look(&mut self, table: &SleepTable, slot: u32) -> bool
        requires table { self.old.table ≡ table.now }
        requires slot { slot < length self.old.lines }
        ensures { MatchBool result (((line_at slot self.old.lines).phase ≡ Owed) × (self.new ≡ with_line slot with_take_found self.old)) (self.new ≡ looked slot self.old) }
    {
        // Modelled in models/jobs.pml.
        let Phase::Owed = self.phases[slot as usize] else {
            return false;
        };
        let found = table
            .words
            .shared
            .load::<Look>(&mut self.seat, slot as usize);
        if found == OWED {
            return false;
        }
        self.phases[slot as usize] = Phase::Awake;
        true
    }
}
