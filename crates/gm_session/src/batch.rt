//! Units that are applied together.

ghost use Rattle.std.specs.Prelude.{◌≡◌, ◌⊎◌, ◌+◌, ◌%◌, ◌^◌, ◌<◌, ◌≤◌, true, false, None, IsSome, IsNone};

use crate::host::Host;
use gm_shared::BookName;
use gm_time::{TURN_TIME_US, has_passed};
use std::sync::{MutexGuard, Wait};
use std::time::{Clock, Duration, Instant};

/// The most bytes of a turn that doesn't queue with the long turns: several requests. It waits for the batch that goes
/// on.
const MIDDLE_PIECE: usize = 2_048;

/// The most units of a turn: then other connections have theirs.
const MOST_UNITS: u32 = 64;

/// After how many units a turn reads the clock. It does so too after each unit that may be the work of many.
const UNITS_PER_CLOCK_READ: u32 = 8;

/// The units of a turn, after which other threads are notified of their effects.
#[derive(Drop)]
pub(crate) struct Batch<'s> {
    /// How many units don't wait for other sessions' batches.
    free_units: u32,
    /// Whether its turn is long, and waits behind the other long ones.
    is_long: bool,
    /// Held over the other units, so that no other session has such a batch.
    turn: Option<MutexGuard<'s, ()>>,
    /// Held with `turn`, if the turn is long.
    long_turn: Option<MutexGuard<'s, ()>>,
    pub(crate) units: u32,
    /// When its first unit that isn't free came, or else when the clock was first read.
    begun: Option<Instant>,
}

impl<'s> Batch<'s> {
    /// The batch of a turn over this many bytes.
    pub(crate) fn new(free_units: u32, length: usize) -> Batch<'s>
        ensures free { result.free_units ≡ free_units }
        ensures units { result.units ≡ 0 }
        ensures long { 2048 < length → result.is_long ≡ true }
        ensures turn { IsNone result.turn }
        ensures long_turn { IsNone result.long_turn }
        ensures begun { result.begun ≡ None }
    {
        Batch {
            free_units,
            is_long: length > MIDDLE_PIECE,
            turn: None,
            long_turn: None,
            units: 0,
            begun: None,
        }
    }

    /// Lets the next unit in. The first that isn't free waits until no other session of the server has such a batch, in
    /// a long turn behind the other long ones.
    #[inline(always)]
    pub(crate) fn admit<K: BookName>(&mut self, host: Option<&'s Host<K>>, rt: &(impl Wait + Clock))
        ensures free { self.new.free_units ≡ self.old.free_units }
        ensures units { self.new.units ≡ self.old.units }
        ensures waits { IsSome host.entry → self.old.free_units ≤ self.old.units → IsSome self.new.turn }
        ensures long_turn { IsSome host.entry → self.old.free_units ≤ self.old.units → IsNone self.old.turn → self.old.is_long ≡ true → IsSome self.new.long_turn }
        ensures long { self.new.is_long ≡ self.old.is_long }
        ensures begun { (self.new.begun ≡ self.old.begun) ⊎ (IsNone self.old.turn × IsSome self.new.turn) }
    {
        // Modelled in models/jobs.pml.
        if self.units >= self.free_units
            && self.turn.is_none()
            && let Some(host) = host
        {
            if self.is_long {
                self.long_turn = Some(host.long_turn.lock(rt));
            }
            self.turn = Some(host.turn.lock(rt));
            self.begun = Instant::now(rt).ok();
        }
    }

    /// Whether it has ended, after a unit more.
    pub(crate) fn has_ended(&mut self, rt: &impl Clock, may_be_long: bool) -> bool
        ensures free { self.new.free_units ≡ self.old.free_units }
        ensures units { self.new.units ≡ (self.old.units + 1) % 2 ^ 32 }
        ensures most { 64 ≤ self.new.units → result ≡ true }
        ensures looks { may_be_long ≡ false → self.new.units < 64 → 0 < self.new.units % 8 → result ≡ false }
    {
        // Modelled in models/jobs.pml.
        self.units = self.units.wrapping_add(1);
        self.units >= MOST_UNITS
            || (may_be_long || self.units % UNITS_PER_CLOCK_READ == 0)
                && has_passed(rt, &mut self.begun, Duration::from_micros(TURN_TIME_US))
    }
}
