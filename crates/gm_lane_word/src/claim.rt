//! Held by the thread that has the lane and owes an attempt.

ghost use Rattle.std.specs.Prelude.{◌≡◌, ◌<◌};
ghost use Rattle.std.specs.Fn.{FnOnceReturnsAt, FnOnceTakesAt};
ghost use Rattle.gm_lane_word.specs.Seats.{with_attempt, with_hand_over};

use crate::attempt::Attempt;
use crate::rule::{HandOver, StartAttempt};
use crate::tally::Tally;
use crate::view::LaneView;
use crate::word::{BUSY, LEFT, LaneWord};
use atomic_table::Seat;
use std::marker::Model;

/// Has the lane, and owes it an attempt. It can't be dropped: it begins an attempt, or hands the lane over.
///
/// Contracts see which lane, and what was done at it.
pub struct Claim<'a, T> {
    pub(crate) word: &'a LaneWord<T>,
    pub(crate) seat: Seat<(), LaneView>,
}

impl<'a, T> Model for Claim<'a, T> {
    ghost use Rattle.gm_lane_word.specs.declared.view.Hold.TheVariants.{Claims};
    ghost use Rattle.gm_lane_word.specs.Seats.{Count, count_of, SitsAt};

    ghost Value = { Count };

    ghost view = { λ o. count_of o.seat };

    ghost invariant = { λ o. SitsAt Claims o.word.now o.seat };
}

impl<'a, T> Claim<'a, T> {
    /// Begins an attempt, which follows all touches so far, and then runs `take` once, which takes what is queued.
    /// `take` is lent the `Attempt`, which there can't be before the attempt began, and the lane can't be given up
    /// before `take` returns.
    pub fn attempt<X, F: FnOnce(&Attempt<'a, T>) -> X>(self, take: F) -> (Attempt<'a, T>, X)
        requires { FnOnceTakesAt F.FnOnce take (with_attempt self) }
        ensures begun { result.0 ≡ with_attempt self.entry }
        ensures taken { FnOnceReturnsAt F.FnOnce take (with_attempt self.entry) result.1 }
    {
        // Modelled in models/lane.h.
        let Claim { word, mut seat } = self;
        word.table.shared.swap::<StartAttempt>(&mut seat, 0, BUSY);
        let attempt = Attempt { word, seat };
        let found = take(&attempt);
        (attempt, found)
    }

    /// Leaves the lane and the next attempt to the finisher, which is to be woken after this. The caller made an
    /// attempt before.
    pub fn hand_over(self) -> Tally
        requires { 0 < self.attempts }
        ensures { result ≡ with_hand_over self.entry }
    {
        // Modelled in models/lane.h.
        let Claim { word, mut seat } = self;
        word.table.shared.swap::<HandOver>(&mut seat, 0, LEFT);
        Tally { seat }
    }
}
