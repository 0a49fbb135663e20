//! Held by the thread that has the lane and has begun an attempt.

ghost use Rattle.std.specs.Prelude.{◌≡◌};
ghost use Rattle.std.specs.Result.{MatchResult};
ghost use Rattle.gm_lane_word.specs.Seats.{with_hand_over};

use crate::claim::Claim;
use crate::rule::{FinishAttempt, HandOver};
use crate::tally::Tally;
use crate::view::LaneView;
use crate::word::{BUSY, IDLE, LEFT, LaneWord};
use atomic_table::Seat;
use std::marker::Model;

/// Has the lane, and has begun an attempt. It can't be dropped: it ends the attempt, or hands the lane over.
///
/// Contracts see which lane, and what was done at it.
pub struct Attempt<'a, T> {
    pub(crate) word: &'a LaneWord<T>,
    pub(crate) seat: Seat<(), LaneView>,
}

impl<'a, T> Model for Attempt<'a, T> {
    ghost use Rattle.gm_lane_word.specs.declared.view.Hold.TheVariants.{Attempts};
    ghost use Rattle.gm_lane_word.specs.Seats.{Count, count_of, SitsAt};

    ghost Value = { Count };

    ghost view = { λ l. count_of l.seat };

    ghost invariant = { λ l. SitsAt Attempts l.word.now l.seat };
}

impl<'a, T: Drop> Attempt<'a, T> {
    /// Ends the attempt, which took what was queued, and gives the lane up. An error means that the lane was touched
    /// since the attempt began: the caller still has it, and owes another attempt.
    pub fn finish(self, _taken: T) -> Result<Tally, Claim<'a, T>>
        ensures { MatchResult result (λ tally. tally ≡ self.entry) (λ claim. claim ≡ self.entry) }
    {
        // Modelled in models/lane.h.
        let Attempt { word, mut seat } = self;
        let found = word
            .table
            .shared
            .compare_exchange::<FinishAttempt>(&mut seat, 0, BUSY, IDLE);
        if found == BUSY {
            Ok(Tally { seat })
        } else {
            Err(Claim { word, seat })
        }
    }

    /// Leaves the lane to the finisher, which is to be woken after this: for an attempt that met a slow peer.
    pub fn hand_over(self) -> Tally
        ensures { result ≡ with_hand_over self.entry }
    {
        // Modelled in models/lane.h.
        let Attempt { word, mut seat } = self;
        word.table.shared.swap::<HandOver>(&mut seat, 0, LEFT);
        Tally { seat }
    }
}
