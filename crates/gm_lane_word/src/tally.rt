//! Held by a thread that doesn't have the lane.

use crate::view::LaneView;
use atomic_table::Seat;
use std::marker::Model;

/// The tally of a thread's work at a lane, once the thread doesn't have the lane any more or never had it.
///
/// Contracts see which lane, and what was done at it.
#[derive(Drop)]
pub struct Tally {
    pub(crate) seat: Seat<(), LaneView>,
}

impl Model for Tally {
    ghost use Rattle.gm_lane_word.specs.declared.view.Hold.TheVariants.{Free};
    ghost use Rattle.gm_lane_word.specs.Seats.{Count, count_of, SitsAt};

    ghost Value = { Count };

    ghost view = { λ t. count_of t.seat };

    ghost invariant = { λ t. SitsAt Free t.seat.table_id t.seat };
}
