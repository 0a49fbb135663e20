//! The rule of a lane's word, and what each kind of step tells the seat that makes it.

ghost use Rattle.gm_lane_word.specs.Steps.{IsLane, TellsEnter, TellsTouch, TellsTakeOver, TellsAttempt, TellsFinish, TellsHandOver};
ghost use Rattle.gm_lane_word.specs.Lane.{fresh_view};

use crate::view::LaneView;
use atomic_table::{Play, TableRule};

/// The word is as steps of the six kinds, and no others, have left it.
pub(crate) struct LaneRule;

impl TableRule<(), LaneView, ()> for LaneRule {
    ghost holds = { λ _ s. IsLane s.words s.views };

    ghost first = { λ _. fresh_view };
}

/// A new seat comes, and has touched the lane if an attempt was owed anyway.
pub(crate) struct Enter;

impl Play<(), LaneView> for Enter {
    ghost then = { TellsEnter };
}

/// A seat touches the lane, and has it if no seat had it.
pub(crate) struct Touch;

impl Play<(), LaneView> for Touch {
    ghost then = { TellsTouch };
}

/// A new seat touches the lane, and has it if no seat had it or it was left.
pub(crate) struct TakeOver;

impl Play<(), LaneView> for TakeOver {
    ghost then = { TellsTakeOver };
}

/// The thread that has the lane begins an attempt.
pub(crate) struct StartAttempt;

impl Play<(), LaneView> for StartAttempt {
    ghost then = { TellsAttempt };
}

/// The thread that has the lane gives it up, unless it was touched since the attempt began.
pub(crate) struct FinishAttempt;

impl Play<(), LaneView> for FinishAttempt {
    ghost then = { TellsFinish };
}

/// The thread that has the lane leaves it to the finisher.
pub(crate) struct HandOver;

impl Play<(), LaneView> for HandOver {
    ghost then = { TellsHandOver };
}
