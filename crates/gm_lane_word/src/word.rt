//! The word of a lane.

ghost use Rattle.std.specs.Prelude.{◌≡◌};
ghost use Rattle.std.specs.Result.{MatchResult};
ghost use Rattle.gm_lane_word.specs.Seats.{Count, with_hand_over, Touched, LeftToOthers, TakenOver, TakenBefore};

use crate::claim::Claim;
use crate::due::Due;
use crate::rule::{Enter, HandOver, LaneRule, TakeOver, Touch};
use crate::tally::Tally;
use crate::view::LaneView;
use atomic_table::Table;
use std::alloc::{AllocError, Global};
use std::marker::{Model, PhantomData};

// No thread has the lane, and no touch is without an attempt.
pub(crate) const IDLE: u64 = 0;

// A thread has the lane, and began an attempt after the last touch.
pub(crate) const BUSY: u64 = 1;

// A thread has the lane, and is yet to begin an attempt.
pub(crate) const CLAIMED: u64 = 2;

// The slot's finisher is to take the lane over.
pub(crate) const LEFT: u64 = 3;

/// The word of one lane, which all threads share. Contracts see which one it is. An attempt at it ends with a `T`,
/// which says that what was queued was taken.
#[derive(Drop)]
pub struct LaneWord<T> {
    pub(crate) table: Table<(), LaneView, (), LaneRule, Global>,
    of: PhantomData<T>,
}

impl<T> Model for LaneWord<T> {
    ghost use Rattle.std.specs.Prelude.{◌≡◌};
    ghost use Rattle.atomic_table.specs.Seated.{TableId, table_id_coded};

    ghost Value = { TableId };

    ghost coded = { table_id_coded };

    ghost view = { λ w. w.table.shared.table_id };

    ghost invariant = { λ w. (w.table.shared.table_id.words ≡ 1) × (w.table.shared.table_id.slots ≡ 0) };
}

impl<T> LaneWord<T> {
    /// The word of an idle lane. An error means that there was no memory for it.
    pub fn new(alloc: Global) -> Result<LaneWord<T>, AllocError> {
        // Modelled in models/lane.h.
        let (table, _seat) = Table::of_words(alloc, &[IDLE], &())?;
        Ok(LaneWord {
            table,
            of: PhantomData,
        })
    }

    /// Touches the lane, after something was queued for its connection. If no thread had the lane, the caller has it
    /// now, and owes it an attempt. An error means that another thread tries, after this touch.
    pub fn touch<'a>(&'a self, due: Due) -> Result<Claim<'a, T>, Tally>
        ensures { MatchResult result (Touched self.now) (LeftToOthers self.now) }
    {
        // Modelled in models/lane.h.
        let Due { slot: _ } = due;
        let (found, mut seat) = self.table.shared.load_new_seat::<Enter>(0);
        if found >= CLAIMED {
            return Err(Tally { seat });
        }
        let found = self.table.shared.fetch_max::<Touch>(&mut seat, 0, CLAIMED);
        if found == IDLE {
            Ok(Claim { word: self, seat })
        } else {
            Err(Tally { seat })
        }
    }

    /// Touches the lane, and leaves it and the attempt to its finisher, which is to be woken after this. An error means
    /// that another thread tries, after this touch, or that it was left already.
    pub fn leave(&self, due: Due) -> Result<Tally, Tally>
        ensures { MatchResult result (λ tally. (count : Count) × Touched self.now count × (tally ≡ with_hand_over count)) (LeftToOthers self.now) }
    {
        // Modelled in models/lane.h.
        let claim = self.touch(due)?;
        let Claim { word, mut seat } = claim;
        word.table.shared.swap::<HandOver>(&mut seat, 0, LEFT);
        Ok(Tally { seat })
    }

    /// Touches the lane as the slot's finisher, which has it now if no thread had it or it was left: when it starts,
    /// since the last connection may have left the lane to its finisher, and whenever it is woken. An error means that
    /// another thread tries, after this touch.
    pub fn take_over<'a>(&'a self) -> Result<Claim<'a, T>, Tally>
        ensures { MatchResult result (TakenOver self.now) (TakenBefore self.now) }
    {
        // Modelled in models/lane.h.
        let (found, seat) = self.table.shared.swap_new_seat::<TakeOver>(0, CLAIMED);
        if found == IDLE || found == LEFT {
            Ok(Claim { word: self, seat })
        } else {
            Err(Tally { seat })
        }
    }

    /// The same, if the lane was left to it. An error means that it wasn't, or that another thread has taken it over
    /// since.
    pub fn take_over_left<'a>(&'a self) -> Result<Claim<'a, T>, Tally>
        ensures { MatchResult result (TakenOver self.now) (λ tally. (tally.lane ≡ self.now) × (tally.found ≡ 3 → ⊥) × (tally.attempts ≡ 0) × (tally.hand_overs ≡ 0)) }
    {
        // Modelled in models/lane.h.
        let (found, seat) = self.table.shared.load_new_seat::<Enter>(0);
        if found != LEFT {
            return Err(Tally { seat });
        }
        self.take_over()
    }
}
