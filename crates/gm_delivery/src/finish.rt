//! The work that a delivery leaves to do.

ghost use Rattle.std.specs.Prelude.{◌≡◌, Some, IsSome};
ghost use Rattle.std.specs.Fn.{FnOnceReturns};
ghost use Rattle.gm_delivery.specs.Leftovers.{finish_of, HandsOver, IsLeftBy};

use gm_feeder::Patience;
use gm_lane_word::Tally;

/// Which thread delivers.
#[derive(Clone, Copy)]
pub enum Deliverer {
    /// The slot's finisher, which does what others leave. It may wait for a slow peer.
    Finisher(Patience),
    /// The one that read from the connection, and reads no more.
    Reader,
    /// One that queued something.
    Other,
}

/// The work that a delivery left to do.
#[derive(Clone, Copy, PartialEq, Eq)]
pub enum Finish {
    /// The finisher is to come again: once the socket takes bytes, and in a while, as the connection's time may be over
    /// then.
    Pending,
    /// The finisher is to be woken.
    Again,
    /// The connection was let go of: its slot is to be closed.
    Gone,
}

/// The work that a thread leaves to do at a slot's lane, and its own work there, if any. It can't be dropped:
/// `settle` has the lane's finisher woken, if it is to come and doesn't know that. A lane that was handed over asks for
/// its finisher.
pub struct Leftover {
    slot: u32,
    /// None: the finisher has nothing to do until it is woken.
    finish: Option<Finish>,
    tally: Option<Tally>,
    ghost asks: { HandsOver tally → IsSome finish },
}

impl Leftover {
    /// The work that this thread leaves at the slot's lane, after this work of its own.
    pub(crate) fn new(
        slot: u32,
        finish: Option<Finish>,
        deliverer: Deliverer,
        tally: Option<Tally>,
    ) -> Leftover
        requires { HandsOver tally → IsSome finish }
        ensures slot { result.slot ≡ slot }
        ensures finish { result.finish ≡ finish_of finish deliverer }
        ensures by { IsLeftBy deliverer result.finish }
        ensures tally { result.tally ≡ tally }
    {
        // Modelled in models/lane.h.
        let finish = match finish {
            Some(Finish::Pending) => match deliverer {
                Deliverer::Finisher(_) => Some(Finish::Pending),
                Deliverer::Reader => Some(Finish::Again),
                Deliverer::Other => Some(Finish::Again),
            },
            _ => finish,
        };
        Leftover {
            slot,
            finish,
            tally,
        }
    }

    /// Says what is left to do. If the slot's finisher is to be woken, `wake` is called with the slot.
    pub fn settle<F: FnOnce(u32)>(self, wake: F) -> Option<Finish>
        requires { F.FnOnce.pre wake (self.slot, tt) }
        ensures finish { result ≡ self.finish }
        ensures woken { self.finish ≡ Some Finish.Again → FnOnceReturns F.FnOnce wake (self.slot, tt) tt }
    {
        // Modelled in models/lane.h.
        let Leftover {
            slot,
            finish,
            tally: _,
        } = self;
        match finish {
            Some(Finish::Again) => wake(slot),
            _ => {}
        }
        finish
    }
}
