//! How a connection ends: until when it is sent to, and the next step for it.

ghost use Rattle.std.specs.Prelude.{◌≡◌, ◌≤◌, ◌↔◌, ◌*◌, ◌-◌, ◌^◌, min, IsTrue, if◌then◌else◌, false};
ghost use Rattle.gm_delivery.specs.Lives.{later, most_time, state_if};

use gm_time::{ENDING_TIME_MS, MOST_ENDING_TIME_MS};

/// How far the sending to a connection is.
#[derive(Clone, Copy, PartialEq, Eq)]
pub enum OutboundState {
    /// It goes on.
    Open,
    /// All was sent, and no more is.
    Finished,
    /// It broke off: not all was sent, and no more is.
    Cut,
}

/// The next step for a connection, once all that could be sent to it was sent.
#[derive(Clone, Copy, PartialEq, Eq)]
pub enum Deed {
    /// Nothing, until there is something to send, or it is to end.
    Serve,
    /// The rest is sent, once the peer takes more.
    Send,
    /// The sending side was shut, which tells the peer. The bytes that it still sends are read and dropped for a while:
    /// closing a socket before that would have the system forget what the peer hasn't read yet.
    Linger,
    /// It is sent nothing more, and its reader is to find its end.
    HangUp,
    /// It is let go of, as nothing is read from it any more.
    LetGo,
}

/// How far a connection is, and its end. Times are of the clock that never goes back.
#[derive(Clone, Copy)]
pub struct Life {
    pub(crate) state: OutboundState,
    /// When its time is over, unless its peer takes some before.
    until: u64,
    /// When it is over whatever its peer takes.
    last: u64,
    /// Its time is over: it takes no more. Only `look` says so.
    pub(crate) is_over: bool,
}

impl Life {
    /// A connection that isn't to end. If it can't be sent to, it is cut.
    pub(crate) fn new(begins: bool) -> Life
        ensures state { result.state ≡ state_if begins }
        ensures unlimited { (result.until ≡ 2 ^ 64 - 1) × (result.last ≡ 2 ^ 64 - 1) × (result.is_over ≡ false) }
    {
        let state = if begins {
            OutboundState::Open
        } else {
            OutboundState::Cut
        };
        Life {
            state,
            until: u64::MAX,
            last: u64::MAX,
            is_over: false,
        }
    }

    /// Looks at the time, if the connection is to end: it gets more while its peer takes some, up to a limit for the
    /// whole end, and none when the server stops.
    pub(crate) fn look(&mut self, now: u64, is_stopping: bool, has_taken: bool)
        ensures state { self.new.state ≡ self.old.state }
        ensures until { self.new.until ≡ min (later now 2_000) (if has_taken then later now 2_000 else self.old.until) }
        ensures last { self.new.last ≡ min (later now (most_time is_stopping)) self.old.last }
        ensures over { IsTrue self.new.is_over ↔ (min self.new.until self.new.last ≤ now) }
    {
        // Modelled in models/lane.h.
        let most = if is_stopping {
            ENDING_TIME_MS
        } else {
            MOST_ENDING_TIME_MS
        };
        let until = now.saturating_add(ENDING_TIME_MS);
        self.until = if has_taken {
            until
        } else {
            until.min(self.until)
        };
        self.last = now.saturating_add(most).min(self.last);
        self.is_over = self.until.min(self.last) <= now;
    }
}
