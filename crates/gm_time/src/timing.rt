//! Time limits, and the clock. The quotes are from docs/OPERATING.md.

ghost use Rattle.std.specs.Prelude.{◌≡◌, Some, None, IfSome, is_none};

use std::time::{Clock, Duration, Instant};

/// How long a connection that is to end has for the bytes that it is still to be sent, while its peer takes nothing,
/// and then for the bytes that its peer still sends, which are read and dropped. Once the server stops, this is its
/// time in all: "What they haven't taken after two seconds is dropped."
pub const ENDING_TIME_MS: u64 = 2_000;

/// How long an end takes in all, if the server goes on: "as long as it takes some every two seconds, for up to 30
/// seconds".
pub const MOST_ENDING_TIME_MS: u64 = 30_000;

/// After how long an unfinished connection is looked at again, and how long a write waits that may wait.
pub const AGAIN_MS: u64 = 250;

/// How long an I/O thread waits for events at most, as a waking may fail.
pub const WAKING_TIME_MS: u64 = 1_000;

/// How long the control thread waits for a connection. A tick and the end may be late by this.
pub const ACCEPT_TIMEOUT_MS: u64 = 50;

/// For how long I/O threads may visit connections that are gone, before one that came is refused as there is no slot.
pub const VISITING_TIME_MS: u64 = 10;

/// For how long connections are refused without that wait, once it gave no slot: each slot has a connection that stays.
pub const FULL_TIME_MS: u64 = 100;

/// How long a thread goes on writing to others. The slots' finishers do the rest.
pub const DELIVERING_TIME_MS: u64 = 10;

/// How long a turn may be, in microseconds.
pub const TURN_TIME_US: u64 = 250;

/// How long nothing is written to standard error after a message was.
pub const PAUSE_MS: u64 = 1_000;

/// After how long it is reported again that workers grab jobs in vain: "said once, and once a minute while such packets
/// come".
pub const SAID_AGAIN_MS: u64 = 60_000;

/// How long the program's end waits for the reader of standard error.
pub const SAYING_TIME_MS: u64 = 2_000;

/// Whether this time has passed since this was first asked; `begun` keeps when that was. If the clock can't be
/// read, it has.
pub fn has_passed(rt: &impl Clock, begun: &mut Option<Instant>, time: Duration) -> bool
    ensures keeps { IfSome begun.old (λ first. begun.new ≡ Some first) }
    ensures first { begun.old ≡ None → result ≡ is_none begun.new }
{
    match begun {
        Some(begun) => match begun.elapsed(rt) {
            Ok(elapsed) => elapsed >= time,
            Err(_) => true,
        },
        None => {
            *begun = Instant::now(rt).ok();
            begun.is_none()
        }
    }
}

/// The present time of the clock that never goes back; the latest of all, if it can't be read.
pub fn now_ms(rt: &impl Clock) -> u64 {
    match rt.monotonic() {
        Ok(time) => {
            let second = time.as_secs().saturating_mul(1_000);
            second.saturating_add(u64::from(time.subsec_millis()))
        }
        Err(_) => u64::MAX,
    }
}
