//! The limits of time of a server, and the clock that they are measured by.
#![tactic(auto)]

mod timing;

pub use timing::{
    ACCEPT_TIMEOUT_MS, AGAIN_MS, DELIVERING_TIME_MS, ENDING_TIME_MS, FULL_TIME_MS,
    MOST_ENDING_TIME_MS, PAUSE_MS, SAID_AGAIN_MS, SAYING_TIME_MS, TURN_TIME_US, VISITING_TIME_MS,
    WAKING_TIME_MS, has_passed, now_ms,
};
