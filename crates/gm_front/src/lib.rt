//! The front of a job server: what comes from outside, as bytes and openings, and the steps that the server takes
//! of it.
//!
//! A front keeps a feeder for each open slot and hands the server what the bytes spell, whichever server it is and
//! wherever the bytes are cut. `laws` holds what is true of all inputs.
#![tactic(auto)]

mod feeding;
mod front;
mod input;
pub mod laws;
mod readings;
mod units;

pub use front::Front;
pub use input::{Input, StepError, Stepped};
pub use readings::{GRAB_JOB_ALL, Room, mean_event};
pub use units::{Next, next_event};
