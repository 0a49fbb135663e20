//! The functions of a job server and the jobs that wait for them.
//!
//! `Functions` holds the functions in the order in which they were first mentioned, each by a number,
//! with its limit and, for each priority, the queue of its waiting jobs and the room that is reserved in
//! it. Room is reserved before a job comes to wait, and stays reserved while the job runs, so that the job
//! can always return. No call costs more for the jobs that it doesn't touch.
#![tactic(auto)]

mod functions;
mod guesses;
mod name_hash;
mod ring;
mod surface;

pub use functions::{Counts, Functions, MentionError};
