//! The word of a lane: which thread delivers to a connection, and when, so that no delivery is forgotten.
//!
//! A thread that queued something for a connection has a `Due`, with which it then touches its lane. If no thread has
//! the lane, this one has it now, and owes it an attempt, which takes what is queued. If another thread has it, it
//! tries again before it gives the lane up. A thread that finds the peer slow hands the lane over to the slot's
//! finisher: the thread that does what others leave. One atomic word for each lane says which thread is to try:
//!
//! - 0 idle: no thread has the lane, and no touch is without an attempt.
//! - 1 busy: a thread has the lane, and began an attempt after the last touch.
//! - 2 claimed: a thread has the lane, and is to begin an attempt.
//! - 3 left: the slot's finisher is to take the lane over, and to try.
//!
//! Whatever the threads do, in whatever order, each touch was followed by an attempt that began after it, or the word
//! says which thread owes one (`laws`). It isn't proved that a thread which owes an attempt also runs, nor what an
//! attempt takes: the caller's closure does that, which runs once in each attempt.
//!
//! The thread that has the lane holds a `Claim` or an `Attempt`. Neither can be dropped, so the lane is given up only
//! through its word. A call is one atomic step, but for `touch`, which is a load and at most one more. None waits or
//! tries again.
#![tactic(auto)]

mod attempt;
mod claim;
mod due;
pub mod laws;
mod rule;
mod tally;
mod view;
mod word;

pub use attempt::Attempt;
pub use claim::Claim;
pub use due::Due;
pub use tally::Tally;
pub use word::LaneWord;
