//! The meaning of packets and text lines, and the answers that don't depend on what a server holds. Job servers of
//! every kind share them, however they keep their jobs.
#![tactic(auto)]

mod actions;
mod answers;
mod deadlines;
mod events;
mod faults;
mod handles;
mod lines;
mod reading;
mod refusal;

pub use actions::{Action, Report, Submission, WorkPacket};
pub use answers::{JobRef, assignment, known_status, unknown_status};
pub use deadlines::deadline_after;
pub use events::ReadEvent;
pub use faults::append_fault;
pub use handles::{handle, number_in};
pub use lines::read_line;
pub use refusal::Refusal;
