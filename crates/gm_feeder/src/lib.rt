//! Cuts the bytes of one connection into units.
//!
//! A unit is what a client of a job server sends at once: a request packet of the Gearman binary
//! protocol (the Gearman PROTOCOL document, "Binary Packet"), or a line of its text protocol
//! ("Administrative Protocol"). A packet begins with NUL, a line with any other byte. Bytes come in
//! pieces of any length; `Feeder` gives the units out whole, one after another, and returns a fault as soon as
//! no bytes that could follow make a unit. `laws` has the laws that hold for every stream.
#![tactic(auto)]

mod feeder;
mod head;
pub mod laws;
mod room;
mod source;
mod units;

pub use feeder::Feeder;
pub use source::{Answer, Patience, Source};
pub use units::{FeedFault, Limits, OwnedPacket, ReadError, Unit};
