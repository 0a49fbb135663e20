//! The two halves of a connection's socket: one only reads, and the other only writes. No other code reads from a
//! connection or writes to it. Each half has a log of the bytes that it gave or took, and of the answers of its
//! calls.
#![tactic(auto)]

mod halves;
mod log;
mod source;
mod wire;
mod writer;

pub use halves::{Halves, ReadHalf, Socket};
pub use log::{Log, Logged};
pub use source::{Left, LoggedSource};
pub use wire::{KnownWriter, Wire};
pub use writer::LoggedWriter;
