//! How a thread waits for many connections at once, by epoll(7), and how others wake it. A `Hub` has the threads' ends
//! that all share; each thread has a `Poller`. Which thread serves a slot is the same for all its connections: the
//! number modulo the number of threads.
#![tactic(auto)]

mod hub;
mod poller;

pub use hub::Hub;
pub use poller::{Call, Poller};
