//! A job server over sockets: the threads that take connections, read them (gm_session) and deliver to them
//! (gm_delivery).
//!
//! A connection has two threads. Its reader cuts what it reads into units and hands them to the book; its finisher
//! waits until others leave it something: a slow peer, or the connection's end. A thread that queued something for a
//! connection touches its lane, and sends it, unless another thread has the lane, which then tries again. With I/O
//! threads few threads do both for all connections, and wait at gm_poll.
#![tactic(auto)]

mod accepting;
mod crews;
mod keepalive;
mod progress;
mod server;
mod serving;
mod settings;
mod state;

pub use crews::Crews;
pub use gm_poll::{Hub, Poller};
pub use gm_slots::Served;
pub use server::{Service, serve, serve_with};
pub use settings::Settings;
