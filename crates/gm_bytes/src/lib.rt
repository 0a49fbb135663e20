//! Bytes with several owners.
//!
//! A large packet is moved and shared, and not copied: the body of a job is the end of the buffer in which its
//! submission came. `SharedBytes` is such an end of a buffer. Its owners may be in different threads, and the buffer is
//! freed with the last of them. A `ByteQueue` holds the bytes that wait for a connection, or that are being sent to
//! one.
#![tactic(auto)]

mod byte_queue;
mod data;
mod run;
mod shared_bytes;

pub use byte_queue::{ByteQueue, SHARED_ROOM};
pub use data::{Data, LONG};
pub use shared_bytes::SharedBytes;
