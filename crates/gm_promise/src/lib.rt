//! The promise, out to the threads: what the one history of a server's calls says of its connections and jobs, as laws.
//! No server needs it.
#![tactic(auto)]

pub mod laws;
