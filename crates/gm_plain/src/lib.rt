//! A server that means what the definitions say, and little else: the plain server.
#![tactic(auto)]

mod abilities;
mod connections;
mod function_facts;
mod jobs;
mod lists;
mod log;
mod outboxes;
mod server;

pub use server::PlainServer;
