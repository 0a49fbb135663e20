//! A job server that answers from tables: the theorems about the abstract server hold of it.
#![tactic(auto)]

mod server;
mod telling;
mod written;

pub use server::Core;
