//! The text protocol for administrators: what a line commands, and the texts that answer it.
//!
//! The commands and the texts are those of gearmand(8)'s administrative protocol as this server has
//! them. `Command::read` says what a line commands, or why it is no command; `write_status`,
//! `write_workers`, `write_ok`, `write_version` and `write_fault` append the answers. `status` and
//! `workers` are answered with a list: a line for each function or connection, and a last line with a dot.
#![tactic(auto)]

mod answers;
mod command;
mod fault;
mod lines;
mod sizes;
mod words;
mod writing;

pub use answers::{VERSION, write_fault, write_ok, write_status, write_version, write_workers};
pub use command::Command;
pub use fault::{AdminError, AdminFault};
pub use lines::{StatusRow, WorkerRow};
