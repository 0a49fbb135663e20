//! A job server over sockets, and the program `gmd` as a function of its arguments. The work of the server's threads is
//! in gm_threads, and the theorems about them are in gm_slots and gm_promise.
#![tactic(auto)]

mod outcome;
mod run;

pub use gm_delivery::{WriteFault, write_turn};
pub use gm_report::ServeError;
pub use gm_session::{Gate, SessionEnd, read_session};
pub use gm_threads::{Served, Settings, serve};
pub use run::run_words;
