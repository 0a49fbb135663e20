//! The options that several programs take, those of `gmd`, and how a program gets its arguments.
#![tactic(auto)]

mod gmd;
pub mod laws;
mod options;
mod program;

pub use gmd::{Args, parse_args};
pub use options::{
    JOBS, ServerOptions, flag, is_either_given, is_given, number, server_options, short_number,
    text, with_server_options,
};
pub use program::{ArgumentsError, arguments};
