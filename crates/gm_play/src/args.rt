//! The arguments of `gm_play`.

use clap::{Arg, Command, Error};
use gm_notes::MAX_FUNCTIONS;
use gm_options::{ServerOptions, flag, number, server_options, with_server_options};
use std::alloc::{AllocError, Global};
use std::convert::AsStr;

/// The values of the arguments.
#[derive(Clone, Copy)]
pub(crate) struct Args {
    pub(crate) plain: bool,
    pub(crate) first_job: u64,
    pub(crate) functions: u32,
    pub(crate) server: ServerOptions,
}

/// The option that takes the first job's number.
fn first_job<'a>(alloc: Global) -> Arg<'a> {
    Arg::new(alloc, "first-job")
        .long("first-job")
        .value_name("N")
        .value_parser(clap::value_parser!(u64).range(1..))
        .default_value("1")
        .help("The number of the first job")
}

/// The program's command: its options, with the range and the default of each.
fn command<'a>(alloc: Global) -> Result<Command<'a>, AllocError> {
    let command = Command::new(alloc, "gm_play")
        .about("Plays the script from standard input on a job server and prints the results")
        .arg(flag(
            alloc,
            "plain",
            "Plays it on the plain server, which searches a list of all that happened",
        ))?
        .arg(first_job(alloc))?
        .arg(number(
            alloc,
            "functions",
            1,
            i64::from(MAX_FUNCTIONS),
            "65536",
            "The most functions that the server knows",
        ))?;
    with_server_options(alloc, command)
}

/// Reads the arguments. The first one is the program's name.
pub(crate) fn parse_args<S: AsStr>(alloc: Global, args: &[S]) -> Result<Args, Error> {
    let matches = command(alloc)?.try_get_matches_from(args)?;
    Ok(Args {
        plain: matches.get_flag("plain"),
        first_job: matches.get_one::<u64>("first-job").unwrap_or(1),
        functions: matches.get_one::<u32>("functions").unwrap_or(MAX_FUNCTIONS),
        server: server_options(&matches),
    })
}
