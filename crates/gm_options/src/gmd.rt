//! The arguments of `gmd`.

ghost use Rattle.std.specs.Prelude.{◌≡◌, IfOk, map};
ghost use Rattle.clap.specs.Words.{app_of, FailsBy};
ghost use Rattle.gm_options.specs.Words.{gmd_app, fault_in, Reads};
ghost use Rattle.gm_options.specs.Words.{with_address_rules, with_name_rule, with_timeout_rule, with_threads_rule, with_flag_rules};

use crate::options::{
    JOBS, ServerOptions, flag, is_either_given, is_given, number, server_options, short_number,
    text, with_server_options,
};
use clap::{Command, Error};
use gm_admin::VERSION;
use std::alloc::{AllocError, Global};
use std::convert::AsStr;

/// The headings in help of the options: where it listens, what serves its connections, and what is asked or tried.
const LISTENING: &str = "Where it listens";

const THREADS: &str = "Connections and threads";

const TRIALS: &str = "Trials and questions";

/// The end of help.
const EXAMPLE: &str = "Example: gmd --listen 127.0.0.1 --slots 1024
It prints 'gmd: listening' when it takes connections. The line 'shutdown', sent to its port, ends it.";

/// The values of the arguments of `gmd`.
#[derive(Clone, Copy)]
pub struct Args<'a> {
    /// The port to listen on.
    pub port: u16,
    /// The address to listen on, or a name.
    pub listen: &'a str,
    /// Whether the port or the address was given.
    pub has_address: bool,
    /// The name in job handles.
    pub name: &'a str,
    /// The values of the options that every job server has.
    pub server: ServerOptions,
    /// After how many seconds a peer that vanished is found out; at 0 the system decides.
    pub peer_timeout: u16,
    /// Whether that was given.
    pub has_peer_timeout: bool,
    /// How many threads serve all connections; at 0 each has two of its own.
    pub io_threads: u16,
    /// Whether that was given.
    pub has_io_threads: bool,
    /// Whether it only prints the settings.
    pub check: bool,
    /// Whether it keeps a tape.
    pub tape: bool,
}

/// The command with the options of where it listens. Their letters are those of gearmand(8).
fn with_address<'a>(alloc: Global, command: Command<'a>) -> Result<Command<'a>, AllocError>
    ensures { IfOk result (λ made. app_of made ≡ with_address_rules (app_of command.entry)) }
{
    command
        .arg(
            number(alloc, "port", 1, 65_535, "4730", "The port to listen on")
                .short('p')
                .help_heading(LISTENING),
        )?
        .arg(
            text(
                alloc,
                "listen",
                "ADDR",
                "0.0.0.0",
                "The address to listen on, or a name: the first of its addresses that works",
            )
            .short('L')
            .help_heading(LISTENING),
        )
}

/// The command with the option of what it is called.
fn with_name<'a>(alloc: Global, command: Command<'a>) -> Result<Command<'a>, AllocError>
    ensures { IfOk result (λ made. app_of made ≡ with_name_rule (app_of command.entry)) }
{
    command.arg(text(
        alloc,
        "name",
        "NAME",
        "gmd",
        "The name in job handles: 1 to 40 letters, digits, dots and hyphens",
    )
    .help_heading(JOBS))
}

/// The command with the option of when a peer that vanished is found out.
fn with_peer_timeout<'a>(alloc: Global, command: Command<'a>) -> Result<Command<'a>, AllocError>
    ensures { IfOk result (λ made. app_of made ≡ with_timeout_rule (app_of command.entry)) }
{
    command.arg(
        number(
            alloc,
            "peer-timeout",
            0,
            32_767,
            "120",
            "Disconnects a peer that vanished, or leaves its bytes unread, after about this time; 0 leaves it to the system",
        )
        .value_name("SECONDS")
        .help_heading(THREADS),
    )
}

/// The command with the option of how many threads there are.
fn with_io_threads<'a>(alloc: Global, command: Command<'a>) -> Result<Command<'a>, AllocError>
    ensures { IfOk result (λ made. app_of made ≡ with_threads_rule (app_of command.entry)) }
{
    command.arg(number(
        alloc,
        "io-threads",
        0,
        64,
        "0",
        "Has N threads read and write for all connections; 0 gives each connection two of its own",
    )
    .help_heading(THREADS))
}

/// The command with the options that take nothing.
fn with_flags<'a>(alloc: Global, command: Command<'a>) -> Result<Command<'a>, AllocError>
    ensures { IfOk result (λ made. app_of made ≡ with_flag_rules (app_of command.entry)) }
{
    command
        .arg(flag(
            alloc,
            "tape",
            "Records every accepted call with its bytes, and when the server ends, compares the record with what each connection was told: status 4 if they differ. The record stays in memory and grows with each call",
        )
        .help_heading(TRIALS))?
        .arg(flag(alloc, "check", "Prints the settings and exits").help_heading(TRIALS))
}

/// The command with what help says of the program.
fn described<'a>(command: Command<'a>) -> Command<'a>
    ensures { app_of result ≡ app_of command.entry }
{
    command.about("A Gearman job server").after_help(EXAMPLE)
}

/// The program's command: its options, with the range and the default of each.
fn command<'a>(alloc: Global) -> Result<Command<'a>, AllocError>
    ensures { IfOk result (λ made. app_of made ≡ gmd_app) }
{
    let command = described(Command::new(alloc, "gmd").version(VERSION));
    let command = with_name(alloc, with_address(alloc, command)?)?;
    let command = with_peer_timeout(alloc, with_server_options(alloc, command)?)?;
    with_flags(alloc, with_io_threads(alloc, command)?)
}

/// Reads the arguments of `gmd`. The first one is the program's name. An error is clap's: what is wrong with them, help
/// or the version that they ask for, or that there was no memory.
pub fn parse_args<'a, S: AsStr>(alloc: Global, args: &'a [S]) -> Result<Args<'a>, Error>
    ensures kinds { FailsBy (fault_in (map S.text args.entry.now)) result }
    ensures reads { IfOk result (Reads (map S.text args.entry.now)) }
{
    let matches = command(alloc)?.try_get_matches_from(args)?;
    Ok(Args {
        port: short_number(&matches, "port", 4730),
        listen: matches.get_str("listen").unwrap_or("0.0.0.0"),
        has_address: is_either_given(&matches, "port", "listen"),
        name: matches.get_str("name").unwrap_or("gmd"),
        server: server_options(&matches),
        peer_timeout: short_number(&matches, "peer-timeout", 120),
        has_peer_timeout: is_given(&matches, "peer-timeout"),
        io_threads: short_number(&matches, "io-threads", 0),
        has_io_threads: is_given(&matches, "io-threads"),
        check: is_given(&matches, "check"),
        tape: is_given(&matches, "tape"),
    })
}
