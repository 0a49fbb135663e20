//! Options, and those of every job server.

ghost use Rattle.std.specs.Prelude.{◌≡◌, ◌≤◌, ◌||◌, ◌∷◌, [], IfOk, Some, codes, false, map, min, ℕ};
ghost use Rattle.clap.specs.Words.{app_of, found_of, is_broken, items_of, one_text, rows_of, rule_of};
ghost use Rattle.gm_options.specs.Options.{number_rule, text_rule, flag_rule, with_server_rules, ReadsNumber, is_given};

use clap::parser::ValueSource;
use clap::{Arg, ArgAction, ArgMatches, Command};
use gm_feeder::Limits;
use std::alloc::{AllocError, Global};

/// The most bytes of data that a packet may be allowed.
const MOST_DATA: u32 = 1_073_741_824;

/// The most bytes that a text line may have before its newline.
const MAX_LINE: u32 = 1024;

/// The heading in help of the options that say how many connections there may be, and how large a packet.
const ACCEPTED: &str = "What it accepts";

/// The heading in help of the options about jobs.
pub const JOBS: &str = "Jobs";

/// An option that takes a number from `least` to `most`, and this one if it isn't given.
pub fn number<'a>(
    alloc: Global,
    name: &'a str,
    least: i64,
    most: i64,
    default: &'a str,
    help: &'a str,
) -> Arg<'a>
    ensures rule { rule_of result ≡ number_rule name.entry.now least most default.entry.now }
    ensures long { result.long ≡ Some name.entry }
    ensures shown { map (λ text. text.now) (items_of result.val_names) ≡ codes "N" ∷ [] }
    ensures help { result.help ≡ Some help.entry }
    ensures local { result.global ≡ false }
{
    Arg::new(alloc, name)
        .long(name)
        .value_name("N")
        .value_parser(clap::value_parser!(u32).range(least..=most))
        .default_value(default)
        .help(help)
}

/// An option that takes a text, and this one if it isn't given.
pub fn text<'a>(
    alloc: Global,
    name: &'a str,
    value: &'a str,
    default: &'a str,
    help: &'a str,
) -> Arg<'a>
    ensures rule { rule_of result ≡ text_rule name.entry.now default.entry.now }
    ensures long { result.long ≡ Some name.entry }
    ensures shown { items_of result.val_names ≡ value.entry ∷ [] }
    ensures help { result.help ≡ Some help.entry }
    ensures local { result.global ≡ false }
{
    Arg::new(alloc, name)
        .long(name)
        .value_name(value)
        .default_value(default)
        .help(help)
}

/// An option that takes nothing.
pub fn flag<'a>(alloc: Global, name: &'a str, help: &'a str) -> Arg<'a>
    ensures rule { rule_of result ≡ flag_rule name.entry.now }
    ensures long { result.long ≡ Some name.entry }
    ensures help { result.help ≡ Some help.entry }
    ensures local { result.global ≡ false }
{
    Arg::new(alloc, name)
        .long(name)
        .action(ArgAction::SetTrue)
        .help(help)
}

/// The command with the options of every job server: how many connections there may be, how large a packet may be,
/// whether a worker's functions take turns, to how many workers a job may be given, and whether it serves as gearmand
/// does.
pub fn with_server_options<'a>(
    alloc: Global,
    command: Command<'a>,
) -> Result<Command<'a>, AllocError>
    ensures options { IfOk result (λ made. app_of made ≡ with_server_rules (app_of command.entry)) }
    ensures broken { IfOk result (λ made. is_broken made ≡ is_broken command.entry) }
{
    command
        .arg(number(
            alloc,
            "slots",
            1,
            1024,
            "64",
            "How many connections may be open at once, at most 1024",
        )
        .help_heading(ACCEPTED))?
        .arg(number(
            alloc,
            "max-data",
            0,
            1_073_741_824,
            "67108864",
            "How many bytes of data a packet may have",
        )
        .help_heading(ACCEPTED))?
        .arg(flag(
            alloc,
            "round-robin",
            "Lets a worker's functions take turns: a grab begins with the function that the worker added after the one of its last job",
        )
        .help_heading(JOBS))?
        .arg(number(
            alloc,
            "job-retries",
            0,
            4_294_967_295,
            "0",
            "Gives a job to at most N workers, and lets it fail when the last of them disconnects; 0 is no limit",
        )
        .help_heading(JOBS))?
        .arg(flag(
            alloc,
            "as-gearmand",
            "Serves what was written for gearmand unchanged: grabs of type 39, exceptions that end a job, time limits in milliseconds, and priorities that go before the order of functions",
        )
        .help_heading(JOBS))
}

/// The values of the options that every job server has.
#[derive(Clone, Copy, PartialEq, Eq)]
pub struct ServerOptions {
    /// How many connections may be open at once.
    pub slots: u32,
    /// How large a packet or a text line may be.
    pub limits: Limits,
    /// Whether a worker's functions take turns.
    pub round_robin: bool,
    /// To how many workers a job may be given; 0 is no limit.
    pub job_retries: u32,
    /// Whether requests mean what gearmand's applications mean by them.
    pub as_gearmand: bool,
}

/// Whether this option was given, so that its value isn't the default.
pub fn is_given(matches: &ArgMatches<'_>, name: &str) -> bool
    ensures { result ≡ is_given name.now (rows_of (found_of matches.now)) }
{
    match matches.value_source(name) {
        Some(ValueSource::CommandLine) => true,
        Some(ValueSource::DefaultValue) => false,
        None => false,
    }
}

/// Whether one of two options was given.
pub fn is_either_given(matches: &ArgMatches<'_>, one: &str, other: &str) -> bool
    ensures { result ≡ (is_given one.now (rows_of (found_of matches.now)) || is_given other.now (rows_of (found_of matches.now))) }
{
    if is_given(matches, one) {
        return true;
    }
    is_given(matches, other)
}

/// The number of 16 bits that an option asks for, and this one if it asks for none.
pub fn short_number(matches: &ArgMatches<'_>, option: &str, default: u16) -> u16
    ensures { ReadsNumber 16 (one_text (found_of matches.now) option.now) default result }
{
    matches.get_one::<u16>(option).unwrap_or(default)
}

/// The values of the options that every job server has, if the command had them.
pub fn server_options(matches: &ArgMatches<'_>) -> ServerOptions
    ensures slots { ReadsNumber 32 (one_text (found_of matches.now) (codes "slots")) 64 result.slots }
    ensures max_data { (max : ℕ) × ReadsNumber 32 (one_text (found_of matches.now) (codes "max-data")) 67108864 max × (result.limits.max_bytes ≡ min max 1073741824) }
    ensures max_line { result.limits.max_line ≡ 1024 }
    ensures round_robin { result.round_robin ≡ is_given (codes "round-robin") (rows_of (found_of matches.now)) }
    ensures job_retries { ReadsNumber 32 (one_text (found_of matches.now) (codes "job-retries")) 0 result.job_retries }
    ensures as_gearmand { result.as_gearmand ≡ is_given (codes "as-gearmand") (rows_of (found_of matches.now)) }
{
    let max_data = matches.get_one::<u32>("max-data").unwrap_or(67_108_864);
    ServerOptions {
        slots: matches.get_one::<u32>("slots").unwrap_or(64),
        limits: Limits {
            // The option's range has seen to this.
            max_bytes: max_data.min(MOST_DATA),
            max_line: MAX_LINE,
        },
        round_robin: is_given(matches, "round-robin"),
        job_retries: matches.get_one::<u32>("job-retries").unwrap_or(0),
        as_gearmand: is_given(matches, "as-gearmand"),
    }
}
