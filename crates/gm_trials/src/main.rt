//! Tries the feeder and the front with the inputs of a script, which is read from standard input: its lines are those
//! that gm_play reads. It prints how often it tried, or says on standard error what went wrong.
#![tactic(auto)]

mod error;
mod growths;
mod prefixes;
mod script;
mod seen;
mod settings;

use error::TrialError;
use script::orders_of;
use settings::Settings;
use std::alloc::Global;
use std::hash::RandomState;
use std::process::ExitCode;
use std::{env, io};

/// The arguments, lent.
fn lend(alloc: Global, arguments: &[String]) -> Result<Vec<&str>, TrialError> {
    let mut lent = Vec::new(alloc);
    for argument in arguments {
        lent.push(argument.as_str())?;
    }
    Ok(lent)
}

/// Tries the inputs of a script, or of none, with the settings that these numbers say. It answers how often.
fn try_named(rt: &HostRuntime, trial: &str, numbers: &[&str]) -> Result<u64, TrialError> {
    let alloc = rt.alloc();
    let settings = Settings::parse(RandomState::new(rt)?, numbers)?;
    let script = io::read_to_string(alloc, rt.stdin())?;
    let orders = orders_of(alloc, script.as_str())?;
    match trial {
        "growth_front" => growths::growth_front(alloc, &settings, &orders),
        "cut_piece" => growths::cut_piece(alloc, &settings),
        "prefixes" => prefixes::prefixes(alloc, &settings, &orders),
        _ => Err(TrialError::Usage),
    }
}

/// Does what the arguments ask for, the first of which is the program's name.
fn act(rt: &HostRuntime, arguments: &[&str]) -> Result<(), TrialError> {
    match arguments {
        [_, trial, numbers @ ..] => {
            let count = try_named(rt, trial, numbers)?;
            println!(rt; "{count}")?;
            Ok(())
        }
        _ => Err(TrialError::Usage),
    }
}

fn run(rt: &HostRuntime) -> Result<(), TrialError> {
    let arguments: Vec<String> = env::args(rt)?.collect(rt.alloc())?;
    act(rt, &lend(rt.alloc(), &arguments)?)
}

fn main(rt: HostRuntime) -> ExitCode {
    match run(&rt) {
        Ok(()) => ExitCode::SUCCESS,
        Err(error) => {
            // A failure of standard error is ignored.
            let _ = eprintln!(rt; "gm_trials: {error}");
            ExitCode::FAILURE
        }
    }
}
