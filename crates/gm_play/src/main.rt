//! Plays a script on a job server: reads it from standard input, and prints the outcome.
//!
//! A line of the script opens a connection or hands it bytes; what the server then has to say to its
//! connections is printed in hexadecimal digits.
#![tactic(auto)]

mod args;
mod error;
pub mod laws;
mod line;
mod order;
mod playing;
mod run_error;
mod text;

use args::{Args, parse_args};
use clap::error::ErrorKind;
use error::PlayError;
use gm_notes::Config;
use gm_options::arguments;
use playing::{PlaySettings, play};
use run_error::RunError;
use std::alloc::Global;
use std::hash::RandomState;
use std::io::{BufWriter, Write};
use std::process::ExitCode;

/// Says what is wrong with the arguments, or prints the help that they ask for.
fn tell(rt: &HostRuntime, error: &clap::Error) -> Result<(), RunError> {
    let Ok(()) = error.print(rt) else {
        return Err(RunError::Play(PlayError::Write));
    };
    match error.kind() {
        ErrorKind::DisplayHelp => Ok(()),
        ErrorKind::OutOfMemory => Err(RunError::Play(PlayError::Memory)),
        _ => Err(RunError::Arguments),
    }
}

/// The settings that are asked for.
fn settings_of(alloc: Global, args: Args) -> Result<PlaySettings, RunError> {
    let name = Vec::from_slice(alloc, b"gmd")?;
    let Ok(config) = Config::new(name, args.first_job, args.server.slots, args.functions) else {
        return Err(RunError::Arguments);
    };
    Ok(PlaySettings {
        config: config
            .with_round_robin(args.server.round_robin)
            .with_retries(args.server.job_retries)
            .with_as_gearmand(args.server.as_gearmand),
        limits: args.server.limits,
        plain: args.plain,
    })
}

/// Plays the script on standard input.
fn play_input(rt: &HostRuntime, settings: PlaySettings) -> Result<(), RunError> {
    let Ok(seed) = RandomState::new(rt) else {
        return Err(RunError::Seed);
    };
    let Ok(mut writer) = BufWriter::new(rt.alloc(), rt.stdout()) else {
        return Err(RunError::Play(PlayError::Memory));
    };
    play(rt.alloc(), seed, settings, &mut rt.stdin(), &mut writer)?;
    match writer.flush() {
        Ok(()) => Ok(()),
        Err(_) => Err(RunError::Play(PlayError::Write)),
    }
}

fn run(rt: &HostRuntime) -> Result<(), RunError> {
    let words = arguments(rt)?;
    match parse_args(rt.alloc(), &words) {
        Ok(args) => play_input(rt, settings_of(rt.alloc(), args)?),
        Err(error) => tell(rt, &error),
    }
}

fn main(rt: HostRuntime) -> ExitCode {
    match run(&rt) {
        Ok(()) => ExitCode::SUCCESS,
        Err(error) => {
            // A failure of standard error is ignored.
            let _ = eprintln!(rt; "gm_play: {error}");
            ExitCode::from(error.status())
        }
    }
}
