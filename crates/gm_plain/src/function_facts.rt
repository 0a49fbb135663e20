//! Facts of functions, by the log.

ghost use Rattle.std.specs.Prelude.{◌≡◌, filter, length, map, IfOk};
ghost use Rattle.gm_notes.specs.Jobs.{functions, is_mentioned, limit, made};
ghost use Rattle.gm_notes.specs.Submissions.{is_one_too_many, is_full};
ghost use Rattle.gm_plain.specs.Searches.{is_counted};

use crate::jobs::known;
use crate::log::Log;
use gm_notes::{Config, Note};
use std::alloc::{AllocError, Global};

/// Whether a job of this function counts: it waits or runs, or has to run if only running jobs count.
fn is_counted(log: &Log, number: u64, function: &[u8], only_running: bool) -> bool
    ensures { result ≡ is_counted only_running function.now log.now.notes number }
{
    let known = known(log, number);
    match known.job {
        Some(found) if only_running => known.place.is_running() && found.function == function,
        Some(found) => known.place.is_live() && found.function == function,
        None => false,
    }
}

/// How many jobs of a function wait or run, or how many run if only running jobs count.
pub fn count_jobs(log: &Log, function: &[u8], only_running: bool) -> usize
    ensures { result ≡ length (filter (is_counted only_running function.now log.now.notes) (made log.now.notes)) }
{
    let notes = log.notes();
    let mut count = 0;
    for note in notes {
        if let Note::Made { job, .. } = note {
            if is_counted(log, *job, function, only_running) {
                count += 1;
            }
        }
    }
    count
}

/// How many jobs of a function may be there; 0 is no limit.
fn limit(log: &Log, function: &[u8]) -> u32
    ensures { result ≡ limit function.now log.now.notes }
{
    let notes = log.notes();
    let mut limit = 0;
    for note in notes {
        match note {
            Note::Limit { function: f, size } if f.as_slice() == function => limit = *size,
            _ => {}
        }
    }
    limit
}

/// Whether no more jobs of a function may be there.
pub fn is_full(log: &Log, function: &[u8]) -> bool
    ensures { result ≡ is_full function.now log.now.notes }
{
    let limit = limit(log, function);
    limit != 0 && limit as usize <= count_jobs(log, function, false)
}

/// Whether a function was mentioned.
pub fn is_mentioned(log: &Log, function: &[u8]) -> bool
    ensures { result ≡ is_mentioned function.now log.now.notes }
{
    let notes = log.notes();
    let mut is_mentioned = false;
    for note in notes {
        match note {
            Note::Mention { function: f } if f.as_slice() == function => is_mentioned = true,
            _ => {}
        }
    }
    is_mentioned
}

/// The functions mentioned, in the order of mention.
pub fn functions(alloc: Global, log: &Log) -> Result<Vec<&[u8]>, AllocError>
    ensures { IfOk result (λ found. map (λ name. name.now) found.items ≡ functions log.now.notes) }
{
    let notes = log.notes();
    let mut functions = Vec::new(alloc);
    for note in notes {
        if let Note::Mention { function } = note {
            functions.push(function.as_slice())?;
        }
    }
    Ok(functions)
}

/// How many functions were mentioned.
fn count_functions(log: &Log) -> usize
    ensures { result ≡ length (functions log.now.notes) }
{
    let notes = log.notes();
    let mut count = 0;
    for note in notes {
        if let Note::Mention { .. } = note {
            count += 1;
        }
    }
    count
}

/// Whether a function can't be known, since there are as many as there may be.
pub fn is_one_too_many(log: &Log, config: &Config, function: &[u8]) -> bool
    ensures { result ≡ is_one_too_many config.now function.now log.now.notes }
{
    !is_mentioned(log, function) && config.max_functions() as usize <= count_functions(log)
}
