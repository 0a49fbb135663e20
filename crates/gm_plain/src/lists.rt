//! The lists for administrators.

ghost use Rattle.std.specs.Prelude.{◌≡◌, map, IfOk};
ghost use Rattle.gm_admin.specs.Answers.{status_text, workers_text};
ghost use Rattle.gm_admin.specs.Views.{status_of, worker_of};
ghost use Rattle.gm_notes.specs.Lines.{status_rows, worker_rows};
ghost use Rattle.gm_plain.specs.Searches.{ability_of};
ghost use Rattle.gm_plain.specs.Listings.{status_line_of, worker_line_of};

use crate::abilities::{Ability, abilities, able};
use crate::connections::{is_open, seen};
use crate::function_facts::{count_jobs, functions};
use crate::log::Log;
use gm_admin::{StatusRow, WorkerRow, write_status, write_workers};
use gm_notes::Config;
use std::alloc::{AllocError, Global};

/// A row for each of these functions.
fn status_rows<'a>(
    alloc: Global,
    log: &Log,
    config: &Config,
    functions: &[&'a [u8]],
) -> Result<Vec<StatusRow<'a>>, AllocError>
    ensures { IfOk result (λ rows. map status_of rows.items ≡ map (status_line_of config.now log.now.notes) (map (λ name. name.now) functions.now)) }
{
    let mut rows = Vec::new(alloc);
    for function in functions {
        rows.push(StatusRow {
            name: *function,
            total: count_jobs(log, function, false) as u64,
            running: count_jobs(log, function, true) as u64,
            workers: able(log, config, function),
        })?;
    }
    Ok(rows)
}

/// The answer to `status`.
pub fn status_text(alloc: Global, log: &Log, config: &Config) -> Result<Vec<u8>, AllocError>
    ensures { IfOk result (λ text. text.items ≡ status_text (status_rows config.now log.now.notes)) }
{
    let functions = functions(alloc, log)?;
    let rows = status_rows(alloc, log, config, &functions)?;
    let mut text = Vec::new(alloc);
    write_status(&rows, &mut text)?;
    Ok(text)
}

/// The functions of these abilities.
fn names_of<'a>(alloc: Global, abilities: &[Ability<'a>]) -> Result<Vec<&'a [u8]>, AllocError>
    ensures { IfOk result (λ names. map (λ name. name.now) names.items ≡ map (λ ability. ability.function) (map ability_of abilities.now)) }
{
    let mut names = Vec::new(alloc);
    for ability in abilities {
        names.push(ability.function)?;
    }
    Ok(names)
}

/// A connection's line of `workers`.
fn worker_of(alloc: Global, log: &Log, slot: u32) -> Result<WorkerRow<'_>, AllocError>
    ensures { IfOk result (λ row. worker_of row ≡ worker_line_of log.now.notes slot) }
{
    let abilities = abilities(alloc, log, slot)?;
    let seen = seen(log, slot);
    Ok(WorkerRow {
        slot,
        addr: seen.addr,
        id: seen.id,
        functions: names_of(alloc, &abilities)?,
    })
}

/// A row for each open connection, by slot.
fn worker_rows<'a>(
    alloc: Global,
    log: &'a Log,
    config: &Config,
) -> Result<Vec<WorkerRow<'a>>, AllocError>
    ensures { IfOk result (λ rows. map worker_of rows.items ≡ worker_rows config.now log.now.notes) }
{
    let mut rows = Vec::new(alloc);
    for slot in 0..config.slots() {
        if is_open(log, slot) {
            rows.push(worker_of(alloc, log, slot)?)?;
        }
    }
    Ok(rows)
}

/// The answer to `workers`.
pub fn workers_text(alloc: Global, log: &Log, config: &Config) -> Result<Vec<u8>, AllocError>
    ensures { IfOk result (λ text. text.items ≡ workers_text (worker_rows config.now log.now.notes)) }
{
    let rows = worker_rows(alloc, log, config)?;
    let mut text = Vec::new(alloc);
    write_workers(&rows, &mut text)?;
    Ok(text)
}
