//! Abilities and queues, found by searching the notes.

ghost use Rattle.std.specs.Prelude.{◌≡◌, Some, true, map, not, ◌&&◌, position, find, IfOk, OnOk, IfSome};
ghost use Rattle.std.specs.Option.{option_copied};
ghost use Rattle.gm_notes.specs.Jobs.{job_state, job, is_of, put, abilities, is_able, as_they_came, is_queued, waiting_for, is_empty, pick};
ghost use Rattle.gm_notes.specs.Jobs.{pick_from, pick_with, pick_highest, able, last_function, rotated, scan};
ghost use Rattle.gm_notes.specs.JobStates.{is_waiting};
ghost use Rattle.gm_notes.specs.Notes.{is_open, phase, is_asleep};
ghost use Rattle.gm_plain.specs.Searches.{ability_of, abilities_after, order_after, head, wakes_for};

use crate::connections::{is_open, seen};
use crate::jobs::{job, known, known_in};
use crate::log::Log;
use gm_notes::{Config, Note, Pick, Priority};
use std::alloc::{AllocError, Global};

/// Whether the worker in a slot can do a function.
pub fn is_able(log: &Log, slot: u32, function: &[u8]) -> bool
    ensures { result ≡ is_able slot function.now log.now.notes }
{
    let notes = log.notes();
    let mut is_able = false;
    for note in notes {
        match note {
            Note::Opened { slot: c, .. } if *c == slot => is_able = false,
            Note::Closed { slot: c } if *c == slot => is_able = false,
            Note::Reset { slot: c } if *c == slot => is_able = false,
            Note::Can {
                slot: c,
                function: f,
                ..
            } if *c == slot && f.as_slice() == function => is_able = true,
            Note::Cant {
                slot: c,
                function: f,
            } if *c == slot && f.as_slice() == function => is_able = false,
            _ => {}
        }
    }
    is_able
}

/// Whether a slot is open and its worker can do a function.
fn is_worker(log: &Log, slot: u32, function: &[u8]) -> bool
    ensures { result ≡ (is_open slot log.now.notes && is_able slot function.now log.now.notes) }
{
    is_able(log, slot, function) && is_open(log, slot)
}

/// How many open connections can do a function.
pub fn able(log: &Log, config: &Config, function: &[u8]) -> u32
    ensures { result ≡ able config.now function.now log.now.notes }
{
    let mut count = 0;
    for slot in 0..config.slots() {
        if is_worker(log, slot, function) {
            count += 1;
        }
    }
    count
}

/// Whether the worker in a slot is woken by a job: it sleeps, and can do its function.
pub fn is_to_wake(log: &Log, slot: u32, number: u64) -> bool
    ensures { result ≡ wakes_for slot (job number log.now.notes) log.now.notes }
{
    match job(log, number) {
        Some(found) => {
            let seen = seen(log, slot);
            seen.is_open && seen.phase.is_asleep() && is_able(log, slot, found.function)
        }
        None => false,
    }
}

/// A function that a worker can do, and how many seconds a job of it may take; 0 is no limit.
#[derive(Clone, Copy)]
pub struct Ability<'a> {
    pub function: &'a [u8],
    pub timeout: u32,
}

/// Where the ability for a function is.
fn position(abilities: &[Ability<'_>], function: &[u8]) -> Option<usize>
    ensures { result ≡ position (λ ability. is_of function.now (ability_of ability)) abilities.now }
{
    abilities
        .iter()
        .position(|ability| ability.function == function)
}

/// An ability that is there already keeps its position and takes the new timeout; another goes to the end.
fn put<'a>(abilities: &mut Vec<Ability<'a>>, ability: Ability<'a>) -> Result<(), AllocError>
    ensures { OnOk result (map ability_of abilities.new.items
        ≡ put ability.entry.function.now ability.entry.timeout (map ability_of abilities.old.items)) }
{
    match position(abilities, ability.function) {
        Some(i) => abilities[i] = ability,
        None => abilities.push(ability)?,
    }
    Ok(())
}

/// Changes the abilities of a slot as a note says.
fn update_abilities<'a>(
    abilities: &mut Vec<Ability<'a>>,
    note: &'a Note,
    slot: u32,
) -> Result<(), AllocError>
    ensures { OnOk result (map ability_of abilities.new.items ≡ abilities_after slot note.now (map ability_of abilities.old.items)) }
{
    match note {
        Note::Opened { slot: c, .. } if *c == slot => abilities.clear(),
        Note::Closed { slot: c } if *c == slot => abilities.clear(),
        Note::Reset { slot: c } if *c == slot => abilities.clear(),
        Note::Can {
            slot: c,
            function,
            timeout,
        } if *c == slot => put(
            abilities,
            Ability {
                function: function.as_slice(),
                timeout: *timeout,
            },
        )?,
        Note::Cant { slot: c, function } if *c == slot => abilities.retain(
            |ability| ability.function != function.as_slice(),
        ),
        _ => {}
    }
    Ok(())
}

/// The abilities of the worker in a slot, in the order added.
pub fn abilities(alloc: Global, log: &Log, slot: u32) -> Result<Vec<Ability<'_>>, AllocError>
    ensures { IfOk result (λ found. map ability_of found.items ≡ abilities slot log.now.notes) }
{
    let notes = log.notes();
    let mut abilities = Vec::new(alloc);
    for note in notes {
        update_abilities(&mut abilities, note, slot)?;
    }
    Ok(abilities)
}

/// Changes the order in which jobs came to wait as a note says.
fn update_order(jobs: &mut Vec<u64>, note: &Note) -> Result<(), AllocError>
    ensures { OnOk result (jobs.new.items ≡ order_after note.now jobs.old.items) }
{
    match note {
        Note::Made { job, .. } => jobs.push(*job)?,
        Note::Returned { job } => {
            jobs.retain(|other| *other != *job);
            jobs.push(*job)?;
        }
        _ => {}
    }
    Ok(())
}

/// The jobs in the order in which they last came to wait.
fn as_they_came(alloc: Global, log: &Log) -> Result<Vec<u64>, AllocError>
    ensures { IfOk result (λ jobs. jobs.items ≡ as_they_came log.now.notes) }
{
    let notes = log.notes();
    let mut jobs = Vec::new(alloc);
    for note in notes {
        update_order(&mut jobs, note)?;
    }
    Ok(jobs)
}

/// Whether a job waits, and is of this function and priority.
fn is_queued(log: &Log, job: u64, function: &[u8], priority: Priority) -> bool
    ensures { result ≡ is_queued function.now priority log.now.notes job }
{
    let known = known(log, job);
    match known.job {
        Some(found) => {
            known.place.is_waiting() && found.function == function && found.priority == priority
        }
        None => false,
    }
}

/// The first of these jobs that waits for a function with a priority.
fn first_in(log: &Log, jobs: &[u64], function: &[u8], priority: Priority) -> Option<u64>
    ensures { result ≡ find (is_queued function.now priority log.now.notes) jobs.now }
{
    for job in jobs {
        if is_queued(log, *job, function, priority) {
            return Some(*job);
        }
    }
    None
}

/// The first job that is given out for a function, of jobs in the order in which they came to wait.
fn first_for(log: &Log, jobs: &[u64], function: &[u8]) -> Option<u64>
    requires { jobs.now ≡ as_they_came log.now.notes }
    ensures { result ≡ head (waiting_for function.now log.now.notes) }
{
    if let Some(job) = first_in(log, jobs, function, Priority::High) {
        return Some(job);
    }
    if let Some(job) = first_in(log, jobs, function, Priority::Normal) {
        return Some(job);
    }
    first_in(log, jobs, function, Priority::Low)
}

/// Whether a worker that comes to be able to do a function is woken at once: it sleeps, and a job waits.
pub fn wakes_at_once(
    alloc: Global,
    log: &Log,
    slot: u32,
    function: &[u8],
) -> Result<bool, AllocError>
    ensures { IfOk result (λ wakes. wakes ≡ (is_asleep (phase slot log.now.notes) && not (is_empty (waiting_for function.now log.now.notes)))) }
{
    let jobs = as_they_came(alloc, log)?;
    let waits = first_for(log, &jobs, function).is_some();
    Ok(seen(log, slot).phase.is_asleep() && waits)
}

/// The first of these jobs, in the order in which they came to wait, that one of the abilities is for.
fn pick_from(log: &Log, jobs: &[u64], abilities: &[Ability<'_>]) -> Option<Pick>
    requires { jobs.now ≡ as_they_came log.now.notes }
    ensures { result ≡ pick_from (map ability_of abilities.now) log.now.notes }
{
    for ability in abilities {
        if let Some(job) = first_for(log, jobs, ability.function) {
            return Some(Pick {
                job,
                timeout: ability.timeout,
            });
        }
    }
    None
}

/// The first job of a priority for the first of these abilities that has one, of jobs in the order in which they
/// came to wait.
fn pick_with(log: &Log, jobs: &[u64], abilities: &[Ability<'_>], priority: Priority) -> Option<Pick>
    requires { jobs.now ≡ as_they_came log.now.notes }
    ensures { result ≡ pick_with priority (map ability_of abilities.now) log.now.notes }
{
    for ability in abilities {
        if let Some(job) = first_in(log, jobs, ability.function, priority) {
            return Some(Pick {
                job,
                timeout: ability.timeout,
            });
        }
    }
    None
}

/// The first job of the highest priority that waits for any of these abilities, of jobs in the order in which they
/// came to wait.
fn pick_highest(log: &Log, jobs: &[u64], abilities: &[Ability<'_>]) -> Option<Pick>
    requires { jobs.now ≡ as_they_came log.now.notes }
    ensures { result ≡ pick_highest (map ability_of abilities.now) log.now.notes }
{
    if let Some(pick) = pick_with(log, jobs, abilities, Priority::High) {
        return Some(pick);
    }
    if let Some(pick) = pick_with(log, jobs, abilities, Priority::Normal) {
        return Some(pick);
    }
    pick_with(log, jobs, abilities, Priority::Low)
}

/// The function of the job that a slot was given last, since it was opened.
fn last_function(log: &Log, slot: u32) -> Option<&[u8]>
    ensures { option_copied result ≡ last_function slot log.now.notes }
{
    let mut notes = log.notes();
    while let Some((note, older)) = notes.split_last() {
        match note {
            // The abilities of an earlier connection in this slot don't count.
            Note::Opened { slot: c, .. } if *c == slot => return None,
            // The job was made before it was given out.
            Note::Assigned { job, slot: c, .. } if *c == slot => {
                return known_in(older, *job).job.map(|found| found.function);
            }
            _ => notes = older,
        }
    }
    None
}

/// Puts the abilities after the one for a function first, so that this one comes last. Nothing changes if none is for
/// it.
fn rotate(abilities: &mut Vec<Ability<'_>>, last: &[u8])
    ensures { map ability_of abilities.new.items ≡ rotated (Some last.now) (map ability_of abilities.old.items) }
{
    if let Some(i) = position(abilities, last) {
        abilities.rotate_left(i + 1);
    }
}

/// The abilities of the worker in a slot, in the order in which a grab tries them: as added, or with the function of
/// its last job at the end.
fn scan<'a>(
    alloc: Global,
    log: &'a Log,
    config: &Config,
    slot: u32,
) -> Result<Vec<Ability<'a>>, AllocError>
    ensures { IfOk result (λ found. map ability_of found.items ≡ scan config.now slot log.now.notes) }
{
    let mut abilities = abilities(alloc, log, slot)?;
    if config.round_robin()
        && let Some(last) = last_function(log, slot)
    {
        rotate(&mut abilities, last);
    }
    Ok(abilities)
}

/// The job that a grab of a slot gets.
pub fn pick(
    alloc: Global,
    log: &Log,
    config: &Config,
    slot: u32,
) -> Result<Option<Pick>, AllocError>
    ensures value { IfOk result (λ found. found ≡ pick config.now slot log.now.notes) }
    ensures waits { IfOk result (λ found. IfSome found (λ picked. is_waiting (job_state picked.job log.now.notes) ≡ true)) }
{
    let abilities = scan(alloc, log, config, slot)?;
    let jobs = as_they_came(alloc, log)?;
    Ok(if config.as_gearmand() {
        pick_highest(log, &jobs, &abilities)
    } else {
        pick_from(log, &jobs, &abilities)
    })
}
