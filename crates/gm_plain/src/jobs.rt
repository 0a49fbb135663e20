//! Facts of jobs, found by searching the notes.

ghost use Rattle.std.specs.Prelude.{◌≡◌, ◌<◌, ◌≤◌, ◌+◌, ◌^◌, ◌∷◌, List, length, reverse, slice_get, Some, IfSome, IfOk, OnOk};
ghost use Rattle.std.specs.Option.{option_map};
ghost use Rattle.std.specs.List.{All};
ghost use Rattle.gm_notes.specs.declared.note.Note.{Note};
ghost use Rattle.gm_notes.specs.Jobs.{job_state, job, listeners, is_wanted, made};
ghost use Rattle.gm_notes.specs.Jobs.{is_live_named, joined, next_number, deadline, is_last_try, job_of_handle};
ghost use Rattle.gm_notes.specs.JobStates.{place_of};
ghost use Rattle.gm_notes.specs.Closings.{is_reached};
ghost use Rattle.gm_notes.specs.Notes.{moment};
ghost use Rattle.gm_actions.specs.Actions.{job_of};
ghost use Rattle.gm_actions.specs.Carried.{IsCarried, AreNumbers};
ghost use Rattle.gm_notes.specs.Steps.{newest};
ghost use Rattle.gm_plain.specs.Searches.{Knows, listeners_after, is_listening};

use crate::connections::moment;
use crate::log::Log;
use gm_actions::{JobRef, Report, number_in};
use gm_notes::{Config, Note, Place, is_joining};
use std::alloc::{AllocError, Global};

/// The facts of a job, by the notes.
#[derive(Clone, Copy)]
pub struct JobFacts<'a> {
    /// The job, once it was made.
    pub job: Option<JobRef<'a>>,
    /// Where it is.
    pub place: Place,
    /// Whether a background submission made or joined it.
    pub is_kept: bool,
    /// How far it is, as its worker said last; `0` and `0` at first.
    pub report: Report<'a>,
    /// How often it came back from a worker that went.
    pub returns: usize,
    /// The moment at which it fails, if there is one.
    pub deadline: Option<u64>,
}

/// The facts of a job before any note mentions it.
const UNKNOWN: JobFacts<'static> = JobFacts {
    job: None,
    place: Place::Unmade,
    is_kept: false,
    report: Report {
        numerator: b"0",
        denominator: b"0",
    },
    returns: 0,
    deadline: None,
};

/// Changes the facts of a job as a note says.
fn learn<'a>(facts: &mut JobFacts<'a>, note: &'a Note, job: u64)
    requires { facts.old.returns < 2 ^ 63 }
    ensures knows { (older : List Note) → Knows job older facts.old → Knows job (note.now ∷ older) facts.new }
    ensures small { facts.new.returns ≤ facts.old.returns + 1 }
{
    match note {
        Note::Made {
            job: n,
            function,
            priority,
            unique,
            body,
        } if *n == job => *facts = JobFacts {
            job: Some(JobRef {
                function: function.as_slice(),
                priority: *priority,
                unique: unique.as_slice(),
                body: body.as_slice(),
            }),
            place: Place::Waiting,
            ..UNKNOWN
        },
        Note::Kept { job: n } if *n == job => facts.is_kept = true,
        Note::Report {
            job: n,
            numerator,
            denominator,
        } if *n == job => facts.report = Report {
            numerator: numerator.as_slice(),
            denominator: denominator.as_slice(),
        },
        Note::Assigned {
            job: n,
            slot,
            deadline,
        } if *n == job => {
            facts.place = Place::Running(*slot);
            facts.deadline = *deadline;
        }
        Note::Returned { job: n } if *n == job => {
            facts.place = Place::Waiting;
            facts.returns += 1;
            facts.deadline = None;
        }
        Note::Lost { job: n } if *n == job => {
            facts.place = Place::Lost;
            facts.deadline = Some(0);
        }
        Note::Ended { job: n } if *n == job => facts.place = Place::Gone,
        Note::Discarded { job: n } if *n == job => facts.place = Place::Gone,
        _ => {}
    }
}

/// The facts of a job, by these notes, the newest last.
pub fn known_in(notes: &[Note], job: u64) -> JobFacts<'_>
    ensures knows { Knows job (reverse notes.now) result }
    ensures small { result.returns < 2 ^ 63 }
{
    let mut facts = UNKNOWN;
    for note in notes {
        learn(&mut facts, note, job);
    }
    facts
}

/// The facts of a job, by the notes.
pub fn known(log: &Log, job: u64) -> JobFacts<'_>
    ensures knows { Knows job log.now.notes result }
    ensures small { result.returns < 2 ^ 63 }
    ensures carried { IfSome result.job (λ found. IsCarried found.function.now found.unique.now found.body.now) }
    ensures numbers { AreNumbers result.report.numerator.now result.report.denominator.now }
{
    known_in(log.notes(), job)
}

/// Where a job is.
pub fn place(log: &Log, job: u64) -> Place
    ensures { result ≡ place_of (job_state job log.now.notes) }
{
    known(log, job).place
}

/// The job as it was made.
pub fn job(log: &Log, number: u64) -> Option<JobRef<'_>>
    ensures value { option_map job_of result ≡ job number log.now.notes }
    ensures carried { IfSome result (λ found. IsCarried found.function.now found.unique.now found.body.now) }
{
    known(log, number).job
}

/// Changes a job's listeners as a note says.
fn update_listeners(slots: &mut Vec<u32>, note: &Note, job: u64) -> Result<(), AllocError>
    ensures { OnOk result (slots.new.items ≡ listeners_after job note.now slots.old.items) }
{
    match note {
        Note::Made { job: n, .. } if *n == job => slots.clear(),
        Note::Listens { job: n, slot } if *n == job => slots.push(*slot)?,
        Note::Closed { slot } => slots.retain(|other| *other != *slot),
        _ => {}
    }
    Ok(())
}

/// A job's listeners, in the order in which they came to listen, once for each time.
pub fn listeners(alloc: Global, log: &Log, job: u64) -> Result<Vec<u32>, AllocError>
    ensures value { IfOk result (λ slots. slots.items ≡ listeners job log.now.notes) }
    ensures below { IfOk result (λ slots. All (λ c. c < log.now.slots) slots.items) }
{
    let notes = log.notes();
    let mut slots = Vec::new(alloc);
    for note in notes {
        update_listeners(&mut slots, note, job)?;
    }
    Ok(slots)
}

/// Whether the connection in a slot listens to a job.
fn is_listening(log: &Log, job: u64, slot: u32) -> bool
    ensures { result ≡ is_listening job slot log.now.notes }
{
    let notes = log.notes();
    let mut is_listening = false;
    for note in notes {
        match note {
            Note::Made { job: n, .. } if *n == job => is_listening = false,
            Note::Listens { job: n, slot: c } if *n == job && *c == slot => is_listening = true,
            Note::Closed { slot: c } if *c == slot => is_listening = false,
            _ => {}
        }
    }
    is_listening
}

/// Whether a job is wanted: a connection listens to it, or a background submission keeps it.
pub fn is_wanted(log: &Log, job: u64) -> bool
    ensures { result ≡ is_wanted job log.now.notes }
{
    for slot in 0..log.slots() {
        if is_listening(log, job, slot) {
            return true;
        }
    }
    known(log, job).is_kept
}

/// Whether the worker of a job is the last that it is given to, if there is a limit.
pub fn is_last_try(config: &Config, log: &Log, job: u64) -> bool
    ensures { result ≡ is_last_try config.now job log.now.notes }
{
    config.retries() != 0 && config.retries() as usize <= known(log, job).returns + 1
}

/// Whether the moment has reached a job's deadline.
pub fn is_late(log: &Log, job: u64) -> bool
    ensures { result ≡ is_reached (deadline job log.now.notes) (moment log.now.notes) }
{
    match known(log, job).deadline {
        Some(late) => late <= moment(log),
        None => false,
    }
}

/// Whether a job waits or runs, and is of this function, with this unique id.
fn is_live_named(log: &Log, number: u64, function: &[u8], unique: &[u8]) -> bool
    ensures { result ≡ is_live_named function.now unique.now log.now.notes number }
{
    let known = known(log, number);
    match known.job {
        Some(found) => {
            known.place.is_live() && found.function == function && found.unique == unique
        }
        None => false,
    }
}

/// The live job of a function with a unique id that joins.
pub fn joined(log: &Log, function: &[u8], unique: &[u8]) -> Option<u64>
    ensures { result ≡ joined function.now unique.now log.now.notes }
{
    if !is_joining(unique) {
        return None;
    }
    let notes = log.notes();
    let mut found = None;
    for note in notes {
        if let Note::Made { job, .. } = note {
            if is_live_named(log, *job, function, unique) {
                found = Some(*job);
            }
        }
    }
    found
}

/// How many jobs were made.
pub fn count_made(log: &Log) -> usize
    ensures { result ≡ length (made log.now.notes) }
{
    let notes = log.notes();
    let mut count = 0;
    for note in notes {
        if let Note::Made { .. } = note {
            count += 1;
        }
    }
    count
}

/// The job made as the one with this index, from 0.
pub fn job_at(log: &Log, index: usize) -> u64
    requires { index < length (made log.now.notes) }
    ensures { slice_get (reverse (made log.now.notes)) index ≡ Some result }
{
    log.first() + index as u64
}

/// The job made last.
pub fn newest(log: &Log) -> Option<u64>
    ensures { result ≡ newest (made log.now.notes) }
{
    let notes = log.notes();
    let mut newest = None;
    for note in notes {
        if let Note::Made { job, .. } = note {
            newest = Some(*job);
        }
    }
    newest
}

/// The number of the next job, if the first has this number; `None` once the last was given out.
pub fn next_number(log: &Log, config: &Config) -> Option<u64>
    ensures { result ≡ next_number config.now log.now.notes }
{
    config.first_job().checked_add(count_made(log) as u64)
}

/// The job that a handle names: exactly what was printed for it. It needs no memory.
pub fn job_of_handle(log: &Log, config: &Config, text: &[u8]) -> Option<u64>
    ensures { result ≡ job_of_handle config.now text.now log.now.notes }
{
    let notes = log.notes();
    let Some(number) = number_in(config, text) else {
        return None;
    };
    let mut found = None;
    for note in notes {
        if let Note::Made { job, .. } = note {
            if *job == number {
                found = Some(*job);
            }
        }
    }
    found
}
