//! The observable state of a front while it takes inputs, as text.

use crate::error::TrialError;
use gm_bytes::ByteQueue;
use gm_front::{Front, Input, StepError, Stepped};
use gm_notes::{ApplyError, JobServer};
use std::alloc::Global;
use std::fmt::Write;

/// How many slots and jobs are looked at.
const SLOTS: u32 = 8;

const JOBS: u64 = 24;

/// Writes bytes that wait, wherever they lie. A copy of them would be one growth more.
fn see_bytes(bytes: ByteQueue, seen: &mut String) -> Result<(), TrialError> {
    let mut rest = bytes;
    for _ in 0..u64::MAX {
        let first = rest.first();
        let count = first.len();
        if count == 0 {
            break;
        }
        for byte in first {
            write!(seen, " {byte}")?;
        }
        rest.advance(count);
    }
    Ok(writeln!(seen)?)
}

/// Writes what an input is answered.
pub fn see_answer(answer: Result<Stepped, StepError>, seen: &mut String) -> Result<(), TrialError> {
    match answer {
        Ok(stepped) => {
            write!(seen, "{:?}", stepped.done)?;
            see_bytes(stepped.drained, seen)?;
        }
        Err(error) => writeln!(seen, "{error:?}")?,
    }
    Ok(())
}

/// Writes what each slot is owed and whether it is shut, and what it is given: what waits for it and its NOOP.
fn see_slots<S: JobServer>(front: &mut Front<S>, seen: &mut String) -> Result<(), TrialError> {
    for slot in 0..SLOTS {
        let (owed, shut) = (front.owed(slot), front.shut(slot));
        writeln!(seen, "slot {slot}: {owed} {shut}")?;
        see_answer(front.step(Input::Drain(slot)), seen)?;
        see_answer(front.step(Input::Took(slot)), seen)?;
    }
    Ok(())
}

/// Writes where each job is.
fn see_jobs<S: JobServer>(
    front: &Front<S>,
    first_job: u64,
    seen: &mut String,
) -> Result<(), TrialError> {
    for ahead in 0..JOBS {
        // After the last number there is none.
        if let Some(job) = first_job.checked_add(ahead) {
            let place = front.place(job);
            writeln!(seen, "job {job}: {place:?}")?;
        }
    }
    Ok(())
}

/// Writes what there is to be seen, which takes what waits.
pub fn see<S: JobServer>(
    front: &mut Front<S>,
    first_job: u64,
    seen: &mut String,
) -> Result<(), TrialError> {
    see_slots(front, seen)?;
    see_jobs(front, first_job, seen)
}

/// Hands in an input, and once more if it is refused for memory, and writes the outcome. It answers how many units came
/// before a cut.
pub fn hand_in<S: JobServer>(
    front: &mut Front<S>,
    input: Input<'_>,
    seen: &mut String,
) -> Result<Option<u64>, TrialError> {
    let answer = match front.step(input) {
        Err(StepError::Refused(ApplyError::Memory)) => front.step(input),
        answer => answer,
    };
    if let Err(StepError::Cut { units }) = answer {
        return Ok(Some(units));
    }
    see_answer(answer, seen)?;
    Ok(None)
}

/// Both are the same; if not, the first line that differs is written.
pub fn same(alloc: Global, at: u64, got: &str, wanted: &str) -> Result<(), TrialError> {
    if got == wanted {
        return Ok(());
    }
    let mut lines = got.split('\n').zip(wanted.split('\n'));
    let (got, wanted) = lines.find(|pair| pair.0 != pair.1).unwrap_or((got, wanted));
    Err(TrialError::Differs {
        at,
        got: String::from_str(alloc, got)?,
        wanted: String::from_str(alloc, wanted)?,
    })
}
