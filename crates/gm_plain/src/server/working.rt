//! The workers' reports on their jobs.

ghost use Rattle.std.specs.Prelude.{◌≡◌, ◌<◌, ◌≤◌, not, true, filter, IfOk};
ghost use Rattle.std.specs.List.{All};
ghost use Rattle.gm_notes.specs.Jobs.{job_state, listeners};
ghost use Rattle.gm_notes.specs.JobStates.{is_running};
ghost use Rattle.gm_plain.specs.Holds.{Goes, Does, tell_listeners};
ghost use Rattle.gm_actions.specs.Actions.{WorkFits, ReportFits, work_of, option_report};
ghost use Rattle.gm_notes.specs.Workers.{hearers, wants_exceptions, keep_report, end_if, work, tell_work};

use super::PlainServer;
use crate::connections::seen;
use crate::jobs::{job_of_handle, listeners, place};
use crate::log::Log;
use gm_actions::{Refusal, Report, WorkPacket, handle};
use gm_notes::{Note, Text};
use gm_packet::Response;
use std::alloc::{AllocError, Global};

/// Copies the numerator and the denominator of a report, if there is one.
fn copy_report(
    alloc: Global,
    report: Option<Report<'_>>,
) -> Result<Option<(Text, Text)>, AllocError>
    ensures { IfOk result (λ kept. kept ≡ option_report report.entry) }
{
    let Some(report) = report else {
        return Ok(None);
    };
    let numerator = Text::copy_of(alloc, report.numerator)?;
    let denominator = Text::copy_of(alloc, report.denominator)?;
    Ok(Some((numerator, denominator)))
}

/// Whether a slot is open, and its connection wants exceptions.
fn wants_exceptions(log: &Log, slot: u32) -> bool
    ensures { result ≡ wants_exceptions slot log.now.notes }
{
    let seen = seen(log, slot);
    seen.is_open && seen.has_option
}

/// Which slots get a worker's report on a job.
fn hearers(
    alloc: Global,
    log: &Log,
    job: u64,
    exceptions_only: bool,
) -> Result<Vec<u32>, AllocError>
    ensures value { IfOk result (λ slots. slots.items ≡ hearers exceptions_only (listeners job log.now.notes) log.now.notes) }
    ensures below { IfOk result (λ slots. All (λ c. c < log.now.slots) slots.items) }
{
    let mut slots = listeners(alloc, log, job)?;
    if !exceptions_only {
        return Ok(slots);
    }
    slots.retain(|slot| wants_exceptions(log, *slot));
    Ok(slots)
}

/// Which listeners of a job don't get a report that is only for connections that want exceptions.
fn others(alloc: Global, log: &Log, job: u64) -> Result<Vec<u32>, AllocError>
    ensures value { IfOk result (λ slots. slots.items ≡ filter (λ c. not (wants_exceptions c log.now.notes)) (listeners job log.now.notes)) }
    ensures below { IfOk result (λ slots. All (λ c. c < log.now.slots) slots.items) }
{
    let mut slots = listeners(alloc, log, job)?;
    slots.retain(|slot| !wants_exceptions(log, *slot));
    Ok(slots)
}

impl PlainServer {
    /// The worker in a slot sends a WORK packet on a job.
    pub(super) fn work(&mut self, slot: u32, packet: &WorkPacket<'_>) -> Result<(), AllocError>
        requires slot { slot < self.old.config.slots }
        requires fits { WorkFits packet.now }
        ensures { Does self.old result self.new (work self.old.config slot packet.now.handle.now (work_of self.old.config packet.now)) }
    {
        let Some(job) = job_of_handle(&self.log, &self.config, packet.handle) else {
            return self.refuse(slot, Refusal::JobNotFound);
        };
        if !place(&self.log, job).is_running_at(slot) {
            return self.refuse(slot, Refusal::JobNotFound);
        }
        self.tell_work(job, packet)
    }

    fn tell_work(&mut self, job: u64, packet: &WorkPacket<'_>) -> Result<(), AllocError>
        requires runs { is_running (job_state job self.old.log.notes) ≡ true }
        requires fits { WorkFits packet.now }
        ensures { Does self.old result self.new (tell_work self.old.config (work_of self.old.config packet.now) job) }
    {
        let report = copy_report(self.alloc, packet.report)?;
        self.make_room(1)?;
        self.tell_listeners(job, packet)?;
        self.keep_report(job, report);
        let ends = packet.ends_job(&self.config);
        self.end_if(job, ends);
        Ok(())
    }

    /// The listeners of a job get its worker's report; if only some of them get it, and the job ends, the others get
    /// WORK_FAIL. Out of memory, it changes nothing.
    fn tell_listeners(&mut self, job: u64, packet: &WorkPacket<'_>) -> Result<(), AllocError>
        requires fits { WorkFits packet.now }
        ensures does { Does self.old result self.new (tell_listeners self.old.config (work_of self.old.config packet.now) job) }
        ensures log { self.new.log ≡ self.old.log }
    {
        let slots = hearers(self.alloc, &self.log, job, packet.exceptions_only)?;
        if !packet.exceptions_only || !packet.ends_job(&self.config) {
            return self.give_all(&slots, &packet.response);
        }
        let others = others(self.alloc, &self.log, job)?;
        let handle = handle(self.alloc, &self.config, job)?;
        let failure = Response::WorkFail { handle: &handle };
        self.give_both(&slots, &packet.response, &others, &failure)
    }

    /// A running job ends, if so. It needs no memory.
    fn end_if(&mut self, job: u64, ends: bool)
        requires { is_running (job_state job self.old.log.notes) ≡ true }
        ensures { Goes self.old self.new (end_if ends job) }
    {
        if ends {
            self.note(Note::Ended { job });
        }
    }

    /// A report is kept, if there is one. There is room for a note.
    fn keep_report(&mut self, job: u64, report: Option<(Text, Text)>)
        requires room { 1 ≤ self.old.log.free }
        requires fits { ReportFits report }
        ensures goes { Goes self.old self.new (keep_report job report) }
        ensures job_state { job_state job self.new.log.notes ≡ job_state job self.old.log.notes }
    {
        if let Some((numerator, denominator)) = report {
            self.note(Note::Report {
                job,
                numerator,
                denominator,
            });
        }
    }
}
