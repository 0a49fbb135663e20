//! The workers' reports on their jobs.

ghost use Rattle.std.specs.Prelude.{◌≡◌, ◌⊎◌, ℕ, Bool, true, Some, None, IfSome};
ghost use Rattle.std.specs.Option.{option_map};
ghost use Rattle.gm_conns.specs.ConnTables.{IsOpen};
ghost use Rattle.gm_queues.specs.FunctionTables as queues;
ghost use Rattle.gm_jobs.specs.Tables.{job as job_of, listeners_of};
ghost use Rattle.gm_notes.specs.Jobs.{job_of_handle};
ghost use Rattle.gm_notes.specs.Past.{Past, with_note};
ghost use Rattle.gm_notes.specs.declared.note.Note.TheVariants.{Discarded, Ended};
ghost use Rattle.gm_notes.specs.Workers.{end_if, tell_work, work};
ghost use Rattle.gm_actions.specs.Actions.{WorkFits, work_of};
ghost use Rattle.gm_core.specs.Facts.{job_facts};
ghost use Rattle.gm_core.specs.Holds.{HoldsJobs};
ghost use Rattle.gm_core.specs.Ticks.{OthersStay};
ghost use Rattle.gm_core.specs.Telling.{IsRunning, running_there};
ghost use Rattle.gm_core.specs.Freed.{body_at, Frees};

use super::Tables;
use super::ticking::fail_packet;
use crate::telling::{others, prepare_each, put_each, reserve_each};
use crate::written::Written;
use gm_actions::{Refusal, WorkPacket, number_in};
use gm_bytes::SharedBytes;
use gm_jobs::{Job, Jobs};
use gm_notes::Config;
use std::alloc::AllocError;

/// The job that a handle names, if it runs at the slot, and its listeners.
fn running_at<'a>(
    config: &Config,
    jobs: &'a Jobs,
    slot: u32,
    handle: &[u8],
) -> Option<(u64, &'a [u32])>
    ensures value { (functions : queues.Table) (is_open : ℕ → Bool) (past : Past) → HoldsJobs config.now functions jobs.now is_open (job_facts past.notes)
        → option_map (λ found. found.0) result ≡ running_there slot (job_of_handle config.now handle.now past.notes) past.notes }
    ensures runs { IfSome result (λ found. IsRunning (job_of jobs.now found.0)) }
    ensures listeners { IfSome result (λ found. found.1.now ≡ listeners_of (job_of jobs.now found.0)) }
{
    let number = number_in(config, handle)?;
    let job = jobs.by_number(number)?;
    if job.place().is_running_at(slot) {
        Some((number, job.listeners()))
    } else {
        None
    }
}

impl Tables {
    ghost use Rattle.gm_core.specs.Holds.{IsKept, Goes, Does};

    /// The worker in a slot sends a WORK packet. If its job runs there, its listeners get the report, how far the job
    /// is is kept, and perhaps the job ends.
    pub(super) fn work(
        &mut self,
        slot: u32,
        packet: &WorkPacket<'_>,
        freed: &mut Option<SharedBytes>,
    ) -> Result<(), AllocError>
        requires open { IsOpen self.old.conns slot }
        requires fits { WorkFits packet.now }
        requires kept { IsKept self.old }
        ensures does { Does self.old result self.new (work self.old.config slot packet.now.handle.now (work_of self.old.config packet.now)) }
        ensures freed { Frees self.old.jobs self.new.jobs freed.old freed.new }
    {
        let Some((job, slots)) = running_at(&self.config, &self.jobs, slot, packet.handle) else {
            return self.refuse(slot, Refusal::JobNotFound);
        };
        if packet.exceptions_only && packet.ends_job(&self.config) {
            return self.except(job, packet, freed);
        }
        prepare_each(&mut self.conns, &mut self.text, slots, packet)?;
        match packet.report {
            None => put_each(
                &mut self.conns,
                slots,
                packet.exceptions_only,
                &mut self.text,
            ),
            Some(report) => {
                self.jobs.report(job, report.numerator, report.denominator)?;
                let slots = self.jobs.listeners(job);
                put_each(
                    &mut self.conns,
                    slots,
                    packet.exceptions_only,
                    &mut self.text,
                );
            }
        }
        self.end_if(job, packet.ends, freed);
        Ok(())
    }

    /// An exception ends a running job: its listeners with the exceptions option get it, and the others get WORK_FAIL.
    fn except(
        &mut self,
        job: u64,
        packet: &WorkPacket<'_>,
        freed: &mut Option<SharedBytes>,
    ) -> Result<(), AllocError>
        requires runs { IsRunning (job_of self.old.jobs job) }
        requires fits { WorkFits packet.now }
        requires only { packet.now.exceptions_only ≡ true }
        requires ends { (work_of self.old.config packet.now).ends ≡ true }
        requires kept { IsKept self.old }
        ensures does { Does self.old result self.new (tell_work self.old.config (work_of self.old.config packet.now) job) }
        ensures freed { Frees self.old.jobs self.new.jobs freed.old freed.new }
    {
        let slots = self.jobs.listeners(job);
        let others = others(self.alloc, &self.conns, slots)?;
        let failure = fail_packet(self.alloc, &self.config, job)?;
        prepare_each(&mut self.conns, &mut self.text, slots, packet)?;
        reserve_each(&mut self.conns, &others, false, failure.len())?;
        let mut failure = Written::of(failure);
        put_each(&mut self.conns, slots, true, &mut self.text);
        put_each(&mut self.conns, &others, false, &mut failure);
        self.end_if(job, true, freed);
        Ok(())
    }

    /// A running job ends, if so. It needs no memory. The caller that frees its body later owns it too.
    fn end_if(&mut self, job: u64, ends: bool, freed: &mut Option<SharedBytes>)
        requires runs { IsRunning (job_of self.old.jobs job) }
        requires kept { IsKept self.old }
        ensures goes { Goes self.old self.new (end_if ends job) }
        ensures freed { (freed.new ≡ freed.old) ⊎ IfSome freed.new (λ body. (body_at job self.old.jobs ≡ Some body) × (job_of self.new.jobs job ≡ None)) }
    {
        if ends {
            *freed = self.end(job).data().share();
        }
    }

    /// A running job isn't live any more, and its reserved room in its queue is given up. Gives what it was.
    pub(super) fn end(&mut self, job: u64) -> Job
        requires runs { IsRunning (job_of self.old.jobs job) }
        requires kept { IsKept self.old }
        ensures was { job_of self.old.jobs job ≡ Some result }
        ensures goes { Goes self.old self.new (with_note (Ended job)) }
        ensures discards { Goes self.old self.new (with_note (Discarded job)) }
        ensures conns { self.new.conns ≡ self.old.conns }
        ensures moment { self.new.moment ≡ self.old.moment }
        ensures jobs { OthersStay job self.old.jobs self.new.jobs }
        ensures ended { job_of self.new.jobs job ≡ None }
    {
        let ended = self.jobs.end(job).unwrap();
        self.functions.release(ended.f(), ended.p());
        ended
    }
}
