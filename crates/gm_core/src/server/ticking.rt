//! Ticks, and jobs whose deadlines are reached.

ghost use Rattle.std.specs.Prelude.{◌≡◌, ℕ, ◌+◌, ◌≤◌, true, false, filter, length, max, List, IfOk, OnErr};
ghost use Rattle.gm_packet.specs.Answers.{answer_packet, work_fail};
ghost use Rattle.gm_conns.specs.ConnTables.{conn};
ghost use Rattle.gm_jobs.specs.Live.{is_due};
ghost use Rattle.gm_jobs.specs.Tables.{job as job_of, listeners_of, passes, IsLast};
ghost use Rattle.gm_notes.specs.Closings.{expire_one, expire_each, rising};
ghost use Rattle.gm_notes.specs.Jobs.{handle};
ghost use Rattle.gm_notes.specs.Servers.{Answers, steps_after};
ghost use Rattle.gm_notes.specs.Settings.{Settings};
ghost use Rattle.gm_notes.specs.Steps.{Step, Tick};
ghost use Rattle.gm_core.specs.Telling.{hears, needed, Roomed, Poured};
ghost use Rattle.gm_core.specs.Ticks.{AreLate, late_bytes, OthersStay};
ghost use Rattle.gm_core.specs.Writing.{copied_text};

use super::Tables;
use crate::telling::{put_each, reserve_each};
use crate::written::Written;
use gm_actions::handle;
use gm_notes::{ApplyError, Config, Done};
use gm_packet::{Response, write_response};
use std::alloc::{AllocError, Global};
use std::collections::VecDeque;

/// The packet that reports a job's failure.
pub(super) fn fail_packet(alloc: Global, config: &Config, job: u64) -> Result<Vec<u8>, AllocError>
    ensures { IfOk result (λ packet. packet.items ≡ answer_packet (work_fail (handle config.now job))) }
{
    let handle = handle(alloc, config, job)?;
    let mut packet = Vec::new(alloc);
    write_response(&Response::WorkFail { handle: &handle }, &mut packet)?;
    Ok(packet)
}

/// A job whose deadline is reached, and the packet that reports its failure.
#[derive(Drop)]
struct Late {
    job: u64,
    text: Written,
}

impl Tables {
    ghost use Rattle.gm_core.specs.Holds.{IsKept, Goes, AllTouched, CoreAgrees};

    /// Writes the packet that reports a job's failure, and makes room for it at each listener, beyond the room that
    /// there is.
    fn prepare_late(&mut self, job: u64) -> Result<Late, AllocError>
        ensures goes { Goes self.old self.new (λ past. past) }
        ensures config { self.new.config ≡ self.old.config }
        ensures jobs { self.new.jobs ≡ self.old.jobs }
        ensures moment { self.new.moment ≡ self.old.moment }
        ensures roomed { Roomed self.old.conns self.new.conns }
        ensures job { IfOk result (λ late. late.job ≡ job) }
        ensures text { IfOk result (λ late. late.text ≡ copied_text (answer_packet (work_fail (handle self.old.config job)))) }
        ensures room { IfOk result (λ late. (c : ℕ) → (conn self.old.conns c).room + needed late.text.cost c (filter (hears self.old.conns false) (listeners_of (job_of self.old.jobs job))) ≤ (conn self.new.conns c).room) }
    {
        let packet = fail_packet(self.alloc, &self.config, job)?;
        let slots = self.jobs.listeners(job);
        reserve_each(&mut self.conns, slots, false, packet.len())?;
        let text = Written::of(packet);
        Ok(Late { job, text })
    }

    /// The jobs whose deadlines are reached, in the order of their numbers, with room for all packets that report them.
    fn prepare_due(&mut self, now: u64) -> Result<VecDeque<Late>, AllocError>
        ensures goes { Goes self.old self.new (λ past. past) }
        ensures config { self.new.config ≡ self.old.config }
        ensures jobs { self.new.jobs ≡ self.old.jobs }
        ensures moment { self.new.moment ≡ self.old.moment }
        ensures late { IfOk result (λ lates. AreLate self.old.config now self.old.jobs.live 0 lates.items) }
        ensures room { IfOk result (λ lates. (c : ℕ) → late_bytes (hears self.new.conns false) self.old.jobs c lates.items ≤ (conn self.new.conns c).room) }
        ensures none { IsLast (is_due now) 0 self.old.jobs.live → OnErr result ⊥ }
    {
        let mut lates = VecDeque::new(self.alloc);
        let mut after = 0;
        while let Some(job) = self.jobs.due(now, after) {
            let late = self.prepare_late(job)?;
            lates.push_back(late)?;
            after = job;
        }
        Ok(lates)
    }

    /// A running job whose deadline is reached has failed: its listeners get WORK_FAIL, and its worker nothing. It
    /// needs no memory.
    fn expire(&mut self, mut late: Late)
        requires kept { IsKept self.old }
        requires due { passes (is_due self.old.moment) (job_of self.old.jobs late.job) ≡ true }
        requires text { late.text ≡ copied_text (answer_packet (work_fail (handle self.old.config late.job))) }
        requires room { (c : ℕ) → needed late.text.cost c (filter (hears self.old.conns false) (listeners_of (job_of self.old.jobs late.job))) ≤ (conn self.old.conns c).room }
        ensures goes { Goes self.old self.new (expire_one self.old.config late.job) }
        ensures moment { self.new.moment ≡ self.old.moment }
        ensures jobs { OthersStay late.job self.old.jobs self.new.jobs }
        ensures poured { Poured late.text.cost (filter (hears self.old.conns false) (listeners_of (job_of self.old.jobs late.job))) self.old.conns self.new.conns }
    {
        let slots = self.jobs.listeners(late.job);
        put_each(&mut self.conns, slots, false, &mut late.text);
        let _ended = self.end(late.job);
    }

    /// These jobs, whose deadlines are reached, have failed. It needs no memory.
    fn expire_each(&mut self, mut lates: VecDeque<Late>)
        requires kept { IsKept self.old }
        requires late { AreLate self.old.config self.old.moment self.old.jobs.live 0 lates.items }
        requires room { (c : ℕ) → late_bytes (hears self.old.conns false) self.old.jobs c lates.items ≤ (conn self.old.conns c).room }
        ensures { Goes self.old self.new (λ past. expire_each self.old.config (rising past) past) }
    {
        while let Some(late) = lates.pop_front() {
            self.expire(late);
        }
    }

    /// It is now this many seconds; a clock that goes back counts as standing still. The jobs whose deadlines are
    /// reached have failed.
    pub(super) fn tick(&mut self, now: u64) -> Result<Done, ApplyError>
        requires { IsKept self.old }
        ensures answers { (k : Settings) (steps : List Step) → CoreAgrees self.old k steps
            → Answers k steps (Tick now) result × CoreAgrees self.new k (steps_after result (Tick now) steps) }
        ensures touched { AllTouched self.old.conns self.new.conns }
        ensures memory { IsLast (is_due (max now self.old.moment)) 0 self.old.jobs.live → OnErr result ⊥ }
    {
        let moment = now.max(self.moment);
        let lates = self.prepare_due(moment)?;
        self.moment = moment;
        self.expire_each(lates);
        Ok(Done::NONE)
    }
}
