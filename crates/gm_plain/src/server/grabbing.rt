//! Workers that ask for jobs.

ghost use Rattle.std.specs.Prelude.{◌≡◌, ℕ, ◌<◌, Some, true};
ghost use Rattle.gm_notes.specs.Notes.{is_open};
ghost use Rattle.gm_notes.specs.Jobs.{job_state, job};
ghost use Rattle.gm_notes.specs.JobStates.{is_waiting};
ghost use Rattle.gm_plain.specs.Logs.{Spends};
ghost use Rattle.gm_plain.specs.Holds.{Goes, Does};
ghost use Rattle.gm_notes.specs.Workers.{wake_itself, tell_assigned, grab, give_out};

use super::{PlainServer, response_packet};
use crate::abilities::pick;
use crate::connections::{moment, seen};
use crate::jobs::job;
use gm_actions::{assignment, deadline_after, handle};
use gm_notes::{Note, Pick};
use gm_packet::Response;
use std::alloc::AllocError;

impl PlainServer {
    /// The worker in a slot asks for a job.
    pub(super) fn grab(&mut self, slot: u32, with_unique: bool) -> Result<(), AllocError>
        requires { slot < self.old.config.slots }
        ensures { Does self.old result self.new (grab self.old.config slot with_unique) }
    {
        match pick(self.alloc, &self.log, &self.config, slot)? {
            Some(found) => self.assign(slot, found, with_unique),
            None => {
                self.give(slot, &Response::NoJob)?;
                self.wake_itself(slot);
                Ok(())
            }
        }
    }

    fn assign(&mut self, slot: u32, found: Pick, with_unique: bool) -> Result<(), AllocError>
        requires slot { slot < self.old.config.slots }
        requires waits { is_waiting (job_state found.job self.old.log.notes) ≡ true }
        ensures { Does self.old result self.new (λ past. give_out self.old.config slot with_unique (Some found) (wake_itself slot past)) }
    {
        let deadline = deadline_after(moment(&self.log), found.timeout);
        self.make_room(2)?;
        self.tell_assigned(slot, found.job, with_unique)?;
        self.wake_itself(slot);
        self.note(Note::Assigned {
            job: found.job,
            slot,
            deadline,
        });
        Ok(())
    }

    /// Queues what a worker gets to know of the job that it is given.
    fn tell_assigned(&mut self, slot: u32, number: u64, with_unique: bool) -> Result<(), AllocError>
        requires { slot < self.old.config.slots }
        ensures does { Does self.old result self.new (λ past. tell_assigned self.old.config slot with_unique number (job number past.notes) past) }
        ensures log { self.new.log ≡ self.old.log }
    {
        let handle = handle(self.alloc, &self.config, number)?;
        let Some(job) = job(&self.log, number) else {
            return Ok(());
        };
        let packet = response_packet(self.alloc, &assignment(&handle, &job, with_unique))?;
        self.outboxes.give(slot, &packet)
    }

    /// A sleeping worker awakes by itself. It needs no memory.
    pub(super) fn wake_itself(&mut self, slot: u32)
        requires { slot < self.old.config.slots }
        ensures goes { Goes self.old self.new (wake_itself slot) }
        ensures room { Spends 0 self.old.log self.new.log }
        ensures open { is_open slot self.new.log.notes ≡ is_open slot self.old.log.notes }
        ensures states { (n : ℕ) → job_state n self.new.log.notes ≡ job_state n self.old.log.notes }
    {
        if seen(&self.log, slot).phase.is_asleep() {
            self.note(Note::Stirred { slot });
        }
    }
}
