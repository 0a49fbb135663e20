//! Workers that ask for jobs.

ghost use Rattle.std.specs.Prelude.{◌≡◌, ◌<◌, Some, length};
ghost use Rattle.std.specs.Option.{option_map};
ghost use Rattle.gm_conns.specs.ConnTables.{IsOpen};
ghost use Rattle.gm_jobs.specs.Tables as jobs;
ghost use Rattle.gm_notes.specs.declared.note.Note.TheVariants.{Assigned};
ghost use Rattle.gm_notes.specs.Past.{with_note};
ghost use Rattle.gm_notes.specs.Workers.{deadline_after, give_out, wake_itself, grab};
ghost use Rattle.gm_core.specs.Firsts.{IsFirst};

use super::Tables;
use super::abilities::Choice;
use super::answering::prepare;
use gm_actions::{JobRef, assignment, deadline_after, handle};
use gm_notes::Priority;
use gm_packet::Response;
use std::alloc::AllocError;

impl Tables {
    ghost use Rattle.gm_core.specs.Holds.{IsKept, Goes, Does};

    /// A job that is the first in a queue of its function runs at a slot now. It needs no memory.
    fn give_out(&mut self, slot: u32, found: Choice, priority: Priority)
        requires open { IsOpen self.old.conns slot }
        requires within { found.function < length self.old.functions.names }
        requires first { IsFirst self.old.functions found.function found.pick.job }
        requires priority { option_map (λ live. live.priority) (jobs.job self.old.jobs found.pick.job) ≡ Some priority }
        ensures { Goes self.old self.new (with_note (Assigned found.pick.job slot (deadline_after self.old.moment found.pick.timeout))) }
    {
        let deadline = deadline_after(self.moment, found.pick.timeout);
        let _job = self.functions.pop(found.function, priority);
        self.jobs.assign(found.pick.job, slot, deadline);
        self.conns.set_last(slot, found.function);
    }

    /// The job that was picked goes to the worker in a slot.
    fn assign(&mut self, slot: u32, found: Choice, with_unique: bool) -> Result<(), AllocError>
        requires open { IsOpen self.old.conns slot }
        requires kept { IsKept self.old }
        requires within { found.function < length self.old.functions.names }
        requires first { IsFirst self.old.functions found.function found.pick.job }
        ensures { Does self.old result self.new (λ past. give_out self.old.config slot with_unique (Some found.pick) (wake_itself slot past)) }
    {
        self.jobs.reserve_run(slot)?;
        let handle = handle(self.alloc, &self.config, found.pick.job)?;
        let job = self.jobs.by_number(found.pick.job).unwrap();
        let view = JobRef {
            function: self.functions.name(found.function),
            priority: job.p(),
            unique: job.unique(),
            body: job.body(),
        };
        let response = assignment(&handle, &view, with_unique);
        let body = job.data();
        prepare(
            &mut self.conns,
            &mut self.text,
            slot,
            &response,
            Some(&body),
        )?;
        let priority = job.p();
        self.text.put(&mut self.conns, slot);
        self.wake_itself(slot);
        self.give_out(slot, found, priority);
        Ok(())
    }

    /// The worker in a slot asks for a job.
    pub(super) fn grab(&mut self, slot: u32, with_unique: bool) -> Result<(), AllocError>
        requires open { IsOpen self.old.conns slot }
        requires kept { IsKept self.old }
        ensures { Does self.old result self.new (grab self.old.config slot with_unique) }
    {
        match self.pick(slot) {
            Some(found) => self.assign(slot, found, with_unique),
            None => {
                self.answer(slot, &Response::NoJob, None)?;
                self.wake_itself(slot);
                Ok(())
            }
        }
    }
}
