//! Connections that go, and jobs that wait again or are discarded.

ghost use Rattle.std.specs.Prelude.{◌≡◌, List, true, IsErrOf};
ghost use Rattle.gm_notes.specs.declared.event.ApplyError.TheVariants.{Memory};
ghost use Rattle.gm_notes.specs.Settings.{Settings};
ghost use Rattle.gm_notes.specs.Steps.{Step, Close};
ghost use Rattle.gm_notes.specs.Servers.{Answers, steps_after};
ghost use Rattle.gm_notes.specs.declared.note.Note.TheVariants.{Discarded};
ghost use Rattle.gm_notes.specs.Past.{with_note};
ghost use Rattle.gm_notes.specs.Closings.{give_back_one, disconnect, discard_each, give_back_each, rising};
ghost use Rattle.gm_conns.specs.ConnTables.{IsOpen};
ghost use Rattle.gm_jobs.specs.Live.{is_orphan, is_run_by};
ghost use Rattle.gm_jobs.specs.Tables.{passes};
ghost use Rattle.gm_jobs.specs.Tables as jobs;

use super::Tables;
use gm_jobs::Back;
use gm_notes::{ApplyError, Done};

impl Tables {
    ghost use Rattle.gm_core.specs.Holds.{IsKept, Goes, AllTouched, CoreAgrees};

    /// A waiting job that nobody wants is discarded. It needs no memory.
    fn discard(&mut self, job: u64)
        requires orphan { passes is_orphan (jobs.job self.old.jobs job) ≡ true }
        requires kept { IsKept self.old }
        ensures { Goes self.old self.new (with_note (Discarded job)) }
    {
        let ended = self.jobs.end(job).unwrap();
        self.functions.forget(ended.f(), ended.p(), job);
    }

    /// A job that runs at a slot waits again, as the last, and the sleeping workers that can do it are owed a NOOP; or
    /// it is lost if that was its last try, and keeps the place that is reserved for it at its queue; or it is
    /// discarded if nobody wants it. It needs no memory.
    fn give_back_one(&mut self, slot: u32, job: u64)
        requires runs { passes (is_run_by slot) (jobs.job self.old.jobs job) ≡ true }
        requires kept { IsKept self.old }
        ensures { Goes self.old self.new (give_back_one self.old.config slot job) }
    {
        let limit = self.config.retries();
        let found = self.jobs.by_number(job).unwrap();
        if !found.is_wanted() {
            let _ended = self.end(job);
            return;
        }
        let (f, p) = (found.f(), found.p());
        match self.jobs.give_back(job, limit) {
            Back::Lost => {}
            Back::Returned => {
                self.functions.push(f, p, job);
                self.wake(f);
            }
        }
    }

    /// The connection in a slot goes, with the bytes that waited for it. It needs no memory.
    fn leave(&mut self, slot: u32)
        requires { IsOpen self.old.conns slot }
        ensures { Goes self.old self.new (disconnect slot) }
    {
        self.wake_itself(slot);
        self.conns.close(slot);
        self.jobs.leave(slot);
    }

    /// The waiting jobs that nobody wants are discarded, in the order of their numbers. It needs no memory.
    fn discard_each(&mut self)
        requires { IsKept self.old }
        ensures { Goes self.old self.new (λ past. discard_each (rising past) past) }
    {
        let mut after = 0;
        while let Some(job) = self.jobs.next_orphan(after) {
            self.discard(job);
            after = job;
        }
    }

    /// The jobs that ran at a slot wait again, are lost, or are discarded, in the order of their numbers. It needs no
    /// memory.
    fn give_back_each(&mut self, slot: u32)
        requires { IsKept self.old }
        ensures { Goes self.old self.new (λ past. give_back_each self.old.config slot (rising past) past) }
    {
        let mut after = 0;
        while let Some(job) = self.jobs.next_run_by(slot, after) {
            self.give_back_one(slot, job);
            after = job;
        }
    }

    /// The connection in a slot goes, with the bytes that waited for it; its jobs wait again, are lost, or go too. It
    /// needs no memory.
    pub(super) fn close(&mut self, slot: u32) -> Result<Done, ApplyError>
        requires { IsKept self.old }
        ensures answers { (k : Settings) (steps : List Step) → CoreAgrees self.old k steps
            → Answers k steps (Close slot) result × CoreAgrees self.new k (steps_after result (Close slot) steps) }
        ensures touched { AllTouched self.old.conns self.new.conns }
        ensures memory { IsErrOf result Memory → ⊥ }
    {
        if !self.conns.is_open(slot) {
            return Err(ApplyError::NotOpen);
        }
        self.leave(slot);
        self.discard_each();
        self.give_back_each(slot);
        Ok(Done::NONE)
    }
}
