//! Submissions.

ghost use Rattle.std.specs.Prelude.{◌≡◌, ◌<◌, ◌^◌, false, None, ◌+◌, ◌==◌, ◌&&◌, not, nat_le, ℕ, Some, Err, List};
ghost use Rattle.std.specs.Prelude.{OnErr, IfOk, length, codes};
ghost use Rattle.gm_conns.specs.ConnTables.{IsOpen};
ghost use Rattle.gm_queues.specs.FunctionTables.{number_of};
ghost use Rattle.gm_jobs.specs.Tables.{IsVacant};
ghost use Rattle.gm_core.specs.Holds.{first_listener};
ghost use Rattle.gm_notes.specs.Past.{Past, refuse};
ghost use Rattle.gm_actions.specs.Actions.{submission_of};
ghost use Rattle.gm_actions.specs.Carried.{IsCarried};
ghost use Rattle.gm_notes.specs.Submissions.{is_bad_name, is_full, keep_or_listen, make, join_or_make, submit};

use super::Tables;
use super::answering::prepare;
use gm_actions::{Refusal, Submission, handle};
use gm_jobs::{JobError, NewJob, Vacancy};
use gm_packet::Response;
use gm_queues::{Counts, MentionError};
use std::alloc::AllocError;

/// A job's first listener: none, if it was submitted in the background.
fn first_listener(background: bool, slot: u32) -> Option<u32>
    ensures { result ≡ first_listener background slot }
{
    if background { None } else { Some(slot) }
}

/// Whether this count of jobs reaches a limit; 0 is no limit.
fn is_limit_reached(limit: u32, counts: Counts) -> bool
    ensures { result ≡ (not (limit == 0) && nat_le limit (counts.waiting + counts.running)) }
{
    let limit = u64::from(limit);
    limit != 0 && (limit <= counts.waiting || limit - counts.waiting <= counts.running)
}

impl Tables {
    ghost use Rattle.gm_core.specs.Holds.{IsKept, Keeps, MakesNone, Goes, Does, Makes};

    /// Joins a job, or makes one; gives the one that it made.
    pub(super) fn submit(
        &mut self,
        slot: u32,
        asked: &Submission<'_>,
    ) -> Result<Option<u64>, AllocError>
        requires open { IsOpen self.old.conns slot }
        requires named { is_bad_name asked.now.function.now ≡ false }
        requires carried { IsCarried asked.now.function.now asked.now.unique.now asked.now.body.bytes.now }
        requires kept { IsKept self.old }
        ensures does { Does self.old result self.new (submit self.old.config slot (submission_of asked.now)) }
        ensures made { Makes self.old result (submit self.old.config slot (submission_of asked.now)) }
    {
        match self.functions.find(asked.function) {
            Some(f) => self.submit_known(slot, asked, f),
            None => self.submit_first(slot, asked),
        }
    }

    /// Joins a job of a function that was mentioned, or makes one.
    fn submit_known(
        &mut self,
        slot: u32,
        asked: &Submission<'_>,
        f: u32,
    ) -> Result<Option<u64>, AllocError>
        requires open { IsOpen self.old.conns slot }
        requires named { is_bad_name asked.now.function.now ≡ false }
        requires found { number_of asked.now.function.now self.old.functions ≡ Some f }
        requires within { f < length self.old.functions.names }
        requires carried { IsCarried asked.now.function.now asked.now.unique.now asked.now.body.bytes.now }
        ensures does { Does self.old result self.new (submit self.old.config slot (submission_of asked.now)) }
        ensures made { Makes self.old result (submit self.old.config slot (submission_of asked.now)) }
    {
        match self.jobs.find(f, asked.unique) {
            Ok(job) => {
                self.join(slot, asked, job)?;
                Ok(None)
            }
            Err(vacancy) => self.make_unless_full(slot, asked, f, vacancy),
        }
    }

    /// A job is made, of a function that was mentioned, unless a limit refuses it.
    fn make_unless_full(
        &mut self,
        slot: u32,
        asked: &Submission<'_>,
        f: u32,
        vacancy: Vacancy,
    ) -> Result<Option<u64>, AllocError>
        requires open { IsOpen self.old.conns slot }
        requires found { number_of asked.now.function.now self.old.functions ≡ Some f }
        requires within { f < length self.old.functions.names }
        requires vacant { IsVacant f asked.now.unique.now self.old.jobs vacancy }
        requires carried { IsCarried asked.now.function.now asked.now.unique.now asked.now.body.bytes.now }
        ensures does { Does self.old result self.new (join_or_make self.old.config slot (submission_of asked.now) None) }
        ensures made { Makes self.old result (join_or_make self.old.config slot (submission_of asked.now) None) }
    {
        if self.is_full(f) {
            self.refuse(slot, Refusal::QueueFull)?;
            return Ok(None);
        }
        match self.make(slot, asked, f, vacancy) {
            Ok(job) => Ok(Some(job)),
            Err(error) => self.refuse_job(slot, error),
        }
    }

    /// The first submission to a function: a job is made, unless a limit refuses it.
    fn submit_first(&mut self, slot: u32, asked: &Submission<'_>) -> Result<Option<u64>, AllocError>
        requires open { IsOpen self.old.conns slot }
        requires named { is_bad_name asked.now.function.now ≡ false }
        requires new { number_of asked.now.function.now self.old.functions ≡ None }
        requires carried { IsCarried asked.now.function.now asked.now.unique.now asked.now.body.bytes.now }
        requires kept { IsKept self.old }
        ensures does { Does self.old result self.new (submit self.old.config slot (submission_of asked.now)) }
        ensures made { Makes self.old result (submit self.old.config slot (submission_of asked.now)) }
    {
        let f = match self.functions.mention(asked.function) {
            Ok(f) => f,
            Err(MentionError::Memory) => return Err(AllocError),
            Err(MentionError::TooManyFunctions) => {
                self.refuse(slot, Refusal::TooManyFunctions)?;
                return Ok(None);
            }
        };
        // No job is of a function that wasn't known.
        let vacancy = self.jobs.find(f, asked.unique).unwrap_err();
        match self.make(slot, asked, f, vacancy) {
            Ok(job) => Ok(Some(job)),
            Err(error) => {
                self.functions.unmention();
                self.refuse_job(slot, error)
            }
        }
    }

    /// A job is made, which comes to wait, if there is a number and memory for it. The vacancy is that of the function
    /// and its unique id.
    fn make(
        &mut self,
        slot: u32,
        asked: &Submission<'_>,
        f: u32,
        vacancy: Vacancy,
    ) -> Result<u64, JobError>
        requires open { IsOpen self.old.conns slot }
        requires found { number_of asked.now.function.now self.old.functions ≡ Some f }
        requires within { f < length self.old.functions.names }
        requires vacant { IsVacant f asked.now.unique.now self.old.jobs vacancy }
        requires carried { IsCarried asked.now.function.now asked.now.unique.now asked.now.body.bytes.now }
        ensures makes { IfOk result (λ job. Goes self.old self.new (make self.old.config slot (submission_of asked.now) (Some job))) }
        ensures number { IfOk result (λ job. job ≡ self.old.jobs.next) }
        ensures spent { result ≡ Err JobError.NumbersSpent → self.old.jobs.next ≡ 2 ^ 64 }
        ensures none { OnErr result (MakesNone self.old self.new) }
        ensures open { OnErr result (IsOpen self.new.conns slot) }
    {
        let (shared, body) = asked.body.keep();
        self.jobs.reserve_listener(slot)?;
        let job = self.jobs.reserve(f, asked.unique.len(), body.len())?;
        let handle = handle(self.alloc, &self.config, job)?;
        let response = Response::JobCreated { handle: &handle };
        prepare(&mut self.conns, &mut self.text, slot, &response, None)?;
        self.functions.reserve_one(f, asked.priority)?;
        // The rest needs no memory.
        let new = NewJob {
            f,
            p: asked.priority,
            unique: asked.unique,
            body,
            kept: asked.background,
            listener: first_listener(asked.background, slot),
        };
        let _number = self.jobs.insert(new, shared, vacancy);
        self.functions.push(f, asked.priority, job);
        self.text.put(&mut self.conns, slot);
        self.wake(f);
        Ok(job)
    }

    /// No job was made: the slot is refused if no number was left.
    fn refuse_job(&mut self, slot: u32, error: JobError) -> Result<Option<u64>, AllocError>
        requires { IsOpen self.old.conns slot }
        ensures does { Does self.old result self.new (refuse slot (codes "no_numbers")) }
        ensures none { IfOk result (λ made. (made ≡ None) × (error ≡ JobError.NumbersSpent)) }
    {
        match error {
            JobError::Memory => Err(AllocError),
            JobError::NumbersSpent => {
                self.refuse(slot, Refusal::NoNumbers)?;
                Ok(None)
            }
        }
    }

    /// Whether no more jobs of the function may be there.
    fn is_full(&self, f: u32) -> bool
        requires { f < length self.now.functions.names }
        ensures { (function : List ℕ) (past : Past) → number_of function self.now.functions ≡ Some f → Keeps self.now past → result ≡ is_full function past.notes }
    {
        is_limit_reached(self.functions.limit(f), self.functions.counts(f))
    }

    /// Joins a job: in the background it is kept, otherwise listened to.
    pub(super) fn join(
        &mut self,
        slot: u32,
        asked: &Submission<'_>,
        job: u64,
    ) -> Result<(), AllocError>
        requires { IsOpen self.old.conns slot }
        ensures { Does self.old result self.new (join_or_make self.old.config slot (submission_of asked.now) (Some job)) }
    {
        let handle = handle(self.alloc, &self.config, job)?;
        let response = Response::JobCreated { handle: &handle };
        prepare(&mut self.conns, &mut self.text, slot, &response, None)?;
        self.keep_or_listen(slot, asked, job)?;
        self.text.put(&mut self.conns, slot);
        Ok(())
    }

    /// A background submission keeps the job, another listens to it.
    fn keep_or_listen(
        &mut self,
        slot: u32,
        asked: &Submission<'_>,
        job: u64,
    ) -> Result<(), AllocError>
        requires { IsOpen self.old.conns slot }
        ensures does { Does self.old result self.new (keep_or_listen slot (submission_of asked.now) job) }
        ensures conns { self.new.conns ≡ self.old.conns }
        ensures text { self.new.text ≡ self.old.text }
    {
        if asked.background {
            self.jobs.keep(job);
            return Ok(());
        }
        self.jobs.listen(job, slot)
    }
}
