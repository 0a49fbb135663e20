//! The table of jobs.

ghost use Rattle.std.specs.Prelude.{◌≡◌, ℕ, ◌+◌, ◌<◌, ◌≤◌, ◌^◌, ◌↔◌, Some, None, IsSome, true, false, IfSome, IfNone, IfOk, IfErr, OnOk, OnErr, Err, Contains, length};
ghost use Rattle.std.specs.Option.{option_copied, unwrap_or};
ghost use Rattle.gm_jobs.specs.Live.{Live, AreCarried, fresh, assigned, given_back, kept, reported, with_listener, is_run_by, is_orphan, is_due, is_last_try};
ghost use Rattle.gm_jobs.specs.Tables.{no_jobs, job, find_job, is_made, place, listeners_of, passes, back_of, IsNamed, IsVacant, HasRoom, with_room, Makes, Changes, Ends, Leaves, IsNext, IsLast};
ghost use Rattle.gm_jobs.specs.Deadlines.{AllListed};
ghost use Rattle.gm_jobs.specs.Hints.{HintTable, AllFound};
ghost use Rattle.gm_jobs.specs.Uniques.{LeadsTo};

use crate::by_number::JobMap;
use crate::deadlines::{Deadlines, deadline_of};
use crate::index::Index;
use crate::job::{Change, Job, NewJob, Query, Reservation};
use crate::uniques::{Uniques, Vacancy, digest};
use gm_bytes::SharedBytes;
use gm_notes::{Place, is_joining};
use std::alloc::{AllocError, Global};
use std::hash::RandomState;
use std::marker::Model;

/// Why there is no room for a job. A refused call changes nothing.
#[derive(Clone, Copy, Debug, PartialEq, Eq)]
pub enum JobError {
    /// There was no memory for it.
    Memory = 6,
    /// The last number was given out.
    NumbersSpent = 15,
}

impl From<AllocError> for JobError {
    ghost use Rattle.gm_jobs.specs.declared.jobs.JobError.TheVariants.{Memory};

    ghost from_gives = { λ _ e. e ≡ Memory };

    fn from(_e: AllocError) -> JobError {
        JobError::Memory
    }
}

/// The state of a job after its worker gave it back.
#[derive(Clone, Copy, Debug, PartialEq, Eq)]
pub enum Back {
    /// It waits again.
    Returned,
    /// That was its last try: it runs at no slot, and the next tick fails it.
    Lost,
}

/// The live jobs by their numbers.
///
/// A call at a number that no live job has changes nothing. Calls that answer no refusal take no memory. For slots
/// below 1,024 what a slot runs and listens to is found without a look at other jobs, if `reserve_run` and
/// `reserve_listener` came before.
#[derive(Drop)]
pub struct Jobs {
    alloc: Global,
    seed: RandomState,
    first: u64,
    // None once the last number was given out.
    next: Option<u64>,
    jobs: JobMap,
    uniques: Uniques,
    index: Index,
    deadlines: Deadlines,
    reservation: Option<Reservation>,
}

impl Model for Jobs {
    ghost use Rattle.std.specs.Prelude.{◌^◌, is_some};
    ghost use Rattle.std.specs.Option.{unwrap_or};
    ghost use Rattle.gm_jobs.specs.Tables.{Table};
    ghost use Rattle.gm_jobs.specs.Kept.{Beside, IsKept};

    ghost Value = { Table };

    ghost view = { λ t. record { seed = t.seed; first = t.first; next = unwrap_or t.next (2 ^ 64); room = t.reservation; live = t.jobs.entries } };

    ghost invariant = { λ t. IsKept (record { seed = t.seed; first = t.first; next = unwrap_or t.next (2 ^ 64); left = is_some t.next; uniques = t.uniques; index = t.index; deadlines = t.deadlines }) t.reservation t.jobs.room t.jobs.entries };
}

// Makes room for one job more in each table.
fn make_room(
    jobs: &mut JobMap,
    uniques: &mut Uniques,
    deadlines: &mut Deadlines,
) -> Result<(), AllocError>
    ensures jobs { jobs.new.entries ≡ jobs.old.entries }
    ensures slots { jobs.old.room ≤ jobs.new.room }
    ensures led { (d n : ℕ) → LeadsTo uniques.old d n → LeadsTo uniques.new d n }
    ensures ids { uniques.old.room ≤ uniques.new.room }
    ensures listed { AllListed jobs.old.entries deadlines.old → AllListed jobs.old.entries deadlines.new }
    ensures ok { OnOk result ((0 < jobs.new.room) × (0 < uniques.new.room)) }
{
    jobs.reserve_one()?;
    deadlines.reserve(jobs, jobs.len() + 1)?;
    uniques.reserve_one()
}

impl Jobs {
    /// No jobs. The first to be made gets this number. Unique ids come from strangers, so the tables hash with
    /// this seed.
    pub fn new(alloc: Global, seed: RandomState, first_job: u64) -> Result<Jobs, AllocError>
        ensures { IfOk result (λ table. table ≡ no_jobs seed first_job) }
    {
        Ok(Jobs {
            alloc,
            seed,
            first: first_job,
            next: Some(first_job),
            jobs: JobMap::new(alloc, &seed),
            uniques: Uniques::new(alloc, &seed),
            index: Index::new(alloc)?,
            deadlines: Deadlines::new(alloc),
            reservation: None,
        })
    }

    /// Makes room for one job more, of this function and with texts of at most these lengths, and gives its number.
    /// `NumbersSpent` comes if the last number was given out, and otherwise `Memory` if out of memory.
    pub fn reserve(&mut self, f: u32, unique_len: usize, body_len: usize) -> Result<u64, JobError>
        ensures spent { (result ≡ Err JobError.NumbersSpent) ↔ (self.old.next ≡ 2 ^ 64) }
        ensures number { IfOk result (λ n. n ≡ self.old.next) }
        ensures ok { OnOk result (self.new ≡ with_room f unique_len body_len self.old) }
        ensures err { OnErr result (self.new ≡ self.old) }
    {
        let Some(number) = self.next else {
            return Err(JobError::NumbersSpent);
        };
        let reservation = Reservation::new(self.alloc, f, unique_len, body_len)?;
        make_room(&mut self.jobs, &mut self.uniques, &mut self.deadlines)?;
        self.reservation = Some(reservation);
        Ok(number)
    }

    /// Makes room for one job more to which a slot listens.
    pub fn reserve_listener(&mut self, slot: u32) -> Result<(), AllocError>
        ensures { self.new ≡ self.old }
    {
        self.index.reserve(Query::HeardBy(slot), &self.jobs)
    }

    /// Makes room for one job more that runs at a slot.
    pub fn reserve_run(&mut self, slot: u32) -> Result<(), AllocError>
        ensures { self.new ≡ self.old }
    {
        self.index.reserve(Query::RunBy(slot), &self.jobs)
    }

    /// Makes a job in the room that is reserved, and gives its number. A shared body takes the place of the one that
    /// the job says. The vacancy is that of its function and unique id.
    pub fn insert(&mut self, new: NewJob<'_>, shared: Option<SharedBytes>, vacancy: Vacancy) -> u64
        requires room { HasRoom new.f (length new.unique.now) (length new.body.now) self.old }
        requires vacant { IsVacant new.f new.unique.now self.old vacancy }
        requires carried { AreCarried new.unique.now (unwrap_or shared new.body.now) }
        ensures number { result ≡ self.old.next }
        ensures makes { Makes (fresh new.entry.f new.entry.p new.entry.unique.now (unwrap_or shared new.entry.body.now) new.entry.kept new.entry.listener) self.old self.new }
    {
        let reservation = self.reservation.take().unwrap();
        let number = self.next.unwrap();
        self.next = number.checked_add(1);
        let job = reservation.fill(self.alloc, new, shared, vacancy.digest);
        self.jobs.insert(number, job);
        self.uniques.insert(new.unique, vacancy.digest, number);
        self.index.begin(new.listener, new.kept, number);
        number
    }

    /// The live job of a number.
    pub fn by_number(&self, n: u64) -> Option<&Job>
        ensures { option_copied result ≡ job self.now n }
    {
        self.jobs.get(n)
    }

    /// The live job of this function with this unique id, and otherwise that there is none, which `insert` takes. There
    /// is none if the id is empty or a dash.
    pub fn find(&self, f: u32, unique: &[u8]) -> Result<u64, Vacancy>
        ensures found { IfOk result (IsNamed f unique.now self.now) }
        ensures only { IfOk result (λ n. (m : ℕ) → IsNamed f unique.now self.now m → m ≡ n) }
        ensures vacant { IfErr result (IsVacant f unique.now self.now) }
    {
        if !is_joining(unique) {
            return Err(Vacancy { digest: 0 });
        }
        let digest = digest(&self.seed, f, unique);
        match self.uniques.find(&self.jobs, digest, f, unique) {
            Some(number) => Ok(number),
            None => Err(Vacancy { digest }),
        }
    }

    // Whether a job of this number was made.
    fn is_made(&self, n: u64) -> bool
        ensures { result ≡ is_made self.now n }
    {
        match self.next {
            Some(next) => self.first <= n && n < next,
            None => self.first <= n,
        }
    }

    /// Where the job of a number is.
    pub fn place(&self, n: u64) -> Place
        ensures { result ≡ place self.now n }
    {
        match self.by_number(n) {
            Some(job) => job.place(),
            None => {
                if self.is_made(n) {
                    Place::Gone
                } else {
                    Place::Unmade
                }
            }
        }
    }

    /// The job runs at the slot, until the deadline if there is one.
    pub fn assign(&mut self, n: u64, slot: u32, deadline: Option<u64>)
        ensures { Changes n (assigned slot deadline) self.old self.new }
    {
        let _changed = self.jobs.change(n, Change::Assign(slot, deadline));
        self.deadlines.enlist(&self.jobs, n, deadline);
        self.index.put(Query::RunBy(slot), n);
    }

    /// The job waits again, or is lost if that was its last try: a job is given to at most this many workers, and it
    /// came back from all but one of them before. A limit of 0 is none.
    pub fn give_back(&mut self, n: u64, limit: u32) -> Back
        ensures back { result ≡ back_of (passes (is_last_try limit) (job self.old n)) }
        ensures changes { Changes n (given_back limit) self.old self.new }
    {
        let _changed = self.jobs.change(n, Change::GiveBack(limit));
        let deadline = deadline_of(&self.jobs, n);
        self.deadlines.enlist(&self.jobs, n, deadline);
        self.index.put_orphan(&self.jobs, n);
        // A job that waits has no deadline.
        match deadline {
            Some(_) => Back::Lost,
            None => Back::Returned,
        }
    }

    /// The job isn't live any more; gives what it was.
    pub fn end(&mut self, n: u64) -> Option<Job>
        ensures ended { result ≡ job self.old n }
        ensures ends { Ends n self.old self.new }
    {
        let ended = self.jobs.remove(n)?;
        self.uniques.remove(&ended, n);
        Some(ended)
    }

    /// A background submission keeps the job.
    pub fn keep(&mut self, n: u64)
        ensures { Changes n kept self.old self.new }
    {
        let _changed = self.jobs.change(n, Change::Keep);
    }

    /// The job is so far: a numerator and a denominator. Out of memory, nothing changes.
    pub fn report(&mut self, n: u64, numerator: &[u8], denominator: &[u8]) -> Result<(), AllocError>
        requires { AreCarried numerator.now denominator.now }
        ensures ok { OnOk result (Changes n (reported numerator.now denominator.now) self.old self.new) }
        ensures err { OnErr result (self.new ≡ self.old) }
    {
        self.jobs.change(n, Change::Report(numerator, denominator))
    }

    /// The job's listeners, in the order in which they came.
    pub fn listeners(&self, n: u64) -> &[u32]
        ensures { result.now ≡ listeners_of (job self.now n) }
    {
        match self.by_number(n) {
            Some(job) => job.listeners(),
            None => &[],
        }
    }

    /// The slot listens to the job, once more. Out of memory, nothing changes.
    pub fn listen(&mut self, n: u64, slot: u32) -> Result<(), AllocError>
        ensures ok { OnOk result (Changes n (with_listener slot) self.old self.new) }
        ensures err { OnErr result (self.new ≡ self.old) }
    {
        self.index.reserve(Query::HeardBy(slot), &self.jobs)?;
        self.index.put(Query::HeardBy(slot), n);
        self.jobs.change(n, Change::Listen(slot))
    }

    /// The slot listens to no job any more.
    pub fn leave(&mut self, slot: u32)
        ensures { Leaves slot self.old self.new }
    {
        self.index.leave(slot, &mut self.jobs);
    }

    /// The least number above `after` of a job that runs at the slot.
    pub fn next_run_by(&mut self, slot: u32, after: u64) -> Option<u64>
        ensures next { IfSome result (IsNext (is_run_by slot) after self.old.live) }
        ensures last { IfNone result (IsLast (is_run_by slot) after self.old.live) }
        ensures kept { self.new ≡ self.old }
    {
        self.index.next_run_by(slot, &self.jobs, after)
    }

    /// The least number above `after` of a job that waits though nobody wants it: it isn't kept, and nobody
    /// listens.
    pub fn next_orphan(&mut self, after: u64) -> Option<u64>
        ensures next { IfSome result (IsNext is_orphan after self.old.live) }
        ensures last { IfNone result (IsLast is_orphan after self.old.live) }
        ensures kept { self.new ≡ self.old }
    {
        self.index.next_orphan(&self.jobs, after)
    }

    /// The least number above `after` of a running job whose deadline is reached.
    pub fn due(&mut self, now: u64, after: u64) -> Option<u64>
        ensures next { IfSome result (IsNext (is_due now) after self.old.live) }
        ensures last { IfNone result (IsLast (is_due now) after self.old.live) }
        ensures kept { self.new ≡ self.old }
    {
        self.deadlines.next(&self.jobs, now, after)
    }
}
