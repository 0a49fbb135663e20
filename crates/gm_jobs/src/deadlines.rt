//! When running jobs are due.

ghost use Rattle.std.specs.Prelude.{◌≡◌, ◌≢◌, ℕ, true, false, Some, slice_get, IfSome, IfNone};
ghost use Rattle.std.specs.Option.{option_and_then};
ghost use Rattle.gm_jobs.specs.Live.{Live, is_due};
ghost use Rattle.gm_jobs.specs.Tables.{find_job, IsNext, IsLast};
ghost use Rattle.gm_jobs.specs.MinHeap.{Has};
ghost use Rattle.gm_jobs.specs.Deadlines.{IsListed, AllListed, listing, AllLater};

use crate::by_number::JobMap;
use crate::hints::Hints;
use crate::job::Query;
use crate::min_heap::MinHeap;
use std::alloc::{AllocError, Global};
use std::marker::Model;

/// The deadlines of the jobs that run, among others that no job has any more.
///
/// Each is compared with its job, so a deadline that no job has any more does no harm: it goes when it is reached, or
/// when there is no room for one more. Then all deadlines are taken from the jobs again.
#[derive(Drop)]
pub(crate) struct Deadlines {
    // Each deadline with the number of its job: the soonest is first.
    waiting: MinHeap,
    // The jobs whose deadlines were reached. None is missing here if no deadline is missing.
    reached: Hints,
}

impl Model for Deadlines {
    ghost use Rattle.gm_jobs.specs.Deadlines.{DeadlineTable};

    ghost Value = { DeadlineTable };

    ghost view = { λ d. record { waiting = d.waiting; reached = d.reached } };
}

// The deadline of the job at this position goes into the heap, if there is one. Answers whether there was room.
fn list_deadline(heap: &mut MinHeap, jobs: &JobMap, i: usize) -> bool
    ensures kept { (a b : ℕ) → Has heap.old a b → Has heap.new a b }
    ensures stands { result ≡ true → (n d : ℕ) (live : Live) → slice_get jobs.now.entries i ≡ Some (n, live) → live.deadline ≡ Some d → Has heap.new d n }
{
    match jobs.at(i) {
        Some((number, job)) => match job.deadline() {
            Some(deadline) => heap.put(deadline, number),
            None => true,
        },
        None => true,
    }
}

// The deadlines of all jobs go into the heap. Answers whether there was room.
fn list_deadlines(heap: &mut MinHeap, jobs: &JobMap) -> bool
    ensures { result ≡ true → (n d : ℕ) (live : Live) → find_job jobs.now.entries n ≡ Some live → live.deadline ≡ Some d → Has heap.new d n }
{
    for i in 0..jobs.len() {
        if !list_deadline(heap, jobs, i) {
            return false;
        }
    }
    true
}

// Whether a deadline is reached.
fn is_reached(waiting: &MinHeap, now: u64) -> bool
    ensures { result ≡ false → AllLater now waiting.now }
{
    match waiting.first() {
        Some((deadline, _number)) => deadline <= now,
        None => false,
    }
}

/// Until when the job of a number runs, if it is live and has a deadline.
pub(crate) fn deadline_of(jobs: &JobMap, n: u64) -> Option<u64>
    ensures { result ≡ option_and_then (λ (l : Live). l.deadline) (find_job jobs.now.entries n) }
{
    jobs.get(n)?.deadline()
}

// The jobs that are due are among the reached then, each once: a deadline that its job has no more is passed over, and
// equal ones of a job follow each other.
fn gather(waiting: &mut MinHeap, reached: &mut Hints, jobs: &JobMap, now: u64)
    requires { AllListed jobs.now.entries (listing waiting.old reached.old) }
    ensures listed { AllListed jobs.now.entries (listing waiting.new reached.new) }
    ensures later { AllLater now waiting.new }
{
    while let Some((deadline, number)) = waiting.first() {
        if deadline > now {
            return;
        }
        if deadline_of(jobs, number) == Some(deadline) {
            reached.put_once(number);
        }
        waiting.pop();
    }
}

impl Deadlines {
    /// No deadlines.
    pub(crate) fn new(alloc: Global) -> Deadlines {
        Deadlines {
            waiting: MinHeap::new(alloc),
            reached: Hints::new(alloc, true),
        }
    }

    // All deadlines, from the jobs.
    fn renew(&mut self, jobs: &JobMap)
        ensures { AllListed jobs.now.entries self.new }
    {
        self.waiting.clear();
        self.reached.reset(list_deadlines(&mut self.waiting, jobs));
    }

    /// Makes room for the deadlines of `count` jobs.
    pub(crate) fn reserve(&mut self, jobs: &JobMap, count: usize) -> Result<(), AllocError>
        ensures { AllListed jobs.now.entries self.old → AllListed jobs.now.entries self.new }
    {
        self.waiting
            .reserve(count.saturating_add(count / 4).saturating_add(16))?;
        self.reached.reserve(count)?;
        if !self.reached.is_whole() {
            self.renew(jobs);
        }
        Ok(())
    }

    /// The job of a number runs until this deadline, if there is one.
    pub(crate) fn enlist(&mut self, jobs: &JobMap, number: u64, deadline: Option<u64>)
        requires others { (n : ℕ) (live : Live) → n ≢ number → find_job jobs.now.entries n ≡ Some live → IsListed self.old n live }
        requires this { (live : Live) → find_job jobs.now.entries number ≡ Some live → live.deadline ≡ deadline }
        ensures { AllListed jobs.now.entries self.new }
    {
        if let Some(deadline) = deadline {
            if !self.waiting.put(deadline, number) {
                self.renew(jobs);
            }
        }
    }

    // The jobs that are due are among the reached then. Those that were reached before and don't run any more go first,
    // which leaves room.
    fn collect(&mut self, jobs: &JobMap, now: u64)
        requires { AllListed jobs.now.entries self.old }
        ensures listed { AllListed jobs.now.entries self.new }
        ensures later { AllLater now self.new.waiting }
    {
        if is_reached(&self.waiting, now) {
            self.reached.keep(jobs, Query::Started);
            gather(&mut self.waiting, &mut self.reached, jobs, now);
        }
    }

    /// The least number above `after` of a job that is due.
    pub(crate) fn next(&mut self, jobs: &JobMap, now: u64, after: u64) -> Option<u64>
        requires { AllListed jobs.now.entries self.old }
        ensures listed { AllListed jobs.now.entries self.new }
        ensures next { IfSome result (IsNext (is_due now) after jobs.now.entries) }
        ensures last { IfNone result (IsLast (is_due now) after jobs.now.entries) }
    {
        self.collect(jobs, now);
        self.reached
            .next(jobs, Query::Due(now), Query::Started, after)
    }
}
