//! The waiting jobs of one function and priority.

ghost use Rattle.std.specs.Prelude.{◌≡◌, ℕ, ◌^◌, ◌<◌, ◌≤◌, ◌==◌, ◌⊎◌, ◌↔◌, not, IsTrue, Contains, length, count_by, filter, slice_get};
ghost use Rattle.std.specs.Prelude.{Some, None, IsSome, IfSome, IfNone, OnOk, OnErr};
ghost use Rattle.std.specs.VecDeque.{deque_len, deque_capacity};
ghost use Rattle.gm_queues.specs.Queues.{no_jobs, idle, with_reserved_one, without_reserved_one, with_job, without_first, Leaves, jobs_in};

use crate::guesses::Guesses;
use std::alloc::{AllocError, Global};
use std::collections::VecDeque;
use std::marker::Model;

/// The waiting jobs of one function and priority in their order, and the room that is reserved for jobs.
///
/// A job that is forgotten leaves a cleared entry, which a search for the first job drops. The ring has capacity for
/// all reserved room that no waiting job uses.
#[derive(Drop)]
pub(crate) struct Ring {
    entries: VecDeque<Option<u64>>,
    guesses: Guesses,
    // How many entries aren't cleared.
    waiting: usize,
    // For how many jobs room is reserved, those that wait included.
    reserved: usize,
}

impl Model for Ring {
    ghost use Rattle.std.specs.Prelude.{◌≡◌, ◌+◌, ◌^◌, ◌≤◌, length};
    ghost use Rattle.std.specs.VecDeque.{deque_len, deque_capacity};
    ghost use Rattle.gm_queues.specs.Queues.{Queue, jobs_in};

    ghost Value = { Queue };

    ghost view = { λ r. record { jobs = jobs_in r.entries.items; reserved = r.reserved } };

    ghost invariant = { λ r. (r.waiting ≡ length (jobs_in r.entries.items))
        × (r.waiting ≤ r.reserved)
        × (deque_len r.entries + r.reserved ≤ deque_capacity r.entries + r.waiting)
        × (r.reserved ≤ 2 ^ 56) };
}

// No machine has the memory for that many jobs, and the sum of three such counts fits a u64.
const MOST_RESERVED: usize = 1 << 56;

// Drops the cleared entries at the front.
fn skip_cleared(entries: &mut VecDeque<Option<u64>>, guesses: &mut Guesses)
    ensures jobs { jobs_in entries.new.items ≡ jobs_in entries.old.items }
    ensures first { IfSome (slice_get entries.new.items 0) IsSome }
    ensures shorter { deque_len entries.new ≤ deque_len entries.old }
    ensures capacity { deque_capacity entries.new ≡ deque_capacity entries.old }
{
    while let Some(None) = entries.front() {
        let _cleared = entries.pop_front();
        guesses.pass();
    }
}

// Drops all cleared entries.
fn drop_cleared(entries: &mut VecDeque<Option<u64>>, guesses: &mut Guesses)
    ensures jobs { jobs_in entries.new.items ≡ jobs_in entries.old.items }
    ensures len { deque_len entries.new ≡ length (jobs_in entries.old.items) }
    ensures capacity { deque_capacity entries.new ≡ deque_capacity entries.old }
{
    entries.retain(|entry| entry.is_some());
    guesses.learn(entries);
}

// Makes room for as many entries again, and a few.
fn grow(
    alloc: Global,
    entries: &mut VecDeque<Option<u64>>,
    guesses: &mut Guesses,
) -> Result<(), AllocError>
    ensures items { entries.new.items ≡ entries.old.items }
    ensures len { deque_len entries.new ≡ deque_len entries.old }
    ensures capacity { deque_capacity entries.old ≤ deque_capacity entries.new }
    ensures ok { OnOk result (deque_capacity entries.old < deque_capacity entries.new) }
{
    let room = entries.capacity().saturating_mul(2).saturating_add(4);
    let mut wider = Guesses::with_room(alloc, room)?;
    entries.reserve_exact(room - entries.len())?;
    wider.learn(entries);
    *guesses = wider;
    Ok(())
}

// Makes room for one job more than is reserved: drops the cleared entries, and grows only if half of the ring
// or more is reserved, so that the ring is full again only after as many pushes as it is long.
fn make_room(
    alloc: Global,
    entries: &mut VecDeque<Option<u64>>,
    guesses: &mut Guesses,
    reserved: usize,
) -> Result<(), AllocError>
    requires { reserved ≤ deque_capacity entries.old }
    ensures jobs { jobs_in entries.new.items ≡ jobs_in entries.old.items }
    ensures len { deque_len entries.new ≡ length (jobs_in entries.old.items) }
    ensures capacity { deque_capacity entries.old ≤ deque_capacity entries.new }
    ensures ok { OnOk result (reserved < deque_capacity entries.new) }
{
    drop_cleared(entries, guesses);
    if reserved < entries.capacity() / 2 {
        return Ok(());
    }
    grow(alloc, entries, guesses)
}

// The index of the job. Guesses lead to each job that waits, so only a job that doesn't is searched for from end
// to end.
fn index_of(entries: &VecDeque<Option<u64>>, guesses: &Guesses, job: u64) -> Option<usize>
    ensures found { IfSome result (λ i. slice_get entries.now.items i ≡ Some (Some job)) }
    ensures missing { IfNone result (¬ Contains (jobs_in entries.now.items) job) }
{
    if let Some(index) = guesses.find(entries, job) {
        return Some(index);
    }
    for index in 0..entries.len() {
        if entries[index] == Some(job) {
            return Some(index);
        }
    }
    None
}

impl Ring {
    /// A queue with no jobs and no reserved room. It takes no memory.
    pub(crate) fn new(alloc: Global) -> Ring
        ensures { result ≡ no_jobs }
    {
        Ring {
            entries: VecDeque::new(alloc),
            guesses: Guesses::new(alloc),
            waiting: 0,
            reserved: 0,
        }
    }

    /// Reserves room for one job more.
    pub(crate) fn reserve_one(&mut self, alloc: Global) -> Result<(), AllocError>
        ensures ok { OnOk result (self.new ≡ with_reserved_one self.old) }
        ensures free { OnOk result (length self.new.jobs < self.new.reserved) }
        ensures err { OnErr result (self.new ≡ self.old) }
    {
        if self.reserved == MOST_RESERVED {
            return Err(AllocError);
        }
        if self.entries.len() + (self.reserved - self.waiting) == self.entries.capacity() {
            make_room(alloc, &mut self.entries, &mut self.guesses, self.reserved)?;
        }
        self.reserved += 1;
        Ok(())
    }

    /// Gives up reserved room for one job, which no waiting job uses.
    pub(crate) fn release(&mut self)
        requires { length self.old.jobs < self.old.reserved }
        ensures { self.new ≡ without_reserved_one self.old }
    {
        self.reserved -= 1;
    }

    /// Puts the job at the end, in reserved room.
    pub(crate) fn push(&mut self, job: u64)
        requires { length self.old.jobs < self.old.reserved }
        ensures { self.new ≡ with_job job self.old }
    {
        let _pushed = self.entries.push_back(Some(job));
        self.guesses.add(job);
        self.waiting += 1;
    }

    /// Takes out the first job, whose room stays reserved.
    pub(crate) fn pop(&mut self) -> Option<u64>
        ensures value { result ≡ slice_get self.old.jobs 0 }
        ensures rest { self.new ≡ without_first self.old }
        ensures free { IsSome result → length self.new.jobs < self.new.reserved }
    {
        skip_cleared(&mut self.entries, &mut self.guesses);
        let Some(Some(job)) = self.entries.pop_front() else {
            return None;
        };
        self.guesses.pass();
        self.waiting -= 1;
        Some(job)
    }

    /// The first job.
    pub(crate) fn first(&mut self) -> Option<u64>
        ensures value { result ≡ slice_get self.old.jobs 0 }
        ensures same { self.new ≡ self.old }
    {
        skip_cleared(&mut self.entries, &mut self.guesses);
        *self.entries.front()?
    }

    /// Takes out a job that waits, and gives up its room.
    pub(crate) fn forget(&mut self, job: u64)
        requires { Contains self.old.jobs job }
        ensures leaves { Leaves job self.old self.new }
        ensures once { count_by (λ n. n == job) self.old.jobs ≡ 1 → self.new.jobs ≡ filter (λ n. not (n == job)) self.old.jobs }
    {
        let Some(index) = index_of(&self.entries, &self.guesses, job) else {
            return;
        };
        self.entries[index] = None;
        self.waiting -= 1;
        self.reserved -= 1;
    }

    /// Whether the job waits here.
    pub(crate) fn contains(&self, job: u64) -> bool
        ensures { IsTrue result ↔ Contains self.now.jobs job }
    {
        index_of(&self.entries, &self.guesses, job).is_some()
    }

    /// How many jobs wait.
    pub(crate) fn waiting(&self) -> u64
        ensures value { result ≡ length self.now.jobs }
        ensures small { result ≤ 2 ^ 56 }
    {
        self.waiting as u64
    }

    /// For how many jobs room is reserved that no waiting job uses.
    pub(crate) fn idle(&self) -> u64
        ensures value { result ≡ idle self.now }
        ensures small { result ≤ 2 ^ 56 }
    {
        (self.reserved - self.waiting) as u64
    }
}
