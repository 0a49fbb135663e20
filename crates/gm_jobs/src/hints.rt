//! Hints: for each question about jobs a list of the numbers of all jobs that meet it, and perhaps of others.

ghost use Rattle.std.specs.Prelude.{◌≡◌, ℕ, ◌<◌, true, Option, Some, None, Contains, slice_get, slice_index_or, [], IfSome, IfNone, IsSome, ◌≤◌, ◌^◌};
ghost use Rattle.std.specs.List.Sorted.{IsNonDecreasingBy};
ghost use Rattle.gm_jobs.specs.Live.{Live};
ghost use Rattle.gm_jobs.specs.Queries.{meets};
ghost use Rattle.gm_jobs.specs.Tables.{find_job, passes, IsNext, IsLast};
ghost use Rattle.gm_jobs.specs.Hints.{IsHinted, AllHinted, KeepsHints, least_of, numbers_in};

use crate::by_number::JobMap;
use crate::job::Query;
use std::alloc::{AllocError, Global};
use std::marker::Model;

/// The numbers of all jobs that meet one question, as of those that run at a slot, and perhaps of others.
///
/// Each number is compared with its job, so the number of a job that no longer meets the question does no harm. If
/// there is no room for a number, it is missing: from then on all jobs are looked at.
#[derive(Drop)]
pub(crate) struct Hints {
    numbers: Vec<u64>,
    // Whether they are in their order.
    sorted: bool,
    // Where the number is that was found last, if one was, or a position before it: the next question goes on there.
    found: u32,
    // Whether none is missing.
    whole: bool,
}

impl Model for Hints {
    ghost use Rattle.std.specs.Prelude.{◌≡◌, true};
    ghost use Rattle.std.specs.List.Sorted.{IsNonDecreasingBy};
    ghost use Rattle.gm_jobs.specs.Hints.{HintList};

    ghost Value = { HintList };

    ghost view = { λ h. record { numbers = h.numbers.items; whole = h.whole } };

    ghost invariant = { λ h. h.sorted ≡ true → IsNonDecreasingBy (λ n. n) h.numbers.items };
}

// Whether the job of a number is live and what is asked for.
fn is_met(jobs: &JobMap, number: u64, query: Query) -> bool
    ensures { result ≡ passes (meets query) (find_job jobs.now.entries number) }
{
    match jobs.get(number) {
        Some(job) => query.is_met(job),
        None => false,
    }
}

// The number of the job at this position, if that is what is asked for and its number is above `after`.
fn met_at(jobs: &JobMap, i: usize, query: Query, after: u64) -> Option<u64>
    ensures met { IfSome result (λ n. (after < n) × (passes (meets query) (find_job jobs.now.entries n) ≡ true)) }
    ensures all { (n : ℕ) (live : Live) → slice_get jobs.now.entries i ≡ Some (n, live) → after < n → meets query live ≡ true → result ≡ Some n }
{
    match jobs.at(i) {
        Some((number, job)) => {
            if number > after && query.is_met(job) {
                Some(number)
            } else {
                None
            }
        }
        None => None,
    }
}

// The lesser of two numbers, if there are any.
fn least_of(a: Option<u64>, b: Option<u64>) -> Option<u64>
    ensures { result ≡ least_of a b }
{
    match a {
        None => b,
        Some(a) => match b {
            None => Some(a),
            Some(b) => Some(a.min(b)),
        },
    }
}

/// The least number above `after` of a job that is what is asked for, among all jobs.
pub(crate) fn search(jobs: &JobMap, query: Query, after: u64) -> Option<u64>
    ensures next { IfSome result (IsNext (meets query) after jobs.now.entries) }
    ensures last { IfNone result (IsLast (meets query) after jobs.now.entries) }
{
    let mut best = None;
    for i in 0..jobs.len() {
        best = least_of(best, met_at(jobs, i, query, after));
    }
    best
}

impl Hints {
    /// No numbers: none is missing, or all are.
    pub(crate) fn new(alloc: Global, whole: bool) -> Hints
        ensures { result ≡ record { numbers = []; whole = whole } }
    {
        Hints {
            numbers: Vec::new(alloc),
            sorted: true,
            found: 0,
            whole,
        }
    }

    /// Whether no number is missing.
    pub(crate) fn is_whole(&self) -> bool
        ensures { result ≡ self.now.whole }
    {
        self.whole
    }

    /// Makes room for `count` numbers in all.
    pub(crate) fn reserve(&mut self, count: usize) -> Result<(), AllocError>
        ensures { self.new ≡ self.old }
    {
        self.numbers
            .reserve(count.saturating_sub(self.numbers.len()))
    }

    /// Lets go of all: none is missing from now on, or all are.
    pub(crate) fn reset(&mut self, whole: bool)
        ensures { self.new.whole ≡ whole }
    {
        self.numbers.clear();
        self.sorted = true;
        self.whole = whole;
    }

    /// One number more; if there is no room for it, it is missing.
    pub(crate) fn put(&mut self, number: u64)
        ensures kept { KeepsHints (λ n. Unit {0}) self.old self.new }
        ensures stands { IsHinted self.new number }
    {
        if self.numbers.len() == self.numbers.capacity() {
            self.whole = false;
            return;
        }
        self.sorted = false;
        self.numbers.push_reserved(number);
    }

    /// One number more, unless it was put last.
    pub(crate) fn put_once(&mut self, number: u64)
        ensures kept { KeepsHints (λ n. Unit {0}) self.old self.new }
        ensures stands { IsHinted self.new number }
    {
        if self.numbers.last() != Some(&number) {
            self.put(number);
        }
    }

    /// One number more, if its job is what is asked for.
    pub(crate) fn put_if_met(&mut self, jobs: &JobMap, query: Query, number: u64)
        ensures kept { KeepsHints (λ n. Unit {0}) self.old self.new }
        ensures stands { passes (meets query) (find_job jobs.now.entries number) ≡ true → IsHinted self.new number }
    {
        if is_met(jobs, number, query) {
            self.put(number);
        }
    }

    /// Lets go of the numbers whose jobs aren't what is asked for.
    pub(crate) fn keep(&mut self, jobs: &JobMap, query: Query)
        ensures { KeepsHints (λ n. passes (meets query) (find_job jobs.now.entries n) ≡ true) self.old self.new }
    {
        self.numbers.retain(|number| is_met(jobs, *number, query));
    }

    /// Makes room for one number more: if there is none, lets go of the numbers of jobs that ended, and grows unless
    /// that made half of the room free.
    pub(crate) fn reserve_one(&mut self, jobs: &JobMap) -> Result<(), AllocError>
        ensures { KeepsHints (λ n. IsSome (find_job jobs.now.entries n)) self.old self.new }
    {
        if self.numbers.len() < self.numbers.capacity() {
            return Ok(());
        }
        self.keep(jobs, Query::Live);
        self.numbers.reserve(self.numbers.len().saturating_add(4))
    }

    /// The numbers come in their order.
    pub(crate) fn sort(&mut self)
        ensures kept { KeepsHints (λ n. Unit {0}) self.old self.new }
        ensures sorted { IsNonDecreasingBy (λ n. n) self.new.numbers }
    {
        if !self.sorted {
            self.numbers.sort_unstable_by_key(|number| *number);
            self.sorted = true;
        }
    }

    // Where numbers above `after` are looked for: where one was found last, unless that is above it.
    fn start(&self, after: u64) -> usize
        requires { IsNonDecreasingBy (λ n. n) self.now.numbers }
        ensures { (k d : ℕ) → k < result → slice_index_or self.now.numbers k d ≤ after }
    {
        match self.numbers.get(self.found as usize) {
            Some(number) if *number <= after => self.found as usize,
            _ => 0,
        }
    }

    /// The least number above `after` of a job that is what is asked for. If there is none, it lets go of the
    /// numbers whose jobs aren't what `rest` asks for.
    pub(crate) fn next(
        &mut self,
        jobs: &JobMap,
        query: Query,
        rest: Query,
        after: u64,
    ) -> Option<u64>
        requires { AllHinted (meets query) jobs.now.entries self.old }
        ensures next { IfSome result (IsNext (meets query) after jobs.now.entries) }
        ensures last { IfNone result (IsLast (meets query) after jobs.now.entries) }
        ensures kept { KeepsHints (λ n. passes (meets rest) (find_job jobs.now.entries n) ≡ true) self.old self.new }
    {
        if !self.whole {
            return search(jobs, query, after);
        }
        self.sort();
        for i in self.start(after)..self.numbers.len() {
            let number = self.numbers[i];
            if number > after && is_met(jobs, number, query) {
                self.found = i.min(u32::MAX as usize) as u32;
                return Some(number);
            }
        }
        self.keep(jobs, rest);
        None
    }

    /// The number at this position, or, if some are missing, that of the job there among all jobs.
    pub(crate) fn number_at(&self, jobs: &JobMap, i: usize) -> Option<u64>
        ensures number { result ≡ slice_get (numbers_in self.now jobs.now.entries) i }
        ensures small { IsSome result → i < 2 ^ 63 }
    {
        if self.whole {
            return self.numbers.get(i).copied();
        }
        let (number, _job) = jobs.at(i)?;
        Some(number)
    }

    /// Gives back the room of a list without numbers.
    pub(crate) fn release(&mut self, alloc: Global)
        ensures { self.new ≡ self.old }
    {
        if self.numbers.is_empty() {
            self.numbers = Vec::new(alloc);
        }
    }

    /// The numbers of another list as well. If there are some already, these are missing.
    pub(crate) fn join(&mut self, other: Hints)
        ensures kept { (n : ℕ) → IsHinted self.old n → IsHinted self.new n }
        ensures came { (n : ℕ) → IsHinted other n → IsHinted self.new n }
    {
        if self.whole && self.numbers.is_empty() {
            *self = other;
        } else {
            self.whole = false;
        }
    }
}
