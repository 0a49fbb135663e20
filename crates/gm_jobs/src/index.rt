//! Where jobs of each kind are looked for.

ghost use Rattle.std.specs.Prelude.{◌≡◌, ◌≢◌, ℕ, List, true, IsSome, IfSome, IfNone};
ghost use Rattle.gm_notes.specs.declared.states.Priority.{Priority};
ghost use Rattle.gm_jobs.specs.declared.job.Query.{Query as Asked};
ghost use Rattle.gm_jobs.specs.Live.{fresh, is_run_by, is_orphan};
ghost use Rattle.gm_jobs.specs.Queries.{meets, is_heard_by};
ghost use Rattle.gm_jobs.specs.Tables.{find_job, passes, IsNext, IsLast};
ghost use Rattle.gm_jobs.specs.Changes.{LeavesEach};
ghost use Rattle.gm_jobs.specs.Hints.{IsHinted, AllHinted, KeepsHints, at_slot, hints_of, AllFound};

use crate::by_number::JobMap;
use crate::hints::{Hints, search};
use crate::job::{Change, Query};
use gm_notes::MAX_SLOTS;
use std::alloc::{AllocError, Global};
use std::marker::Model;
use std::mem;

/// Hints at the jobs that run at each slot, at those to which it listens, and at those that nobody wants.
#[derive(Drop)]
pub(crate) struct Index {
    alloc: Global,
    heard: Vec<Hints>,
    runs: Vec<Hints>,
    orphans: Hints,
}

impl Model for Index {
    ghost use Rattle.gm_jobs.specs.Hints.{HintTable};

    ghost Value = { HintTable };

    ghost view = { λ x. record { heard = x.heard.items; runs = x.runs.items; orphans = x.orphans } };
}

// No hints, for each slot.
fn empty_lists(alloc: Global) -> Result<Vec<Hints>, AllocError> {
    let mut lists = Vec::with_capacity(alloc, MAX_SLOTS as usize)?;
    for _slot in 0..MAX_SLOTS {
        lists.push(Hints::new(alloc, true))?;
    }
    Ok(lists)
}

// One number more for a slot.
fn put_at(lists: &mut Vec<Hints>, slot: u32, number: u64)
    ensures kept { (c n : ℕ) → IsHinted (at_slot lists.old.items c) n → IsHinted (at_slot lists.new.items c) n }
    ensures stands { IsHinted (at_slot lists.new.items slot) number }
{
    if slot as usize >= lists.len() {
        return;
    }
    let list = &mut lists[slot as usize];
    list.put(number);
}

// Makes room for one number more for a slot.
fn reserve_at(lists: &mut Vec<Hints>, slot: u32, jobs: &JobMap) -> Result<(), AllocError>
    ensures { (c n : ℕ) → IsSome (find_job jobs.now.entries n) → IsHinted (at_slot lists.old.items c) n → IsHinted (at_slot lists.new.items c) n }
{
    if slot as usize >= lists.len() {
        return Ok(());
    }
    let list = &mut lists[slot as usize];
    list.reserve_one(jobs)
}

// The least number above `after` of a job that runs at a slot.
fn next_run_at(
    alloc: Global,
    lists: &mut Vec<Hints>,
    slot: u32,
    jobs: &JobMap,
    after: u64,
) -> Option<u64>
    requires { (c : ℕ) → AllHinted (is_run_by c) jobs.now.entries (at_slot lists.old.items c) }
    ensures next { IfSome result (IsNext (is_run_by slot) after jobs.now.entries) }
    ensures last { IfNone result (IsLast (is_run_by slot) after jobs.now.entries) }
    ensures kept { (c : ℕ) → AllHinted (is_run_by c) jobs.now.entries (at_slot lists.new.items c) }
{
    let query = Query::RunBy(slot);
    if slot as usize >= lists.len() {
        return search(jobs, query, after);
    }
    let list = &mut lists[slot as usize];
    let next = list.next(jobs, query, query, after);
    list.release(alloc);
    next
}

// The slot doesn't listen any more to the jobs that are hinted at. A job is left once if its hints follow each
// other: leaving it looks at all its listeners.
fn leave_each(jobs: &mut JobMap, hints: &Hints, slot: u32)
    requires { AllHinted (is_heard_by slot) jobs.old.entries hints.now }
    ensures left { LeavesEach slot jobs.old.entries jobs.new.entries }
    ensures slots { jobs.new.room ≡ jobs.old.room }
{
    let mut i = 0;
    let mut last = None;
    while let Some(number) = hints.number_at(jobs, i) {
        if last != Some(number) {
            let _left = jobs.change(number, Change::Leave(slot));
            last = Some(number);
        }
        i += 1;
    }
}

impl Index {
    /// No hints.
    pub(crate) fn new(alloc: Global) -> Result<Index, AllocError> {
        Ok(Index {
            alloc,
            heard: empty_lists(alloc)?,
            runs: empty_lists(alloc)?,
            orphans: Hints::new(alloc, true),
        })
    }

    /// A job of this number may be what is asked for. It takes no memory.
    pub(crate) fn put(&mut self, query: Query, number: u64)
        ensures kept { (q : Asked) (n : ℕ) → IsHinted (hints_of self.old q) n → IsHinted (hints_of self.new q) n }
        ensures stands { IsHinted (hints_of self.new query) number }
    {
        match query {
            Query::Orphan => self.orphans.put(number),
            Query::RunBy(slot) => put_at(&mut self.runs, slot, number),
            Query::HeardBy(slot) => put_at(&mut self.heard, slot, number),
            Query::Due(_) | Query::Started | Query::Live => {}
        }
    }

    /// A job that was given back may wait though nobody wants it. It takes no memory.
    pub(crate) fn put_orphan(&mut self, jobs: &JobMap, number: u64)
        ensures kept { (q : Asked) (n : ℕ) → IsHinted (hints_of self.old q) n → IsHinted (hints_of self.new q) n }
        ensures stands { passes is_orphan (find_job jobs.now.entries number) ≡ true → IsHinted self.new.orphans number }
    {
        self.orphans.put_if_met(jobs, Query::Orphan, number);
    }

    /// A job is made now: its first listener, if there is one, listens to it. It takes no memory.
    pub(crate) fn begin(&mut self, listener: Option<u32>, kept: bool, number: u64)
        ensures kept { (q : Asked) (n : ℕ) → IsHinted (hints_of self.old q) n → IsHinted (hints_of self.new q) n }
        ensures stands { (q : Asked) (f : ℕ) (p : Priority) (unique body : List ℕ) → meets q (fresh f p unique body kept listener) ≡ true → IsHinted (hints_of self.new q) number }
    {
        match listener {
            Some(slot) => self.put(Query::HeardBy(slot), number),
            None => {
                if !kept {
                    self.put(Query::Orphan, number);
                }
            }
        }
    }

    /// Makes room for one job more that runs at a slot, or to which the slot listens.
    pub(crate) fn reserve(&mut self, query: Query, jobs: &JobMap) -> Result<(), AllocError>
        ensures { (q : Asked) (n : ℕ) → IsSome (find_job jobs.now.entries n) → IsHinted (hints_of self.old q) n → IsHinted (hints_of self.new q) n }
    {
        match query {
            Query::RunBy(slot) => reserve_at(&mut self.runs, slot, jobs),
            Query::HeardBy(slot) => reserve_at(&mut self.heard, slot, jobs),
            Query::Orphan | Query::Due(_) | Query::Started | Query::Live => Ok(()),
        }
    }

    /// The least number above `after` of a job that runs at a slot.
    pub(crate) fn next_run_by(&mut self, slot: u32, jobs: &JobMap, after: u64) -> Option<u64>
        requires { AllFound jobs.now.entries self.old }
        ensures next { IfSome result (IsNext (is_run_by slot) after jobs.now.entries) }
        ensures last { IfNone result (IsLast (is_run_by slot) after jobs.now.entries) }
        ensures kept { AllFound jobs.now.entries self.new }
    {
        next_run_at(self.alloc, &mut self.runs, slot, jobs, after)
    }

    /// The least number above `after` of a job that waits though nobody wants it.
    pub(crate) fn next_orphan(&mut self, jobs: &JobMap, after: u64) -> Option<u64>
        requires { AllFound jobs.now.entries self.old }
        ensures next { IfSome result (IsNext is_orphan after jobs.now.entries) }
        ensures last { IfNone result (IsLast is_orphan after jobs.now.entries) }
        ensures kept { AllFound jobs.now.entries self.new }
    {
        let query = Query::Orphan;
        self.orphans.next(jobs, query, query, after)
    }

    // Takes out the hints at the jobs to which a slot listens.
    fn take(&mut self, slot: u32) -> Hints
        ensures taken { result ≡ at_slot self.old.heard slot }
        ensures others { (c : ℕ) → c ≢ slot → at_slot self.new.heard c ≡ at_slot self.old.heard c }
        ensures runs { self.new.runs ≡ self.old.runs }
        ensures orphans { self.new.orphans ≡ self.old.orphans }
    {
        if slot as usize >= self.heard.len() {
            return Hints::new(self.alloc, false);
        }
        mem::replace(&mut self.heard[slot as usize], Hints::new(self.alloc, true))
    }

    /// The slot doesn't listen to any job any more. It takes no memory.
    pub(crate) fn leave(&mut self, slot: u32, jobs: &mut JobMap)
        requires { AllFound jobs.old.entries self.old }
        ensures left { LeavesEach slot jobs.old.entries jobs.new.entries }
        ensures found { AllFound jobs.new.entries self.new }
        ensures slots { jobs.new.room ≡ jobs.old.room }
    {
        let mut hints = self.take(slot);
        hints.sort();
        leave_each(jobs, &hints, slot);
        self.orphans.join(hints);
    }
}
