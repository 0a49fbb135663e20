//! The jobs by their numbers.

ghost use Rattle.std.specs.Prelude.{◌≡◌, ℕ, ◌+◌, ◌<◌, ◌≤◌, ◌^◌, ◌==◌, if◌then◌else◌, false, [], length, slice_get, Some, None, IsSome, IfSome, IsOk, OnOk, OnErr};
ghost use Rattle.std.specs.Option.{option_copied, option_map};
ghost use Rattle.std.specs.Map.{keys_of};
ghost use Rattle.gm_jobs.specs.Tables.{find_job};
ghost use Rattle.gm_jobs.specs.Changes.{CanBeTold, changed, takes_memory, ChangesJob};
ghost use Rattle.gm_jobs.specs.ByNumber.{Changed};

use crate::job::{Change, Job};
use indexmap::IndexMap;
use slab::Slab;
use std::alloc::{AllocError, Global};
use std::hash::{BuildHasher, FoldHasher, Hasher, RandomState};
use std::marker::Model;

/// Hashes the numbers of jobs. The server gives them out one after another, so a light hash spreads them; where it
/// begins comes of the seed, so no stranger can tell which numbers fall together.
#[derive(Clone, Copy)]
pub(crate) struct NumberHash {
    first: FoldHasher,
}

impl NumberHash {
    pub(crate) fn new(seed: &RandomState) -> NumberHash {
        let mut first = FoldHasher::default();
        first.write_u64(seed.hash_one(0u64));
        NumberHash { first }
    }
}

impl BuildHasher for NumberHash {
    type Hasher = FoldHasher;

    ghost build_hasher = { λ s. s.first };

    fn build_hasher(&self) -> FoldHasher {
        self.first
    }
}

/// A live job with its number.
#[derive(Drop)]
struct Entry {
    number: u64,
    job: Job,
}

/// The live jobs. Each is in a slab, under a key that its number leads to.
#[derive(Drop)]
pub(crate) struct JobMap {
    alloc: Global,
    slab: Slab<Entry>,
    keys: IndexMap<u64, usize, NumberHash>,
}

impl Model for JobMap {
    ghost use Rattle.std.specs.Prelude.{min, ◌-◌};
    ghost use Rattle.indexmap.specs.IndexMap.{spare};
    ghost use Rattle.slab.specs.Slab.{slab_len};
    ghost use Rattle.gm_jobs.specs.ByNumber.{JobTable, held, jobs_of, IsIndexed};

    ghost Value = { JobTable };

    ghost view = { λ m. record { entries = jobs_of m.keys.entries (held m.slab); room = min (spare m.keys) (m.slab.capacity - slab_len m.slab) } };

    ghost invariant = { λ m. IsIndexed m.keys.entries (held m.slab) };
}

// Changes the job at a key, if there is one.
fn change_at(
    alloc: Global,
    slab: &mut Slab<Entry>,
    key: usize,
    change: Change<'_>,
) -> Result<(), AllocError>
    requires { CanBeTold change }
    ensures ok { OnOk result (Changed key (changed change.entry) slab.old slab.new) }
    ensures err { OnErr result (Changed key (λ live. live) slab.old slab.new) }
    ensures succeeds { takes_memory change.entry ≡ false → IsOk result }
{
    match slab.get_mut(key) {
        Some(entry) => entry.job.change(alloc, change),
        None => Ok(()),
    }
}

impl JobMap {
    /// No jobs.
    pub(crate) fn new(alloc: Global, seed: &RandomState) -> JobMap
        ensures { result.entries ≡ [] }
    {
        JobMap {
            alloc,
            slab: Slab::new(alloc),
            keys: IndexMap::with_hasher(alloc, NumberHash::new(seed)),
        }
    }

    /// Makes room for one job more.
    pub(crate) fn reserve_one(&mut self) -> Result<(), AllocError>
        ensures entries { self.new.entries ≡ self.old.entries }
        ensures room { self.old.room ≤ self.new.room }
        ensures ok { OnOk result (0 < self.new.room) }
    {
        self.keys.reserve(1)?;
        self.slab.reserve(1)
    }

    /// How many there are.
    pub(crate) fn len(&self) -> usize
        ensures count { result ≡ length self.now.entries }
        ensures small { result < 2 ^ 63 }
    {
        self.keys.len()
    }

    /// The job of a number.
    pub(crate) fn get(&self, number: u64) -> Option<&Job>
        ensures { option_copied result ≡ find_job self.now.entries number }
    {
        let key = self.keys.get(&number)?;
        let entry = self.slab.get(*key)?;
        Some(&entry.job)
    }

    /// The job at this position among all, in no particular order, with its number.
    pub(crate) fn at(&self, i: usize) -> Option<(u64, &Job)>
        ensures entry { option_map (λ p. (p.0, p.1.now)) result ≡ slice_get self.now.entries i }
        ensures live { IfSome result (λ p. find_job self.now.entries p.0 ≡ Some p.1.now) }
        ensures small { IsSome result → i < 2 ^ 63 }
    {
        // Which says that no position is large.
        let _count = self.len();
        match self.keys.get_index(i) {
            Some((number, key)) => match self.slab.get(*key) {
                Some(entry) => Some((*number, &entry.job)),
                None => None,
            },
            None => None,
        }
    }

    /// Changes the job of a number, if it is live.
    pub(crate) fn change(&mut self, number: u64, change: Change<'_>) -> Result<(), AllocError>
        requires { CanBeTold change }
        ensures ok { OnOk result (ChangesJob number (changed change.entry) self.old.entries self.new.entries) }
        ensures numbers { keys_of self.new.entries ≡ keys_of self.old.entries }
        ensures err { OnErr result (self.new.entries ≡ self.old.entries) }
        ensures free { takes_memory change.entry ≡ false → ChangesJob number (changed change.entry) self.old.entries self.new.entries }
        ensures room { self.new.room ≡ self.old.room }
    {
        match self.keys.get(&number) {
            Some(key) => change_at(self.alloc, &mut self.slab, *key, change),
            None => Ok(()),
        }
    }

    /// A job more, of a number that none has.
    pub(crate) fn insert(&mut self, number: u64, job: Job)
        requires room { 0 < self.old.room }
        requires absent { find_job self.old.entries number ≡ None }
        ensures jobs { (m : ℕ) → find_job self.new.entries m ≡ (if number == m then Some job else find_job self.old.entries m) }
    {
        let key = self.slab.insert_reserved(Entry { number, job });
        let _fits = self.keys.insert(number, key);
    }

    /// Takes out the job of a number.
    pub(crate) fn remove(&mut self, number: u64) -> Option<Job>
        ensures removed { result ≡ find_job self.old.entries number }
        ensures jobs { (m : ℕ) → find_job self.new.entries m ≡ (if number == m then None else find_job self.old.entries m) }
        ensures room { self.old.room ≤ self.new.room }
    {
        let key = self.keys.swap_remove(&number)?;
        Some(self.slab.remove(key).job)
    }
}
