//! Where a job with a unique id is found.

ghost use Rattle.std.specs.Prelude.{◌≡◌, ◌≢◌, ℕ, ◌<◌, ◌≤◌, nat_eq, true, false, Some, IfSome, IfNone, OnOk, Contains};
ghost use Rattle.std.specs.Map.{lookup};
ghost use Rattle.gm_notes.specs.Jobs.{joins};
ghost use Rattle.gm_jobs.specs.Live.{is_named};
ghost use Rattle.gm_jobs.specs.Tables.{find_job, passes};
ghost use Rattle.gm_jobs.specs.Uniques.{digest_of, LeadsTo};

use crate::by_number::{JobMap, NumberHash};
use crate::job::Job;
use gm_notes::is_joining;
use indexmap::IndexMap;
use std::alloc::{AllocError, Global};
use std::hash::{BuildHasher, Hasher, RandomState};
use std::marker::Model;

/// That no live job has a function and a unique id. `Jobs::insert` takes it, so that it needn't hash them again.
#[derive(Clone, Copy)]
pub struct Vacancy {
    // Their digest, if the id names a job.
    pub(crate) digest: u64,
}

/// The numbers of the jobs whose unique ids name them, by the digests of their functions and ids. A number that is
/// found is compared with its job.
#[derive(Drop)]
pub(crate) struct Uniques {
    numbers: IndexMap<u64, u64, NumberHash>,
    // The numbers of jobs whose digest another live job had when they were made: mostly none.
    clashes: Vec<u64>,
}

impl Model for Uniques {
    ghost use Rattle.std.specs.Prelude.{min, ◌-◌};
    ghost use Rattle.std.specs.Vec.{vec_len, vec_capacity};
    ghost use Rattle.indexmap.specs.IndexMap.{spare};
    ghost use Rattle.gm_jobs.specs.Uniques.{IdTable};

    ghost Value = { IdTable };

    ghost view = { λ u. record { numbers = u.numbers.entries; clashes = u.clashes.items; room = min (spare u.numbers) (vec_capacity u.clashes - vec_len u.clashes) } };
}

/// The digest of a function and a unique id: their hash.
pub(crate) fn digest(seed: &RandomState, f: u32, unique: &[u8]) -> u64
    ensures { result ≡ digest_of seed.now f unique.now }
{
    let mut hasher = seed.build_hasher();
    hasher.write_u64(u64::from(f));
    hasher.write(unique);
    hasher.finish()
}

// Whether the job of a number is live and has this name.
fn is_named(jobs: &JobMap, number: u64, f: u32, unique: &[u8]) -> bool
    ensures { result ≡ passes (is_named f unique.now) (find_job jobs.now.entries number) }
{
    jobs.get(number).is_some_and(|job| job.is_named(f, unique))
}

// The first of these numbers whose job is live and has this name.
fn first_named(numbers: &[u64], jobs: &JobMap, f: u32, unique: &[u8]) -> Option<u64>
    ensures found { IfSome result (λ n. passes (is_named f unique.now) (find_job jobs.now.entries n) ≡ true) }
    ensures none { IfNone result ((n : ℕ) → Contains numbers.now n → passes (is_named f unique.now) (find_job jobs.now.entries n) ≡ false) }
{
    for number in numbers {
        if is_named(jobs, *number, f, unique) {
            return Some(*number);
        }
    }
    None
}

impl Uniques {
    /// No numbers.
    pub(crate) fn new(alloc: Global, seed: &RandomState) -> Uniques {
        Uniques {
            numbers: IndexMap::with_hasher(alloc, NumberHash::new(seed)),
            clashes: Vec::new(alloc),
        }
    }

    /// Makes room for one number more. The map grows a sixteenth before it is full, and so not in the call in which
    /// that of the jobs grows.
    pub(crate) fn reserve_one(&mut self) -> Result<(), AllocError>
        ensures kept { (d n : ℕ) → LeadsTo self.old d n → LeadsTo self.new d n }
        ensures room { self.old.room ≤ self.new.room }
        ensures ok { OnOk result (0 < self.new.room) }
    {
        self.numbers.reserve(self.numbers.len() / 16 + 1)?;
        self.clashes.reserve(1)
    }

    // Whether the digest leads to this number, and it is no clash.
    fn is_first(&self, digest: u64, number: u64) -> bool
        ensures { result ≡ true → lookup (nat_eq digest) self.now.numbers ≡ Some number }
    {
        match self.numbers.get(&digest) {
            Some(first) => *first == number,
            None => false,
        }
    }

    /// The live job of this function and unique id, which have this digest.
    pub(crate) fn find(&self, jobs: &JobMap, digest: u64, f: u32, unique: &[u8]) -> Option<u64>
        ensures found { IfSome result (λ n. passes (is_named f unique.now) (find_job jobs.now.entries n) ≡ true) }
        ensures none { IfNone result ((n : ℕ) → passes (is_named f unique.now) (find_job jobs.now.entries n) ≡ true → LeadsTo self.now digest n → ⊥) }
    {
        if let Some(first) = self.numbers.get(&digest) {
            if is_named(jobs, *first, f, unique) {
                return Some(*first);
            }
        }
        first_named(self.clashes.as_slice(), jobs, f, unique)
    }

    // The digest leads to this number.
    fn put(&mut self, digest: u64, number: u64)
        requires { 0 < self.old.room }
        ensures stands { LeadsTo self.new digest number }
        ensures kept { (d n : ℕ) → LeadsTo self.old d n → LeadsTo self.new d n }
    {
        if self.numbers.contains_key(&digest) {
            self.clashes.push_reserved(number);
        } else {
            let _fits = self.numbers.insert(digest, number);
        }
    }

    /// The number of a job that is made now, which is found by this digest from now on if its unique id names it.
    pub(crate) fn insert(&mut self, unique: &[u8], digest: u64, number: u64)
        requires { 0 < self.old.room }
        ensures stands { joins unique.now ≡ true → LeadsTo self.new digest number }
        ensures kept { (d n : ℕ) → LeadsTo self.old d n → LeadsTo self.new d n }
    {
        if is_joining(unique) {
            self.put(digest, number);
        }
    }

    // The digest doesn't lead to this number any more.
    fn take(&mut self, digest: u64, number: u64)
        ensures kept { (d n : ℕ) → n ≢ number → LeadsTo self.old d n → LeadsTo self.new d n }
        ensures room { self.old.room ≤ self.new.room }
    {
        if self.is_first(digest, number) {
            let _number = self.numbers.swap_remove(&digest);
        } else {
            self.clashes.retain(|clash| *clash != number);
        }
    }

    /// This job, of this number, ended: what is kept of it goes.
    pub(crate) fn remove(&mut self, job: &Job, number: u64)
        ensures kept { (d n : ℕ) → n ≢ number → LeadsTo self.old d n → LeadsTo self.new d n }
        ensures room { self.old.room ≤ self.new.room }
    {
        if is_joining(job.unique()) {
            self.take(job.digest(), number);
        }
    }
}
