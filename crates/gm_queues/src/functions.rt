//! The functions, their limits and their queues.

ghost use Rattle.std.specs.Prelude.{◌≡◌, ◌+◌, ◌-◌, ◌*◌, ◌^◌, ◌<◌, ◌≤◌, ◌==◌, ◌↔◌, not, IsTrue, Some, None, IsSome, IsNone, IsOk, IfSome, IfOk};
ghost use Rattle.std.specs.Prelude.{OnOk, OnErr};
ghost use Rattle.std.specs.Prelude.{[], ◌∷◌, ◌++◌, length, map, filter, count_by, position, take, slice_get, Contains};
ghost use Rattle.std.specs.Str.{bytes_eq};
ghost use Rattle.gm_queues.specs.Queues.{no_jobs, with_reserved_one, without_reserved_one, with_job, without_first};
ghost use Rattle.std.specs.Vec.{vec_len, vec_capacity};
ghost use Rattle.indexmap.specs.IndexSet.{spare, hasher_of};
ghost use Rattle.gm_notes.specs.Jobs.{rank};
ghost use Rattle.gm_queues.specs.FunctionTables.{no_functions, IsName, number_of, limit, queue, waiting_for, running_of, HasIdleRoom};
ghost use Rattle.gm_queues.specs.FunctionTables.{ChangesQueue, ForgetsJob, SetsLimit, ChangesNames, IsFree};

use crate::name_hash::NameHash;
use crate::ring::Ring;
use gm_notes::Priority;
use indexmap::IndexSet;
use std::alloc::{AllocError, AllocFailed, Global};
use std::hash::RandomState;
use std::marker::Model;

/// Why a new function is refused. A refusal changes nothing.
#[derive(Clone, Copy, Debug, PartialEq, Eq)]
pub enum MentionError {
    /// There was no memory for it.
    Memory = 6,
    /// There are as many functions as there may be.
    TooManyFunctions = 14,
}

impl From<AllocError> for MentionError {
    ghost use Rattle.gm_queues.specs.declared.functions.MentionError.TheVariants.{Memory};

    ghost from_gives = { λ _ e. e ≡ Memory };

    fn from(_e: AllocError) -> MentionError {
        MentionError::Memory
    }
}

/// How many jobs of a function wait, and how much of its reserved room no waiting job uses.
#[derive(Clone, Copy, Debug, PartialEq, Eq)]
pub struct Counts {
    pub waiting: u64,
    pub running: u64,
}

/// The functions in the order in which they were first mentioned. A function is a number, from 0.
#[derive(Drop)]
pub struct Functions {
    alloc: Global,
    most: u32,
    names: IndexSet<Vec<u8>, NameHash>,
    limits: Vec<u32>,
    // Three for each function, by priority.
    rings: Vec<Ring>,
}

impl Model for Functions {
    ghost use Rattle.std.specs.Prelude.{◌≡◌, ◌*◌, ◌^◌, ◌<◌, ◌≤◌, All, length, map};
    ghost use Rattle.indexmap.specs.IndexSet.{hasher_of};
    ghost use Rattle.gm_queues.specs.FunctionTables.{Table, IsName};

    ghost Value = { Table };

    ghost view = { λ t. record { seed = (hasher_of t.names).seed; most = t.most; names = map (λ v. v.items) t.names.keys; limits = t.limits.items; queues = t.rings.items } };

    ghost invariant = { λ t. (length t.names.keys ≤ t.most)
        × (length t.limits.items ≡ length t.names.keys)
        × (length t.rings.items ≡ 3 * length t.names.keys)
        × (t.most < 2 ^ 32)
        × All IsName (map (λ v. v.items) t.names.keys) };
}

// The index of the ring of a function and a priority.
fn ring_of(f: u32, p: Priority) -> usize
    ensures index { result ≡ 3 * f + rank p }
    ensures within { result ≤ 3 * f + 2 }
{
    let rank = match p {
        Priority::High => 0,
        Priority::Normal => 1,
        Priority::Low => 2,
    };
    3 * f as usize + rank
}

// Makes room for one function more.
fn make_room(
    names: &mut IndexSet<Vec<u8>, NameHash>,
    limits: &mut Vec<u32>,
    rings: &mut Vec<Ring>,
) -> Result<(), AllocError>
    ensures names { names.new.keys ≡ names.old.keys }
    ensures hasher { hasher_of names.new ≡ hasher_of names.old }
    ensures limits { limits.new.items ≡ limits.old.items }
    ensures rings { rings.new.items ≡ rings.old.items }
    ensures ok { OnOk result ((0 < spare names.new) × (vec_len limits.new < vec_capacity limits.new) × (vec_len rings.new + 3 ≤ vec_capacity rings.new)) }
{
    names.reserve(1)?;
    limits.reserve(1)?;
    rings.reserve(3)
}

// One name more.
fn add_name(names: &mut IndexSet<Vec<u8>, NameHash>, name: Vec<u8>)
    requires room { 0 < spare names.old }
    requires fresh { position (λ v. bytes_eq name.items v.items) names.old.keys ≡ None }
    ensures names { map (λ v. v.items) names.new.keys ≡ map (λ v. v.items) names.old.keys ++ name.items ∷ [] }
    ensures hasher { hasher_of names.new ≡ hasher_of names.old }
{
    let _is_new = names.insert(name);
}

// The rings of one function more.
fn add_rings(alloc: Global, rings: &mut Vec<Ring>)
    requires { vec_len rings.old + 3 ≤ vec_capacity rings.old }
    ensures { rings.new.items ≡ rings.old.items ++ no_jobs ∷ no_jobs ∷ no_jobs ∷ [] }
{
    let _high = rings.push(Ring::new(alloc));
    let _normal = rings.push(Ring::new(alloc));
    let _low = rings.push(Ring::new(alloc));
}

impl Functions {
    /// No functions, of at most `most`. The names are untrusted input, so their table hashes with this seed.
    pub fn new(alloc: Global, seed: RandomState, most: u32) -> Result<Functions, AllocError>
        ensures { IfOk result (λ table. table ≡ no_functions seed most) }
    {
        Ok(Functions {
            alloc,
            most,
            names: IndexSet::with_hasher(alloc, NameHash::new(seed)),
            limits: Vec::new(alloc),
            rings: Vec::new(alloc),
        })
    }

    /// How many functions there are.
    pub fn len(&self) -> u32
        ensures value { result ≡ length self.now.names }
        ensures most { result ≤ self.now.most }
    {
        self.names.len() as u32
    }

    /// The function of this name.
    pub fn find(&self, name: &[u8]) -> Option<u32>
        ensures value { result ≡ number_of name.now self.now }
        ensures within { IfSome result (λ f. f < length self.now.names) }
    {
        match self.names.get_index_of(name) {
            Some(index) => Some(index as u32),
            None => None,
        }
    }

    /// The name of a function.
    pub fn name(&self, f: u32) -> &[u8]
        requires { f < length self.now.names }
        ensures value { slice_get self.now.names f ≡ Some result.now }
        ensures fits { IsName result.now }

        // No two functions have one name.
        ensures only { number_of result.now self.now ≡ Some f }
    {
        self.names.as_slice()[f as usize].as_slice()
    }

    /// The function of this name. A new one becomes the last, unless there are as many as there may be
    /// (`TooManyFunctions`) or no memory for it (`Memory`).
    pub fn mention(&mut self, name: &[u8]) -> Result<u32, MentionError>
        requires { IsName name.now }
        ensures found { IfOk result (λ f. number_of name.now self.new ≡ Some f) }
        ensures within { IfOk result (λ f. f < length self.new.names) }
        ensures known { IsSome (number_of name.now self.old) → IsOk result × (self.new ≡ self.old) }
        ensures fresh { IsNone (number_of name.now self.old) → OnOk result (ChangesNames (self.old.names ++ name.now ∷ []) self.old self.new) }
        ensures free { IsNone (number_of name.now self.old) → IfOk result (λ f. IsFree f self.new) }
        ensures full { (result ≡ Err MentionError.TooManyFunctions) ↔ (IsNone (number_of name.now self.old) × (length self.old.names ≡ self.old.most)) }
        ensures err { OnErr result (self.new ≡ self.old) }
    {
        if let Some(f) = self.find(name) {
            return Ok(f);
        }
        let f = self.len();
        if f == self.most {
            return Err(MentionError::TooManyFunctions);
        }
        let copy = Vec::from_slice(self.alloc, name)?;
        make_room(&mut self.names, &mut self.limits, &mut self.rings)?;
        add_name(&mut self.names, copy);
        let _added = self.limits.push(0);
        add_rings(self.alloc, &mut self.rings);
        Ok(f)
    }

    /// Takes out the function that was mentioned last, which has no limit, no job and no reserved room.
    pub fn unmention(&mut self)
        requires some { 0 < length self.old.names }
        requires free { IsFree (length self.old.names - 1) self.old }
        ensures { ChangesNames (take (length self.old.names - 1) self.old.names) self.old self.new }
    {
        let last = self.names.len() - 1;
        self.names.truncate(last);
        self.limits.truncate(last);
        self.rings.truncate(3 * last);
    }

    /// The limit of a function; 0 is no limit.
    pub fn limit(&self, f: u32) -> u32
        requires { f < length self.now.names }
        ensures { result ≡ limit self.now f }
    {
        self.limits[f as usize]
    }

    /// Gives a function this limit; 0 is no limit.
    pub fn set_limit(&mut self, f: u32, size: u32)
        requires { f < length self.old.names }
        ensures { SetsLimit f size self.old self.new }
    {
        self.limits[f as usize] = size;
    }

    /// Reserves room for one job more. Out of memory, nothing changes.
    pub fn reserve_one(&mut self, f: u32, p: Priority) -> Result<(), AllocError>
        requires { f < length self.old.names }
        ensures ok { OnOk result (ChangesQueue f p with_reserved_one self.old self.new) }
        ensures free { OnOk result (HasIdleRoom self.new f p) }
        ensures err { OnErr result (self.new ≡ self.old) }
    {
        let ring = &mut self.rings[ring_of(f, p)];
        ring.reserve_one(self.alloc)
    }

    /// Gives up reserved room for one job, which no waiting job uses.
    pub fn release(&mut self, f: u32, p: Priority)
        requires { HasIdleRoom self.old f p }
        ensures { ChangesQueue f p without_reserved_one self.old self.new }
    {
        let ring = &mut self.rings[ring_of(f, p)];
        ring.release();
    }

    /// The job comes to wait, as the last, in reserved room that no waiting job uses.
    pub fn push(&mut self, f: u32, p: Priority, job: u64)
        requires { HasIdleRoom self.old f p }
        ensures { ChangesQueue f p (with_job job) self.old self.new }
    {
        let ring = &mut self.rings[ring_of(f, p)];
        ring.push(job);
    }

    /// Takes out the oldest job of a priority. Its room stays reserved for its return.
    pub fn pop(&mut self, f: u32, p: Priority) -> Option<u64>
        requires { f < length self.old.names }
        ensures value { result ≡ slice_get (queue self.old f p).jobs 0 }
        ensures rest { ChangesQueue f p without_first self.old self.new }
        ensures free { IsSome result → HasIdleRoom self.new f p }
    {
        let ring = &mut self.rings[ring_of(f, p)];
        ring.pop()
    }

    /// Takes out a job that waits, at any position, and gives up its room. Of a job that was pushed more than
    /// once, one of its entries goes.
    pub fn forget(&mut self, f: u32, p: Priority, job: u64)
        requires { Contains (queue self.old f p).jobs job }
        ensures forgets { ForgetsJob f p job self.old self.new }
        ensures once { count_by (λ n. n == job) (queue self.old f p).jobs ≡ 1 → (queue self.new f p).jobs ≡ filter (λ n. not (n == job)) (queue self.old f p).jobs }
    {
        let ring = &mut self.rings[ring_of(f, p)];
        ring.forget(job);
    }

    /// Whether room is reserved that no waiting job uses.
    pub fn has_idle_room(&self, f: u32, p: Priority) -> bool
        requires { f < length self.now.names }
        ensures { IsTrue result ↔ HasIdleRoom self.now f p }
    {
        let ring = &self.rings[ring_of(f, p)];
        ring.idle() > 0
    }

    /// Whether the job waits here. One that doesn't is searched for from end to end.
    pub fn is_waiting(&self, f: u32, p: Priority, job: u64) -> bool
        requires { f < length self.now.names }
        ensures { IsTrue result ↔ Contains (queue self.now f p).jobs job }
    {
        let ring = &self.rings[ring_of(f, p)];
        ring.contains(job)
    }

    /// How many jobs of a function wait, and how much of its reserved room no waiting job uses.
    pub fn counts(&self, f: u32) -> Counts
        requires { f < length self.now.names }
        ensures waiting { result.waiting ≡ length (waiting_for self.now f) }
        ensures running { result.running ≡ running_of self.now f }
        ensures small { result.waiting + result.running < 2 ^ 64 }
    {
        let high = &self.rings[ring_of(f, Priority::High)];
        let normal = &self.rings[ring_of(f, Priority::Normal)];
        let low = &self.rings[ring_of(f, Priority::Low)];
        Counts {
            waiting: high.waiting() + normal.waiting() + low.waiting(),
            running: high.idle() + normal.idle() + low.idle(),
        }
    }

    /// The oldest job of a function that waits with a priority.
    pub fn first_in(&mut self, f: u32, p: Priority) -> Option<u64>
        requires { f < length self.old.names }
        ensures value { result ≡ slice_get (queue self.old f p).jobs 0 }
        ensures same { self.new ≡ self.old }
    {
        let ring = &mut self.rings[ring_of(f, p)];
        ring.first()
    }

    /// The job of a function that is given out next: the oldest of the highest priority.
    pub fn first(&mut self, f: u32) -> Option<u64>
        requires { f < length self.old.names }
        ensures value { result ≡ slice_get (waiting_for self.old f) 0 }
        ensures same { self.new ≡ self.old }
    {
        if let Some(job) = self.first_in(f, Priority::High) {
            return Some(job);
        }
        if let Some(job) = self.first_in(f, Priority::Normal) {
            return Some(job);
        }
        self.first_in(f, Priority::Low)
    }
}
