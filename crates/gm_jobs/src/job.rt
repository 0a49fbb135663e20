//! The record of one job.

ghost use Rattle.std.specs.Prelude.{◌≡◌, ◌&&◌, ◌==◌, false, IsOk, IfSome, OnOk, OnErr, Some, None};
ghost use Rattle.std.specs.Option.{option_map};
ghost use Rattle.gm_jobs.specs.Live.{Live, AreCarried, body_bytes, given_back, reported, with_listener, without_listener, place_at, is_named, is_run_by, is_wanted, is_orphan, is_due, is_last_try, waits, runs_at};
ghost use Rattle.gm_jobs.specs.Queries.{meets, is_heard_by};
ghost use Rattle.gm_jobs.specs.Changes.{changed, CanBeTold, takes_memory};

mod reservation;

use gm_bytes::{Data, SharedBytes};
use gm_notes::{Place, Priority};
pub(crate) use reservation::Reservation;
use std::alloc::{AllocError, Global};
use std::marker::Model;

/// The deadline of a lost job: each tick has reached it.
const AT_ONCE: u64 = 0;

/// A job to be made: its function by number, and its first listener, if there is one.
#[derive(Clone, Copy)]
pub struct NewJob<'a> {
    pub f: u32,
    pub p: Priority,
    pub unique: &'a [u8],
    pub body: &'a [u8],
    /// Whether a background submission keeps it.
    pub kept: bool,
    pub listener: Option<u32>,
}

// The body of a job.
#[derive(Drop)]
enum Body {
    // Bytes of its own.
    Own(Vec<u8>),
    // The end of a buffer that others may own as well.
    Shared(SharedBytes),
}

impl Body {
    fn as_slice(&self) -> &[u8]
        ensures { result.now ≡ body_bytes self.now }
    {
        match self {
            Body::Own(bytes) => bytes.as_slice(),
            Body::Shared(bytes) => bytes.as_slice(),
        }
    }
}

// How far a job is.
#[derive(Drop)]
struct Report {
    numerator: Vec<u8>,
    denominator: Vec<u8>,
}

/// Whether a job waits or runs.
#[derive(Clone, Copy)]
pub(crate) enum LivePlace {
    Waiting,
    /// It runs at this slot.
    Running(u32),
    /// Its last worker went. It runs at no slot until the next tick fails it.
    Lost,
}

impl LivePlace {
    // Whether it is that of a job that waits.
    fn waits(self) -> bool
        ensures { result ≡ waits self }
    {
        match self {
            LivePlace::Waiting => true,
            LivePlace::Running(_) | LivePlace::Lost => false,
        }
    }

    // Whether it is that of a job that runs at this slot.
    fn runs_at(self, slot: u32) -> bool
        ensures { result ≡ runs_at slot self }
    {
        match self {
            LivePlace::Running(c) => c == slot,
            LivePlace::Waiting | LivePlace::Lost => false,
        }
    }
}

/// A change of a job.
#[derive(Clone, Copy)]
pub(crate) enum Change<'a> {
    /// It runs at this slot, until the deadline if there is one.
    Assign(u32, Option<u64>),
    /// It waits again, or is lost if this was the last worker that it is given to; a limit of 0 is none.
    GiveBack(u32),
    /// A background submission keeps it.
    Keep,
    /// The slot listens, once more.
    Listen(u32),
    /// The slot doesn't listen any more.
    Leave(u32),
    /// It is so far: a numerator and a denominator.
    Report(&'a [u8], &'a [u8]),
}

/// A question about a job.
#[derive(Clone, Copy)]
pub(crate) enum Query {
    /// Whether it waits and nobody wants it.
    Orphan,
    /// Whether it runs at this slot.
    RunBy(u32),
    /// Whether this slot listens to it.
    HeardBy(u32),
    /// Whether it doesn't wait, and its deadline is reached.
    Due(u64),
    /// Whether it doesn't wait.
    Started,
    /// Nothing: each live job is asked for.
    Live,
}

impl Query {
    /// Whether a job is what is asked for.
    pub(crate) fn is_met(self, job: &Job) -> bool
        ensures { result ≡ meets self job.now }
    {
        match self {
            Query::Orphan => job.is_orphan(),
            Query::RunBy(slot) => job.is_run_by(slot),
            Query::HeardBy(slot) => job.is_heard_by(slot),
            Query::Due(now) => job.is_due(now),
            Query::Started => !job.live_place.waits(),
            Query::Live => true,
        }
    }
}

/// A live job.
#[derive(Drop)]
pub struct Job {
    f: u32,
    p: Priority,
    kept: bool,
    live_place: LivePlace,
    // The digest under which its number is found, if its unique id names it.
    digest: u64,
    // How often it came back. Without a limit that isn't counted.
    returns: u32,
    deadline: Option<u64>,
    unique: Vec<u8>,
    body: Body,
    report: Option<Box<Report>>,
    listeners: Vec<u32>,
}

impl Model for Job {
    ghost use Rattle.std.specs.Prelude.{IfSome};
    ghost use Rattle.std.specs.Option.{option_map};
    ghost use Rattle.gm_jobs.specs.Live.{Live, AreCarried, body_bytes};

    ghost Value = { Live };

    ghost view = { λ j. record { function = j.f; priority = j.p; unique = j.unique.items; body = body_bytes j.body; kept = j.kept; live_place = j.live_place; returns = j.returns; deadline = j.deadline; report = option_map (λ r. (r.value.numerator.items, r.value.denominator.items)) j.report; listeners = j.listeners.items } };

    ghost invariant = { λ j. AreCarried j.unique.items (body_bytes j.body) × IfSome j.report (λ r. AreCarried r.value.numerator.items r.value.denominator.items) };
}

impl Job {
    /// The function, by number.
    pub fn f(&self) -> u32
        ensures { result ≡ self.now.function }
    {
        self.f
    }

    /// Its priority.
    pub fn p(&self) -> Priority
        ensures { result ≡ self.now.priority }
    {
        self.p
    }

    /// Its unique id. An empty one, or a dash, names no job.
    pub fn unique(&self) -> &[u8]
        ensures value { result.now ≡ self.now.unique }
        ensures carried { AreCarried result.now self.now.body }
    {
        self.unique.as_slice()
    }

    /// The digest under which its number is found, if its unique id names it.
    pub(crate) fn digest(&self) -> u64 {
        self.digest
    }

    /// The body, as it was submitted.
    pub fn body(&self) -> &[u8]
        ensures { result.now ≡ self.now.body }
    {
        self.body.as_slice()
    }

    /// The body, as data that can be shared if others may own them as well.
    pub fn data(&self) -> Data<'_>
        ensures { result.bytes.now ≡ self.now.body }
    {
        match &self.body {
            Body::Own(bytes) => Data::lent(bytes.as_slice()),
            Body::Shared(bytes) => Data::shared(bytes),
        }
    }

    /// Whether a background submission keeps it.
    pub fn kept(&self) -> bool
        ensures { result ≡ self.now.kept }
    {
        self.kept
    }

    /// Whether somebody wants it: a background submission keeps it, or a slot listens.
    pub fn is_wanted(&self) -> bool
        ensures { result ≡ is_wanted self.now }
    {
        self.kept || !self.listeners.is_empty()
    }

    /// Where it is: it waits, runs at a slot, or is lost.
    pub fn place(&self) -> Place
        ensures { result ≡ place_at self.now.live_place }
    {
        match self.live_place {
            LivePlace::Waiting => Place::Waiting,
            LivePlace::Running(slot) => Place::Running(slot),
            LivePlace::Lost => Place::Lost,
        }
    }

    /// How far it is, once that was reported: a numerator and a denominator.
    pub fn report(&self) -> Option<(&[u8], &[u8])>
        ensures value { option_map (λ r. (r.0.now, r.1.now)) result ≡ self.now.report }
        ensures carried { IfSome result (λ r. AreCarried r.0.now r.1.now) }
    {
        match &self.report {
            Some(report) => Some((report.numerator.as_slice(), report.denominator.as_slice())),
            None => None,
        }
    }

    /// Its listeners, in the order in which they came.
    pub fn listeners(&self) -> &[u32]
        ensures { result.now ≡ self.now.listeners }
    {
        self.listeners.as_slice()
    }

    /// Until when it runs, if it has a deadline.
    pub(crate) fn deadline(&self) -> Option<u64>
        ensures { result ≡ self.now.deadline }
    {
        self.deadline
    }

    pub(crate) fn is_named(&self, f: u32, unique: &[u8]) -> bool
        ensures { result ≡ is_named f unique.now self.now }
    {
        self.f == f && self.unique.as_slice() == unique
    }

    pub(crate) fn is_run_by(&self, slot: u32) -> bool
        ensures { result ≡ is_run_by slot self.now }
    {
        self.live_place.runs_at(slot)
    }

    pub(crate) fn is_orphan(&self) -> bool
        ensures { result ≡ is_orphan self.now }
    {
        self.live_place.waits() && !self.kept && self.listeners.is_empty()
    }

    pub(crate) fn is_heard_by(&self, slot: u32) -> bool
        ensures { result ≡ is_heard_by slot self.now }
    {
        self.listeners.contains(&slot)
    }

    pub(crate) fn is_due(&self, now: u64) -> bool
        ensures { result ≡ is_due now self.now }
    {
        match self.deadline {
            Some(deadline) => !self.live_place.waits() && deadline <= now,
            None => false,
        }
    }

    // Whether its worker is the last that it is given to, if a job is given to at most this many workers: it came
    // back from all but one of them before. A limit of 0 is none.
    fn is_last_try(&self, limit: u32) -> bool
        ensures { result ≡ is_last_try limit self.now }
    {
        limit != 0 && self.returns >= limit - 1
    }

    // It waits again, or is lost if that was its last try.
    fn give_back(&mut self, limit: u32)
        ensures { self.new ≡ given_back limit self.old }
    {
        if self.is_last_try(limit) {
            self.live_place = LivePlace::Lost;
            self.deadline = Some(AT_ONCE);
            return;
        }
        self.live_place = LivePlace::Waiting;
        self.deadline = None;
        if limit != 0 {
            self.returns += 1;
        }
    }

    // It is so far.
    fn report_so_far(
        &mut self,
        alloc: Global,
        numerator: &[u8],
        denominator: &[u8],
    ) -> Result<(), AllocError>
        requires { AreCarried numerator.now denominator.now }
        ensures ok { OnOk result (self.new ≡ reported numerator.now denominator.now self.old) }
        ensures err { OnErr result (self.new ≡ self.old) }
    {
        let report = Report {
            numerator: Vec::from_slice(alloc, numerator)?,
            denominator: Vec::from_slice(alloc, denominator)?,
        };
        self.report = Some(Box::new(alloc, report)?);
        Ok(())
    }

    // The slot listens, once more.
    fn listen(&mut self, slot: u32) -> Result<(), AllocError>
        ensures ok { OnOk result (self.new ≡ with_listener slot self.old) }
        ensures err { OnErr result (self.new ≡ self.old) }
    {
        self.listeners.push(slot)?;
        Ok(())
    }

    // The slot doesn't listen any more.
    fn leave(&mut self, slot: u32)
        ensures { self.new ≡ without_listener slot self.old }
    {
        self.listeners.retain(|c| *c != slot);
    }

    /// It changes so, unless there is no memory for that.
    pub(crate) fn change(&mut self, alloc: Global, change: Change<'_>) -> Result<(), AllocError>
        requires { CanBeTold change }
        ensures ok { OnOk result (self.new ≡ changed change.entry self.old) }
        ensures err { OnErr result (self.new ≡ self.old) }
        ensures succeeds { takes_memory change.entry ≡ false → IsOk result }
    {
        match change {
            Change::Assign(slot, deadline) => {
                self.live_place = LivePlace::Running(slot);
                self.deadline = deadline;
            }
            Change::GiveBack(limit) => self.give_back(limit),
            Change::Keep => self.kept = true,
            Change::Listen(slot) => return self.listen(slot),
            Change::Leave(slot) => self.leave(slot),
            Change::Report(numerator, denominator) => {
                return self.report_so_far(alloc, numerator, denominator);
            }
        }
        Ok(())
    }
}
