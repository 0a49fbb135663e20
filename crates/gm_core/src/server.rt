//! The fast server: connections, functions and live jobs in tables.

ghost use Rattle.std.specs.Prelude.{◌≡◌, ℕ, ◌≤◌, ◌<◌, ◌^◌, ◌==◌, ◌&&◌, not, true, false, List, [], ◌∷◌, None, IfOk, IfSome, IfNone};
ghost use Rattle.std.specs.Prelude.{IsTrue, IsErrOf, if◌then◌else◌};
ghost use Rattle.gm_conns.specs.ConnTables.{conn, is_touched};
ghost use Rattle.gm_notes.specs.Flow.{waiting};
ghost use Rattle.gm_notes.specs.Notes.{is_open, phase};
ghost use Rattle.gm_notes.specs.Settings.{Settings};
ghost use Rattle.gm_notes.specs.Steps.{Step, Took, Withdrew, Drain, run};
ghost use Rattle.gm_notes.specs.Servers.{step_of, is_closing, IsSized, Answers, AnswersAt, steps_after, steps_after_that};
ghost use Rattle.gm_notes.specs.Past.{give};

mod abilities;
mod answering;
mod asking;
mod closing;
mod commanding;
mod grabbing;
mod lists;
mod naming;
mod opening;
mod phases;
mod serving;
mod submitting;
mod ticking;
mod waking;
mod working;

use crate::written::Written;
use gm_actions::ReadEvent;
use gm_bytes::{ByteQueue, Data, SharedBytes};
use gm_conns::Conns;
use gm_jobs::Jobs;
use gm_notes::{ApplyError, Config, Done, Event, JobServer, Mode, Phase, Place};
use gm_queues::Functions;
use std::alloc::{AllocError, Global};
use std::hash::RandomState;
use std::marker::Model;

/// The tables of a server, its settings, and the text that it is about to queue.
#[derive(Drop)]
pub struct Tables {
    alloc: Global,
    config: Config,
    conns: Conns,
    functions: Functions,
    jobs: Jobs,
    moment: u64,
    mode: Mode,
    // The packet or text to queue next.
    text: Written,
}

/// The server on tables. It keeps no list of what has happened, and no job that is gone.
///
/// Its tables always hold the past of some steps, so a call needn't ask, say, whether a job that waits is live.
#[derive(Drop)]
pub struct Core {
    tables: Tables,
}

impl Model for Core {
    ghost use Rattle.std.specs.Prelude.{List};
    ghost use Rattle.gm_notes.specs.Settings.{Settings};
    ghost use Rattle.gm_notes.specs.Steps.{Step};
    ghost use Rattle.gm_core.specs.Holds.{CoreAgrees};
    ghost use Rattle.gm_core.specs.declared.server.Tables.{Tables};

    ghost Value = { Tables };

    ghost view = { λ core. core.tables };

    ghost invariant = { λ core. (k : Settings) × (steps : List Step) × CoreAgrees core.tables k steps };
}

/// The number of the first job.
fn first_job(config: &Config) -> u64
    ensures value { result ≡ config.now.first_job }
    ensures fits { result ≤ 2 ^ 64 }
{
    config.first_job()
}

impl Core {
    ghost use Rattle.gm_core.specs.Holds.{outbox, Holds, Goes, Does, AllTouched, CoreAgrees};
    ghost use Rattle.gm_core.specs.Writing.{IsLight};
    ghost use Rattle.gm_core.specs.NoMemory.{NeedsNoMemory};
    ghost use Rattle.gm_core.specs.Freed.{Frees};
    ghost use Rattle.gm_actions.specs.ReadEvents.{ReadsEvent};

    /// A server to which nothing has happened. Names and ids come from strangers, so its tables hash with this seed.
    pub fn new(alloc: Global, seed: RandomState, config: Config) -> Result<Core, AllocError>
        ensures agrees { IfOk result (λ core. CoreAgrees core config []) }
        ensures seed { IfOk result (λ core. (core.functions.seed ≡ seed) × (core.jobs.seed ≡ seed)) }
    {
        let conns = Conns::new(alloc, config.slots())?;
        let functions = Functions::new(alloc, seed, config.max_functions())?;
        let jobs = Jobs::new(alloc, seed, first_job(&config))?;
        let tables = Tables {
            alloc,
            config,
            conns,
            functions,
            jobs,
            moment: 0,
            mode: Mode::Running,
            text: Written::new(alloc),
        };
        Ok(Core { tables })
    }

    /// The tables that it answers from: after any steps that the core agrees with they hold what the definitions give.
    pub fn parts(&self) -> (&Conns, &Functions, &Jobs)
        ensures conns { result.0.now ≡ self.now.conns }
        ensures functions { result.1.now ≡ self.now.functions }
        ensures jobs { result.2.now ≡ self.now.jobs }
        ensures held { (k : Settings) (steps : List Step) → CoreAgrees self.now k steps
            → Holds k result.0.now result.1.now result.2.now self.now.moment self.now.mode (run k steps) }
    {
        let tables = &self.tables;
        (&tables.conns, &tables.functions, &tables.jobs)
    }

    /// The least slot that was touched since it was last taken, which is taken out. Whatever the core is asked, a slot
    /// is touched when its waiting bytes, its phase or whether it is shut change, unless the bytes are drained.
    pub fn take_touched(&mut self) -> Option<u32>
        ensures found { IfSome result (λ slot. IsTrue (is_touched self.old.conns slot)) }
        ensures least { IfSome result (λ slot. (c : ℕ) → c < slot → is_touched self.old.conns c ≡ false) }
        ensures rest { IfSome result (λ slot. (c : ℕ) → is_touched self.new.conns c ≡ (not (c == slot) && is_touched self.old.conns c)) }
        ensures none { IfNone result ((c : ℕ) → is_touched self.old.conns c ≡ false) }
        ensures lanes { (c : ℕ) → outbox (conn self.new.conns c) ≡ outbox (conn self.old.conns c) }
        ensures agrees { (k : Settings) (steps : List Step) → CoreAgrees self.old k steps → CoreAgrees self.new k steps }
    {
        self.tables.conns.take_touched()
    }

    /// Takes the bytes that wait for a slot, and says whether the slot is shut; none if it isn't open. It takes no
    /// memory.
    pub fn drain_open(&mut self, slot: u32) -> Option<(ByteQueue, bool)>
        ensures some { IfSome result (λ got. (k : Settings) (steps : List Step) → CoreAgrees self.old k steps
            → (is_open slot (run k steps).notes ≡ true) × (got.0.bytes ≡ waiting slot (run k steps).flow)
            × (got.1 ≡ is_closing slot (run k steps)) × CoreAgrees self.new k (Drain slot ∷ steps)) }
        ensures none { IfNone result ((k : Settings) (steps : List Step) → CoreAgrees self.old k steps
            → (is_open slot (run k steps).notes ≡ false) × (waiting slot (run k steps).flow ≡ []) × CoreAgrees self.new k (Drain slot ∷ steps)) }
        ensures refused { IfNone result (self.new ≡ self.old) }
    {
        let conns = &mut self.tables.conns;
        if !conns.is_open(slot) {
            return None;
        }
        let shut = conns.is_shut(slot);
        Some((conns.drain(slot), shut))
    }

    /// As `apply`, for a caller with a lock: `freed` receives the shared body of a job that ends, which the caller
    /// frees after unlocking, because it may be long. Whatever it answers, it keeps no long text that it wrote.
    pub fn apply_locked(
        &mut self,
        read: &ReadEvent<'_>,
        freed: &mut Option<SharedBytes>,
    ) -> Result<Done, ApplyError>
        requires size { IsSized read.now.event }
        requires reads { ReadsEvent read.now.event read.now.action }
        ensures answers { (k : Settings) (steps : List Step) → CoreAgrees self.old k steps
            → Answers k steps (step_of read.now.event) result
            × CoreAgrees self.new k (steps_after result (step_of read.now.event) steps) }
        ensures memory { NeedsNoMemory self.old read.now.event → IsErrOf result ApplyError.Memory → ⊥ }
        ensures touched { AllTouched self.old.conns self.new.conns }
        ensures freed { Frees self.old.jobs self.new.jobs freed.old freed.new }
        ensures light { IsLight self.new.text }
    {
        let answer = self.tables.take(read, freed);
        self.tables.text.let_go();
        answer
    }

    /// The phase of the worker in a slot; it is awake if the slot isn't open. It takes no memory.
    pub fn phase(&self, slot: u32) -> Phase
        ensures value { result ≡ (conn self.now.conns slot).phase }
        ensures agrees { (k : Settings) (steps : List Step) → CoreAgrees self.now k steps
            → result ≡ (if is_open slot (run k steps).notes then phase slot (run k steps).notes else Phase.Awake) }
    {
        if self.tables.conns.is_open(slot) {
            self.tables.conns.phase(slot)
        } else {
            Phase::Awake
        }
    }
}

impl Tables {
    ghost use Rattle.gm_core.specs.Holds.{IsKept, AllTouched, CoreAgrees};
    ghost use Rattle.gm_core.specs.NoMemory.{NeedsNoMemory};
    ghost use Rattle.gm_core.specs.Freed.{Frees};
    ghost use Rattle.gm_actions.specs.ReadEvents.{ReadsEvent};

    /// Takes an event, which was read.
    fn take(
        &mut self,
        read: &ReadEvent<'_>,
        freed: &mut Option<SharedBytes>,
    ) -> Result<Done, ApplyError>
        requires size { IsSized read.now.event }
        requires reads { ReadsEvent read.now.event read.now.action }
        requires kept { IsKept self.old }
        ensures answers { (k : Settings) (steps : List Step) → CoreAgrees self.old k steps
            → Answers k steps (step_of read.now.event) result
            × CoreAgrees self.new k (steps_after result (step_of read.now.event) steps) }
        ensures memory { NeedsNoMemory self.old read.now.event → IsErrOf result ApplyError.Memory → ⊥ }
        ensures touched { AllTouched self.old.conns self.new.conns }
        ensures freed { Frees self.old.jobs self.new.jobs freed.old freed.new }
    {
        match read.event {
            Event::Open { addr } => self.open(addr),
            Event::Packet { slot, .. } => self.packet(slot, &read.action, freed),
            Event::Line { slot, bytes } => self.line(slot, bytes),
            Event::Fault { slot, fault } => self.fault(slot, fault),
            Event::Close { slot } => self.close(slot),
            Event::Tick { now } => self.tick(now),
        }
    }
}

impl JobServer for Core {
    ghost use Rattle.gm_core.specs.Holds.{AllTouched, CoreAgrees};
    ghost use Rattle.gm_core.specs.NoMemory.{NeedsNoMemory};

    ghost agrees = { CoreAgrees };

    fn apply(&mut self, event: &Event<'_>) -> Result<Done, ApplyError>
        requires { IsSized event.now }
        ensures answers { (k : Settings) (steps : List Step) → CoreAgrees self.old k steps
            → Answers k steps (step_of event.now) result
            × CoreAgrees self.new k (steps_after result (step_of event.now) steps) }
        ensures memory { NeedsNoMemory self.old event.now → IsErrOf result ApplyError.Memory → ⊥ }
        ensures touched { AllTouched self.old.conns self.new.conns }
    {
        // Long data that are lent are copied once, and shared from then on.
        if let Event::Packet { slot, kind, bytes } = *event
            && let Some(copy) = bytes.copy_long(self.tables.alloc)
        {
            let bytes = Data::shared(&copy);
            let event = Event::Packet { slot, kind, bytes };
            return self.apply_locked(&ReadEvent::new(event), &mut None);
        }
        self.apply_locked(&ReadEvent::new(*event), &mut None)
    }

    fn owed(&self, slot: u32) -> bool {
        self.tables.conns.is_open(slot) && self.tables.conns.phase(slot).is_owed()
    }

    fn shut(&self, slot: u32) -> bool {
        self.tables.conns.is_open(slot) && self.tables.conns.is_shut(slot)
    }

    fn as_gearmand(&self) -> bool {
        self.tables.config.as_gearmand()
    }

    fn mode(&self) -> Mode {
        self.tables.mode
    }

    fn place(&self, job: u64) -> Place {
        self.tables.jobs.place(job)
    }

    fn took(&mut self, slot: u32) -> Result<(), ApplyError>
        ensures answers { (k : Settings) (steps : List Step) → CoreAgrees self.old k steps
            → AnswersAt k steps (Took slot) result × CoreAgrees self.new k (steps_after_that result (Took slot) steps) }
        ensures touched { AllTouched self.old.conns self.new.conns }
    {
        self.tables.check_owed(slot)?;
        self.tables.conns.set_phase(slot, Phase::Awake);
        Ok(())
    }

    fn withdrew(&mut self, slot: u32) -> Result<(), ApplyError>
        ensures answers { (k : Settings) (steps : List Step) → CoreAgrees self.old k steps
            → AnswersAt k steps (Withdrew slot) result × CoreAgrees self.new k (steps_after_that result (Withdrew slot) steps) }
        ensures touched { AllTouched self.old.conns self.new.conns }
    {
        self.tables.check_owed(slot)?;
        self.tables.conns.set_phase(slot, Phase::Awake);
        Ok(())
    }

    fn drain(&mut self, slot: u32) -> ByteQueue
        ensures answers { (k : Settings) (steps : List Step) → CoreAgrees self.old k steps
            → (result.bytes ≡ waiting slot (run k steps).flow) × CoreAgrees self.new k (Drain slot ∷ steps) }
    {
        match self.drain_open(slot) {
            Some((bytes, _)) => bytes,
            None => ByteQueue::new(self.tables.alloc),
        }
    }
}
