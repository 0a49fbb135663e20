//! The part of a server that its sessions share.

ghost use Rattle.std.specs.Prelude.{◌≡◌};
ghost use Rattle.gm_session.specs.Effects.{Ticks};

use crate::effects::Effects;
use crate::own_desk::OwnDesk;
use gm_notes::Event;
use gm_report::Speaker;
use gm_shared::{BookName, Shared};
use std::alloc::Global;
use std::sync::atomic::{AtomicU64, Ordering};
use std::sync::{Arc, Mutex, Wait};
use std::time::{Clock, Instant};

/// Shared by the sessions of a server: the control desk and the time, the locks of long turns, and the operators.
#[derive(Drop)]
pub struct Host<K: BookName> {
    /// Where connections are opened, and the seconds since the server began are handed in.
    desk: Mutex<OwnDesk<K>>,
    /// When the server began, if the clock could be read.
    begun: Option<Instant>,
    /// The last second since then that was handed in.
    second: AtomicU64,
    /// Held by one turn with many units at a time. Many units in a row, of several connections at once, would wake and
    /// sleep at the book's lock at each unit.
    pub(crate) turn: Mutex<()>,
    /// Held by one long turn at a time, from before it waits for `turn` on. So at most one thread with a long turn
    /// waits for `turn`, in addition to those with shorter ones.
    pub(crate) long_turn: Mutex<()>,
    /// Writes the messages for operators while the server runs.
    pub speaker: Arc<Speaker, Global>,
}

impl<K: BookName> Host<K> {
    /// The host of a server that begins, with its control desk.
    pub fn new(rt: &impl Clock, desk: OwnDesk<K>, speaker: Arc<Speaker, Global>) -> Host<K> {
        Host {
            desk: Mutex::new(desk),
            begun: Instant::now(rt).ok(),
            second: AtomicU64::new(0),
            turn: Mutex::new(()),
            long_turn: Mutex::new(()),
            speaker,
        }
    }

    /// The control desk.
    pub fn desk(&self) -> &Mutex<OwnDesk<K>> {
        &self.desk
    }

    /// The control desk, once no session is left.
    pub fn into_desk(self) -> OwnDesk<K> {
        let Host { desk, .. } = self;
        desk.into_inner()
    }

    /// The last second that was handed in.
    pub fn last_second(&self) -> u64 {
        self.second.load(Ordering::SeqCst)
    }

    /// How many seconds the server has run, if the clock can be read.
    fn seconds(&self, rt: &impl Clock) -> Option<u64> {
        // Modelled in models/ticks.pml.
        let elapsed = self.begun.as_ref()?.elapsed(rt).ok()?;
        Some(elapsed.as_secs())
    }

    /// Hands in the present second, if it is later than the last that was, and adds its effects. If the clock can't be
    /// read, there is no tick.
    pub fn update<R: Wait + Clock>(&self, rt: &R, shared: &Shared<K>, effects: &mut Effects<K>)
        ensures { Ticks effects.old effects.new }
    {
        // Modelled in models/jobs.pml and ticks.pml.
        if let Some(now) = self.seconds(rt) {
            if self.last_second() < now {
                self.tick(rt, shared, now, effects);
            }
        }
    }

    /// Hands in this second, unless another thread was first. If there is no memory for that, the book gets the next
    /// second.
    fn tick(&self, rt: &impl Wait, shared: &Shared<K>, now: u64, effects: &mut Effects<K>)
        ensures { Ticks effects.old effects.new }
    {
        // Modelled in models/jobs.pml and ticks.pml.
        let mut desk = self.desk.lock(rt);
        if self.last_second() < now {
            let _ = desk.apply(rt, shared, Event::Tick { now }, effects);
            // Only now: a thread that reads it hands in a grab without a tick.
            self.second.store(now, Ordering::SeqCst);
        }
    }
}
