//! Calls for programs without threads, and for tests: each is one that `gmd` makes, without some of its arguments.

ghost use Rattle.std.specs.Prelude.{◌≡◌, ℕ, List, IfOk};
ghost use Rattle.std.specs.Result.{IsErrOf, MatchResult};
ghost use Rattle.gm_notes.specs.Settings.{Settings};
ghost use Rattle.gm_notes.specs.Steps.{Step};
ghost use Rattle.gm_notes.specs.Servers.{step_of, IsSized};
ghost use Rattle.gm_shared.specs.Books.{BookedAgrees, Held, NeedsNoMemory, Drains};
ghost use Rattle.gm_shared.specs.Calls.{Called, HandedIn, if_taken};
ghost use Rattle.gm_shared.specs.Openings.{count_at, counted_up};
ghost use Rattle.gm_shared.specs.declared.events.Noop.{Noop};
ghost use Rattle.gm_shared.specs.declared.tape.Told.{Told};

use crate::book::{Booked, DeskCall};
use crate::events::Noop;
use crate::name::BookName;
use crate::receipt::{Drained, Receipt};
use crate::shared::{Desk, Shared};
use gm_actions::ReadEvent;
use gm_conns::SlotSet;
use gm_notes::{ApplyError, Event};
use gm_word::SleepTable;
use std::sync::Wait;

impl Booked {
    /// Lets an event take effect, as `hold` does in one critical section: it looks at the word of the event's slot, enters
    /// a NOOP that was taken or that the event withdraws, and then the event. A refused event changes nothing but that. A
    /// refusal is one of `JobServer::apply`. The table is the book's, and the desk is the one that hands the event in.
    ///
    /// With a tape, `Memory` comes first: if there is no room for what is entered, nothing changes, even if the event
    /// would be refused.
    pub fn apply(
        &mut self,
        table: &SleepTable,
        desk: u32,
        event: &Event<'_>,
    ) -> Result<Receipt, ApplyError>
        requires size { IsSized event.now }
        requires table { self.old.seat.table ≡ table.now }
        ensures holding { (k : Settings) (steps : List Step) → BookedAgrees self.old k steps
            → (told : List Told) × (touched : List ℕ) × (noop : Noop) × Held k steps (step_of event.now) desk noop result touched self.old self.new told }
        ensures memory { NeedsNoMemory self.old.tape.on (step_of event.now) → IsErrOf result ApplyError.Memory → ⊥ }
        ensures table { self.new.seat.table ≡ self.old.seat.table }
        ensures opened { MatchResult result (λ receipt. self.new.openings ≡ counted_up receipt.done.opened self.old.openings) (λ _. self.new.openings ≡ self.old.openings) }
    {
        let read = ReadEvent::new(*event);
        let call = DeskCall {
            table,
            desk,
            read: &read,
        };
        let (mut share, mut touched) = (Vec::new(self.alloc), SlotSet::new());
        self.hold(call, &mut share, &mut touched, &mut None, &mut Noop::Left)
    }

    /// Takes the bytes that wait for a slot, which wait no more. `NotOpen` comes if the slot isn't open, and changes
    /// nothing. Without a tape it needs no memory. With one `Memory` comes if there is none for the entry and its bytes,
    /// and changes nothing. The pen is the one that asks.
    pub fn drain(&mut self, pen: u32, slot: u32) -> Result<Drained, ApplyError>
        ensures drains { (k : Settings) (steps : List Step) → BookedAgrees self.old k steps
            → (told : List Told) × Drains k steps pen slot result self.old self.new told }
        ensures seat { self.new.seat ≡ self.old.seat }
        ensures openings { self.new.openings ≡ self.old.openings }
        ensures opening { IfOk result (λ drained. drained.opening ≡ count_at slot self.old.openings) }
    {
        let mut share = Vec::new(self.alloc);
        self.drain_into(pen, slot, &mut share)
    }
}

impl<K: BookName> Desk<K> {
    /// Hands in an event, which takes effect in one critical section, as `Booked::apply` says: it is the next entry of
    /// the history, after all that the desk has seen of it. It may wait for the lock. Without a tape a closing never
    /// lacks memory. With one the event and its place are in the desk's share, after what was found of a NOOP. It is
    /// for callers that notify no other thread.
    pub fn apply(
        &mut self,
        rt: &impl Wait,
        shared: &Shared<K>,
        event: Event<'_>,
    ) -> Result<Receipt, ApplyError>
        requires { IsSized event }
        ensures called { Called K.settings K.taped (step_of event.entry) self.old.number result self.old.witness.seen self.new.witness.seen }
        ensures hands { HandedIn self.old.number (if_taken (step_of event.entry) result) self.old.witness.seen self.new.witness.seen }
        ensures memory { NeedsNoMemory K.taped (step_of event.entry) → IsErrOf result ApplyError.Memory → ⊥ }
        ensures number { self.new.number ≡ self.old.number }
    {
        let mut touched = SlotSet::new();
        self.apply_with(rt, shared, &ReadEvent::new(event), &mut touched)
    }
}
