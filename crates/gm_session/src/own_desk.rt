//! A desk that takes no events of other slots' connections.

ghost use Rattle.std.specs.Prelude.{◌≡◌, true, []};
ghost use Rattle.std.specs.Result.{IsErrOf};
ghost use Rattle.gm_notes.specs.Servers.{step_of, IsSized};
ghost use Rattle.gm_shared.specs.Books.{NeedsNoMemory};
ghost use Rattle.gm_shared.specs.Calls.{HandedIn, if_taken};
ghost use Rattle.gm_session.specs.Effects.{Keeps, Gathers};
ghost use Rattle.gm_session.specs.Owners.{is_said_by, SaysOwn, Opens};

use crate::effects::{Effects, hand_in};
use gm_actions::ReadEvent;
use gm_notes::{ApplyError, Event};
use gm_shared::{BookName, Desk, Receipt, Shared};
use std::sync::Wait;

/// A desk for the events of its own slot's connection and for those of no slot: openings and ticks.
#[derive(Drop)]
pub struct OwnDesk<K: BookName> {
    pub(crate) desk: Desk<K>,
    ghost own: { SaysOwn desk.number desk.witness.seen },
}

impl<K: BookName> OwnDesk<K> {
    /// A desk that has seen nothing yet.
    pub fn new(desk: Desk<K>) -> OwnDesk<K>
        requires { desk.witness.seen ≡ [] }
        ensures { result.desk ≡ desk }
    {
        OwnDesk { desk }
    }

    /// The desk, whose share and history have nothing of other slots' connections.
    pub fn into_desk(self) -> Desk<K>
        ensures desk { result ≡ self.desk }
        ensures own { SaysOwn result.number result.witness.seen }
    {
        self.desk
    }

    /// Hands in an event that is of this desk's slot, or of none: an opening, a tick. Its effects are added to the
    /// given ones.
    pub fn apply(
        &mut self,
        rt: &impl Wait,
        shared: &Shared<K>,
        event: Event<'_>,
        effects: &mut Effects<K>,
    ) -> Result<Receipt, ApplyError>
        requires size { IsSized event }
        requires own { is_said_by self.old.desk.number (step_of event) ≡ true }
        ensures keeps { Keeps K.settings K.taped (step_of event.entry) self.old.desk.number result
            self.old.desk.witness.seen self.new.desk.witness.seen effects.old effects.new }
        ensures hands { HandedIn self.old.desk.number (if_taken (step_of event.entry) result) self.old.desk.witness.seen self.new.desk.witness.seen }
        ensures memory { NeedsNoMemory K.taped (step_of event.entry) → IsErrOf result ApplyError.Memory → ⊥ }
        ensures number { self.new.desk.number ≡ self.old.desk.number }
    {
        // Modelled in models/serving.h and ticks.pml.
        hand_in(rt, shared, &mut self.desk, &ReadEvent::new(event), effects)
    }

    /// Opens a slot for a connection from this address. Only a refusal leaves the connection without one. Its effects
    /// are added to the given ones.
    pub fn open(
        &mut self,
        rt: &impl Wait,
        shared: &Shared<K>,
        addr: &[u8],
        effects: &mut Effects<K>,
    ) -> Result<Option<u32>, ApplyError>
        ensures opens { Opens K.settings K.taped self.old.desk.number addr.now result self.old.desk.witness.seen self.new.desk.witness.seen }
        ensures gathers { Gathers K.settings K.taped self.old.desk.number self.old.desk.witness.seen effects.old self.new.desk.witness.seen effects.new }
        ensures number { self.new.desk.number ≡ self.old.desk.number }
    {
        // Modelled in models/shutdown.pml and ticks.pml.
        let receipt = self.apply(rt, shared, Event::Open { addr }, effects)?;
        Ok(receipt.done.opened)
    }
}
