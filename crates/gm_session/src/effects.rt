//! The effects of events on other connections: which slots to touch, and the server's mode.

ghost use Rattle.std.specs.Prelude.{◌≡◌};
ghost use Rattle.std.specs.Result.{IsErrOf};
ghost use Rattle.gm_actions.specs.ReadEvents.{ReadsEvent};
ghost use Rattle.gm_notes.specs.Servers.{step_of, IsSized};
ghost use Rattle.gm_shared.specs.Books.{NeedsNoMemory};
ghost use Rattle.gm_shared.specs.Calls.{HandedIn, if_taken};
ghost use Rattle.gm_session.specs.Effects.{IsNothing, Keeps, TakesDue, TakesAt, later};

use gm_actions::ReadEvent;
use gm_conns::SlotSet;
use gm_lane_word::Due;
use gm_notes::{ApplyError, Mode};
use gm_shared::{BookName, Desk, Receipt, Shared};
use std::marker::{Model, PhantomData};
use std::sync::Wait;

/// The effects of events at the book that `K` names. They can't be dropped: the delivery due to each touched slot is
/// taken out, and then they are ended. Contracts see the touched slots, which are the book's, and the mode.
pub struct Effects<K: BookName> {
    // The slots for which there may be something to send.
    touched: SlotSet,
    // Whether the server goes on.
    mode: Mode,
    of: PhantomData<K>,
}

impl<K: BookName> Model for Effects<K> {
    ghost use Rattle.gm_shared.specs.Books.{AreSlots};
    ghost use Rattle.gm_session.specs.Effects.{EffectsState};

    ghost Value = { EffectsState };

    ghost view = { λ e. record { touched = e.touched; mode = e.mode } };

    ghost invariant = { λ e. AreSlots K.settings.slots e.touched };
}

impl<K: BookName> Effects<K> {
    /// No effects: no slot is touched, and the server goes on.
    pub fn new() -> Effects<K>
        ensures { IsNothing result }
    {
        Effects {
            touched: SlotSet::new(),
            mode: Mode::Running,
            of: PhantomData,
        }
    }

    /// Takes whether the server goes on.
    pub fn take_mode(&mut self) -> Mode
        ensures mode { result ≡ self.old.mode }
        ensures taken { self.new.mode ≡ Mode.Running }
        ensures touched { self.new.touched ≡ self.old.touched }
    {
        std::mem::replace(&mut self.mode, Mode::Running)
    }

    /// Takes the delivery due to the first slot from `from` on, if there is one.
    pub fn take_next(&mut self, from: u32) -> Option<Due>
        ensures { TakesDue K.settings from result self.old self.new }
    {
        // Modelled in models/jobs.pml.
        let slot = self.touched.next(from)?;
        self.touched.remove(slot);
        Some(Due::new(slot))
    }

    /// Takes the delivery due to this slot, if there is one.
    pub fn take(&mut self, slot: u32) -> Option<Due>
        ensures { TakesAt K.settings slot result self.old self.new }
    {
        // Modelled in models/jobs.pml.
        if !self.touched.contains(slot) {
            return None;
        }
        self.touched.remove(slot);
        Some(Due::new(slot))
    }

    /// Discharges it, if nothing is due to any slot any more.
    pub fn discharge(self)
        requires { IsNothing self }
    {
        let Effects {
            touched: _,
            mode: _,
            of: _,
        } = self;
    }

    /// Ends the effects of a session that is read by itself: no thread is notified.
    pub(crate) fn abandon(self) {
        let Effects {
            touched: _,
            mode: _,
            of: _,
        } = self;
    }
}

/// The mode that a server reaches later of two: it doesn't go back.
fn later(mode: Mode, other: Mode) -> Mode
    ensures { result ≡ later mode other }
{
    match mode {
        Mode::Stopped => Mode::Stopped,
        Mode::Graceful => match other {
            Mode::Stopped => Mode::Stopped,
            Mode::Running | Mode::Graceful => Mode::Graceful,
        },
        Mode::Running => other,
    }
}

/// Hands in an event at a desk, and adds its effects.
#[inline(always)]
pub(crate) fn hand_in<K: BookName>(
    rt: &impl Wait,
    shared: &Shared<K>,
    desk: &mut Desk<K>,
    read: &ReadEvent<'_>,
    effects: &mut Effects<K>,
) -> Result<Receipt, ApplyError>
    requires size { IsSized read.now.event }
    requires reads { ReadsEvent read.now.event read.now.action }
    ensures keeps { Keeps K.settings K.taped (step_of read.now.event) desk.old.number result desk.old.witness.seen desk.new.witness.seen effects.old effects.new }
    ensures hands { HandedIn desk.old.number (if_taken (step_of read.now.event) result) desk.old.witness.seen desk.new.witness.seen }
    ensures memory { NeedsNoMemory K.taped (step_of read.now.event) → IsErrOf result ApplyError.Memory → ⊥ }
    ensures number { desk.new.number ≡ desk.old.number }
{
    // Modelled in models/jobs.pml.
    let receipt = desk.apply_with(rt, shared, read, &mut effects.touched)?;
    effects.mode = later(effects.mode, receipt.mode);
    Ok(receipt)
}
