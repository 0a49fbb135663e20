//! The state that the book's lock guards.

ghost use Rattle.std.specs.Prelude.{◌≡◌, [], IfErr};
ghost use Rattle.gm_actions.specs.ReadEvents.{ReadsEvent};
ghost use Rattle.gm_notes.specs.Servers.{step_of, IsSized};
ghost use Rattle.gm_shared.specs.Books.{NeedsNoMemory, KeepsSlots, AreSlots};
ghost use Rattle.gm_shared.specs.Calls.{DeskCalled, PenCalled, done_in};
ghost use Rattle.gm_shared.specs.Shared.{IsGuarded, HasSeenOwn, actor_count};
ghost use Rattle.std.specs.Result.{IsErrOf};

use crate::book::{Booked, DeskCall};
use crate::events::Noop;
use crate::history::{History, Keeper, Witness, enter};
use crate::name::BookName;
use crate::receipt::{Drained, Receipt};
use crate::shared::{Desk, Pen, Shared};
use crate::what::What;
use gm_actions::ReadEvent;
use gm_bytes::SharedBytes;
use gm_conns::SlotSet;
use gm_notes::{ApplyError, Done};
use std::marker::{Model, PhantomData};

/// A book under its lock, with the keeper of the history that `K` names: it agrees with the settings that `K` names and
/// the history's steps, and its words are in the table that `K` names.
#[derive(Drop)]
pub(crate) struct Guarded<K: BookName> {
    booked: Booked,
    keeper: Keeper,
    of: PhantomData<K>,
}

impl<K: BookName> Model for Guarded<K> {
    ghost use Rattle.std.specs.Prelude.{◌≡◌};
    ghost use Rattle.gm_shared.specs.Shared.{GuardedState, IsGuarded, actor_count};

    ghost Value = { GuardedState };

    ghost view = { λ g. record { booked = g.booked; log = g.keeper.log } };

    ghost invariant = { λ g. IsGuarded K.table K.settings K.taped g.booked g.keeper.log × (g.keeper.table ≡ K.history) × (g.keeper.made ≡ actor_count K.settings.slots) };
}

// The answer to an event that was taken; none if it was refused.
fn done_in(answer: &Result<Receipt, ApplyError>) -> Option<Done>
    ensures { result ≡ done_in answer.now }
{
    match answer {
        Ok(receipt) => Some(receipt.done),
        Err(_) => None,
    }
}

impl<K: BookName> Guarded<K> {
    pub(crate) fn new(booked: Booked, keeper: Keeper) -> Guarded<K>
        requires guarded { IsGuarded K.table K.settings K.taped booked keeper.log }
        requires history { keeper.table ≡ K.history }
        requires made { keeper.made ≡ actor_count K.settings.slots }
        ensures { (result.booked ≡ booked) × (result.log ≡ keeper.log) }
    {
        Guarded {
            booked,
            keeper,
            of: PhantomData,
        }
    }

    /// `Booked::hold`, in one critical section, whose desk sees the history after it.
    pub(crate) fn apply(
        &mut self,
        shared: &Shared<K>,
        desk: &mut Desk<K>,
        read: &ReadEvent<'_>,
        touched: &mut SlotSet,
        freed: &mut Option<SharedBytes>,
    ) -> Result<Receipt, ApplyError>
        requires size { IsSized read.now.event }
        requires reads { ReadsEvent read.now.event read.now.action }
        ensures called { DeskCalled K.settings K.taped (step_of read.now.event) desk.old.number result touched.new desk.old.witness.seen desk.new.witness.seen }
        ensures refused { IfErr result (λ _. touched.new ≡ touched.old) }
        ensures kept { KeepsSlots touched.old touched.new }
        ensures within { AreSlots K.settings.slots touched.old → AreSlots K.settings.slots touched.new }
        ensures memory { NeedsNoMemory K.taped (step_of read.now.event) → IsErrOf result ApplyError.Memory → ⊥ }
        ensures number { desk.new.number ≡ desk.old.number }
    {
        // Modelled in models/deliver.pml.
        let number = desk.number;
        let mut noop = Noop::Left;
        let call = DeskCall {
            table: &shared.table,
            desk: number,
            read,
        };
        let result = self
            .booked
            .hold(call, &mut desk.share, touched, freed, &mut noop);
        let what = What::Call(noop, read.event, done_in(&result));
        enter(
            &mut self.keeper,
            &shared.history,
            &mut desk.witness,
            number,
            what,
        );
        result
    }

    /// `Booked::drain_into` of its slot, in one critical section, whose pen sees the history after it.
    pub(crate) fn drain(
        &mut self,
        shared: &Shared<K>,
        pen: &mut Pen<K>,
    ) -> Result<Drained, ApplyError>
        ensures called { PenCalled K.settings K.taped pen.old.slot pen.old.slot result pen.old.witness.seen pen.new.witness.seen }
        ensures slot { pen.new.slot ≡ pen.old.slot }
        ensures seat { pen.new.seat ≡ pen.old.seat }
    {
        // Modelled in models/lane.h.
        let slot = pen.slot;
        let result = self.booked.drain_into(slot, slot, &mut pen.share);
        let what = match &result {
            Ok(drained) => What::Drain(slot, &drained.bytes),
            Err(_) => What::Nothing,
        };
        enter(
            &mut self.keeper,
            &shared.history,
            &mut pen.witness,
            slot,
            what,
        );
        result
    }

    /// The end of an actor that has this witness: the history has nothing of it that is newer.
    pub(crate) fn give_back(&mut self, history: &History, witness: &mut Witness)
        requires history { history.now ≡ K.history }
        requires witness { witness.old.table ≡ K.history }
        ensures seen { HasSeenOwn self.old.log witness.old }
        ensures kept { self.new ≡ self.old }
    {
        enter(&mut self.keeper, history, witness, 0, What::Nothing);
    }

    /// The book, which is under no lock any more, and the keeper of its history.
    pub(crate) fn into_parts(self) -> (Booked, Keeper)
        ensures book { result.0 ≡ self.booked }
        ensures guarded { IsGuarded K.table K.settings K.taped result.0 self.log }
        ensures keeper { (result.1.log ≡ self.log) × (result.1.table ≡ K.history) }
    {
        let Guarded { booked, keeper, .. } = self;
        (booked, keeper)
    }
}
