//! The book that threads share, and the parts that threads own: desks, at which events are handed in, and pens, which
//! take out the NOOPs and bytes that wait for a slot.

ghost use Rattle.std.specs.Prelude.{◌≡◌, ◌+◌, ◌*◌, IfOk, IfErr, OnOk, MatchBool, map, All, [], true};
ghost use Rattle.gm_actions.specs.ReadEvents.{ReadsEvent};
ghost use Rattle.gm_notes.specs.Servers.{step_of, IsSized};
ghost use Rattle.gm_word.specs.Seats.{fresh_pens};
ghost use Rattle.gm_shared.specs.Books.{NeedsNoMemory, KeepsSlots, AreSlots};
ghost use Rattle.gm_shared.specs.Tapes.{drains_alone, share_of};
ghost use Rattle.gm_shared.specs.declared.tape.Actor.TheVariants as actors;
ghost use Rattle.gm_shared.specs.Histories.{calls_by};
ghost use Rattle.gm_shared.specs.Calls.{DeskCalled, PenCalled, HandedIn, if_taken};
ghost use Rattle.gm_shared.specs.Shared.{IsNew, HasMade, numbers_below};
ghost use Rattle.std.specs.Result.{IsErrOf};

use crate::blank::Blank;
use crate::guarded::Guarded;
use crate::history::{History, Keeper, Witness};
use crate::name::BookName;
use crate::receipt::{Drained, Receipt};
use crate::tape::Told;
use gm_actions::ReadEvent;
use gm_conns::SlotSet;
use gm_notes::ApplyError;
use gm_word::{PenSeat, SleepTable};
use std::alloc::{AllocError, Global};
use std::hint::spin_loop;
use std::marker::PhantomData;
use std::sync::{Mutex, MutexGuard, Wait};

/// How often a thread looks whether the book's lock is free, before it sleeps until it is. With as few as a hundred
/// looks most of those that sleep find the lock free at once; with as many as 2,000, threads that outnumber the
/// processors wait for each other.
const MOST_LOOKS: u32 = 300;

/// The book of a job server, which threads share: the sleep words, and the core under its lock.
#[derive(Drop)]
pub struct Shared<K: BookName> {
    pub(crate) table: SleepTable,
    pub(crate) history: History,
    pub(crate) book: Mutex<Guarded<K>>,
    /// Whether requests mean what gearmand's applications mean by them.
    pub as_gearmand: bool,
    ghost named: { table ≡ K.table },
    ghost historic: { history ≡ K.history },
    ghost meant: { as_gearmand ≡ K.settings.as_gearmand },
}

/// Where one thread hands in events. Desks have numbers: one for each slot, and that of the control desk is the number
/// of slots. A desk knows how much of the history there was at its last call. If a tape is kept, it keeps its own
/// part of that, its share: each of its calls, with the place and the answer.
#[derive(Drop)]
pub struct Desk<K: BookName> {
    pub(crate) number: u32,
    pub(crate) share: Vec<Told>,
    pub(crate) witness: Witness,
    of: PhantomData<K>,
    ghost witnessed: { (witness.table ≡ K.history) × (witness.who ≡ 2 * number) },
    ghost told: { share.items ≡ share_of K.taped (actors.Desk number) witness.seen },
}

/// Takes the NOOP and the bytes that wait for one slot out of the book. Its number on the tape is its slot's; it has a
/// share as a desk has, which has only drains of its slot.
#[derive(Drop)]
pub struct Pen<K: BookName> {
    pub(crate) slot: u32,
    pub(crate) seat: PenSeat,
    pub(crate) share: Vec<Told>,
    pub(crate) witness: Witness,
    of: PhantomData<K>,
    ghost witnessed: { (witness.table ≡ K.history) × (witness.who ≡ 2 * slot + 1) },
    ghost told: { share.items ≡ share_of K.taped (actors.Pen slot) witness.seen },
    ghost named: { seat.table ≡ K.table },
    ghost sits: { seat.slot ≡ slot },
    ghost own: { drains_alone slot (calls_by (2 * slot + 1) witness.seen) ≡ true },
}

impl<K: BookName> Shared<K> {
    /// Opens a book: the shared part, a desk and a pen for each slot in their order, and the control desk.
    pub fn open(
        alloc: Global,
        blank: Blank,
    ) -> Result<(Shared<K>, Vec<Desk<K>>, Vec<Pen<K>>, Desk<K>), AllocError>
        requires table { blank.table ≡ K.table }
        requires history { blank.history ≡ K.history }
        requires settings { blank.settings ≡ K.settings }
        requires taped { blank.taped ≡ K.taped }
        ensures desks { IfOk result (λ made. map (λ desk. desk.number) made.1.items ≡ numbers_below blank.settings.slots) }
        ensures pens { IfOk result (λ made. map (λ pen. pen.slot) made.2.items ≡ numbers_below blank.settings.slots) }
        ensures control { IfOk result (λ made. made.3.number ≡ blank.settings.slots) }
        ensures nothing_seen { IfOk result (λ made. All (λ desk. desk.witness.seen ≡ []) made.1.items × (made.3.witness.seen ≡ [])) }
        ensures nothing_given { IfOk result (λ made. All (λ pen. (pen.witness.seen ≡ []) × (pen.seat.takes ≡ 0)) made.2.items) }
    {
        let Blank {
            table,
            history,
            mut keeper,
            booked,
            seats,
            slots,
            as_gearmand,
        } = blank;
        let (desks, pens) = new_owners(alloc, &history, &mut keeper, seats, slots)?;
        let control = Desk::new(alloc, slots, keeper.new_witness(&history));
        let shared = Shared {
            table,
            history,
            book: Mutex::new(Guarded::new(booked, keeper)),
            as_gearmand,
        };
        Ok((shared, desks, pens, control))
    }

    /// Takes the book's lock. It is held for about a microsecond, so a thread looks for a while whether it is free,
    /// before it sleeps.
    fn lock_book(&self, rt: &impl Wait) -> MutexGuard<'_, Guarded<K>> {
        for _ in 0..MOST_LOOKS {
            if let Some(guard) = self.book.try_lock() {
                return guard;
            }
            spin_loop();
        }
        self.book.lock(rt)
    }
}

impl<K: BookName> Desk<K> {
    fn new(alloc: Global, number: u32, witness: Witness) -> Desk<K>
        requires witness { (witness.table ≡ K.history) × (witness.who ≡ 2 * number) }
        requires nothing_seen { witness.seen ≡ [] }
        ensures number { result.number ≡ number }
        ensures witness { result.witness ≡ witness }
    {
        Desk {
            number,
            share: Vec::new(alloc),
            witness,
            of: PhantomData,
        }
    }

    /// Its number: its slot, or the number of slots.
    pub fn number(&self) -> u32
        ensures { result ≡ self.now.number }
    {
        self.number
    }

    /// As `apply`. Each slot whose waiting bytes, phase or shut changed and to which something is to be delivered is
    /// put into `touched`, and perhaps more of the book's slots: it is for them that a writer may have something to do.
    /// A refused event adds none.
    pub fn apply_with(
        &mut self,
        rt: &impl Wait,
        shared: &Shared<K>,
        read: &ReadEvent<'_>,
        touched: &mut SlotSet,
    ) -> Result<Receipt, ApplyError>
        requires size { IsSized read.now.event }
        requires reads { ReadsEvent read.now.event read.now.action }
        ensures called { DeskCalled K.settings K.taped (step_of read.now.event) self.old.number result touched.new self.old.witness.seen self.new.witness.seen }
        ensures refused { IfErr result (λ _. touched.new ≡ touched.old) }
        ensures kept { KeepsSlots touched.old touched.new }
        ensures within { AreSlots K.settings.slots touched.old → AreSlots K.settings.slots touched.new }
        ensures hands { HandedIn self.old.number (if_taken (step_of read.now.event) result) self.old.witness.seen self.new.witness.seen }
        ensures memory { NeedsNoMemory K.taped (step_of read.now.event) → IsErrOf result ApplyError.Memory → ⊥ }
        ensures number { self.new.number ≡ self.old.number }
    {
        // Modelled in models/deliver.pml.
        let mut freed = None;
        let result = shared
            .lock_book(rt)
            .apply(shared, self, read, touched, &mut freed);
        drop(freed);
        result
    }
}

impl<K: BookName> Pen<K> {
    fn new(alloc: Global, slot: u32, seat: PenSeat, witness: Witness) -> Pen<K>
        requires seat { (seat.table ≡ K.table) × (seat.slot ≡ slot) }
        requires witness { (witness.table ≡ K.history) × (witness.who ≡ 2 * slot + 1) }
        requires nothing_seen { witness.seen ≡ [] }
        ensures slot { result.slot ≡ slot }
        ensures seat { result.seat ≡ seat }
        ensures witness { result.witness ≡ witness }
    {
        Pen {
            slot,
            seat,
            share: Vec::new(alloc),
            witness,
            of: PhantomData,
        }
    }

    /// Its slot.
    pub fn slot(&self) -> u32
        ensures { result ≡ self.now.slot }
    {
        self.slot
    }

    /// Takes the NOOP that the slot is owed, and says whether it did. It tries once, and never waits. The book enters
    /// the taking when it next looks at the slot.
    pub fn take(&mut self, shared: &Shared<K>) -> bool
        ensures slot { self.new.slot ≡ self.old.slot }
        ensures share { self.new.share ≡ self.old.share }
        ensures witness { self.new.witness ≡ self.old.witness }
        ensures tries { self.new.seat.tries ≡ self.old.seat.tries + 1 }
        ensures takes { MatchBool result (self.new.seat.takes ≡ self.old.seat.takes + 1) (self.new.seat.takes ≡ self.old.seat.takes) }
    {
        // Modelled in models/lane.h.
        self.seat.take(&shared.table)
    }

    /// Takes the bytes that wait for the slot, which wait no more, and tells whether it is shut. `NotOpen` comes if
    /// the slot isn't open; it changes nothing. The drain is the next entry of the history, after all that the pen has
    /// seen of it. It may wait for the lock. Without a tape it needs no memory; with one the drain is in the pen's
    /// share, and `Memory` comes if there is none for that, and changes nothing.
    pub fn drain(&mut self, rt: &impl Wait, shared: &Shared<K>) -> Result<Drained, ApplyError>
        ensures called { PenCalled K.settings K.taped self.old.slot self.old.slot result self.old.witness.seen self.new.witness.seen }
        ensures slot { self.new.slot ≡ self.old.slot }
        ensures seat { self.new.seat ≡ self.old.seat }
    {
        // Modelled in models/lane.h.
        shared.lock_book(rt).drain(shared, self)
    }
}

// A desk for each slot and a pen for each seat, in their order. None has seen anything.
fn new_owners<K: BookName>(
    alloc: Global,
    history: &History,
    keeper: &mut Keeper,
    seats: Vec<PenSeat>,
    slots: u32,
) -> Result<(Vec<Desk<K>>, Vec<Pen<K>>), AllocError>
    requires seats { seats.items ≡ fresh_pens K.table slots }
    requires table { history.now ≡ K.history }
    requires new { IsNew K.history keeper.old }
    ensures numbers { IfOk result (λ made. map (λ desk. desk.number) made.0.items ≡ numbers_below slots) }
    ensures slots { IfOk result (λ made. map (λ pen. pen.slot) made.1.items ≡ numbers_below slots) }
    ensures nothing_seen { IfOk result (λ made. All (λ desk. desk.witness.seen ≡ []) made.0.items) }
    ensures nothing_given { IfOk result (λ made. All (λ pen. (pen.witness.seen ≡ []) × (pen.seat.takes ≡ 0)) made.1.items) }
    ensures keeper { OnOk result (HasMade (2 * slots) K.history keeper.new) }
{
    let mut desks = Vec::with_capacity(alloc, slots as usize)?;
    let mut pens = Vec::with_capacity(alloc, slots as usize)?;
    let mut slot = 0;
    for seat in seats {
        desks.push_reserved(Desk::new(alloc, slot, keeper.new_witness(history)));
        pens.push_reserved(Pen::new(alloc, slot, seat, keeper.new_witness(history)));
        slot += 1;
    }
    Ok((desks, pens))
}
