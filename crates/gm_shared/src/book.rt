//! The book.

ghost use Rattle.std.specs.Prelude.{◌≡◌, ◌<◌, ◌≤◌, ◌++◌, ℕ, [], List, IfOk, IfErr, length, replicate, None};
ghost use Rattle.gm_conns.specs.ConnTables.{conn};
ghost use Rattle.gm_word.specs.Seats.{fresh_pens};
ghost use Rattle.gm_notes.specs.Settings.{Settings};
ghost use Rattle.gm_notes.specs.Steps.{Step, run};
ghost use Rattle.gm_notes.specs.Servers.{step_of, IsSized};
ghost use Rattle.gm_core.specs.Holds.{AllTouched, CoreAgrees, outbox};
ghost use Rattle.std.specs.Result.{IsErrOf, MatchResult};
ghost use Rattle.gm_shared.specs.Openings.{count_at, counted_up};

use crate::events::{Noop, is_grab, slot_of};
use crate::openings::Openings;
use crate::receipt::{Drained, Receipt};
use crate::tape::{Entry, Tape, TapeMode, Told};
use crate::words::sync_word;
use gm_actions::ReadEvent;
use gm_bytes::SharedBytes;
use gm_conns::SlotSet;
use gm_core::Core;
use gm_notes::{ApplyError, Config, Event, JobServer};
use gm_word::{BookSeat, PenSeat, Phase, SleepTable};
use std::alloc::{AllocError, Global};
use std::hash::RandomState;

/// The state that the lock guards: the core, the seat at the sleep words, and the tape, if one is kept.
///
/// A book agrees with settings and with lists of steps, the newest first, as its core does; the phases that its seat
/// knows are those that the steps give; and the tape that it keeps is one history, of these steps.
#[derive(Drop)]
pub struct Booked {
    pub(crate) alloc: Global,
    core: Core,
    seat: BookSeat,
    slots: u32,
    openings: Openings,
    tape: Tape,
    ghost wide: { length seat.lines ≡ slots },
    ghost most: { slots ≤ 1024 },
}

/// A desk's call: the event that it hands in, and the table of the book's sleep words.
#[derive(Clone, Copy)]
pub(crate) struct DeskCall<'a> {
    pub(crate) table: &'a SleepTable,
    pub(crate) desk: u32,
    pub(crate) read: &'a ReadEvent<'a>,
}

impl Booked {
    ghost use Rattle.gm_shared.specs.Books.{Holds, BookedAgrees, Held, NeedsNoMemory, Drains, AsksWord, KeepsSlots, AreSlots, FollowsTouched, FollowsCore};
    ghost use Rattle.gm_shared.specs.Events.{slot_of, MayFind, entered};
    ghost use Rattle.gm_notes.specs.Withdrawals.{withdraws_noop};
    ghost use Rattle.gm_actions.specs.ReadEvents.{ReadsEvent};
    ghost use Rattle.gm_shared.specs.Tapes.{is_on};

    /// The book of a server to which nothing has happened, the table of its sleep words, and a pen for each slot, in
    /// their order; if that is asked, it keeps a tape. Names and ids come from strangers, so the core's tables hash
    /// with this seed.
    pub fn new(
        alloc: Global,
        seed: RandomState,
        config: Config,
        tape: TapeMode,
    ) -> Result<(Booked, SleepTable, Vec<PenSeat>), AllocError>
        ensures book { IfOk result (λ made. BookedAgrees made.0 config []) }
        ensures table { IfOk result (λ made. made.0.seat.table ≡ made.1) }
        ensures pens { IfOk result (λ made. made.2.items ≡ fresh_pens made.1 config.slots) }
        ensures tape { IfOk result (λ made. made.0.tape.on ≡ is_on tape) }
        ensures openings { IfOk result (λ made. made.0.openings ≡ replicate config.slots 0) }
    {
        let slots = config.slots();
        // A config has at least one slot, which the table wants to know.
        if slots == 0 {
            return Err(AllocError);
        }
        let (table, seat, pens) = SleepTable::new(alloc, slots)?;
        let core = Core::new(alloc, seed, config)?;
        let openings = Openings::new(alloc, slots)?;
        let booked = Booked {
            alloc,
            core,
            seat,
            slots,
            openings,
            tape: Tape::new(alloc, tape),
        };
        Ok((booked, table, pens))
    }

    /// Lets an event take effect, in one holding. It asks the word of the event's slot for the state of the NOOP that
    /// the slot is owed. One that was taken is entered first; so is one that is still owed and that the event
    /// withdraws, as taken or as withdrawn. A refused event changes nothing but that; a refusal is one of
    /// `JobServer::apply`. The entry on the tape is added to the desk's share.
    ///
    /// With a tape room for what it enters is found first, and copies of the bytes: if that fails `Memory` comes
    /// and nothing changes, even if the event would be refused.
    ///
    /// Each slot whose waiting bytes, phase or shut changed is put into `touched`, and perhaps more: it is for them
    /// that a writer may have something to do. A refused event adds none. The set is the caller's, and not a part of
    /// the receipt, because a receipt is moved at each return. `freed` becomes the memory to free once no lock is
    /// held: the body of a job that ended. `found` becomes the state in which the slot's NOOP was found, even if the
    /// event is refused.
    pub(crate) fn hold(
        &mut self,
        call: DeskCall<'_>,
        share: &mut Vec<Told>,
        touched: &mut SlotSet,
        freed: &mut Option<SharedBytes>,
        found: &mut Noop,
    ) -> Result<Receipt, ApplyError>
        requires size { IsSized call.read.now.event }
        requires reads { ReadsEvent call.read.now.event call.read.now.action }
        requires table { self.old.seat.table ≡ call.table.now }
        ensures holding { (k : Settings) (steps : List Step) → BookedAgrees self.old k steps
            → (told : List Told) × (share.new.items ≡ share.old.items ++ told)
            × Held k steps (step_of call.entry.read.now.event) call.entry.desk found.new result touched.new self.old self.new told }
        ensures refused { IfErr result (λ _. touched.new ≡ touched.old) }
        ensures kept { KeepsSlots touched.old touched.new }
        ensures within { AreSlots self.old.slots touched.old → AreSlots self.old.slots touched.new }
        ensures memory { NeedsNoMemory self.old.tape.on (step_of call.entry.read.now.event) → IsErrOf result ApplyError.Memory → ⊥ }
        ensures table { self.new.seat.table ≡ self.old.seat.table }
        ensures opened { MatchResult result (λ receipt. self.new.openings ≡ counted_up receipt.done.opened self.old.openings) (λ _. self.new.openings ≡ self.old.openings) }
    {
        // Modelled in models/deliver.pml and jobs.pml.
        let DeskCall { table, desk, read } = call;
        *found = Noop::Left;
        let copies = self.tape.room_for(self.alloc, share, &read.event)?;
        let noop = self.resolve_noop(table, read);
        *found = noop;
        self.tape.enter_noop(share, desk, noop);
        let done = self.core.apply_locked(read, freed)?;
        self.openings.count(&done);
        let at = self.tape.enter_event(share, desk, copies, done);
        self.follow(table, &read.event, touched);
        Ok(Receipt {
            at,
            done,
            mode: self.core.mode(),
        })
    }

    /// Takes the bytes that wait for a slot, which wait no more. `NotOpen` comes if the slot isn't open; it changes
    /// nothing. Without a tape it needs no memory; with one `Memory` comes if there is none for the entry and its
    /// bytes, and changes nothing. The pen is the one that asks; the entry on the tape is added to its share.
    pub(crate) fn drain_into(
        &mut self,
        pen: u32,
        slot: u32,
        share: &mut Vec<Told>,
    ) -> Result<Drained, ApplyError>
        ensures drains { (k : Settings) (steps : List Step) → BookedAgrees self.old k steps
            → (told : List Told) × (share.new.items ≡ share.old.items ++ told)
            × Drains k steps pen slot result self.old self.new told }
        ensures seat { self.new.seat ≡ self.old.seat }
        ensures openings { self.new.openings ≡ self.old.openings }
        ensures opening { IfOk result (λ drained. drained.opening ≡ count_at slot self.old.openings) }
    {
        // Modelled in models/lane.h.
        let copies = self.tape.room_for_bytes(share, &self.core, slot)?;
        let Some((bytes, shut)) = self.core.drain_open(slot) else {
            return Err(ApplyError::NotOpen);
        };
        self.tape.enter_drain(share, pen, slot, copies);
        Ok(Drained {
            bytes,
            shut,
            opening: self.openings.of(slot),
        })
    }

    /// The core, the seat, the entries of the tape, and how often each slot was opened.
    pub(crate) fn into_parts(self) -> (Core, BookSeat, Vec<Entry>, Openings)
        ensures core { result.0 ≡ self.core }
        ensures seat { result.1 ≡ self.seat }
        ensures entries { result.2.items ≡ self.tape.entries.items }
        ensures openings { result.3 ≡ self.openings }
    {
        (
            self.core,
            self.seat,
            self.tape.into_entries(),
            self.openings,
        )
    }

    /// Whether an event withdraws the NOOP that its slot is still owed.
    fn is_withdrawal(&self, read: &ReadEvent<'_>) -> bool
        requires { ReadsEvent read.now.event read.now.action }
        ensures { (k : Settings) (steps : List Step) → CoreAgrees self.now.core k steps → result ≡ withdraws_noop (step_of read.now.event) (run k steps) }
    {
        // Modelled in models/jobs.pml.
        match read.event {
            Event::Close { .. } => true,
            Event::Packet { slot, .. } => is_grab(&read.action) && !self.core.shut(slot),
            _ => false,
        }
    }

    /// Looks at the word of the event's slot, and enters the NOOP that is owed there, as it finds it.
    fn resolve_noop(&mut self, table: &SleepTable, read: &ReadEvent<'_>) -> Noop
        requires table { self.old.seat.table ≡ table.now }
        requires reads { ReadsEvent read.now.event read.now.action }
        ensures found { (k : Settings) (steps : List Step) → Holds self.old k steps
            → MayFind result (step_of read.now.event) (run k steps) × Holds self.new k (entered result steps) }
        ensures asks { (k : Settings) (steps : List Step) → Holds self.old k steps
            → AsksWord (slot_of (step_of read.now.event)) (run k steps) self.old.seat.lines self.new.seat.lines }
        ensures touched { AllTouched self.old.core.conns self.new.core.conns }
        ensures slots { self.new.slots ≡ self.old.slots }
        ensures table { self.new.seat.table ≡ self.old.seat.table }
        ensures tape { self.new.tape ≡ self.old.tape }
        ensures openings { self.new.openings ≡ self.old.openings }
    {
        // Modelled in models/jobs.pml.
        let Some(slot) = slot_of(&read.event) else {
            return Noop::Left;
        };
        if slot >= self.slots {
            return Noop::Left;
        }
        if self.seat.look(table, slot) {
            let _taken = self.core.took(slot);
            return Noop::Taken(slot);
        }
        if self.seat.phase(slot) != Phase::Owed || !self.is_withdrawal(read) {
            return Noop::Left;
        }
        if self.seat.withdraw(table, slot) {
            let _withdrawn = self.core.withdrew(slot);
            Noop::Withdrawn(slot)
        } else {
            let _taken = self.core.took(slot);
            Noop::Taken(slot)
        }
    }

    /// Makes the words of the slots follow the core that were touched since they were last taken, and puts them into
    /// the set.
    fn follow_touched(&mut self, table: &SleepTable, touched: &mut SlotSet)
        requires { self.old.seat.table ≡ table.now }
        ensures follows { FollowsTouched self.old self.new touched.old touched.new }
        ensures within { AreSlots self.old.slots touched.old → AreSlots self.old.slots touched.new }
        ensures tape { self.new.tape ≡ self.old.tape }
        ensures openings { self.new.openings ≡ self.old.openings }
    {
        // Modelled in models/jobs.pml.
        for _at in 0..self.slots {
            let Some(slot) = self.core.take_touched() else {
                return;
            };
            if slot >= self.slots {
                return;
            }
            let phase = self.core.phase(slot);
            sync_word(&mut self.seat, table, slot, phase);
            touched.insert(slot);
        }
    }

    /// Makes the words follow the core after an event, and puts the slots that it touched into the set.
    fn follow(&mut self, table: &SleepTable, event: &Event<'_>, touched: &mut SlotSet)
        requires { self.old.seat.table ≡ table.now }
        ensures follows { FollowsCore (step_of event.now) self.old self.new touched.old touched.new }
        ensures within { AreSlots self.old.slots touched.old → AreSlots self.old.slots touched.new }
        ensures tape { self.new.tape ≡ self.old.tape }
        ensures openings { self.new.openings ≡ self.old.openings }
    {
        // Modelled in models/jobs.pml.
        self.follow_touched(table, touched);
        if let Event::Close { slot } = *event
            && slot < self.slots
        {
            let phase = self.core.phase(slot);
            sync_word(&mut self.seat, table, slot, phase);
            touched.insert(slot);
        }
    }
}
