//! The notes, and the room for more.

ghost use Rattle.std.specs.Prelude.{◌≡◌, ◌+◌, ◌^◌, ◌<◌, ◌≤◌, [], ◌∷◌, reverse, length, OnOk};
ghost use Rattle.gm_plain.specs.Logs.{NoteFits, AllFit, MayCome, AreInOrder, IsPaid, weight, paid, oldest, Spends};

use gm_notes::Note;
use std::alloc::{AllocError, Global};
use std::marker::Model;

/// How many notes to reserve memory for with this one: itself, and the later notes of closings, takings and withdrawals
/// that it makes possible, which must not need memory.
fn weight(note: &Note) -> usize
    ensures value { result ≡ weight note.now }
    ensures small { result ≤ 3 }
{
    match note {
        Note::Opened { .. } | Note::Made { .. } | Note::Assigned { .. } => 2,
        Note::Slept { .. } => 3,
        Note::Closed { .. } | Note::Woken { .. } | Note::Stirred { .. } | Note::Took { .. } => 0,
        Note::Withdrew { .. } | Note::Returned { .. } | Note::Lost { .. } => 0,
        Note::Ended { .. } | Note::Discarded { .. } => 0,
        _ => 1,
    }
}

/// The sum of the notes' weights.
fn paid(notes: &[Note]) -> usize
    requires { paid (reverse notes.now) < 2 ^ 63 }
    ensures { result ≡ paid (reverse notes.now) }
{
    let mut count = 0;
    for note in notes {
        count += weight(note);
    }
    count
}

/// The list of all that has happened, the newest last.
///
/// There is always room for each note that may yet come without memory: one for each open connection, two
/// for each sleeper, one for each NOOP that is owed, one for each waiting or lost job, and two for each that runs at
/// a slot.
#[derive(Drop)]
pub struct Log {
    notes: Vec<Note>,
    slots: u32,
    first: u64,
}

impl Model for Log {
    ghost use Rattle.std.specs.Prelude.{◌≤◌, ◌-◌, reverse, vec_capacity};
    ghost use Rattle.gm_plain.specs.Logs.{Logged, IsPaid, paid};

    ghost Value = { Logged };

    ghost view = { λ l. record {
      notes = reverse l.notes.items;
      slots = l.slots;
      first = l.first;
      free = vec_capacity l.notes - paid (reverse l.notes.items);
    } };

    ghost invariant = { λ l. IsPaid l.slots l.first (reverse l.notes.items) × (paid (reverse l.notes.items) ≤ vec_capacity l.notes) };
}

impl Log {
    /// Nothing has happened yet to any slot; jobs are numbered from `first` on. It takes no memory.
    pub fn new(alloc: Global, slots: u32, first: u64) -> Log
        ensures notes { result.notes ≡ [] }
        ensures slots { result.slots ≡ slots }
        ensures first { result.first ≡ first }
    {
        Log {
            notes: Vec::new(alloc),
            slots,
            first,
        }
    }

    /// How many notes there are.
    pub fn len(&self) -> usize
        ensures value { result ≡ length self.now.notes }
        ensures paid { IsPaid self.now.slots self.now.first self.now.notes }
    {
        self.notes.len()
    }

    /// Takes back all notes but the oldest, as many as there were before.
    pub fn truncate(&mut self, count: usize)
        requires { IsPaid self.old.slots self.old.first (oldest count self.old.notes) }
        ensures notes { self.new.notes ≡ oldest count self.old.notes }
        ensures slots { self.new.slots ≡ self.old.slots }
        ensures first { self.new.first ≡ self.old.first }
    {
        self.notes.truncate(count);
    }

    /// How many slots there are.
    pub fn slots(&self) -> u32
        ensures value { result ≡ self.now.slots }
        ensures fit { AllFit self.now.slots self.now.notes }
    {
        self.slots
    }

    /// The number of the first job.
    pub fn first(&self) -> u64
        ensures value { result ≡ self.now.first }
        ensures in_order { AreInOrder self.now.first self.now.notes }
    {
        self.first
    }

    /// The notes, the newest last.
    pub fn notes(&self) -> &[Note]
        ensures order { reverse result.now ≡ self.now.notes }
        ensures fit { AllFit self.now.slots self.now.notes }
    {
        self.notes.as_slice()
    }

    /// Finds memory for more notes, counted by their weight.
    pub fn make_room(&mut self, count: u32) -> Result<(), AllocError>
        ensures room { OnOk result (count ≤ self.new.free) }
        ensures notes { self.new.notes ≡ self.old.notes }
        ensures slots { self.new.slots ≡ self.old.slots }
        ensures first { self.new.first ≡ self.old.first }
    {
        let whole = paid(self.notes.as_slice()) + count as usize;
        let more = whole.saturating_sub(self.notes.len());
        self.notes.reserve(more)?;
        Ok(())
    }

    /// Adds a note, which may come now, and for which there is room by its weight.
    pub fn note(&mut self, note: Note)
        requires room { weight note ≤ self.old.free }
        requires fits { NoteFits self.old.slots note }
        requires may_come { MayCome self.old.slots self.old.first note self.old.notes }
        ensures notes { self.new.notes ≡ note ∷ self.old.notes }
        ensures room { Spends (weight note) self.old self.new }
    {
        self.notes.push_reserved(note);
    }
}
