//! Facts of connections and of the server, found by searching the notes.

ghost use Rattle.std.specs.Prelude.{◌≡◌, ◌<◌, ◌∷◌, List, true};
ghost use Rattle.gm_notes.specs.declared.note.Note.{Note};
ghost use Rattle.gm_notes.specs.Notes.{is_open, takes_units, moment, mode};
ghost use Rattle.gm_notes.specs.Steps.{free_from};
ghost use Rattle.gm_plain.specs.Searches.{Sees};

use crate::log::Log;
use gm_notes::{Mode, Note, Phase};

/// The facts of a slot, by the notes.
#[derive(Clone, Copy)]
pub struct SlotFacts<'a> {
    /// Whether it is open.
    pub is_open: bool,
    /// Whether it takes no more units, since it was opened.
    pub is_shut: bool,
    /// Where its connection comes from.
    pub addr: &'a [u8],
    /// The id that its connection gave itself.
    pub id: &'a [u8],
    /// Whether its connection wants exceptions.
    pub has_option: bool,
    /// Whether its worker sleeps, or is owed a NOOP.
    pub phase: Phase,
}

/// The facts of a slot before any note mentions it.
const UNSEEN: SlotFacts<'static> = SlotFacts {
    is_open: false,
    is_shut: false,
    addr: b"",
    id: b"",
    has_option: false,
    phase: Phase::Awake,
};

/// Changes the facts of a slot as a note says.
fn see<'a>(facts: &mut SlotFacts<'a>, note: &'a Note, slot: u32)
    ensures { (older : List Note) → Sees slot older facts.old → Sees slot (note.now ∷ older) facts.new }
{
    match note {
        Note::Opened { slot: c, addr } if *c == slot => *facts = SlotFacts {
            is_open: true,
            addr: addr.as_slice(),
            ..UNSEEN
        },
        Note::Closed { slot: c } if *c == slot => {
            facts.is_open = false;
            facts.phase = Phase::Awake;
        }
        Note::Shut { slot: c } if *c == slot => facts.is_shut = true,
        Note::Named { slot: c, id } if *c == slot => facts.id = id.as_slice(),
        Note::OptionSet { slot: c } if *c == slot => facts.has_option = true,
        Note::Slept { slot: c } if *c == slot => facts.phase = Phase::Asleep,
        Note::Woken { slot: c } if *c == slot => facts.phase = Phase::Owed,
        Note::Stirred { slot: c } if *c == slot => facts.phase = Phase::Awake,
        Note::Took { slot: c } if *c == slot => facts.phase = Phase::Awake,
        Note::Withdrew { slot: c } if *c == slot => facts.phase = Phase::Awake,
        _ => {}
    }
}

/// The facts of a slot, by the notes.
pub fn seen(log: &Log, slot: u32) -> SlotFacts<'_>
    ensures value { Sees slot log.now.notes result }
    ensures below { result.is_open ≡ true → slot < log.now.slots }
{
    let notes = log.notes();
    let mut facts = UNSEEN;
    for note in notes {
        see(&mut facts, note, slot);
    }
    facts
}

/// Whether a slot is open.
pub fn is_open(log: &Log, slot: u32) -> bool
    ensures value { result ≡ is_open slot log.now.notes }
    ensures below { result ≡ true → slot < log.now.slots }
{
    seen(log, slot).is_open
}

/// Whether a slot takes units.
pub fn can_take_units(log: &Log, slot: u32) -> bool
    ensures value { result ≡ takes_units slot log.now.notes }
    ensures below { result ≡ true → slot < log.now.slots }
{
    let seen = seen(log, slot);
    seen.is_open && !seen.is_shut
}

/// The moment, in seconds.
pub fn moment(log: &Log) -> u64
    ensures { result ≡ moment log.now.notes }
{
    let notes = log.notes();
    let mut last = 0;
    for note in notes {
        if let Note::Now { moment } = note {
            last = *moment;
        }
    }
    last
}

/// Whether the server goes on.
pub fn mode(log: &Log) -> Mode
    ensures { result ≡ mode log.now.notes }
{
    let notes = log.notes();
    let mut last = Mode::Running;
    for note in notes {
        if let Note::Went { mode } = note {
            last = *mode;
        }
    }
    last
}

/// The least slot that isn't open.
pub fn free_slot(log: &Log) -> Option<u32>
    ensures { result ≡ free_from 0 log.now.slots log.now.notes }
{
    let slots = log.slots();
    for slot in 0..slots {
        if !is_open(log, slot) {
            return Some(slot);
        }
    }
    None
}
