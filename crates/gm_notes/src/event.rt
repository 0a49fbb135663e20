//! The events that a server is handed, and its answers.

ghost use Rattle.std.specs.Prelude.{◌≡◌};
ghost use Rattle.gm_notes.specs.declared.event.ApplyError.TheVariants.{Memory};

use gm_bytes::Data;
use std::alloc::{AllocError, AllocFailed};

/// A fault in the bytes of a connection, after which no more of them can be read. The numbers are
/// those that the feeder of a connection uses for the same faults.
#[derive(Clone, Copy, Debug, PartialEq, Eq)]
pub enum UnitFault {
    /// The bytes begin with NUL and aren't the magic of a request.
    BadMagic = 3,
    /// A packet's size is over the limit.
    PacketTooLarge = 4,
    /// A text line has too many bytes before its newline.
    LineTooLong = 5,
}

impl UnitFault {
    ghost use Rattle.gm_notes.specs.Numbers.{unit_fault_number};

    /// The number of this fault.
    pub fn number(self) -> u8
        ensures { result ≡ unit_fault_number self }
    {
        self as u8
    }
}

/// Why a server refuses a step. A refused step changes nothing.
#[derive(Clone, Copy, Debug, PartialEq, Eq)]
pub enum ApplyError {
    /// There was no memory for it.
    Memory = 6,
    /// The slot isn't open, or is shut and takes no further units.
    NotOpen = 10,
    /// Every slot is open.
    NoSlot = 11,
    /// No NOOP is owed to the slot.
    NotOwed = 12,
    /// The server takes no new connections.
    Refusing = 13,
}

impl ApplyError {
    ghost use Rattle.gm_notes.specs.Numbers.{apply_error_number};

    /// The number of this refusal.
    pub fn number(self) -> u8
        ensures { result ≡ apply_error_number self }
    {
        self as u8
    }
}

impl From<AllocError> for ApplyError {
    ghost from_gives = { λ _ e. e ≡ Memory };

    fn from(_e: AllocError) -> ApplyError {
        ApplyError::Memory
    }
}

impl<T: Drop> From<AllocFailed<T>> for ApplyError {
    ghost from_gives = { λ _ e. e ≡ Memory };

    fn from(_e: AllocFailed<T>) -> ApplyError {
        ApplyError::Memory
    }
}

/// An event that a server is handed. A slot is the small number of a connection while it is open.
#[derive(Clone, Copy, Debug)]
pub enum Event<'a> {
    /// A connection is opened, from this address.
    Open {
        addr: &'a [u8],
    },
    /// A packet came: its type and its data, of at most 1,073,741,824 bytes.
    Packet {
        slot: u32,
        kind: u32,
        bytes: Data<'a>,
    },
    /// A text line came, without its newline.
    Line {
        slot: u32,
        bytes: &'a [u8],
    },
    /// No continuation of what came can be read.
    Fault {
        slot: u32,
        fault: UnitFault,
    },
    /// The connection is gone.
    Close {
        slot: u32,
    },
    /// The moment is this one, in seconds, or stays as it is if this one is past.
    Tick {
        now: u64,
    },
}

/// The answer to a step that was taken.
#[derive(Clone, Copy, Debug, PartialEq, Eq)]
pub struct Done {
    /// The slot that an opening was given.
    pub opened: Option<u32>,
    /// The number of the job that a submission made; `None` if it joined one.
    pub created: Option<u64>,
}

impl Done {
    /// The answer if no slot was given and no job was made.
    pub const NONE: Done = Done {
        opened: None,
        created: None,
    };
}
