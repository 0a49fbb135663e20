//! The units that a feeder gives out, their limits, and the faults of a stream.

ghost use Rattle.std.specs.Prelude.{◌≡◌, ◌≤◌, length};

use std::io;

/// How large a unit may be.
///
/// The ghost field bounds `max_bytes` by a gigabyte: the code that makes the limits shows that, once.
#[derive(Clone, Copy, Debug, PartialEq, Eq)]
pub struct Limits {
    /// The most bytes of data that a packet may have, at most 1,073,741,824. Its header isn't counted.
    pub max_bytes: u32,
    /// The most bytes that a text line may have before its newline. A `\r` is counted too.
    pub max_line: u32,
    pub ghost bounded: { max_bytes ≤ 1073741824 },
}

/// Why a feeder refuses. The numbers are those of the server's refusals.
#[derive(Clone, Copy, Debug, PartialEq, Eq)]
pub enum FeedFault {
    /// The bytes begin with NUL, and one of the first four differs from the magic of a request, `\0REQ`.
    BadMagic = 3,
    /// The size of a packet is above `Limits::max_bytes`, whatever of its four bytes is still to come.
    PacketTooLarge = 4,
    /// The bytes begin with another byte than NUL, and more than `Limits::max_line` of them hold no newline.
    LineTooLong = 5,
    /// There was no memory for the piece.
    Memory = 6,
}

impl FeedFault {
    ghost use Rattle.gm_feeder.specs.Units.{fault_number};

    /// The number of the fault.
    pub fn number(self) -> u8
        ensures { result ≡ fault_number self }
    {
        self as u8
    }
}

/// Why a feeder read nothing.
#[derive(Debug, Drop)]
pub enum ReadError {
    /// The feeder refused.
    Feed(FeedFault),
    /// The reader failed.
    Read(io::Error),
}

/// A unit, lent out of the feeder until its next call.
#[derive(Clone, Copy, Debug, PartialEq, Eq)]
pub enum Unit<'a> {
    /// A request packet: its type, and its data, which are the bytes after the header.
    Packet { kind: u32, bytes: &'a [u8] },
    /// A text line: its bytes without the newline, and without one `\r` directly before it.
    Line { bytes: &'a [u8] },
}

/// A packet with the memory in which it came, for a caller that keeps its data without a copy.
#[derive(Drop)]
pub struct OwnedPacket {
    /// The packet type.
    pub kind: u32,
    /// Bytes that end with its data.
    pub bytes: Vec<u8>,
    /// The position in them at which its data begin.
    pub data_at: usize,
    pub ghost within: { data_at ≤ length bytes.items },
}
