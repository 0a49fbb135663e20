//! Finds what the pending bytes begin with.

ghost use Rattle.std.specs.Prelude.{◌≡◌, ◌↔◌, ◌≤◌, IsTrue, length};
ghost use Rattle.std.specs.Io.BufRead.{strip_last};
ghost use Rattle.gm_feeder.specs.Heads.{filled_header, data_of, text_of, IsScanned, IsHead};
ghost use Rattle.gm_feeder.specs.Units.{BeginsWithNul};

use crate::units::{FeedFault, Limits};
use gm_packet::read_header;
use memchr::memchr;

/// How many bytes come before the data of a packet.
pub(crate) const HEADER_LEN: usize = 12;

/// The header of a packet with type 0 and no data.
const EMPTY_HEADER: [u8; HEADER_LEN] = *b"\0REQ\0\0\0\0\0\0\0\0";

/// The beginning of the pending bytes.
#[derive(Clone, Copy, Debug, PartialEq, Eq)]
pub(crate) enum Head {
    /// A whole packet of this type, with `size` bytes of data.
    Packet { kind: u32, size: u32 },
    /// A whole line, with `len` bytes before its newline.
    Line { len: usize },
    /// No unit, whatever bytes follow.
    Fault(FeedFault),
    /// No unit yet. The first `scanned` bytes hold no newline.
    Incomplete { scanned: usize },
}

// The first twelve bytes. Those that are still to come are taken from the header of an empty packet, so that a fault is
// one of the bytes that came.
fn filled_header(bytes: &[u8]) -> [u8; HEADER_LEN]
    ensures { result ≡ filled_header bytes.now }
{
    // A copy of known length costs less than one whose length is a variable.
    if let Some(header) = bytes.first_chunk::<HEADER_LEN>() {
        return *header;
    }
    let mut header = EMPTY_HEADER;
    header[..bytes.len()].copy_from_slice(bytes);
    header
}

/// Whether they begin with NUL, as a packet does.
pub(crate) fn begins_with_nul(bytes: &[u8]) -> bool
    ensures { IsTrue result ↔ BeginsWithNul bytes.now }
{
    matches!(bytes, [0, ..])
}

/// The head of bytes that begin with NUL.
pub(crate) fn find_packet(bytes: &[u8], limits: Limits) -> Head
    requires { BeginsWithNul bytes.now }
    ensures { IsHead limits bytes.now result }
{
    let Ok(header) = read_header(&filled_header(bytes)) else {
        return Head::Fault(FeedFault::BadMagic);
    };
    if header.size > limits.max_bytes {
        return Head::Fault(FeedFault::PacketTooLarge);
    }
    if bytes.len() < HEADER_LEN + header.size as usize {
        return Head::Incomplete { scanned: 0 };
    }
    Head::Packet {
        kind: header.kind,
        size: header.size,
    }
}

/// The head of bytes that don't begin with NUL. The first `scanned` of them hold no newline, and aren't looked at
/// again.
fn find_line(bytes: &[u8], scanned: usize, limits: Limits) -> Head
    requires text { BeginsWithNul bytes.now → ⊥ }
    requires scanned { IsScanned limits bytes.now scanned }
    ensures { IsHead limits bytes.now result }
{
    let most = limits.max_line as usize;
    // A newline further on ends no line within the limit.
    let end = bytes.len().min(most + 1);
    if let Some(more) = memchr(b'\n', &bytes[scanned..end]) {
        return Head::Line {
            len: scanned + more,
        };
    }
    if end > most {
        return Head::Fault(FeedFault::LineTooLong);
    }
    Head::Incomplete { scanned: end }
}

/// The head of bytes whose first `scanned` hold no newline.
pub(crate) fn find_head(bytes: &[u8], scanned: usize, limits: Limits) -> Head
    requires { IsScanned limits bytes.now scanned }
    ensures { IsHead limits bytes.now result }
{
    if begins_with_nul(bytes) {
        find_packet(bytes, limits)
    } else {
        find_line(bytes, scanned, limits)
    }
}

/// How many bytes of a packet are still to come, if its header is there; 0 if it isn't, or if the packet is too large.
pub(crate) fn missing_of(bytes: &[u8], limits: Limits) -> usize {
    let Some(header) = bytes.first_chunk::<HEADER_LEN>() else {
        return 0;
    };
    match read_header(header) {
        Ok(header) if header.size <= limits.max_bytes => {
            (HEADER_LEN + header.size as usize).saturating_sub(bytes.len())
        }
        _ => 0,
    }
}

/// The data of a whole packet.
pub(crate) fn data_of(packet: &[u8]) -> &[u8]
    requires { 12 ≤ length packet.now }
    ensures { result.now ≡ data_of packet.now }
{
    &packet[HEADER_LEN..]
}

// The bytes without the last one, if that is `byte`.
fn without_last(bytes: &[u8], byte: u8) -> &[u8]
    ensures { result.now ≡ strip_last byte bytes.now }
{
    match bytes {
        [start @ .., last] if *last == byte => start,
        _ => bytes,
    }
}

/// The text of a whole line: its bytes without the newline, and without one `\r` directly before it.
pub(crate) fn text_of(line: &[u8]) -> &[u8]
    ensures { result.now ≡ text_of line.now }
{
    without_last(without_last(line, b'\n'), b'\r')
}
