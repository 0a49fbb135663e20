//! Room to read into.

ghost use Rattle.std.specs.Prelude.{◌≡◌, ℕ, ◌+◌, ◌<◌, ◌≤◌, IfOk, OnOk, OnErr, take, drop, vec_len};
ghost use Rattle.std.specs.Io.KnownBytes.{Consumes, Keeps, Appends, IsAtEnd};
ghost use Rattle.gm_feeder.specs.Answers.{Answered, answer_of};

use crate::source::Source;
use std::alloc::AllocError;
use std::io;

/// The least room for a read.
const LEAST_ROOM: usize = 1_024;

/// The room for the first read, which doubles whenever a read has filled it.
const FIRST_PIECE: usize = 2_048;

/// The most room that is made if it isn't known how many bytes are missing.
const PIECE: usize = 16_384;

/// The least room for a packet whose header announces more than came.
const ANNOUNCED_PIECE: usize = 65_536;

/// The least memory for such a packet. What isn't read into yet isn't touched, and a packet that is no longer isn't
/// moved while it comes.
const RESERVED_PIECE: usize = 131_072;

/// The most bytes that are cleared at a time: what was cleared last is still near when it is read into.
const LONG_PIECE: usize = 262_144;

/// How much room the next read gets after the first `end` bytes, if there is this much.
///
/// Room for a packet that is only announced follows the bytes that came: as much again, at least a piece. So a header
/// alone takes no memory for the packet.
fn room_for_read(end: usize, missing: usize, room: usize) -> usize
    ensures some { 0 < result }
    ensures more { room ≤ result }
{
    let next = missing.min(end.clamp(ANNOUNCED_PIECE, LONG_PIECE));
    if next > 0 && end >= ANNOUNCED_PIECE {
        next.max(room)
    } else if room < next.max(LEAST_ROOM) {
        next.max(FIRST_PIECE)
    } else {
        room
    }
}

/// Makes room after the first `end` bytes. The rest of a packet gets no more of it than it misses. The memory
/// doubles at least whenever it grows for a long packet, so that each of its bytes is copied a bounded number of times.
pub(crate) fn make_room(
    buffer: &mut Vec<u8>,
    end: usize,
    missing: usize,
    was_filled: bool,
) -> Result<(), AllocError>
    requires { end ≤ vec_len buffer.old }
    ensures kept { take end buffer.new.items ≡ take end buffer.old.items }
    ensures within { end ≤ vec_len buffer.new }
    ensures room { OnOk result (end < vec_len buffer.new) }
{
    let room = buffer.len() - end;
    let wanted = room_for_read(end, missing, room);
    let mut more = wanted - room;
    if buffer.capacity() - end < wanted {
        let next = missing.min(end.max(RESERVED_PIECE));
        buffer.reserve_exact(next.saturating_sub(room))?;
    }
    if more == 0 && was_filled && buffer.len() < PIECE {
        more = buffer.len();
    }
    let len = buffer.len().checked_add(more).ok_or(AllocError)?;
    buffer.resize(len, 0)
}

/// Reads after the first `at` bytes, by one call.
pub(crate) fn read_at<E, S: Source<E>>(
    source: &mut S,
    by: &E,
    buffer: &mut Vec<u8>,
    at: usize,
) -> io::Result<usize>
    requires { at < vec_len buffer.old }
    ensures kept { take at buffer.new.items ≡ take at buffer.old.items }
    ensures len { vec_len buffer.new ≡ vec_len buffer.old }
    ensures within { IfOk result (λ count. at + count ≤ vec_len buffer.new) }
    ensures ok { IfOk result (λ count. Consumes (S.remaining source.old) (S.remaining source.new) (take count (drop at buffer.new.items))) }
    ensures heard { IfOk result (λ count. Appends (S.heard source.old) (S.heard source.new) (take count (drop at buffer.new.items))) }
    ensures end { IfOk result (λ count. count ≡ 0 → IsAtEnd (S.remaining source.new)) }
    ensures err { OnErr result (Keeps (S.remaining source.old) (S.remaining source.new)) }
    ensures unheard { OnErr result (Keeps (S.heard source.old) (S.heard source.new)) }
    ensures answered { (size : ℕ) × (0 < size) × Answered (S.answers source.old) (S.answers source.new) (answer_of result size) }
    ensures socket { S.socket source.new ≡ S.socket source.old }
{
    source.read_by(by, &mut buffer[at..])
}
