//! The meaning that gearmand's applications give their packets, as packets that a server reads alike.

ghost use Rattle.std.specs.Prelude.{◌≡◌, ◌≤◌, [], true, Some, length};
ghost use Rattle.gm_packet.specs.Requests.{cut};
ghost use Rattle.std.specs.Io.BufRead.{strip_last};
ghost use Rattle.gm_notes.specs.Servers.{step_of, IsSized};
ghost use Rattle.gm_front.specs.Readings.{result_meant, seconds_meant, limit_meant, ability_meant, option_meant, packet_meant, step_read};

use arrayvec::ArrayVec;
use gm_bytes::Data;
use gm_notes::{Event, is_bad_name};
use gm_packet::{Kind, function_and_limit, read_timeout, stripped};
use itoa::Buffer;

/// The packet type of GRAB_JOB_ALL, which this server has no request for.
pub const GRAB_JOB_ALL: u32 = 39;

/// The most bytes of a job's handle, and one for a name that grows.
const MAX_HANDLE: usize = 64;

/// The most bytes of data that are made: a function's name of 512 bytes, a NUL and 20 digits.
const ROOM: usize = 533;

/// Where the data of a packet are made that is read as another.
pub type Room = ArrayVec<u8, ROOM>;

/// A packet's type and data.
type Parts<'a> = (u32, Data<'a>);

/// A WORK_COMPLETE: one with a handle alone, without NUL, has an empty result.
fn mean_result<'a>(bytes: Data<'a>, room: &'a mut Room) -> Parts<'a>
    requires { room.old.items ≡ [] }
    ensures means { (result.0, result.1.bytes.now) ≡ result_meant bytes.entry.bytes.now }
    ensures size { length bytes.entry.bytes.now ≤ 1073741824 → length result.1.bytes.now ≤ 1073741824 }
{
    let kind = Kind::WorkComplete.number();
    let handle = bytes.as_slice();
    if handle.contains(&0) || handle.len() > MAX_HANDLE {
        return (kind, bytes);
    }
    room.try_extend_from_slice(handle).unwrap();
    room.push(0);
    (kind, Data::lent(room.as_slice()))
}

/// The seconds of a time limit in milliseconds, where less than 1,000 counts as 1,000: rounded up, with one more for
/// the second that the clock is in, so that a job never fails too early.
fn mean_seconds(milliseconds: u32) -> u64
    ensures { result ≡ seconds_meant milliseconds }
{
    (u64::from(milliseconds).max(1_000) + 999) / 1_000 + 1
}

/// A CAN_DO_TIMEOUT of a function with this number of milliseconds. 0 is no limit, as in CAN_DO.
fn mean_limit<'a>(function: &'a [u8], milliseconds: u32, room: &'a mut Room) -> Parts<'a>
    requires { room.old.items ≡ [] }
    ensures means { (result.0, result.1.bytes.now) ≡ limit_meant function.entry.now (Some milliseconds) [] }
    ensures size { length function.entry.now ≤ 1073741824 → length result.1.bytes.now ≤ 1073741824 }
{
    if milliseconds == 0 || is_bad_name(function) {
        return (Kind::CanDo.number(), Data::lent(function));
    }
    let mut buffer = Buffer::new();
    let digits = buffer.format(mean_seconds(milliseconds)).as_bytes();
    room.try_extend_from_slice(function).unwrap();
    room.push(0);
    room.try_extend_from_slice(digits).unwrap();
    (Kind::CanDoTimeout.number(), Data::lent(room.as_slice()))
}

/// A CAN_DO_TIMEOUT, whose time limit is milliseconds. -1 is no limit, as in CAN_DO.
fn mean_ability<'a>(bytes: Data<'a>, room: &'a mut Room) -> Parts<'a>
    requires { room.old.items ≡ [] }
    ensures means { (result.0, result.1.bytes.now) ≡ ability_meant (cut (strip_last 0 bytes.entry.bytes.now)) bytes.entry.bytes.now }
    ensures size { length bytes.entry.bytes.now ≤ 1073741824 → length result.1.bytes.now ≤ 1073741824 }
{
    let kind = Kind::CanDoTimeout.number();
    let Some((function, limit)) = function_and_limit(bytes.as_slice()) else {
        return (kind, bytes);
    };
    if limit == b"-1".as_slice() {
        return (Kind::CanDo.number(), Data::lent(function));
    }
    match read_timeout(limit) {
        Some(milliseconds) => mean_limit(function, milliseconds, room),
        None => (kind, bytes),
    }
}

/// An OPTION_REQ, which names `exceptions` in any case of letters.
fn mean_option(bytes: Data<'_>) -> Parts<'_>
    ensures means { (result.0, result.1.bytes.now) ≡ option_meant bytes.entry.bytes.now }
    ensures size { length bytes.entry.bytes.now ≤ 1073741824 → length result.1.bytes.now ≤ 1073741824 }
{
    let kind = Kind::OptionReq.number();
    let known = b"exceptions".as_slice();
    if stripped(bytes.as_slice()).eq_ignore_ascii_case(known) {
        (kind, Data::lent(known))
    } else {
        (kind, bytes)
    }
}

/// The packet that gearmand's applications mean by one of this type with these data.
fn mean_packet<'a>(kind: u32, bytes: Data<'a>, room: &'a mut Room) -> Parts<'a>
    requires { room.old.items ≡ [] }
    ensures means { (result.0, result.1.bytes.now) ≡ packet_meant kind bytes.entry.bytes.now }
    ensures size { length bytes.entry.bytes.now ≤ 1073741824 → length result.1.bytes.now ≤ 1073741824 }
{
    match kind {
        GRAB_JOB_ALL => (Kind::GrabJobUniq.number(), bytes),
        13 => mean_result(bytes, room),
        23 => mean_ability(bytes, room),
        26 => mean_option(bytes),
        _ => (kind, bytes),
    }
}

/// The event that gearmand's applications mean. Its data may lie in `room`, which is empty before; they are no longer
/// than before, but for one byte of a short packet. It takes no memory.
pub fn mean_event<'a>(event: Event<'a>, room: &'a mut Room) -> Event<'a>
    requires size { IsSized event }
    requires empty { room.old.items ≡ [] }
    ensures reads { step_of result ≡ step_read true (step_of event.entry) }
    ensures size { IsSized result }
{
    match event {
        Event::Packet { slot, kind, bytes } => {
            let (kind, bytes) = mean_packet(kind, bytes, room);
            Event::Packet { slot, kind, bytes }
        }
        other => other,
    }
}
