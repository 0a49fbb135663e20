//! How a peer that vanished without a word is found out: the system asks it, and ends a connection that doesn't answer.

ghost use Rattle.std.specs.Prelude.{◌≡◌, ◌+◌, ◌*◌, ◌≤◌};
ghost use Rattle.libc.specs.Net.{SockOption};

use libc::net::{
    IPPROTO_TCP, SO_KEEPALIVE, SOL_SOCKET, TCP_KEEPCNT, TCP_KEEPIDLE, TCP_KEEPINTVL,
    TCP_USER_TIMEOUT, setsockopt,
};
use std::net::TcpStream;
use std::os::fd::AsRawFd;

/// How often a silent peer is asked, if the time is long enough for that.
const QUESTIONS: u16 = 6;

/// When a silent peer is asked.
#[derive(Clone, Copy)]
struct Questions {
    /// After how many seconds without a byte.
    idle: u16,
    /// After how many seconds without an answer again.
    interval: u16,
    /// After how many questions without an answer the connection ends.
    count: u16,
}

/// When to ask a silent peer, so that a vanished one is found out after this time: halfway through it, and then
/// after each twelfth of it. Below two seconds it is as with two.
fn questions_for(seconds: u16) -> Questions
    ensures idle { 1 ≤ result.idle }
    ensures interval { 1 ≤ result.interval }
    ensures count { 1 ≤ result.count }
    ensures time { 2 ≤ seconds → result.idle + result.interval * result.count ≡ seconds }
{
    if seconds < 2 * QUESTIONS {
        let seconds = seconds.max(2);
        let count = (seconds - 1).min(QUESTIONS);
        Questions {
            idle: seconds - count,
            interval: 1,
            count,
        }
    } else {
        let interval = seconds / (2 * QUESTIONS);
        Questions {
            idle: seconds - interval * QUESTIONS,
            interval,
            count: QUESTIONS,
        }
    }
}

/// Sets an option of a socket. If the system doesn't, a peer that vanished is found out by what is sent to it.
fn set(stream: &TcpStream, level: i32, name: i32, value: i32)
    requires { SockOption level name }
{
    let mut bytes = [0; 16];
    bytes[..4].copy_from_slice(&value.to_ne_bytes());
    // Sound, as the option's value holds no pointer, and four bytes of it are read.
    let _status = unsafe { setsockopt(stream.as_raw_fd(), level, name, &bytes, 4) };
}

/// Has the system find out after about this time that a peer vanished, whether it was silent or bytes are on their way
/// to it (tcp(7), "SO_KEEPALIVE" and "TCP_USER_TIMEOUT"). 0 leaves the times to the system.
pub(crate) fn set_peer_timeout(stream: &TcpStream, seconds: u16) {
    if seconds > 0 {
        let Questions {
            idle,
            interval,
            count,
        } = questions_for(seconds);
        set(stream, IPPROTO_TCP, TCP_KEEPIDLE, i32::from(idle));
        set(stream, IPPROTO_TCP, TCP_KEEPINTVL, i32::from(interval));
        set(stream, IPPROTO_TCP, TCP_KEEPCNT, i32::from(count));
        let milliseconds = 1000 * i32::from(seconds);
        set(stream, IPPROTO_TCP, TCP_USER_TIMEOUT, milliseconds);
    }
    set(stream, SOL_SOCKET, SO_KEEPALIVE, 1);
}
