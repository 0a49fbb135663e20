//! Messages between systemd and a service: which sockets are handed over to it (sd_listen_fds(3)), and that it is
//! ready (sd_notify(3)).

ghost use Rattle.std.specs.Prelude.{◌≤◌};

use libc::getpid;
use libc::net::{
    _SS_SIZE, AF_UNIX, MSG_DONTWAIT, MSG_NOSIGNAL, SOCK_CLOEXEC, SOCK_DGRAM, listen, sendto, socket,
};
use os::FromRawFd;
use std::env::{Env, FillError};
use std::net::TcpListener;
use std::os::fd::{AsRawFd, OwnedFd, RawFd};
use std::{io, str};

/// The number of the first socket that is handed over.
const FIRST_SOCKET: RawFd = 3;

/// Where the name begins in the address of a Unix socket (unix(7)), after its family.
const NAME_AT: usize = 2;

/// Where it ends at the latest.
const NAME_END: usize = 110;

/// The number that a variable of the environment says: 0 if it isn't there, and `None` if it says another text.
fn number_in(rt: &impl Env, name: &str) -> Option<u32> {
    let mut text = [0; 16];
    match rt.var(name, &mut text) {
        Ok(len) => str::from_utf8(&text[..len]).ok()?.parse().ok(),
        Err(FillError::NotPresent) => Some(0),
        Err(FillError::TooLong) => None,
    }
}

/// How many sockets the environment hands to this process (sd_listen_fds(3)): 0 if it speaks to another process, and
/// `None` if it says no number.
pub fn handed_sockets(rt: &impl Env) -> Option<u32> {
    if number_in(rt, "LISTEN_PID") == Some(getpid().unsigned_abs()) {
        number_in(rt, "LISTEN_FDS")
    } else {
        Some(0)
    }
}

/// The error of a call of the system that has just failed.
fn last_error() -> io::Error {
    io::Error::from_raw_os_error(os::errno())
}

/// The first socket that is handed over. It fails unless that is a TCP socket that can listen.
pub fn first_socket() -> io::Result<TcpListener> {
    // A socket that listens goes on listening. The system refuses other files, datagram sockets and connections.
    if listen(FIRST_SOCKET, i32::MAX) < 0 {
        return Err(last_error());
    }
    // Sound, as the socket is open, was handed over for this, and is taken once.
    let listener = unsafe { TcpListener::from_raw_fd(FIRST_SOCKET) };
    // A Unix socket has no such address.
    listener.local_addr()?;
    // The socket may come in non-blocking mode, in which `accept` would never wait.
    listener.set_nonblocking(false)?;
    Ok(listener)
}

/// Where systemd listens.
#[derive(Drop)]
pub(crate) struct Address {
    bytes: [u8; _SS_SIZE],
    len: u32,
    ghost short: { len ≤ 128 },
}

/// Sends a message to the Unix socket at this address, if it takes that at once.
pub(crate) fn send_message(address: &Address, message: &[u8]) -> io::Result<()> {
    // Sound, as it is passed no memory.
    let fd = unsafe { socket(AF_UNIX, SOCK_DGRAM | SOCK_CLOEXEC, 0) };
    if fd < 0 {
        return Err(last_error());
    }
    // Sound, as the socket is new, so that nothing else closes it.
    let socket = unsafe { OwnedFd::from_raw_fd(fd) };
    let flags = MSG_NOSIGNAL | MSG_DONTWAIT;
    // Sound, as the call only reads the message and the address.
    let sent = unsafe {
        sendto(
            socket.as_raw_fd(),
            message,
            flags,
            &address.bytes,
            address.len,
        )
    };
    if sent < 0 {
        return Err(last_error());
    }
    Ok(())
}

/// Where `NOTIFY_SOCKET` says that systemd listens (sd_notify(3)).
pub(crate) fn notify_address(rt: &impl Env) -> io::Result<Option<Address>> {
    let mut bytes = [0; _SS_SIZE];
    bytes[..NAME_AT].copy_from_slice(&(AF_UNIX as u16).to_ne_bytes());
    let len = match rt.var("NOTIFY_SOCKET", &mut bytes[NAME_AT..NAME_END]) {
        Ok(len) => NAME_AT + len,
        Err(FillError::NotPresent) => return Ok(None),
        Err(FillError::TooLong) => return Err(io::Error::from_raw_os_error(libc::ENAMETOOLONG)),
    };
    // An abstract name begins with a 0, which no variable can have.
    if bytes[NAME_AT] == b'@' {
        bytes[NAME_AT] = 0;
    }
    Ok(Some(Address {
        bytes,
        len: len as u32,
    }))
}
