//! A connection's socket, and its two halves.

ghost use Rattle.std.specs.Prelude.{◌≡◌, [], IfOk};
ghost use Rattle.std.specs.Net.Tcp.{stream_raw_fd};

use crate::source::LoggedSource;
use crate::wire::{KnownWriter, Wire};
use crate::writer::LoggedWriter;
use gm_feeder::{Patience, Source};
use libc::net::{MSG_DONTWAIT, MSG_NOSIGNAL, recv, send};
use std::alloc::{AllocError, Global};
use std::io;
use std::io::Error;
use std::net::{Shutdown, TcpStream};
use std::os::fd::{AsRawFd, RawFd};
use std::sync::Arc;

/// The reading half of a connection's socket.
#[derive(Drop)]
pub struct ReadHalf {
    stream: Arc<TcpStream, Global>,
}

impl ReadHalf {
    /// The socket's number, for the poll that reports when there is something to read.
    pub fn descriptor(&self) -> RawFd
        ensures { result ≡ stream_raw_fd self.now.stream.value }
    {
        self.stream.as_raw_fd()
    }
}

impl Source<Patience> for ReadHalf {
    ghost use Rattle.std.specs.Prelude.{Some, None};
    ghost use Rattle.std.specs.Net.Tcp.{stream_raw_fd};

    // The bytes that a socket gives aren't known.
    ghost remaining = { λ _. None };

    ghost heard = { λ _. None };

    ghost answers = { λ _. None };

    ghost socket = { λ r. Some (stream_raw_fd r.stream.value) };

    /// Reads the next bytes into the room.
    fn read_by(&mut self, by: &Patience, room: &mut [u8]) -> io::Result<usize> {
        let flags = match by {
            Patience::Waits => 0,
            Patience::Hurries => MSG_DONTWAIT,
        };
        // Sound, as the call only writes the room.
        let count = unsafe { recv(self.stream.as_raw_fd(), room, flags) };
        if count < 0 {
            return Err(Error::from_raw_os_error(os::errno()));
        }
        Ok(count as usize)
    }
}

/// A connection's socket, to which bytes are sent.
#[derive(Drop)]
pub struct Socket {
    stream: Arc<TcpStream, Global>,
}

impl Socket {
    /// The socket's number.
    pub fn descriptor(&self) -> RawFd
        ensures { result ≡ stream_raw_fd self.now.stream.value }
    {
        self.stream.as_raw_fd()
    }

    /// Shuts a side of it, or both. An I/O thread's poll reports each time that this is done.
    pub fn shut(&self, how: Shutdown) {
        // If it fails, the peer is gone already.
        let _ = self.stream.shutdown(how);
    }
}

impl KnownWriter for Socket {
    ghost use Rattle.std.specs.Prelude.{false, Some, None};
    ghost use Rattle.std.specs.Net.Tcp.{stream_raw_fd};

    // The bytes that a socket has aren't known.
    ghost contents = { λ _. None };

    ghost answers = { λ _. None };

    ghost socket = { λ w. Some (stream_raw_fd w.stream.value) };

    ghost is_over = { λ _. false };

    fn is_over(&self) -> bool {
        false
    }
}

impl Wire<Patience> for Socket {
    /// Sends bytes, as many as the system takes.
    fn write_by(&mut self, by: &Patience, bytes: &[u8]) -> io::Result<usize> {
        let flags = match by {
            Patience::Waits => MSG_NOSIGNAL,
            Patience::Hurries => MSG_DONTWAIT | MSG_NOSIGNAL,
        };
        // Sound, as the call only reads the bytes.
        let count = unsafe { send(self.stream.as_raw_fd(), bytes, flags) };
        if count < 0 {
            return Err(Error::from_raw_os_error(os::errno()));
        }
        Ok(count as usize)
    }
}

/// The two halves of one connection's socket. Nothing was read or written through them yet.
#[derive(Drop)]
pub struct Halves {
    pub reading: LoggedSource<ReadHalf>,
    pub writing: LoggedWriter<Socket>,
    pub ghost paired: { reading.source.stream.value ≡ writing.writer.stream.value },
    pub ghost unread: { reading.bytes ≡ [] },
    pub ghost unwritten: { (writing.bytes ≡ []) × (writing.answers ≡ []) },
}

impl Halves {
    /// The halves of this socket. An error means that there was no memory for them.
    pub fn new(alloc: Global, stream: TcpStream) -> Result<Halves, AllocError>
        ensures { IfOk result (λ halves. halves.reading.source.stream.value ≡ stream) }
    {
        let reads = Arc::new(alloc, stream)?;
        let writes = Arc::try_clone(&reads)?;
        Ok(Halves {
            reading: LoggedSource::new(alloc, ReadHalf { stream: reads })?,
            writing: LoggedWriter::new(alloc, Socket { stream: writes })?,
        })
    }
}
