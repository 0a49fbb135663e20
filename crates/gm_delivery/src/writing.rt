//! How bytes are written: once, or to their end.

ghost use Rattle.std.specs.Prelude.{◌≡◌, ◌<◌, length, take, OnOk, IfErr};
ghost use Rattle.std.specs.Io.KnownBytes.{Appends};
ghost use Rattle.std.specs.IoError.{error_kind};
ghost use Rattle.gm_delivery.specs.Messages.{message_of, noop_if, sent_on, Writes, WritesOnce};

use gm_socket::Wire;
use std::io::{Error, ErrorKind, Write};

/// The packet NOOP (the Gearman PROTOCOL document, "NOOP"): the magic of a response, the type 6, and no data.
const NOOP: &[u8] = b"\0RES\0\0\0\x06\0\0\0\0";

/// The outcome of a write, or of a message's writes.
#[derive(Clone, Copy, Debug, PartialEq, Eq)]
pub enum Sent {
    /// The peer took all.
    All,
    /// It takes no more at present, or was sent as much as it is at a time.
    Some,
    /// It can't be sent any more.
    Failed,
}

/// The outcome of a write that failed: one that only came too early can be tried again.
fn sent_on(error: &Error) -> Sent
    ensures { result ≡ sent_on (error_kind error.now) }
{
    // Modelled in models/lane.h.
    match error.kind() {
        ErrorKind::WouldBlock | ErrorKind::TimedOut | ErrorKind::Interrupted => Sent::Some,
        _ => Sent::Failed,
    }
}

/// A NOOP, if one was taken.
pub(crate) fn noop_if(took: bool) -> &'static [u8]
    ensures { result.now ≡ noop_if took }
{
    if took { NOOP } else { &[] }
}

/// Writes the bytes, as many as the writer takes in one write, and says how many these were. If it takes some and
/// not all, it takes no more at present; nor is it asked for any once its time is over.
pub(crate) fn write_once<E, W: Wire<E>>(bytes: &[u8], w: &mut W, by: &E) -> (usize, Sent)
    ensures writes { Writes (W.contents w.old) (W.contents w.new) bytes.now result.0 result.1 }
    ensures once { WritesOnce bytes.now (W.is_over w.new) (W.answers w.old) (W.answers w.new) result.1 }
    ensures socket { W.socket w.new ≡ W.socket w.old }
{
    // Modelled in models/lane.h.
    if bytes.is_empty() {
        return (0, Sent::All);
    }
    if w.is_over() {
        return (0, Sent::Some);
    }
    match w.write_by(by, bytes) {
        Ok(count) if count == bytes.len() => (count, Sent::All),
        Ok(0) => (0, Sent::Failed),
        Ok(count) => (count, Sent::Some),
        Err(error) => (0, sent_on(&error)),
    }
}

/// That a message wasn't written to its end.
#[derive(Clone, Copy, Debug, PartialEq, Eq)]
pub struct WriteFault {
    /// How many of its bytes were.
    pub written: usize,
}

/// Writes all of the bytes, in as many writes as that takes. If one takes none of them, or fails, it says how many
/// bytes were written.
fn write_whole<W: Write>(bytes: &[u8], w: &mut W) -> Result<(), usize>
    ensures ok { OnOk result (Appends (W.contents w.old) (W.contents w.new) bytes.now) }
    ensures short { IfErr result (λ written. written < length bytes.now) }
    ensures err { IfErr result (λ written. Appends (W.contents w.old) (W.contents w.new) (take written bytes.now)) }
{
    let mut written = 0;
    while written < bytes.len() {
        match w.write(&bytes[written..]) {
            Ok(0) | Err(_) => return Err(written),
            Ok(count) => written += count,
        }
    }
    Ok(())
}

/// Writes a message: the drained bytes, and then a NOOP if one was taken. A fault comes if the writer fails or
/// takes no byte, and says how many bytes of the message were written.
pub fn write_turn<W: Write>(took: bool, drained: &[u8], w: &mut W) -> Result<(), WriteFault>
    ensures ok { OnOk result (Appends (W.contents w.old) (W.contents w.new) (message_of took drained.now)) }
    ensures short { IfErr result (λ fault. fault.written < length (message_of took drained.now)) }
    ensures fault { IfErr result (λ fault. Appends (W.contents w.old) (W.contents w.new) (take fault.written (message_of took drained.now))) }
{
    if let Err(written) = write_whole(drained, w) {
        return Err(WriteFault { written });
    }
    match write_whole(noop_if(took), w) {
        Ok(()) => Ok(()),
        Err(more) => Err(WriteFault {
            written: drained.len() + more,
        }),
    }
}
