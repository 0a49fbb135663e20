//! A message, which is sent in several writes if its peer is slow.

ghost use Rattle.std.specs.Prelude.{◌≡◌, ◌<◌, ◌≤◌, ◌==◌, ℕ, List, [], ◌++◌, length};

use crate::writing::{Sent, noop_if, write_once};
use gm_bytes::ByteQueue;
use gm_socket::Wire;

/// The most bytes that are handed to the socket in one write: so long a write may wait while its peer reads slowly.
const MOST_WRITTEN: usize = 262_144;

/// The most writes of a message in a row, before that of its NOOP, so that the sending thread sees in between whether
/// the connection is to end.
const MOST_WRITES: u32 = 8;

/// The bytes being sent: those that were drained, and then a NOOP if one was taken.
#[derive(Drop)]
pub struct Message {
    /// The bytes that aren't sent yet.
    bytes: ByteQueue,
    /// Whether a NOOP was taken, which is sent after them.
    took: bool,
    /// How many bytes of the NOOP are sent.
    noop_sent: usize,
    ghost within: { noop_sent ≤ 12 },
}

impl Message {
    ghost use Rattle.gm_delivery.specs.Messages.{message_of, noop_left, unsent, SendsPrefix, WritesOnce, IsReason};

    /// These bytes, and a NOOP if one was taken.
    pub fn new(bytes: ByteQueue, took: bool) -> Message
        ensures { unsent result ≡ message_of took bytes.bytes }
    {
        Message {
            bytes,
            took,
            noop_sent: 0,
        }
    }

    /// Whether all of it is sent.
    pub(crate) fn is_empty(&self) -> bool
        ensures { result ≡ (length (unsent self.now) == 0) }
    {
        self.bytes.is_empty() && self.noop().is_empty()
    }

    /// The part of the NOOP that isn't sent yet.
    fn noop(&self) -> &[u8]
        ensures { result.now ≡ noop_left self.now }
    {
        let noop = noop_if(self.took);
        &noop[self.noop_sent.min(noop.len())..]
    }

    /// The next bytes to write: those that lie in one place, and no more than one write may take.
    fn next_chunk(&self) -> &[u8]
        ensures first { (rest : List ℕ) × (self.now.bytes.bytes ≡ result.now ++ rest) }
        ensures some { 0 < length self.now.bytes.bytes → 0 < length result.now }
    {
        let first = self.bytes.first();
        &first[..first.len().min(MOST_WRITTEN)]
    }

    /// Sends the rest, the bytes in as many writes as it takes, and then the NOOP. After `MOST_WRITES` the rest waits.
    pub fn send<E, W: Wire<E>>(&mut self, w: &mut W, by: &E) -> Sent
        ensures sends { SendsPrefix result (W.contents w.old) (W.contents w.new) (unsent self.old) (unsent self.new) }
        ensures reason { IsReason result (W.is_over w.new) (W.answers w.old) (W.answers w.new) }
        ensures socket { W.socket w.new ≡ W.socket w.old }
    {
        // Modelled in models/lane.h.
        let mut writes_left = MOST_WRITES;
        loop {
            let chunk = self.next_chunk();
            if chunk.is_empty() {
                return self.send_noop(w, by);
            }
            if writes_left == 0 {
                return Sent::Some;
            }
            writes_left -= 1;
            let (count, sent) = write_once(chunk, w, by);
            self.bytes.advance(count);
            match sent {
                Sent::All => {}
                Sent::Some => return Sent::Some,
                Sent::Failed => return Sent::Failed,
            }
        }
    }

    /// Sends the rest of the NOOP, if all of the bytes are.
    fn send_noop<E, W: Wire<E>>(&mut self, w: &mut W, by: &E) -> Sent
        requires { self.old.bytes.bytes ≡ [] }
        ensures sends { SendsPrefix result (W.contents w.old) (W.contents w.new) (unsent self.old) (unsent self.new) }
        ensures once { WritesOnce (noop_left self.old) (W.is_over w.new) (W.answers w.old) (W.answers w.new) result }
        ensures socket { W.socket w.new ≡ W.socket w.old }
    {
        // Modelled in models/lane.h.
        let (count, sent) = write_once(self.noop(), w, by);
        self.noop_sent += count;
        sent
    }
}
