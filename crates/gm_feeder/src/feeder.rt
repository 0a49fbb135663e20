//! The bytes of one connection, cut into units.

ghost use Rattle.std.specs.Prelude.{◌≡◌, ◌+◌, ◌≤◌, List, ℕ, [], Some, None, IfSome, IfNone, IfOk, IfErr, OnOk, OnErr, length, take};
ghost use Rattle.std.specs.Borrow.{sem};
ghost use Rattle.std.specs.Io.BufRead.{Rests};
ghost use Rattle.std.specs.Io.KnownBytes.{Keeps, IsAtEnd};
ghost use Rattle.gm_feeder.specs.contracts.feeder.Feeder.{the_row};
ghost use Rattle.gm_feeder.specs.Answers.{AsksOnce};
ghost use Rattle.gm_feeder.specs.Units.{IsUnitThen, IsFaultOf, Waits, APacket};
ghost use Rattle.gm_feeder.specs.Heads.{IsHead, data_of as spec_data_of};
ghost use Rattle.gm_feeder.specs.Streams.{item_of, item_in, with_bytes, without_first, GivesNext, GivesUnit, TakesIn};

use crate::head::{
    HEADER_LEN, Head, begins_with_nul, data_of, find_head, find_packet, missing_of, text_of,
};
use crate::room::{make_room, read_at};
use crate::source::Source;
use crate::units::{FeedFault, Limits, OwnedPacket, ReadError, Unit};
use std::alloc::Global;
use std::marker::Model;
use std::mem;

/// The most room that is kept when no byte is pending.
const MOST_KEPT: usize = 65_536;

/// Takes the bytes of a connection in pieces of any length, and gives them out as units.
///
/// If no byte is pending it keeps room for at most 65,536: the memory of a large unit goes back when the next is
/// asked for, and there is none.
///
/// A fault that `next_unit` returns stays: from then on `feed` and `next_unit` return it again, and change
/// nothing.
#[derive(Drop)]
pub struct Feeder {
    // The pending bytes, from `start` to `end`, and after them room to read into, which is cleared once.
    buffer: Vec<u8>,
    // The bytes before it were given out. `feed` and `read_from` drop them, and `next_unit` doesn't, so that no byte is
    // moved once for each unit.
    start: usize,
    end: usize,
    // How many of the bytes from `start` on were searched for a newline, so that none is searched twice.
    scanned: usize,
    fault: Option<FeedFault>,
    limits: Limits,
}

impl Model for Feeder {
    ghost use Rattle.std.specs.Prelude.{◌≤◌, IfSome, length, slice_range};
    ghost use Rattle.gm_feeder.specs.Units.{IsFaultOf};
    ghost use Rattle.gm_feeder.specs.Heads.{IsScanned};
    ghost use Rattle.gm_feeder.specs.Streams.{Stream};

    ghost Value = { Stream };

    ghost view = { λ f. record { limits = f.limits; pending = slice_range f.buffer.items f.start f.end; fault = f.fault } };

    ghost invariant = { λ f. (f.start ≤ f.end) × (f.end ≤ length f.buffer.items)
        × IsScanned f.limits (slice_range f.buffer.items f.start f.end) f.scanned
        × IfSome f.fault (λ fault. IsFaultOf f.limits (slice_range f.buffer.items f.start f.end) fault) };
}

impl Feeder {
    /// A feeder of a stream that begins now. It takes no memory until it is fed.
    pub fn new(alloc: Global, limits: Limits) -> Feeder
        ensures limits { result.limits ≡ limits }
        ensures pending { result.pending ≡ [] }
        ensures fault { result.fault ≡ None }
    {
        Feeder {
            buffer: Vec::new(alloc),
            start: 0,
            end: 0,
            scanned: 0,
            fault: None,
            limits,
        }
    }

    /// Takes the next bytes of the stream, at any cut.
    ///
    /// A fault that `next_unit` has returned is returned again. Otherwise `Memory` is returned if there is no memory
    /// for the piece. No error changes anything. The cost is that of the piece, amortized.
    pub fn feed(&mut self, piece: &[u8]) -> Result<(), FeedFault>
        ensures ok { OnOk result (self.new ≡ with_bytes self.old piece.now) }
        ensures err { OnErr result (self.new ≡ self.old) }
        ensures standing { IfSome self.old.fault (λ fault. result ≡ Err fault) }
        ensures memory { IfNone self.old.fault (IfErr result (λ fault. fault ≡ FeedFault.Memory)) }
    {
        if let Some(fault) = self.fault {
            return Err(fault);
        }
        self.move_down();
        self.buffer.truncate(self.end);
        match self.buffer.extend_from_slice(piece) {
            Ok(()) => {
                self.end = self.buffer.len();
                Ok(())
            }
            Err(_) => Err(FeedFault::Memory),
        }
    }

    /// Takes the next bytes of the stream from a source, by one call, and answers how many they are: none at its end.
    /// They are read to where they are pending, without a copy. If the header of a packet is pending, room is made
    /// for the rest of that packet, once.
    ///
    /// A fault that `next_unit` has returned is returned again. Otherwise `Memory` is returned if there is no memory
    /// for the room, and nothing was read. No error changes anything.
    pub fn read_from<E, S: Source<E>>(&mut self, source: &mut S, by: &E) -> Result<usize, ReadError>
        ensures ok { IfOk result (λ count. TakesIn (S.remaining source.old) (S.remaining source.new) (S.heard source.old) (S.heard source.new) self.old self.new count) }
        ensures end { IfOk result (λ count. count ≡ 0 → IsAtEnd (S.remaining source.new)) }
        ensures err { OnErr result (self.new ≡ self.old) }
        ensures none_lost { OnErr result (Keeps (S.remaining source.old) (S.remaining source.new)) }
        ensures none_heard { OnErr result (Keeps (S.heard source.old) (S.heard source.new)) }
        ensures standing { IfSome self.old.fault (λ fault. result ≡ Err (ReadError.Feed fault)) }
        ensures asks { AsksOnce (S.answers source.old) (S.answers source.new) result }
        ensures socket { S.socket source.new ≡ S.socket source.old }
    {
        if let Some(fault) = self.fault {
            return Err(ReadError::Feed(fault));
        }
        let was_filled = self.end == self.buffer.len();
        let missing = missing_of(&self.buffer[self.start..self.end], self.limits);
        self.move_down();
        let Ok(()) = make_room(&mut self.buffer, self.end, missing, was_filled) else {
            return Err(ReadError::Feed(FeedFault::Memory));
        };
        match read_at(source, by, &mut self.buffer, self.end) {
            Ok(count) => {
                self.end += count;
                Ok(count)
            }
            Err(error) => Err(ReadError::Read(error)),
        }
    }

    // Drops the bytes that were given out, if they are at least as many as the rest: each byte that is moved is
    // paid for by one that was given out since the last time.
    fn move_down(&mut self)
        ensures { self.new ≡ self.old }
    {
        let rest = self.end - self.start;
        if self.start >= rest {
            self.buffer.copy_within(self.start..self.end, 0);
            self.start = 0;
            self.end = rest;
        }
    }

    /// The next unit, lent until the next call, or `None` if more bytes are needed.
    ///
    /// `BadMagic` is returned as soon as the bytes begin with NUL and one of the first four differs from the
    /// magic; `PacketTooLarge` as soon as the size, with its missing bytes taken as zero, is above the limit;
    /// `LineTooLong` as soon as the bytes begin with another byte and more of them than the limit hold no
    /// newline. It takes no memory, and never returns `Memory`. Each byte is searched for a newline once.
    pub fn next_unit(&mut self) -> Result<Option<Unit<'_>>, FeedFault>
        ensures unit { IfOk result (λ found. IfSome found (λ unit.
            (after : List ℕ) × IsUnitThen self.old.limits self.old.pending (item_of unit) after)) }
        ensures none { IfOk result (λ found. IfNone found (Waits self.old.limits self.old.pending)) }
        ensures fault { IfErr result (λ fault. IsFaultOf self.old.limits self.old.pending fault) }
        ensures standing { IfSome self.old.fault (λ fault. result ≡ Err fault) }
        ensures* after { sem 𝓛 (Rests the_row self.entry (λ new. GivesNext self.old result new)) }
    {
        if let Some(fault) = self.fault {
            return Err(fault);
        }
        match self.next_head() {
            Head::Incomplete { .. } => {
                self.let_go();
                Ok(None)
            }
            Head::Fault(fault) => {
                self.fault = Some(fault);
                Err(fault)
            }
            Head::Packet { kind, size } => {
                let whole = self.take_first(HEADER_LEN + size as usize);
                let bytes = data_of(whole);
                Ok(Some(Unit::Packet { kind, bytes }))
            }
            Head::Line { len } => {
                let whole = self.take_first(len + 1);
                let bytes = text_of(whole);
                Ok(Some(Unit::Line { bytes }))
            }
        }
    }

    /// The next unit with its memory, if it is a packet with at least `least` bytes of data, and there is memory for
    /// the bytes after it. If not, nothing changes. It is for long packets, whose data can be kept without a copy.
    pub fn take_packet(&mut self, least: usize) -> Option<OwnedPacket>
        ensures packet { IfSome result (λ packet. GivesUnit self.old (item_in packet) self.new) }
        ensures none { IfNone result (self.new ≡ self.old) }
    {
        let pending = &self.buffer[self.start..self.end];
        if self.fault.is_some() || pending.len() < least || !begins_with_nul(pending) {
            return None;
        }
        match find_packet(pending, self.limits) {
            Head::Packet { kind, size } if size as usize >= least => {
                self.take_buffer(kind, size as usize)
            }
            _ => None,
        }
    }

    // Gives out the packet with which the pending bytes begin, with its memory: the bytes after it are copied to
    // memory of their own.
    fn take_buffer(&mut self, kind: u32, size: usize) -> Option<OwnedPacket>
        requires within { 12 + size ≤ length self.old.pending }
        requires running { self.old.fault ≡ None }
        ensures data { IfSome result (λ packet. item_in packet ≡ APacket kind (spec_data_of (take (12 + size) self.old.pending))) }
        ensures rest { IfSome result (λ _. self.new ≡ without_first (12 + size) self.old) }
        ensures none { IfNone result (self.new ≡ self.old) }
    {
        let data_at = self.start + HEADER_LEN;
        let end = data_at + size;
        let rest = &self.buffer[end..self.end];
        let Ok(rest) = Vec::from_slice(*self.buffer.allocator(), rest) else {
            return None;
        };
        let mut bytes = mem::replace(&mut self.buffer, rest);
        bytes.truncate(end);
        self.start = 0;
        self.end = self.buffer.len();
        self.scanned = 0;
        Some(OwnedPacket {
            kind,
            bytes,
            data_at,
        })
    }

    // Gives large memory back if nothing is in it that is still to be given out.
    fn let_go(&mut self)
        ensures { self.new ≡ self.old }
    {
        if self.start == self.end && self.buffer.capacity() > MOST_KEPT {
            self.buffer = Vec::new(*self.buffer.allocator());
            self.start = 0;
            self.end = 0;
        }
    }

    // The head of the pending bytes. If that is no unit yet, it remembers how far it has searched.
    fn next_head(&mut self) -> Head
        ensures head { IsHead self.old.limits self.old.pending result }
        ensures kept { self.new ≡ self.old }
    {
        let pending = &self.buffer[self.start..self.end];
        let head = find_head(pending, self.scanned, self.limits);
        if let Head::Incomplete { scanned } = head {
            self.scanned = scanned;
        }
        head
    }

    // Gives out the first `len` of the pending bytes, and lends them.
    fn take_first(&mut self, len: usize) -> &[u8]
        requires within { len ≤ length self.old.pending }
        requires running { self.old.fault ≡ None }
        ensures bytes { result.now ≡ take len self.old.pending }
        ensures* after { sem 𝓛 (Rests the_row self.entry (λ new. new ≡ without_first len self.old)) }
    {
        let from = self.start;
        self.start += len;
        self.scanned = 0;
        &self.buffer[from..self.start]
    }

    /// The bytes that were fed and not yet given out.
    pub fn pending(&self) -> &[u8]
        ensures { result.now ≡ self.now.pending }
    {
        &self.buffer[self.start..self.end]
    }
}
