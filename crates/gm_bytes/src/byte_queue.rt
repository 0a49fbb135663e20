//! Bytes that wait, or are being sent.

ghost use Rattle.std.specs.Prelude.{◌≡◌, ℕ, ◌+◌, ◌<◌, ◌≤◌, not, ◌==◌, List, [], ◌++◌, length, drop, IfOk, OnOk, OnErr};
ghost use Rattle.gm_bytes.specs.Queues.{empty_queue, with_room, with_bytes};

use crate::run::Run;
use crate::shared_bytes::SharedBytes;
use std::alloc::{AllocError, Global};
use std::collections::VecDeque;
use std::marker::Model;
use std::mem;

/// How much of a queue's room shared bytes take, however many they are.
pub const SHARED_ROOM: usize = 512;

/// A queue of bytes. Some of them are copied to it, others are the ends of shared buffers and lie where they are.
/// Contracts see one list, and the room that is reserved for more: a call that puts bytes in reserved room can't fail.
#[derive(Drop)]
pub struct ByteQueue {
    copied: Vec<u8>,
    // How many of the copied bytes came before runs that are gone.
    start: usize,
    runs: VecDeque<Run>,
    // How many copied bytes come after the last run.
    behind: usize,
    // How many bytes were taken from the front: of the first run and the bytes right before it, or of the copied bytes
    // if there is no run.
    passed: usize,
    room: usize,
}

impl Model for ByteQueue {
    ghost use Rattle.std.specs.Prelude.{◌≡◌, ℕ, ◌+◌, ◌/◌, ◌<◌, ◌≤◌, List, All, length, drop, min};
    ghost use Rattle.std.specs.Vec.{vec_len, vec_capacity};
    ghost use Rattle.std.specs.VecDeque.{deque_len, deque_capacity};
    ghost use Rattle.gm_bytes.specs.declared.run.Run.{Run};
    ghost use Rattle.gm_bytes.specs.Queues.{Queued, with_shared, before_last, first_len};

    ghost Value = { Queued };

    ghost view = { λ q. record { bytes = drop q.passed (with_shared q.runs.items (drop q.start q.copied.items)); room = q.room } };

    ghost invariant = { λ q. (q.start + before_last q.runs.items + q.behind ≡ length q.copied.items)
        × All (λ (run : Run). 0 < length run.bytes) q.runs.items
        × (q.passed + min 1 (length q.runs.items) ≤ first_len q.runs.items q.behind)
        × (vec_len q.copied + q.room ≤ vec_capacity q.copied)
        × (deque_len q.runs + q.room / 512 ≤ deque_capacity q.runs) };
}

impl ByteQueue {
    /// Nothing.
    pub fn new(alloc: Global) -> ByteQueue
        ensures { result ≡ empty_queue }
    {
        ByteQueue::from_vec(Vec::new(alloc))
    }

    /// These bytes, without room for more.
    pub fn from_vec(bytes: Vec<u8>) -> ByteQueue
        ensures bytes { result.bytes ≡ bytes.items }
        ensures room { result.room ≡ 0 }
    {
        ByteQueue {
            runs: VecDeque::new(*bytes.allocator()),
            behind: bytes.len(),
            copied: bytes,
            start: 0,
            passed: 0,
            room: 0,
        }
    }

    /// Makes room for `n` bytes beyond those that wait. Two calls don't add up.
    pub fn reserve(&mut self, n: usize) -> Result<(), AllocError>
        ensures ok { OnOk result (self.new ≡ with_room n self.old) }
        ensures err { OnErr result (self.new ≡ self.old) }
        ensures bytes { self.new.bytes ≡ self.old.bytes }
    {
        if n > self.room {
            self.copied.reserve(n)?;
            self.runs.reserve(n / SHARED_ROOM)?;
            self.room = n;
        }
        Ok(())
    }

    /// For how many bytes there is room beyond those that wait.
    pub fn room(&self) -> usize
        ensures { result ≡ self.now.room }
    {
        self.room
    }

    /// The bytes wait after the others, in reserved room.
    pub fn put(&mut self, bytes: &[u8])
        requires { length bytes.now ≤ self.old.room }
        ensures { self.new ≡ with_bytes bytes.now (length bytes.now) self.old }
    {
        self.copied.extend_from_slice(bytes).unwrap();
        self.behind += bytes.len();
        self.room -= bytes.len();
    }

    /// The head and the tail wait after the others, in reserved room: the tail, which is shared, takes `SHARED_ROOM`
    /// of it.
    pub fn put_shared(&mut self, head: &[u8], tail: SharedBytes)
        requires { length head.now + 512 ≤ self.old.room }
        ensures { self.new ≡ with_bytes (head.now ++ tail) (length head.now + 512) self.old }
    {
        self.put(head);
        self.share(tail);
    }

    /// `put_shared`, without a head.
    fn share(&mut self, tail: SharedBytes)
        requires { 512 ≤ self.old.room }
        ensures { self.new ≡ with_bytes tail 512 self.old }
    {
        self.room -= SHARED_ROOM;
        if !tail.as_slice().is_empty() {
            self.runs.push_back_reserved(Run {
                before: self.behind,
                bytes: tail,
            });
            self.behind = 0;
        }
    }

    /// Whether no bytes wait.
    pub fn is_empty(&self) -> bool
        ensures { result ≡ (length self.now.bytes == 0) }
    {
        self.first().is_empty()
    }

    /// The first of the bytes, as many as lie in one place; none, if no bytes wait.
    pub fn first(&self) -> &[u8]
        ensures front { (rest : List ℕ) × (self.now.bytes ≡ result.now ++ rest) }
        ensures some { 0 < length self.now.bytes → 0 < length result.now }
    {
        match self.runs.front() {
            Some(run) if self.passed >= run.before => {
                &run.bytes.as_slice()[self.passed - run.before..]
            }
            Some(run) => &self.copied[self.start + self.passed..self.start + run.before],
            None => &self.copied[self.start + self.passed..],
        }
    }

    /// The first `count` bytes are gone. Shared bytes that are gone are let go.
    pub fn advance(&mut self, count: usize)
        requires { count ≤ length self.old.bytes }
        ensures bytes { self.new.bytes ≡ drop count self.old.bytes }
        ensures room { self.new.room ≡ self.old.room }
    {
        let mut left = count;
        while let Some(run) = self.runs.front() {
            let first_len = run.before + run.bytes.as_slice().len() - self.passed;
            if left < first_len {
                self.passed += left;
                return;
            }
            left -= first_len;
            self.start += run.before;
            self.passed = 0;
            let _gone = self.runs.pop_front();
        }
        self.passed += left;
    }

    /// Takes out the bytes. No room is reserved then.
    pub fn take(&mut self) -> ByteQueue
        ensures taken { result.bytes ≡ self.old.bytes }
        ensures left { self.new ≡ empty_queue }
    {
        let alloc = *self.copied.allocator();
        mem::replace(self, ByteQueue::new(alloc))
    }

    /// A copy of the bytes, in one place.
    pub fn to_vec(&self) -> Result<Vec<u8>, AllocError>
        ensures { IfOk result (λ copy. copy.items ≡ self.now.bytes) }
    {
        let mut copy = Vec::new(*self.copied.allocator());
        let mut from = self.start;
        for at in 0..self.runs.len() {
            let run = &self.runs[at];
            let to = from + run.before;
            copy.extend_from_slice(&self.copied[from..to])?;
            copy.extend_from_slice(run.bytes.as_slice())?;
            from = to;
        }
        copy.extend_from_slice(&self.copied[from..])?;
        copy.rotate_left(self.passed);
        copy.truncate(copy.len() - self.passed);
        Ok(copy)
    }
}
