//! The ends of polling threads that all threads share: they register connections, mark slots and wake threads.

ghost use Rattle.std.specs.Prelude.{◌≡◌, ◌+◌, ◌*◌, ◌<◌, ◌≤◌, All, IfOk, length, max};
ghost use Rattle.std.specs.Int.{div_ceil};
ghost use Rattle.gm_poll.specs.Pollers.{AreNew};
ghost use Rattle.gm_poll.specs.Watching.{watched};

use crate::poller::{MARKS, Marks, Poller};
use mio::unix::SourceFd;
use mio::{Interest, Poll, Registry, Token, Waker};
use std::alloc::Global;
use std::io;
use std::io::{Error, ErrorKind};
use std::net::Net;
use std::os::fd::RawFd;
use std::sync::atomic::{AtomicU64, Ordering};

/// The token of a thread's waker. No slot has this number.
const WAKER: Token = Token(usize::MAX);

/// The events that a connection is watched for: bytes come, it takes bytes again, or urgent data come, since these end
/// a read, so that the bytes after them have to be reported again.
fn interests() -> Interest
    ensures { result ≡ watched }
{
    Interest::READABLE | Interest::WRITABLE | Interest::PRIORITY
}

/// Has a descriptor watched for these, as the slot's. It says as what and what for.
fn watch(
    registry: &Registry,
    slot: u32,
    fd: RawFd,
    interests: Interest,
) -> io::Result<(Token, Interest)>
    ensures { IfOk result (λ watch. (watch.0.0 ≡ slot) × (watch.1 ≡ interests)) }
{
    let token = Token(slot as usize);
    registry.register(&mut SourceFd(&fd), token, interests)?;
    Ok((token, interests))
}

/// Which of this many threads serves a slot, and at which of its positions.
fn thread_and_position(slot: u32, count: usize) -> (usize, usize)
    ensures thread { result.0 < max count 1 }
    ensures slot { slot ≡ result.0 + result.1 * max count 1 }
{
    let count = count.max(1);
    (slot as usize % count, slot as usize / count)
}

/// Where others leave word for a thread.
#[derive(Drop)]
struct Mailbox {
    registry: Registry,
    waker: Waker,
    /// Which of its slots it is to look at, a bit for each.
    marks: Vec<AtomicU64>,
}

impl Mailbox {
    fn new(alloc: Global, poll: &Poll, slots: usize) -> io::Result<Mailbox>
        ensures { IfOk result (λ mailbox. slots ≤ length mailbox.marks.items * 64) }
    {
        let mut marks = Vec::new(alloc);
        for _ in 0..slots.div_ceil(MARKS) {
            marks.push(AtomicU64::new(0))?;
        }
        Ok(Mailbox {
            registry: poll.registry().try_clone()?,
            waker: Waker::new(poll.registry(), WAKER)?,
            marks,
        })
    }

    /// Wakes the thread.
    fn wake(&self) {
        // If it fails, the thread looks within a second.
        let _ = self.waker.wake();
    }
}

/// Wakes threads that wait for many connections, and has connections reported to them.
#[derive(Drop)]
pub struct Hub {
    mailboxes: Vec<Mailbox>,
}

impl Hub {
    /// A hub of this many threads for this many slots, and what each of them waits at. An error says which call of the
    /// system's failed, or that there was no memory.
    pub fn new(
        rt: &impl Net,
        alloc: Global,
        count: u32,
        slots: u32,
    ) -> io::Result<(Hub, Vec<Poller>)>
        ensures mailboxes { IfOk result (λ both. length both.0.mailboxes.items ≡ count) }
        ensures marks { IfOk result (λ both. All (λ mailbox. div_ceil slots count ≤ length mailbox.marks.items * 64) both.0.mailboxes.items) }
        ensures pollers { IfOk result (λ both. AreNew count slots both.1.items) }
    {
        let mut mailboxes = Vec::new(alloc);
        let mut pollers = Vec::new(alloc);
        for thread in 0..count {
            let poll = Poll::new(rt)?;
            mailboxes.push(Mailbox::new(alloc, &poll, slots.div_ceil(count) as usize)?)?;
            pollers.push(Poller::new(alloc, poll, thread, count, slots)?)?;
        }
        Ok((Hub { mailboxes }, pollers))
    }

    /// Has events of this descriptor reported to the slot's thread until it is closed: bytes come, or it takes bytes
    /// again. It answers the token and the events for which the descriptor is watched. An error is epoll_ctl(2)'s, or
    /// `NotFound` if there is no thread.
    pub fn register(&self, slot: u32, fd: RawFd) -> io::Result<(Token, Interest)>
        ensures { IfOk result (λ watch. (watch.0.0 ≡ slot) × (watch.1 ≡ watched)) }
    {
        // Modelled in models/polling.pml.
        let interests = interests();
        let (thread, _) = thread_and_position(slot, self.mailboxes.len());
        match self.mailboxes.get(thread) {
            Some(mailbox) => watch(&mailbox.registry, slot, fd, interests),
            None => Err(Error::from(ErrorKind::NotFound)),
        }
    }

    /// Has the slot's thread look at it.
    pub fn wake(&self, slot: u32) {
        // Modelled in models/polling.pml.
        let (thread, position) = thread_and_position(slot, self.mailboxes.len());
        let Some(mailbox) = self.mailboxes.get(thread) else {
            return;
        };
        if let Some(word) = mailbox.marks.get(position / MARKS) {
            // If it is set already, the thread that set it woke this one.
            let bit = 1 << (position % MARKS);
            if word.fetch_or(bit, Ordering::SeqCst) & bit == 0 {
                mailbox.wake();
            }
        }
    }

    /// Has each thread look at all its slots.
    pub fn wake_all(&self) {
        for mailbox in &self.mailboxes {
            for word in &mailbox.marks {
                word.store(u64::MAX, Ordering::SeqCst);
            }
            mailbox.wake();
        }
    }

    /// Takes the marks of 64 of a thread's slots, from this position of its on.
    pub(crate) fn take_marks(&self, thread: u32, first: usize) -> Marks
        ensures { result.first ≡ first }
    {
        // Modelled in models/polling.pml.
        let Some(mailbox) = self.mailboxes.get(thread as usize) else {
            return Marks::none(first);
        };
        match mailbox.marks.get(first / MARKS) {
            Some(word) => Marks::take(word, first),
            None => Marks::none(first),
        }
    }
}
