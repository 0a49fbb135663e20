//! Guesses at the positions of jobs in a ring.

ghost use Rattle.std.specs.Prelude.{◌≡◌, Some, IfSome, slice_get};

use std::alloc::{AllocError, Global};
use std::collections::VecDeque;

// Two guesses that share a slot of the table, to keep them in one allocation.
#[derive(Clone, Copy, Drop)]
struct Link {
    // The position of the job that was added last, of those whose numbers lead here.
    newest: u32,
    // For the entry whose position leads here: the position of the job added before it, of those whose
    // numbers lead where its number does.
    older: u32,
}

/// Where jobs may be in a ring of waiting jobs: a hash table whose chains go from the newest job to the oldest.
///
/// An entry's position is the count of the entries that were added before it. A position that left the ring at its
/// front stays in the chains, and ends each search that comes to it, since all that follow it are older. So nothing is
/// ever taken out, and no call but `with_room` takes memory. A guess is compared with the ring: a wrong one costs time,
/// and nothing else.
#[derive(Drop)]
pub(crate) struct Guesses {
    links: Vec<Link>,
    // The position of the ring's first entry, and that of the next one to be added. They wrap around to 0.
    first: u32,
    next: u32,
}

// Spreads numbers over the whole range, eight consecutive ones side by side: they fill a line of the cache, and
// jobs mostly come and go in the order of their numbers.
fn spread(job: u64) -> usize {
    let block = (job / 8).wrapping_mul(0x9E37_79B9_7F4A_7C15) >> 32;
    block.wrapping_mul(8).wrapping_add(job % 8) as usize
}

impl Guesses {
    /// No guesses, and no room for any.
    pub(crate) fn new(alloc: Global) -> Guesses {
        Guesses {
            links: Vec::new(alloc),
            first: 0,
            next: 0,
        }
    }

    /// No guesses, with room for those of a ring of at most `room` entries.
    pub(crate) fn with_room(alloc: Global, room: usize) -> Result<Guesses, AllocError> {
        let link = Link {
            newest: u32::MAX,
            older: u32::MAX,
        };
        Ok(Guesses {
            links: Vec::from_elem(alloc, link, room)?,
            first: 0,
            next: 0,
        })
    }

    /// The ring takes this job as its last entry.
    pub(crate) fn add(&mut self, job: u64) {
        let room = self.links.len();
        if room == 0 {
            return;
        }
        let bucket = spread(job) % room;
        let at = self.next as usize % room;
        self.links[at].older = self.links[bucket].newest;
        self.links[bucket].newest = self.next;
        self.next = self.next.wrapping_add(1);
    }

    /// The ring's first entry leaves.
    pub(crate) fn pass(&mut self) {
        self.first = self.first.wrapping_add(1);
    }

    /// The ring has these entries now.
    pub(crate) fn learn(&mut self, entries: &VecDeque<Option<u64>>) {
        self.first = self.next;
        for entry in entries.iter() {
            if let Some(job) = entry {
                self.add(*job);
            }
        }
    }

    /// An index at which the job is in the ring, if the guesses lead to one.
    pub(crate) fn find(&self, entries: &VecDeque<Option<u64>>, job: u64) -> Option<usize>
        ensures { IfSome result (λ i. slice_get entries.now.items i ≡ Some (Some job)) }
    {
        let room = self.links.len();
        if room == 0 {
            return None;
        }
        let mut position = self.links[spread(job) % room].newest;
        for _ in 0..entries.len() {
            let index = position.wrapping_sub(self.first) as usize;
            let entry = entries.get(index)?;
            if *entry == Some(job) {
                return Some(index);
            }
            position = self.links[position as usize % room].older;
        }
        None
    }
}
