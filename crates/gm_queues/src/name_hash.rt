//! How the names of functions are hashed.

ghost use Rattle.std.specs.Prelude.{◌≡◌};
ghost use Rattle.gm_queues.specs.NameHashes.{with_byte};

use std::hash::{BuildHasher, DefaultHasher, Hasher, RandomState};

/// The least full tail: a one, and then seven bytes.
const FULL: u64 = 0x0100_0000_0000_0000;

/// Hashes the names of functions. They are untrusted input, so it does so with a seed. A name's bytes come one by one,
/// and go to the seed's own hash seven at a time, which costs a third of a write for each.
#[derive(Clone, Copy)]
pub(crate) struct NameHash {
    seed: RandomState,
}

impl NameHash {
    /// With this seed.
    pub(crate) fn new(seed: RandomState) -> NameHash
        ensures { result.seed ≡ seed }
    {
        NameHash { seed }
    }
}

/// The hash of the bytes so far.
#[derive(Clone, Copy)]
pub(crate) struct NameHasher {
    words: DefaultHasher,
    /// A one, and after it the bytes that the words lack.
    tail: u64,
}

impl NameHasher {
    fn add(&mut self, byte: u8)
        ensures { self.new ≡ with_byte self.old byte }
    {
        let tail = self.tail << 8 | byte as u64;
        if tail < FULL {
            self.tail = tail;
        } else {
            self.words.write_u64(tail);
            self.tail = 1;
        }
    }
}

impl BuildHasher for NameHash {
    type Hasher = NameHasher;

    ghost use Rattle.gm_queues.specs.NameHashes.{new_hasher};

    ghost build_hasher = { λ h. new_hasher h.seed };

    fn build_hasher(&self) -> NameHasher {
        NameHasher {
            words: self.seed.build_hasher(),
            tail: 1,
        }
    }
}

impl Hasher for NameHasher {
    ghost use Rattle.gm_queues.specs.NameHashes.{with_bytes, hash_of};

    ghost write = { with_bytes };

    ghost finish = { hash_of };

    fn finish(&self) -> u64 {
        let mut words = self.words;
        words.write_u64(self.tail);
        words.finish()
    }

    fn write(&mut self, bytes: &[u8]) {
        if bytes.len() == 1 {
            self.add(bytes[0]);
        } else {
            self.words.write(bytes);
        }
    }

    fn write_u8(&mut self, i: u8) {
        self.add(i);
    }
}
