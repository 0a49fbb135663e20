//! Pairs of numbers, the least first.

ghost use Rattle.std.specs.Prelude.{◌≡◌, ℕ, ◌≤◌, ◌+◌, ◌⊎◌, true, [], length, IfSome, IfNone, OnSome, Some};
ghost use Rattle.gm_jobs.specs.MinHeap.{Has, first_of};

use std::alloc::{AllocError, Global};
use std::cmp::Reverse;
use std::collections::BinaryHeap;
use std::marker::Model;

/// Pairs of numbers. A pair with the least first number is found at once. Only `reserve` takes memory.
#[derive(Drop)]
pub(crate) struct MinHeap {
    pairs: BinaryHeap<Reverse<(u64, u64)>>,
}

impl Model for MinHeap {
    ghost use Rattle.std.specs.Prelude.{List};
    ghost use Rattle.std.specs.BinaryHeap.{IsHeap, heap_items};
    ghost use Rattle.gm_jobs.specs.MinHeap.{Pair, later};

    ghost Value = { List Pair };

    ghost view = { λ r. heap_items r.pairs };

    ghost invariant = { λ r. IsHeap later (heap_items r.pairs) };
}

impl MinHeap {
    /// No pairs.
    pub(crate) fn new(alloc: Global) -> MinHeap {
        MinHeap {
            pairs: BinaryHeap::new(alloc),
        }
    }

    /// Makes room for `count` pairs.
    pub(crate) fn reserve(&mut self, count: usize) -> Result<(), AllocError>
        ensures { self.new ≡ self.old }
    {
        self.pairs.reserve(count.saturating_sub(self.pairs.len()))
    }

    /// Whether there is room for a pair more.
    pub(crate) fn has_room(&self) -> bool {
        self.pairs.len() < self.pairs.capacity()
    }

    /// Lets go of all.
    pub(crate) fn clear(&mut self) {
        self.pairs.clear();
    }

    /// The pair, if there is room for it.
    pub(crate) fn put(&mut self, first: u64, second: u64) -> bool
        ensures stands { result ≡ true → Has self.new first second }
        ensures kept { (a b : ℕ) → Has self.old a b → Has self.new a b }
    {
        if !self.has_room() {
            return false;
        }
        match self.pairs.push(Reverse((first, second))) {
            Ok(()) => true,
            Err(_pair) => false,
        }
    }

    /// One of those with the least first number.
    pub(crate) fn first(&self) -> Option<(u64, u64)>
        ensures first { result ≡ first_of self.now }
        ensures least { IfSome result (λ p. (a b : ℕ) → Has self.now a b → p.0 ≤ a) }
        ensures none { IfNone result ((a b : ℕ) → Has self.now a b → ⊥) }
    {
        match self.pairs.peek() {
            Some(pair) => Some(pair.0),
            None => None,
        }
    }

    /// Lets go of the one that is first.
    pub(crate) fn pop(&mut self)
        ensures kept { (a b : ℕ) → Has self.old a b → Has self.new a b ⊎ (first_of self.old ≡ Some (a, b)) }
        ensures fewer { IfSome (first_of self.old) (λ p. length self.new + 1 ≡ length self.old) }
    {
        let _first = self.pairs.pop();
    }
}
