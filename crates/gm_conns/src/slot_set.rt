//! Sets of slots.

ghost use Rattle.std.specs.Prelude.{◌≡◌, ℕ, ◌*◌, ◌<◌, ◌≤◌, false, ◌&&◌, ◌||◌, ◌==◌, if◌then◌else◌, not, IsTrue, IfSome, IfNone};
ghost use Rattle.std.specs.Int.{bit_at};
ghost use Rattle.gm_conns.specs.Slots.{has};

use std::marker::Model;

const WORDS: u32 = 16;

/// A set of slots below 1,024, which takes no memory of its own. Contracts see its words: `has` says which slots are in
/// it.
#[derive(Drop)]
pub struct SlotSet {
    words: [u64; 16],
    // A bit for each word. A word whose bit isn't set is 0, so searches pass it over.
    used: u64,
}

impl Model for SlotSet {
    ghost use Rattle.std.specs.Prelude.{◌≡◌, List, ℕ, length, slice_index};
    ghost use Rattle.std.specs.Int.{bit_at};

    ghost Value = { List ℕ };

    ghost view = { λ s. s.words };

    ghost invariant = { λ s. (length s.words ≡ 16) × ((at : ℕ) → bit_at s.used at ≡ 0 → slice_index s.words at ≡ 0) };
}

// The position of the first bit that is set in a word, from a position on.
fn first_bit(word: u64, from: u32) -> Option<u32>
    requires { from < 64 }
    ensures found { IfSome result (λ r. (from ≤ r) × (r < 64) × (bit_at word r ≡ 1) × ((i : ℕ) → from ≤ i → i < r → bit_at word i ≡ 0)) }
    ensures none { IfNone result ((i : ℕ) → from ≤ i → i < 64 → bit_at word i ≡ 0) }
{
    let rest = word & (u64::MAX << from);
    if rest == 0 {
        return None;
    }
    Some(rest.trailing_zeros())
}

impl SlotSet {
    /// The empty set.
    pub fn new() -> SlotSet
        ensures { (i : ℕ) → has result i ≡ false }
    {
        SlotSet {
            words: [0; 16],
            used: 0,
        }
    }

    /// Puts a slot in.
    pub fn insert(&mut self, slot: u32)
        requires { slot < 1024 }
        ensures { (i : ℕ) → has self.new i ≡ ((i == slot) || has self.old i) }
    {
        self.words[slot as usize / 64] |= 1 << (slot % 64);
        self.used |= 1 << (slot / 64);
    }

    /// Takes a slot out.
    pub fn remove(&mut self, slot: u32)
        requires { slot < 1024 }
        ensures { (i : ℕ) → has self.new i ≡ (not (i == slot) && has self.old i) }
    {
        let word = self.words[slot as usize / 64] & !(1 << (slot % 64));
        self.words[slot as usize / 64] = word;
        if word == 0 {
            self.used &= !(1 << (slot / 64));
        }
    }

    /// Puts a slot in or takes it out.
    pub fn set(&mut self, slot: u32, to: bool)
        requires { slot < 1024 }
        ensures { (i : ℕ) → has self.new i ≡ (if i == slot then to else has self.old i) }
    {
        if to {
            self.insert(slot);
        } else {
            self.remove(slot);
        }
    }

    /// Whether a slot is in the set.
    pub fn contains(&self, slot: u32) -> bool
        ensures value { result ≡ has self.now slot }
        ensures within { IsTrue result → slot < 1024 }
    {
        match self.words.get(slot as usize / 64) {
            Some(word) => (*word >> (slot % 64)) % 2 == 1,
            None => false,
        }
    }

    /// The least slot of the set from `from` on.
    pub fn next(&self, from: u32) -> Option<u32>
        ensures found { IfSome result (λ r. (from ≤ r) × (r < 1024) × IsTrue (has self.now r)) }
        ensures least { IfSome result (λ r. (i : ℕ) → from ≤ i → i < r → has self.now i ≡ false) }
        ensures none { IfNone result ((i : ℕ) → from ≤ i → has self.now i ≡ false) }
    {
        self.next_in_both(self, from)
    }

    /// The least slot from `from` on that is in both sets.
    pub(crate) fn next_in_both(&self, other: &SlotSet, from: u32) -> Option<u32>
        ensures found { IfSome result (λ r. (from ≤ r) × (r < 1024) × IsTrue (has self.now r && has other.now r)) }
        ensures least { IfSome result (λ r. (i : ℕ) → from ≤ i → i < r → (has self.now i && has other.now i) ≡ false) }
        ensures none { IfNone result ((i : ℕ) → from ≤ i → (has self.now i && has other.now i) ≡ false) }
    {
        if self.used & other.used == 0 {
            return None;
        }
        let at = from / 64;
        let Some(word) = self.words.get(at as usize) else {
            return None;
        };
        if let Some(bit) = first_bit(*word & other.words[at as usize], from % 64) {
            return Some(at * 64 + bit);
        }
        self.first_in_both(other, at + 1)
    }

    /// The least slot that is in both sets, from the first of a word on.
    fn first_in_both(&self, other: &SlotSet, from: u32) -> Option<u32>
        requires { from ≤ 16 }
        ensures found { IfSome result (λ r. (from * 64 ≤ r) × (r < 1024) × IsTrue (has self.now r && has other.now r)) }
        ensures least { IfSome result (λ r. (i : ℕ) → from * 64 ≤ i → i < r → (has self.now i && has other.now i) ≡ false) }
        ensures none { IfNone result ((i : ℕ) → from * 64 ≤ i → (has self.now i && has other.now i) ≡ false) }
    {
        let used = self.used & other.used;
        let mut at = from;
        while at < WORDS {
            let Some(next) = first_bit(used, at) else {
                return None;
            };
            if next >= WORDS {
                return None;
            }
            let word = self.words[next as usize] & other.words[next as usize];
            if let Some(bit) = first_bit(word, 0) {
                return Some(next * 64 + bit);
            }
            at = next + 1;
        }
        None
    }
}
