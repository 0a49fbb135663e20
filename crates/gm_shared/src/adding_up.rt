//! Whether shares add up with a tape.

ghost use Rattle.std.specs.Prelude.{◌≡◌, ◌<◌, ◌≤◌, ◌+◌, ◌^◌, MatchBool, IfOk, IfSome, IfNone, map, length, slice_get, Some, None};
ghost use Rattle.gm_shared.specs.Tapes.{parts_of, share_from, AreCounts, AddUp};
ghost use Rattle.gm_shared.specs.Shared.{told_by};

use crate::tape::{Actor, Answer, Entry, Share, TapeStep, Told};
use std::alloc::{AllocError, Global};

/// A step in parts.
#[derive(Clone, Copy)]
struct Parts<'a> {
    kind: u8,
    slot: u32,
    number: u64,
    bytes: &'a [u8],
}

impl<'a> Parts<'a> {
    fn new(kind: u8, slot: u32, number: u64, bytes: &'a [u8]) -> Parts<'a>
        ensures kind { result.kind ≡ kind }
        ensures slot { result.slot ≡ slot }
        ensures number { result.number ≡ number }
        ensures bytes { result.bytes.now ≡ bytes.now }
    {
        Parts {
            kind,
            slot,
            number,
            bytes,
        }
    }
}

impl TapeStep {
    /// Its parts. Kinds without a slot, a number or bytes have 0, 0 or none.
    fn parts(&self) -> Parts<'_>
        ensures { parts_of self.now ≡ (result.kind, result.slot, result.number, result.bytes.now) }
    {
        match self {
            TapeStep::Open { addr } => Parts::new(0, 0, 0, addr.as_slice()),
            TapeStep::Packet { slot, kind, bytes } => {
                Parts::new(1, *slot, *kind as u64, bytes.as_slice())
            }
            TapeStep::Line { slot, bytes } => Parts::new(2, *slot, 0, bytes.as_slice()),
            TapeStep::Fault { slot, fault } => Parts::new(3, *slot, fault.number() as u64, &[]),
            TapeStep::Close { slot } => Parts::new(4, *slot, 0, &[]),
            TapeStep::Tick { now } => Parts::new(5, 0, *now, &[]),
            TapeStep::Took { slot } => Parts::new(6, *slot, 0, &[]),
            TapeStep::Withdrew { slot } => Parts::new(7, *slot, 0, &[]),
            TapeStep::Drain { slot } => Parts::new(8, *slot, 0, &[]),
        }
    }

    /// Whether both are the same.
    fn is(&self, other: &TapeStep) -> bool
        ensures { MatchBool result (self.now ≡ other.now) (self.now ≡ other.now → ⊥) }
    {
        let (left, right) = (self.parts(), other.parts());
        left.kind == right.kind
            && left.slot == right.slot
            && left.number == right.number
            && left.bytes == right.bytes
    }
}

impl Answer {
    /// Whether both are the same.
    fn is(&self, other: &Answer) -> bool
        ensures { MatchBool result (self.now ≡ other.now) (self.now ≡ other.now → ⊥) }
    {
        match (self, other) {
            (Answer::Done(left), Answer::Done(right)) => left == right,
            (Answer::Drained(left), Answer::Drained(right)) => left.as_slice() == right.as_slice(),
            _ => false,
        }
    }
}

impl Told {
    /// Whether it is this entry, at this place.
    fn tells(&self, at: u64, entry: &Entry) -> bool
        ensures { MatchBool result (self.now ≡ record { at = at; step = entry.now.step; answer = entry.now.answer })
            (self.now ≡ record { at = at; step = entry.now.step; answer = entry.now.answer } → ⊥) }
    {
        self.at == at && self.step.is(&entry.step) && self.answer.is(&entry.answer)
    }
}

/// How many entries the tape has of each actor whose code is less than a number, by its code.
pub(crate) fn count_by_code(
    alloc: Global,
    entries: &[Entry],
    codes: usize,
) -> Result<Vec<usize>, AllocError>
    ensures { IfOk result (λ counts. AreCounts entries.now counts.items) }
{
    let mut counts = vec![in alloc; 0usize; codes]?;
    for at in 0..entries.len() {
        let code = entries[at].actor.code();
        if code < counts.len() {
            counts[code] += 1;
        }
    }
    Ok(counts)
}

// How many entries the tape has of an actor, by one walk.
fn count_of(entries: &[Entry], actor: Actor) -> usize
    ensures { result ≡ length (share_from actor 0 entries.now) }
{
    let mut count = 0;
    for at in 0..entries.len() {
        if actor.is(entries[at].actor) {
            count += 1;
        }
    }
    count
}

// The entry at a place that isn't before another.
fn entry_from(entries: &[Entry], next: u64, at: u64) -> Option<&Entry>
    ensures some { IfSome result (λ entry. (next ≤ at) × (slice_get entries.now at ≡ Some entry.now)) }
    ensures within { IfSome result (λ _. at + 1 < 2 ^ 64) }
    ensures none { IfNone result (next ≤ at → slice_get entries.now at ≡ None) }
{
    if at < next || at >= entries.len() as u64 {
        return None;
    }
    entries.get(at as usize)
}

// Whether a share is what the tape has of its actor. The tape has `count` entries of the actor.
fn share_is(entries: &[Entry], actor: Actor, share: &[Told], count: usize) -> bool
    requires { count ≡ length (share_from actor 0 entries.now) }
    ensures { MatchBool result (share.now ≡ share_from actor 0 entries.now) (share.now ≡ share_from actor 0 entries.now → ⊥) }
{
    if share.len() != count {
        return false;
    }
    let mut rest = share;
    let mut next = 0u64;
    while let Some((told, more)) = rest.split_first() {
        let Some(entry) = entry_from(entries, next, told.at) else {
            return false;
        };
        if !actor.is(entry.actor) || !told.tells(told.at, entry) {
            return false;
        }
        next = told.at + 1;
        rest = more;
    }
    true
}

// How many of these entries are left once a share's own are taken out, if it is what the tape has of its actor.
fn left_by(
    entries: &[Entry],
    counts: &[usize],
    actor: Actor,
    share: &[Told],
    left: usize,
) -> Option<usize>
    requires { AreCounts entries.now counts.now }
    ensures some { IfSome result (λ more. (share.now ≡ share_from actor 0 entries.now) × (length share.now + more ≡ left)) }
    ensures none { IfNone result (share.now ≡ share_from actor 0 entries.now → length share.now ≤ left → ⊥) }
{
    let count = match counts.get(actor.code()) {
        Some(count) => *count,
        None => count_of(entries, actor),
    };
    if !share_is(entries, actor, share, count) || left < share.len() {
        return None;
    }
    Some(left - share.len())
}

/// Whether these shares add up.
pub(crate) fn add_up(entries: &[Entry], counts: &[usize], shares: &[Share]) -> bool
    requires { AreCounts entries.now counts.now }
    ensures { MatchBool result (AddUp entries.now (map told_by shares.now)) (AddUp entries.now (map told_by shares.now) → ⊥) }
{
    let mut left = entries.len();
    for share in shares {
        let Some(more) = left_by(entries, counts, share.actor, share.told.as_slice(), left) else {
            return false;
        };
        left = more;
    }
    left == 0
}
