//! The end of a server: its book is settled, and everybody's share is there.

ghost use Rattle.std.specs.Prelude.{◌≡◌, ◌<◌, ℕ, Bool, List, [], ◌∷◌, IfOk, MatchBool, All, map, length, true};
ghost use Rattle.atomic_table.specs.Seated.{TableId};
ghost use Rattle.gm_notes.specs.Settings.{Settings as BookSettings};
ghost use Rattle.gm_notes.specs.Steps.{Step};
ghost use Rattle.gm_core.specs.Holds.{CoreAgrees};
ghost use Rattle.gm_shared.specs.declared.tape.Entry.{Entry};
ghost use Rattle.gm_shared.specs.Openings.{Counts};
ghost use Rattle.gm_shared.specs.Tapes.{steps_of};
ghost use Rattle.gm_shared.specs.declared.tape.Actor.TheVariants as actors;
ghost use Rattle.gm_shared.specs.Shared.{everybody, numbers_below};
ghost use Rattle.gm_session.specs.Owners.{SaysOwn};
ghost use Rattle.gm_slots.specs.declared.account.Account.{Account};
ghost use Rattle.gm_slots.specs.Accounts.{AreAccounts, AreCounted};
ghost use Rattle.gm_slots.specs.Served.{HasEverybody, AllClosed, IsWhole, SettledSo};

use crate::account::Account;
use crate::served::Served;
use crate::slot::{Slot, SlotParts};
use gm_core::Core;
use gm_feeder::Limits;
use gm_session::OwnDesk;
use gm_shared::{
    Actor, BookName, Desk, Openings, Pairing, Pen, SettleError, Settled, Share, Shared, settle,
};
use std::alloc::{AllocError, Global};

/// All that have a share in a book with this number of slots, in order: the desks, the control desk, the pens.
fn everybody(alloc: Global, slots: u32) -> Result<Vec<Actor>, AllocError>
    ensures { IfOk result (λ actors. actors.items ≡ everybody slots) }
{
    let mut actors = Vec::new(alloc);
    for number in 0..slots {
        actors.push(Actor::Desk(number))?;
    }
    actors.push(Actor::Desk(slots))?;
    for slot in 0..slots {
        actors.push(Actor::Pen(slot))?;
    }
    Ok(actors)
}

/// Whether these are the shares of these actors, in their order.
fn are_of(shares: &[Share], actors: &[Actor]) -> bool
    ensures { MatchBool result (map (λ share. share.actor) shares.now ≡ actors.now) (map (λ share. share.actor) shares.now ≡ actors.now → ⊥) }
{
    let mut rest = actors;
    for share in shares {
        let Some((actor, more)) = rest.split_first() else {
            return false;
        };
        if !share.actor.is(*actor) {
            return false;
        }
        rest = more;
    }
    rest.is_empty()
}

/// The desks and pens that slots were given, and the accounts of their connections.
#[derive(Drop)]
struct AllParts<K: BookName> {
    desks: Vec<Desk<K>>,
    pens: Vec<Pen<K>>,
    accounts: Vec<Account>,
}

/// Takes out of slots what each was given, and adds the control desk to the desks.
fn all_parts<K: BookName>(
    alloc: Global,
    slots: Vec<Slot<K>>,
    control: OwnDesk<K>,
    pairing: &mut Pairing<K>,
) -> Result<AllParts<K>, AllocError>
    ensures own { IfOk result (λ all. All (λ desk. SaysOwn desk.number desk.witness.seen) all.desks.items) }
    ensures accounts { IfOk result (λ all. AreAccounts K.settings (map (λ desk. (desk.number, desk.witness.seen)) all.desks.items)
        (map (λ pen. (pen.slot, pen.witness.seen, pen.seat.takes)) all.pens.items) all.accounts.items) }
    ensures all { IfOk result (λ all. length all.accounts.items ≡ length slots.items) }
{
    let mut desks = Vec::with_capacity(alloc, slots.len())?;
    let mut pens = Vec::with_capacity(alloc, slots.len())?;
    let mut accounts = Vec::with_capacity(alloc, slots.len())?;
    for slot in slots {
        let SlotParts { desk, pen, account } = slot.into_parts(pairing);
        desks.push(desk.into_desk())?;
        pens.push(pen)?;
        accounts.push(account)?;
    }
    desks.push(control.into_desk())?;
    Ok(AllParts {
        desks,
        pens,
        accounts,
    })
}

/// Whether no slot of a book with this many slots is open any more.
fn are_closed(core: &Core, slots: u32) -> bool
    ensures { (k : BookSettings) (steps : List Step) → k.slots ≡ slots → CoreAgrees core.now k steps → MatchBool result (AllClosed k steps) (AllClosed k steps → ⊥) }
{
    let (conns, _, _) = core.parts();
    for slot in 0..slots {
        if conns.is_open(slot) {
            return false;
        }
    }
    true
}

/// Whether these are the same limits.
fn are_same(limits: Limits, others: Limits) -> bool
    ensures { MatchBool result (limits ≡ others) (limits ≡ others → ⊥) }
{
    limits == others
}

/// Whether each account has these limits, and says that its slot was opened as often as this, and that can be told.
fn are_counted(openings: &Openings, accounts: &[Account], slots: u32, limits: Limits) -> bool
    requires { length accounts.now ≡ slots }
    ensures { (log : List Entry) → Counts slots openings.now log → MatchBool result (AreCounted limits log accounts.now) (AreCounted limits log accounts.now → ⊥) }
{
    for slot in 0..slots {
        let Some(account) = accounts.get(slot as usize) else {
            unreachable!()
        };
        if !are_same(account.limits, limits)
            || account.openings == u64::MAX
            || account.openings != openings.of(slot)
        {
            return false;
        }
    }
    true
}

/// A book that is settled, if everybody's share is there, no slot is open, and each account has these limits and all
/// openings of its slot.
fn with_everybody(
    settled: Settled,
    actors: &[Actor],
    slots: u32,
    limits: Limits,
    accounts: &[Account],
) -> Result<Settled, SettleError>
    requires { length accounts.now ≡ slots }
    ensures { (k : BookSettings) (taped : Bool) (history : TableId) → actors.now ≡ everybody k.slots → k.slots ≡ slots
        → CoreAgrees settled.core k (steps_of settled.history.log) → Counts k.slots settled.openings settled.history.log
        → (HasEverybody k settled → AllClosed k (steps_of settled.history.log) → AreCounted limits settled.history.log accounts.now → IsWhole k taped limits history settled accounts.now)
        → SettledSo k taped limits history result accounts.now }
{
    if are_of(settled.shares.as_slice(), actors)
        && are_closed(&settled.core, slots)
        && are_counted(&settled.openings, accounts, slots, limits)
    {
        Ok(settled)
    } else {
        Err(SettleError::Differs(settled))
    }
}

/// Settles the book of a server once no thread has any part of it: what its slots and its control desk were given comes
/// back. A unit was within these limits.
pub fn settle_slots<K: BookName>(
    alloc: Global,
    shared: Shared<K>,
    slots: Vec<Slot<K>>,
    slot_count: u32,
    control: OwnDesk<K>,
    pairing: Pairing<K>,
    limits: Limits,
) -> Result<Served, AllocError>
    requires sized { slot_count ≡ K.settings.slots }
    requires numbered { map (λ slot. slot.lane.slot) slots.items ≡ numbers_below slot_count }
    ensures { IfOk result (λ served. SettledSo K.settings K.taped limits K.history served.book served.accounts.items) }
{
    let mut pairing = pairing;
    let actors = everybody(alloc, slot_count)?;
    let AllParts {
        desks,
        pens,
        accounts,
    } = all_parts(alloc, slots, control, &mut pairing)?;
    let book = match settle(alloc, shared, desks, pens) {
        Ok(settled) => with_everybody(
            settled,
            actors.as_slice(),
            slot_count,
            limits,
            accounts.as_slice(),
        ),
        Err(error) => Err(error),
    };
    Ok(Served { book, accounts })
}
