//! One slot: its reading side and its lane.

ghost use Rattle.std.specs.Prelude.{◌≡◌, [], true, All, IsSomeAnd, IfOk, length, map};
ghost use Rattle.gm_shared.specs.Shared.{numbers_below};
ghost use Rattle.gm_slots.specs.Accounts.{IsAccount};

use crate::account::Account;
use gm_delivery::{Lane, LaneParts};
use gm_feeder::Limits;
use gm_session::{OwnDesk, Talk, TalkParts};
use gm_shared::{Blank, BlankPairing, BookName, Desk, PairSide, Pairing, Pen, Shared};
use std::alloc::{AllocError, Global};
use std::sync::Mutex;

/// One slot: its reading side and its lane.
#[derive(Drop)]
pub struct Slot<K: BookName> {
    /// The session of its connection. The thread that reads from it has it meanwhile.
    pub talk: Mutex<Talk<K>>,
    /// The deliveries to its connection.
    pub lane: Lane<K>,
}

/// The desk and the pen that a slot was given, and the account of its connections.
#[derive(Drop)]
pub(crate) struct SlotParts<K: BookName> {
    pub(crate) desk: OwnDesk<K>,
    pub(crate) pen: Pen<K>,
    pub(crate) account: Account,
}

/// Whether these are the two sides of one slot. They were handed the same sockets then.
fn are_paired<K: BookName>(
    pairing: &mut Pairing<K>,
    reading: Option<PairSide<K>>,
    writing: PairSide<K>,
) -> bool
    ensures { result ≡ true → IsSomeAnd reading (λ reading. reading.passed ≡ writing.passed) }
{
    match reading {
        Some(reading) => pairing.end(reading, writing),
        None => false,
    }
}

impl<K: BookName> Slot<K> {
    /// The desk and the pen that the slot was given, and the account of its connections, which says how many they were
    /// unless the two sides of the slot aren't there.
    pub(crate) fn into_parts(self, pairing: &mut Pairing<K>) -> SlotParts<K>
        ensures { IsAccount K.settings (result.desk.desk.number, result.desk.desk.witness.seen) (result.pen.slot, result.pen.witness.seen, result.pen.seat.takes)
            result.account }
    {
        let Slot { talk, lane } = self;
        let TalkParts {
            desk,
            limits,
            side,
            ledger: heard,
        } = talk.into_inner().into_parts();
        let LaneParts {
            pen,
            ledger: sent,
            openings,
            side: writing,
        } = lane.into_parts();
        let openings = if are_paired(pairing, side, writing) {
            openings
        } else {
            u64::MAX
        };
        let account = Account {
            limits,
            heard,
            sent,
            openings,
        };
        SlotParts { desk, pen, account }
    }
}

/// The slots, in their order.
fn new_slots<K: BookName>(
    alloc: Global,
    desks: Vec<Desk<K>>,
    pens: Vec<Pen<K>>,
    limits: Limits,
    pairing: &mut Pairing<K>,
) -> Result<Vec<Slot<K>>, AllocError>
    requires nothing_seen { All (λ desk. desk.witness.seen ≡ []) desks.items }
    requires nothing_given { All (λ pen. (pen.witness.seen ≡ []) × (pen.seat.takes ≡ 0)) pens.items }
    requires paired { length desks.items ≡ length pens.items }
    ensures { IfOk result (λ slots. map (λ slot. slot.lane.slot) slots.items ≡ map (λ pen. pen.slot) pens.items) }
{
    let mut slots = Vec::with_capacity(alloc, pens.len())?;
    let mut desks_left = desks.into_iter();
    for pen in pens {
        let Some(desk) = desks_left.next() else {
            unreachable!()
        };
        let Some((reading, writing)) = pairing.next_sides() else {
            return Err(AllocError);
        };
        slots.push(Slot {
            talk: Mutex::new(Talk::new(alloc, desk, reading, limits)?),
            lane: Lane::new(alloc, pen, writing)?,
        })?;
    }
    Ok(slots)
}

/// Opens a book, and makes what each of its slots has of its own, in their order. The desk is for what isn't of one
/// slot, and the pairing for each connection that comes.
pub fn open_slots<K: BookName>(
    alloc: Global,
    blank: Blank,
    sockets: BlankPairing,
    limits: Limits,
) -> Result<(Shared<K>, Vec<Slot<K>>, OwnDesk<K>, Pairing<K>), AllocError>
    requires table { blank.table ≡ K.table }
    requires history { blank.history ≡ K.history }
    requires settings { blank.settings ≡ K.settings }
    requires taped { blank.taped ≡ K.taped }
    requires sockets { sockets ≡ K.sockets }
    ensures { IfOk result (λ opened. map (λ slot. slot.lane.slot) opened.1.items ≡ numbers_below K.settings.slots) }
{
    let (shared, desks, pens, control) = Shared::<K>::open(alloc, blank)?;
    let mut pairing = Pairing::new(sockets);
    let slots = new_slots(alloc, desks, pens, limits, &mut pairing)?;
    Ok((shared, slots, OwnDesk::new(control), pairing))
}
