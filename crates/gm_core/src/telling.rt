//! A packet that several connections hear.

ghost use Rattle.std.specs.Prelude.{◌≡◌, ℕ, ◌+◌, ◌≤◌, true, not, List, filter, IsTrue, IfOk, OnOk, length};
ghost use Rattle.gm_packet.specs.Answers.{answer_of, answer_packet};
ghost use Rattle.gm_notes.specs.Settings.{Settings};
ghost use Rattle.gm_actions.specs.Actions.{WorkFits};
ghost use Rattle.gm_conns.specs.ConnTables.{IsOpen, conn};
ghost use Rattle.gm_core.specs.Facts.{ConnFacts};
ghost use Rattle.gm_core.specs.Holds.{HoldsConns};
ghost use Rattle.gm_core.specs.Telling.{hears, poured, needed, Roomed, Poured};
ghost use Rattle.gm_core.specs.Writing.{CanBePut};

use crate::written::Written;
use gm_actions::WorkPacket;
use gm_conns::Conns;
use std::alloc::{AllocError, Global};

/// Whether a slot gets it: it is open, and has the exceptions option if that is needed.
fn can_hear(conns: &Conns, slot: u32, exceptions_only: bool) -> bool
    ensures value { result ≡ hears conns.now exceptions_only slot }
    ensures open { IsTrue result → IsOpen conns.now slot }
{
    conns.is_open(slot) && (!exceptions_only || conns.has_option(slot))
}

/// Those of these slots that don't get packets for connections with the exceptions option.
pub(crate) fn others(alloc: Global, conns: &Conns, slots: &[u32]) -> Result<Vec<u32>, AllocError>
    ensures { IfOk result (λ others. others.items ≡ filter (λ c. not (hears conns.now true c)) slots.now) }
{
    let mut others = Vec::from_slice(alloc, slots)?;
    others.retain(|slot| !can_hear(conns, *slot, true));
    Ok(others)
}

/// Makes room for `count` more bytes at a slot, if it hears.
fn reserve_one(
    conns: &mut Conns,
    slot: u32,
    exceptions_only: bool,
    count: usize,
) -> Result<(), AllocError>
    ensures roomed { Roomed conns.old conns.new }
    ensures room { OnOk result (IsTrue (hears conns.old exceptions_only slot) → (conn conns.old slot).room + count ≤ (conn conns.new slot).room) }
{
    if !can_hear(conns, slot, exceptions_only) {
        return Ok(());
    }
    let room = conns
        .waiting(slot)
        .room()
        .checked_add(count)
        .ok_or(AllocError)?;
    conns.reserve_out(slot, room)
}

/// Makes room for `count` more bytes at each of these slots that hears, once for each time that it is listed.
pub(crate) fn reserve_each(
    conns: &mut Conns,
    slots: &[u32],
    exceptions_only: bool,
    count: usize,
) -> Result<(), AllocError>
    ensures roomed { Roomed conns.old conns.new }
    ensures room { OnOk result ((c : ℕ) → (conn conns.old c).room + needed count c (filter (hears conns.old exceptions_only) slots.now) ≤ (conn conns.new c).room) }
{
    for slot in slots {
        reserve_one(conns, *slot, exceptions_only, count)?;
    }
    Ok(())
}

/// Writes the packet that passes a WORK packet on, and makes room for it at each of these slots, which listen to
/// the job.
pub(crate) fn prepare_each(
    conns: &mut Conns,
    text: &mut Written,
    slots: &[u32],
    packet: &WorkPacket<'_>,
) -> Result<(), AllocError>
    requires fits { WorkFits packet.now }
    ensures roomed { Roomed conns.old conns.new }
    ensures text { OnOk result (text.new.bytes ≡ answer_packet (answer_of packet.now.response)) }
    ensures owned { OnOk result (CanBePut (length slots.now) text.new) }
    ensures room { OnOk result ((c : ℕ) → needed text.new.cost c (filter (hears conns.new packet.now.exceptions_only) slots.now) ≤ (conn conns.new c).room) }
{
    text.write(&packet.response, packet.body.as_ref())?;
    let cost = text.cost();
    text.own(slots.len())?;
    reserve_each(conns, slots, packet.exceptions_only, cost)
}

/// Queues a text to each of these slots that hears, if there is room.
pub(crate) fn put_each(conns: &mut Conns, slots: &[u32], exceptions_only: bool, text: &mut Written)
    requires room { (c : ℕ) → needed text.old.cost c (filter (hears conns.old exceptions_only) slots.now) ≤ (conn conns.old c).room }
    requires owned { CanBePut (length slots.now) text.old }
    ensures poured { Poured text.old.cost (filter (hears conns.old exceptions_only) slots.now) conns.old conns.new }
    ensures holds { (k : Settings) (names : List (List ℕ)) (facts : ConnFacts) (bytes : ℕ → List ℕ) → HoldsConns k conns.old names facts bytes
        → HoldsConns k conns.new names facts (poured text.old.bytes (filter (hears conns.old exceptions_only) slots.now) bytes) }
{
    for slot in slots {
        if can_hear(conns, *slot, exceptions_only) {
            text.put(conns, *slot);
        }
    }
}
