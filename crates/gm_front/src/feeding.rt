//! A connection's bytes on their way to the server.

ghost use Rattle.std.specs.Prelude.{◌≡◌, true, IfOk, IfErr, OnErr};
ghost use Rattle.gm_notes.specs.Servers.{step_of, IsSized};
ghost use Rattle.gm_front.specs.Inputs.{handed_in};
ghost use Rattle.gm_front.specs.Readings.{step_read};
ghost use Rattle.gm_front.specs.Feeding.{AgreesAfter, Lacks, Unloads, CutsShort, TakesPiece};
ghost use Rattle.gm_feeder.specs.Streams.{with_bytes};

use crate::readings::{Room, mean_event};
use crate::units::{Next, next_event};
use gm_feeder::Feeder;
use gm_notes::{ApplyError, Event, JobServer, UnitFault};
use std::alloc::AllocError;

/// The units that came out of a feeder.
#[derive(Clone, Copy)]
struct Unloaded {
    /// How many units.
    units: u64,
    /// The last job that they made.
    created: Option<u64>,
    /// The fault after them.
    fault: Option<UnitFault>,
}

/// Hands in an event, and answers the job that it made. If it is refused, nothing happens.
fn hand_in<S: JobServer>(server: &mut S, event: &Event<'_>) -> Result<Option<u64>, AllocError>
    requires { IsSized event.now }
    ensures ok { IfOk result (λ created. AgreesAfter S.agrees (λ k steps. handed_in k (step_of event.now) steps) created server.old server.new) }
    ensures err { OnErr result (Lacks S.agrees (step_of event.now) server.old server.new) }
{
    match server.apply(event) {
        Ok(done) => Ok(done.created),
        Err(ApplyError::Memory) => Err(AllocError),
        Err(_) => Ok(None),
    }
}

/// Hands in an event as gearmand's applications mean it. `hand_in_unit` calls it only if that is asked, because each
/// call clears the room for the data.
#[inline(never)]
fn hand_in_meant<S: JobServer>(server: &mut S, event: Event<'_>) -> Result<Option<u64>, AllocError>
    requires { IsSized event }
    ensures ok { IfOk result (λ created. AgreesAfter S.agrees (λ k steps. handed_in k (step_read true (step_of event.entry)) steps) created server.old server.new) }
    ensures err { OnErr result (Lacks S.agrees (step_read true (step_of event.entry)) server.old server.new) }
{
    let mut room = Room::new();
    hand_in(server, &mean_event(event, &mut room))
}

/// Hands in the event that a unit says, as the server reads it.
fn hand_in_unit<S: JobServer>(server: &mut S, event: Event<'_>) -> Result<Option<u64>, AllocError>
    requires { IsSized event }
    ensures ok { IfOk result (λ created. AgreesAfter S.agrees (λ k steps. handed_in k (step_read k.as_gearmand (step_of event.entry)) steps) created server.old server.new) }
    ensures err { OnErr result (Lacks S.agrees (step_of event.entry) server.old server.new) }
{
    if server.as_gearmand() {
        hand_in_meant(server, event)
    } else {
        hand_in(server, &event)
    }
}

/// Hands in each whole unit of the feeder. If out of memory, it answers how many were taken.
fn unload<S: JobServer>(server: &mut S, feeder: &mut Feeder, slot: u32) -> Result<Unloaded, u64>
    ensures ok { IfOk result (λ unloaded. Unloads S.agrees slot server.old feeder.old unloaded server.new feeder.new) }
    ensures err { IfErr result (λ units. CutsShort S.agrees slot server.old feeder.old units server.new) }
{
    // Each unit has a byte at least, so there are no more of them.
    let most = feeder.pending().len();
    let mut units = 0;
    let mut created = None;
    loop {
        let fault = match next_event(feeder, slot) {
            Next::Unit(event) => {
                let Ok(newer) = hand_in_unit(server, event) else {
                    return Err(units);
                };
                units += 1;
                created = newer.or(created);
                continue;
            }
            Next::Wait => None,
            Next::Fault(fault) => Some(fault),
        };
        return Ok(Unloaded {
            units,
            created,
            fault,
        });
    }
}

/// Takes a piece, hands in what it completes, and answers the last job made. If out of memory, it answers how many
/// units were taken.
pub(crate) fn take_piece<S: JobServer>(
    server: &mut S,
    feeder: &mut Feeder,
    slot: u32,
    piece: &[u8],
) -> Result<Option<u64>, u64>
    ensures ok { IfOk result (λ created. TakesPiece S.agrees slot piece.now created server.old feeder.old server.new feeder.new) }
    ensures err { IfErr result (λ units. CutsShort S.agrees slot server.old (with_bytes feeder.old piece.now) units server.new) }
{
    let Ok(()) = feeder.feed(piece) else {
        return Err(0);
    };
    let unloaded = unload(server, feeder, slot)?;
    let Some(fault) = unloaded.fault else {
        return Ok(unloaded.created);
    };
    match hand_in(server, &Event::Fault { slot, fault }) {
        Ok(newer) => Ok(newer.or(unloaded.created)),
        Err(_) => Err(unloaded.units),
    }
}
