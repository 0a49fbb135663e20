//! Plays one line of a script.

ghost use Rattle.std.specs.Prelude.{◌≡◌, ◌^◌, ◌<◌, ℕ, List, length, OnOk};
ghost use Rattle.gm_feeder.specs.declared.units.Limits.{Limits};
ghost use Rattle.gm_notes.specs.Settings.{Settings};
ghost use Rattle.gm_notes.specs.Past.{Past};
ghost use Rattle.gm_front.specs.Inputs.{input_of, Reading};
ghost use Rattle.gm_front.specs.Fronts.{IsHeld};
ghost use Rattle.gm_play.specs.Scripts.{Hands, order_of};
ghost use Rattle.gm_play.specs.Orders.{order_view};
ghost use Rattle.gm_play.specs.Players.{IsHeldSince, IsReady, TakesNoop, TellsOne, TellsAll, Plays};

use crate::order::{Order, order_of};
use crate::text::{put_bad, put_bytes, put_open, put_refused, put_shut};
use gm_front::{Front, Input, StepError};
use gm_notes::{ApplyError, JobServer};
use gm_packet::{Response, write_response};
use std::alloc::{AllocError, Global};

/// Takes the NOOP that is owed to a slot, and appends it; if none is owed, it does nothing.
fn take_noop<S: JobServer>(
    front: &mut Front<S>,
    slot: u32,
    out: &mut Vec<u8>,
) -> Result<(), AllocError>
    ensures { OnOk result ((k : Settings) (limits : Limits) (reading : Reading) → IsHeld S.agrees k limits reading front.old
        → TakesNoop S.agrees k limits reading slot out.old.items front.new out.new.items) }
{
    match front.step(Input::Took(slot)) {
        Ok(_) => write_response(&Response::Noop, out),
        Err(_) => Ok(()),
    }
}

/// Prints a slot, if it is open: the bytes that wait for it with the NOOP that is owed to it, and whether it became
/// shut.
fn tell_one<S: JobServer>(
    front: &mut Front<S>,
    told: &mut bool,
    slot: u32,
    out: &mut Vec<u8>,
) -> Result<(), AllocError>
    ensures { OnOk result ((k : Settings) (limits : Limits) (reading : Reading) → IsHeld S.agrees k limits reading front.old
        → TellsOne S.agrees k limits reading slot told.old out.old.items front.new told.new out.new.items) }
{
    let shut = front.shut(slot);
    if front.is_open(slot) {
        // A drain is never refused.
        let Ok(stepped) = front.step(Input::Drain(slot)) else {
            return Ok(());
        };
        let mut bytes = stepped.drained.to_vec()?;
        take_noop(front, slot, &mut bytes)?;
        put_bytes(out, slot, &bytes)?;
        put_shut(out, slot, shut && !*told)?;
    }
    *told = shut;
    Ok(())
}

/// Prints each slot in turn.
fn tell<S: JobServer>(
    front: &mut Front<S>,
    told: &mut [bool],
    out: &mut Vec<u8>,
) -> Result<(), AllocError>
    requires { length told.old < 2 ^ 32 }
    ensures { OnOk result ((k : Settings) (limits : Limits) (before : Past) (reading : Reading)
        → IsHeldSince S.agrees k limits before reading front.old told.old
        → TellsAll S.agrees k limits before reading out.old.items front.new told.new out.new.items) }
{
    for index in 0..told.len() {
        tell_one(front, &mut told[index], index as u32, out)?;
    }
    Ok(())
}

/// Hands in an input, and prints its outcome.
fn hand_in<S: JobServer>(
    front: &mut Front<S>,
    told: &mut [bool],
    input: Input<'_>,
    out: &mut Vec<u8>,
) -> Result<(), AllocError>
    requires { length told.old < 2 ^ 32 }
    ensures { OnOk result ((k : Settings) (limits : Limits) (reading : Reading) → IsReady S.agrees k limits reading front.old told.old
        → Plays S.agrees k limits reading (Hands (input_of input.entry)) out.old.items front.new told.new out.new.items) }
{
    match front.step(input) {
        Ok(stepped) => {
            if let Some(slot) = stepped.done.opened {
                put_open(out, slot)?;
            }
            tell(front, told, out)
        }
        Err(StepError::Cut { .. }) => Err(AllocError),
        Err(StepError::Refused(refused)) => match refused {
            ApplyError::Memory => Err(AllocError),
            _ => put_refused(out, refused),
        },
    }
}

/// Does what a line asks for.
fn play_order<S: JobServer>(
    front: &mut Front<S>,
    told: &mut [bool],
    order: &Order<'_>,
    out: &mut Vec<u8>,
) -> Result<(), AllocError>
    requires { length told.old < 2 ^ 32 }
    ensures { OnOk result ((k : Settings) (limits : Limits) (reading : Reading) → IsReady S.agrees k limits reading front.old told.old
        → Plays S.agrees k limits reading (order_view order.now) out.old.items front.new told.new out.new.items) }
{
    match order {
        Order::Skip => Ok(()),
        Order::Bad => put_bad(out),
        Order::Open { addr } => hand_in(front, told, Input::Open(addr), out),
        Order::Bytes { slot, piece } => hand_in(front, told, Input::Piece(*slot, piece), out),
        Order::Close { slot } => hand_in(front, told, Input::Close(*slot), out),
        Order::Tick { now } => hand_in(front, told, Input::Tick(*now), out),
    }
}

/// Plays a line: appends what it prints.
pub fn play_line<S: JobServer>(
    alloc: Global,
    front: &mut Front<S>,
    told: &mut [bool],
    line: &[u8],
    out: &mut Vec<u8>,
) -> Result<(), AllocError>
    requires { length told.old < 2 ^ 32 }
    ensures { OnOk result ((k : Settings) (limits : Limits) (reading : Reading) → IsReady S.agrees k limits reading front.old told.old
        → Plays S.agrees k limits reading (order_of line.now) out.old.items front.new told.new out.new.items) }
{
    let order = order_of(alloc, line)?;
    play_order(front, told, &order, out)
}
