//! Fronts, some of whose growths are refused.

use crate::error::TrialError;
use crate::script::Order;
use crate::seen::{hand_in, same, see};
use crate::settings::{LIMITS, Settings, TrialServer, new_front};
use gm_core::Core;
use gm_feeder::Feeder;
use gm_front::{Front, Input, StepError};
use gm_notes::{ApplyError, JobServer, Place};
use gm_plain::PlainServer;
use std::alloc::Global;

/// More growths than any trial makes.
const MOST: u32 = 100_000;

/// No growth to this many bytes succeeds without the library of tests/failing.c.
const ASKED: usize = 1 << 47;

/// Room for all that is seen, so that none is made while growths are refused.
const ROOM: usize = 1 << 20;

/// From now on the growth of this number is refused, or with 0 none is. With 0 it answers whether one was refused since
/// it was asked last for one.
fn refuse(alloc: Global, number: u32) -> bool {
    Vec::<u8>::with_capacity(alloc, ASKED + number as usize).is_ok()
}

/// Hands in all up to a cut, and looks after each: what was cut, and how many of its units were taken.
fn hand_in_all<S: JobServer>(
    front: &mut Front<S>,
    first_job: u64,
    orders: &[Order<'_>],
    seen: &mut String,
) -> Result<Option<(usize, u64)>, TrialError> {
    for (index, order) in orders.iter().enumerate() {
        let cut = hand_in(front, order.input(), seen)?;
        see(front, first_job, seen)?;
        if let Some(units) = cut {
            return Ok(Some((index, units)));
        }
    }
    Ok(None)
}

/// Takes all whole units out of a feeder, at most this many.
fn take_units(feeder: &mut Feeder, count: u64) {
    for _ in 0..count {
        let Ok(Some(_)) = feeder.next_unit() else {
            break;
        };
    }
}

/// The part of a piece up to its first units, if its slot took these orders before.
fn up_to<'a>(
    alloc: Global,
    before: &[Order<'_>],
    slot: u32,
    piece: &'a [u8],
    units: u64,
) -> Result<&'a [u8], TrialError> {
    let mut feeder = Feeder::new(alloc, LIMITS);
    for order in before {
        match order {
            Order::Piece(other, bytes) if *other == slot => {
                let _ = feeder.feed(bytes);
                take_units(&mut feeder, u64::MAX);
            }
            Order::Close(other) if *other == slot => feeder = Feeder::new(alloc, LIMITS),
            _ => {}
        }
    }
    let _ = feeder.feed(piece);
    take_units(&mut feeder, units);
    let len = piece.len().saturating_sub(feeder.pending().len());
    piece.get(..len).ok_or(TrialError::Usage)
}

/// Hands in what a front took: all before the cut piece, the first units of that, and the closing.
fn hand_in_taken<S: JobServer>(
    alloc: Global,
    front: &mut Front<S>,
    first_job: u64,
    orders: &[Order<'_>],
    cut: Option<(usize, u64)>,
    seen: &mut String,
) -> Result<(), TrialError> {
    let Some((index, units)) = cut else {
        hand_in_all(front, first_job, orders, seen)?;
        return Ok(());
    };
    let (before, after) = orders.split_at_checked(index).ok_or(TrialError::Usage)?;
    hand_in_all(front, first_job, before, seen)?;
    if let Some(Order::Piece(slot, bytes)) = after.first() {
        let taken = up_to(alloc, before, *slot, bytes, units)?;
        front.step(Input::Piece(*slot, taken))?;
        front.step(Input::Close(*slot))?;
    }
    see(front, first_job, seen)
}

/// If this growth is refused, a front of the one server does as a front of the other that has memory and was handed
/// in only what the first took. It answers whether there is such a growth.
fn is_refused<S: TrialServer, R: TrialServer>(
    alloc: Global,
    growth: u32,
    settings: &Settings,
    orders: &[Order<'_>],
) -> Result<bool, TrialError> {
    let first_job = settings.first_job;
    let mut front = new_front::<S>(alloc, settings)?;
    let mut reference = new_front::<R>(alloc, settings)?;
    let mut got = String::with_capacity(alloc, ROOM)?;
    let mut wanted = String::with_capacity(alloc, ROOM)?;
    refuse(alloc, growth);
    let cut = hand_in_all(&mut front, first_job, orders, &mut got);
    let is_refused = refuse(alloc, 0);
    hand_in_taken(alloc, &mut reference, first_job, orders, cut?, &mut wanted)?;
    same(alloc, u64::from(growth), got.as_str(), wanted.as_str())?;
    Ok(is_refused)
}

/// Refuses each growth in turn, at a front of either server.
pub fn growth_front(
    alloc: Global,
    settings: &Settings,
    orders: &[Order<'_>],
) -> Result<u64, TrialError> {
    for growth in 1..MOST {
        let on_core = is_refused::<Core, PlainServer>(alloc, growth, settings, orders)?;
        let on_plain = is_refused::<PlainServer, PlainServer>(alloc, growth, settings, orders)?;
        if !on_core && !on_plain {
            return Ok(u64::from(growth) - 1);
        }
    }
    Err(TrialError::Endless)
}

/// Three background submissions without a unique id.
const THREE: &[u8] =
    b"\0REQ\0\0\0\x12\0\0\0\x05f\0-\0d\0REQ\0\0\0\x12\0\0\0\x05f\0-\0d\0REQ\0\0\0\x12\0\0\0\x05f\0-\0d";

/// After a cut the slot is closed, and there are as many jobs as units were taken.
fn is_cut_after<S: JobServer>(front: &mut Front<S>, units: u64) -> bool {
    let is_closed = matches!(
        front.step(Input::Piece(0, THREE)),
        Err(StepError::Refused(ApplyError::NotOpen))
    );
    let wanted = |job| if job <= units {
        Place::Waiting
    } else {
        Place::Unmade
    };
    is_closed && units <= 2 && (1..=3).all(|job| front.place(job) == wanted(job))
}

/// If this growth of a piece is refused, the piece is cut. It answers whether there is such a growth.
fn is_cut<S: TrialServer>(
    alloc: Global,
    growth: u32,
    settings: &Settings,
) -> Result<bool, TrialError> {
    let mut front = new_front::<S>(alloc, settings)?;
    front.step(Input::Open(b"a"))?;
    refuse(alloc, growth);
    let answer = front.step(Input::Piece(0, THREE));
    let is_refused = refuse(alloc, 0);
    let is_right = match answer {
        Err(StepError::Cut { units }) => is_refused && is_cut_after(&mut front, units),
        Ok(stepped) => !is_refused && stepped.done.created == Some(3),
        Err(_) => false,
    };
    if is_right {
        Ok(is_refused)
    } else {
        Err(TrialError::NotCut { growth })
    }
}

/// Refuses each growth of a piece in turn, at a front of the plain server.
pub fn cut_piece(alloc: Global, settings: &Settings) -> Result<u64, TrialError> {
    for growth in 1..MOST {
        if !is_cut::<PlainServer>(alloc, growth, settings)? {
            return Ok(u64::from(growth) - 1);
        }
    }
    Err(TrialError::Endless)
}
