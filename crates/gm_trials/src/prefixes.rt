//! Streams that end anywhere.

ghost use Rattle.std.specs.Prelude.{◌<◌};

use crate::error::TrialError;
use crate::script::Order;
use crate::seen::{same, see, see_answer};
use crate::settings::{LIMITS, Settings, TrialServer, new_front};
use gm_core::Core;
use gm_feeder::{FeedFault, Feeder};
use gm_front::{Front, Input};
use gm_notes::JobServer;
use gm_plain::PlainServer;
use std::alloc::Global;
use std::fmt::Write;

/// Takes all whole units, and writes them.
fn take_units(feeder: &mut Feeder, seen: &mut String) -> Result<(), TrialError> {
    for _ in 0..feeder.pending().len() {
        let Ok(Some(unit)) = feeder.next_unit() else {
            break;
        };
        writeln!(seen, "{unit:?}")?;
    }
    Ok(())
}

/// Feeds a stream in pieces of this size, and writes the units, the fault, and the rest with what the fault keeps out.
fn feed(alloc: Global, stream: &[u8], size: usize, seen: &mut String) -> Result<(), TrialError>
    requires { 0 < size }
{
    let mut feeder = Feeder::new(alloc, LIMITS);
    let mut kept_out = Vec::new(alloc);
    for piece in stream.chunks(size) {
        match feeder.feed(piece) {
            Ok(()) => take_units(&mut feeder, seen)?,
            Err(FeedFault::Memory) => return Err(TrialError::Memory),
            Err(_) => kept_out.extend_from_slice(piece)?,
        }
    }
    let next = feeder.next_unit();
    writeln!(seen, "{next:?}")?;
    let mut rest = Vec::from_slice(alloc, feeder.pending())?;
    rest.extend_from_slice(&kept_out)?;
    writeln!(seen, "{rest:?}")?;
    Ok(())
}

/// A feeder makes the same of a stream at once and byte by byte.
fn feed_both(alloc: Global, stream: &[u8]) -> Result<(), TrialError> {
    let mut whole = String::new(alloc);
    let mut single = String::new(alloc);
    feed(alloc, stream, stream.len().max(1), &mut whole)?;
    feed(alloc, stream, 1, &mut single)?;
    same(alloc, stream.len() as u64, single.as_str(), whole.as_str())
}

/// A connection sends a stream, and is closed. All this is taken, and what is seen is written.
fn play<S: JobServer>(
    front: &mut Front<S>,
    stream: &[u8],
    first_job: u64,
    seen: &mut String,
) -> Result<(), TrialError> {
    for input in [Input::Open(b"a"), Input::Piece(0, stream), Input::Close(0)] {
        let stepped = front.step(input)?;
        see_answer(Ok(stepped), seen)?;
        see(front, first_job, seen)?;
    }
    Ok(())
}

/// The observable state of this server, when a connection sends a stream and is closed.
fn seen_of<S: TrialServer>(
    alloc: Global,
    settings: &Settings,
    stream: &[u8],
) -> Result<String, TrialError> {
    let mut front = new_front::<S>(alloc, settings)?;
    let mut seen = String::new(alloc);
    play(&mut front, stream, settings.first_job, &mut seen)?;
    Ok(seen)
}

/// Both servers make the same of a connection that sends a stream and is closed.
fn play_both(alloc: Global, settings: &Settings, stream: &[u8]) -> Result<(), TrialError> {
    let on_core = seen_of::<Core>(alloc, settings, stream)?;
    let on_plain = seen_of::<PlainServer>(alloc, settings, stream)?;
    same(
        alloc,
        stream.len() as u64,
        on_core.as_str(),
        on_plain.as_str(),
    )
}

/// Tries each prefix of a stream. It answers how many there are.
fn try_stream(alloc: Global, settings: &Settings, stream: &[u8]) -> Result<u64, TrialError> {
    for end in 0..=stream.len() {
        feed_both(alloc, &stream[..end])?;
        play_both(alloc, settings, &stream[..end])?;
    }
    Ok(stream.len() as u64 + 1)
}

/// Tries each prefix of each piece, which is to be all that a connection sends. It answers how many there are.
pub fn prefixes(
    alloc: Global,
    settings: &Settings,
    orders: &[Order<'_>],
) -> Result<u64, TrialError> {
    let mut count: u64 = 0;
    for order in orders {
        if let Order::Piece(_, stream) = order {
            count = count.saturating_add(try_stream(alloc, settings, stream)?);
        }
    }
    Ok(count)
}
