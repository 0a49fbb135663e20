//! The units that a connection's bytes spell, as events of its slot.

ghost use Rattle.std.specs.Prelude.{◌≡◌, Some};
ghost use Rattle.std.specs.Borrow.{sem};
ghost use Rattle.std.specs.Io.BufRead.{Rests};
ghost use Rattle.gm_feeder.specs.contracts.feeder.Feeder.{the_row};
ghost use Rattle.gm_front.specs.Units.{IsSizedNext, GivesNext};

use gm_bytes::Data;
use gm_feeder::{FeedFault, Feeder, Unit};
use gm_notes::{Event, UnitFault};

/// The next part of a connection's bytes.
#[derive(Clone, Copy, Debug)]
pub enum Next<'f> {
    /// A unit, as an event of the slot.
    Unit(Event<'f>),
    /// Nothing that is whole: more bytes are needed.
    Wait,
    /// This fault; no more units come.
    Fault(UnitFault),
}

/// Takes the next unit out of a feeder, as an event of the connection's slot, or says what comes there instead.
/// A fault stays: it is answered again.
pub fn next_event(feeder: &mut Feeder, slot: u32) -> Next<'_>
    ensures sized { IsSizedNext result }
    ensures* after { sem 𝓛 (Rests the_row feeder.entry (λ new. GivesNext slot feeder.old result new)) }
{
    match feeder.next_unit() {
        Ok(Some(Unit::Packet { kind, bytes })) => {
            let bytes = Data::lent(bytes);
            Next::Unit(Event::Packet { slot, kind, bytes })
        }
        Ok(Some(Unit::Line { bytes })) => Next::Unit(Event::Line { slot, bytes }),
        Ok(None) => Next::Wait,
        Err(FeedFault::BadMagic) => Next::Fault(UnitFault::BadMagic),
        Err(FeedFault::PacketTooLarge) => Next::Fault(UnitFault::PacketTooLarge),
        Err(FeedFault::LineTooLong) => Next::Fault(UnitFault::LineTooLong),
        Err(FeedFault::Memory) => unreachable!(),
    }
}
