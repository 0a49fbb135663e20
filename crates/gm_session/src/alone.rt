//! A session that notifies no other thread.

ghost use Rattle.std.specs.Prelude.{◌≡◌};
ghost use Rattle.std.specs.Io.KnownBytes.{IsAtEnd};
ghost use Rattle.gm_session.specs.Sessions.{Reads};

use crate::applier::{Applier, Around};
use crate::effects::Effects;
use crate::gate::Gate;
use crate::session::{Session, SessionEnd};
use gm_feeder::Limits;
use gm_shared::{BookName, Desk, Shared};
use std::alloc::Global;
use std::io::Read;
use std::sync::Wait;
use std::time::Clock;

/// Reads a connection's stream to its end, cuts it into units and applies each at the slot, in order; if no
/// continuation of what came can be read, it applies that fault and ends. Each unit passes the gate first. The desk is
/// the slot's. With a tape the desk's share has these events and no others.
pub fn read_session<'s, K: BookName, R: Wait + Clock, I: Read, G: Gate>(
    rt: &'s R,
    alloc: Global,
    reader: &mut I,
    shared: &'s Shared<K>,
    desk: &mut Desk<K>,
    slot: u32,
    limits: Limits,
    gate: &'s G,
) -> SessionEnd
    ensures ended { result ≡ SessionEnd.Ended → IsAtEnd (I.remaining reader.new) }
    ensures reads { Reads K.settings K.taped desk.old.number slot limits (I.remaining reader.old) (I.remaining reader.new) result desk.old.witness.seen desk.new.witness.seen }
    ensures number { desk.new.number ≡ desk.old.number }
{
    let around = Around {
        alloc,
        rt,
        shared,
        gate,
        host: None,
    };
    let peer = None;
    let applier = Applier {
        around: &around,
        slot,
        peer: &peer,
    };
    let mut effects = Effects::new();
    let mut session = Session::new(alloc, limits);
    let end = applier.run(&mut session, desk, reader, &mut effects);
    effects.abandon();
    end
}
