//! Events whose packets are read.

ghost use Rattle.std.specs.Prelude.{◌≡◌};
ghost use Rattle.gm_actions.specs.ReadEvents.{ReadsEvent};

use crate::actions::Action;
use crate::refusal::Refusal;
use gm_notes::Event;

/// An event, and what its packet asks, or why that is refused whatever the server holds. A packet is read once, before
/// any lock is taken.
#[derive(Clone, Copy)]
pub struct ReadEvent<'a> {
    /// The event.
    pub event: Event<'a>,
    /// The action that its packet asks. It has no meaning for an event without a packet.
    pub action: Result<Action<'a>, Refusal>,
}

impl<'a> ReadEvent<'a> {
    /// Reads an event's packet, if it has one.
    pub fn new(event: Event<'a>) -> ReadEvent<'a>
        ensures event { result.event ≡ event.entry }
        ensures reads { ReadsEvent result.event result.action }
    {
        let action = match &event {
            Event::Packet { kind, bytes, .. } => Action::read(*kind, bytes),
            _ => Ok(Action::Nothing),
        };
        ReadEvent { event, action }
    }
}
