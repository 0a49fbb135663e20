//! A connection that is sent to.

ghost use Rattle.std.specs.Prelude.{◌≡◌, ◌&&◌, ◌==◌, [], length, false};
ghost use Rattle.std.specs.Net.Tcp.{stream_raw_fd};
ghost use Rattle.gm_delivery.specs.Lives.{deed_of, state_by, state_if};
ghost use Rattle.gm_delivery.specs.Messages.{left_in};
ghost use Rattle.gm_delivery.specs.Sendings.{Outbound, SendsPart, can_send, took_all, Looked};

use crate::lane::Writing;
use crate::life::{Deed, Life, OutboundState};
use crate::message::Message;
use crate::writing::Sent;
use gm_shared::BookName;
use gm_socket::{KnownWriter, LoggedWriter, Socket, Wire};
use gm_time::now_ms;
use std::io;
use std::io::ErrorKind;
use std::marker::Model;
use std::net::Shutdown;
use std::sync::Wait;
use std::time::Clock;

/// A connection that is sent to. Contracts know all that its socket took, and what each call answered.
#[derive(Drop)]
pub(crate) struct Outbound {
    socket: LoggedWriter<Socket>,
    /// Whether the last write took all, so that the next one may take some at once.
    takes_more: bool,
    life: Life,
}

impl Model for Outbound {
    ghost use Rattle.std.specs.Prelude.{◌≡◌};
    ghost use Rattle.std.specs.Net.Tcp.{stream_raw_fd};
    ghost use Rattle.gm_delivery.specs.Sendings.{Outbound, took_all};

    ghost Value = { Outbound };

    ghost view = { λ o. record { state = o.life.state; socket = stream_raw_fd o.socket.writer.stream.value; log = o.socket.bytes; answers = o.socket.answers; over = o.life.is_over } };

    ghost invariant = { λ o. o.takes_more ≡ took_all o.socket.answers };
}

impl Outbound {
    /// A connection that goes through this socket, and to which nothing was written yet. If it can't be sent to, it is
    /// cut.
    pub(crate) fn new(socket: LoggedWriter<Socket>, begins: bool) -> Outbound
        requires { socket.answers ≡ [] }
        ensures { result ≡ record { state = state_if begins; socket = stream_raw_fd socket.writer.stream.value; log = socket.bytes; answers = []; over = false } }
    {
        Outbound {
            socket,
            takes_more: true,
            life: Life::new(begins),
        }
    }

    /// How far the sending is.
    pub(crate) fn state(&self) -> OutboundState
        ensures { result ≡ self.now.state }
    {
        self.life.state
    }

    /// Whether the last write took all.
    pub(crate) fn takes_more(&self) -> bool
        ensures { result ≡ took_all self.now.answers }
    {
        self.takes_more
    }

    /// The sending broke off.
    pub(crate) fn cut(&mut self)
        ensures { self.new ≡ record self.old { state = OutboundState.Cut } }
    {
        self.life.state = OutboundState::Cut;
    }

    /// All was sent and nothing more is: shuts the sending side of the socket, which tells the peer.
    pub(crate) fn finish(&mut self)
        ensures { self.new ≡ record self.old { state = OutboundState.Finished } }
    {
        // Modelled in models/lane.h.
        self.life.state = OutboundState::Finished;
        self.socket.writer().shut(Shutdown::Write);
    }

    /// Sends the rest of a message, as much of it as the peer takes. If it can't be sent any more, the connection
    /// is cut, and nothing is left. It says whether the connection can be sent to, and nothing is left.
    pub(crate) fn send<E>(&mut self, left: &mut Option<Message>, by: &E) -> bool
    where
        Outbound: Wire<E>,
        ensures idle { (self.old.state ≡ OutboundState.Open → ⊥) → (self.new ≡ self.old) × (left.new ≡ left.old) × (result ≡ false) }
        ensures sends { self.old.state ≡ OutboundState.Open → SendsPart self.old (left_in left.old) self.new (left_in left.new) }
        ensures clear { self.old.state ≡ OutboundState.Open → result ≡ can_send self.new.state && (length (left_in left.new) == 0) }
    {
        // Modelled in models/lane.h.
        if self.life.state != OutboundState::Open {
            return false;
        }
        let Some(message) = left else {
            return true;
        };
        // A write leaves the state as it is, which its contract doesn't say.
        match message.send(self, by) {
            Sent::All => {
                *left = None;
                self.life.state = OutboundState::Open;
                true
            }
            Sent::Some => {
                self.life.state = OutboundState::Open;
                false
            }
            Sent::Failed => {
                *left = None;
                self.life.state = OutboundState::Cut;
                false
            }
        }
    }

    /// The next step, by whether something is left to be sent, and whether the input ended. Hanging up is done here:
    /// then it neither sends nor reads any more, and unless all was sent, the sending broke off. Only once the sending
    /// is finished it looks at the time.
    pub(crate) fn next<K: BookName, R: Clock>(
        &mut self,
        by: &Writing<'_, K, R>,
        has_left: bool,
        has_ended: bool,
    ) -> Deed
        ensures deed { result ≡ deed_of self.old.state self.new.over has_left has_ended }
        ensures after { self.new ≡ record self.old { state = state_by result self.old.state; over = self.new.over } }
        ensures looked { Looked self.old self.new.over }
    {
        // Modelled in models/lane.h.
        if self.life.state == OutboundState::Finished {
            let asked = by.asked.asked(by.context.server);
            self.life
                .look(now_ms(by.context.rt), asked.is_stopping, false);
        }
        let deed = match self.life.state {
            OutboundState::Open if has_left && !self.life.is_over => Deed::Send,
            _ if has_ended => Deed::LetGo,
            OutboundState::Open if !has_left => Deed::Serve,
            OutboundState::Finished if !self.life.is_over => Deed::Linger,
            _ => Deed::HangUp,
        };
        if deed == Deed::HangUp {
            if self.life.state == OutboundState::Open {
                self.life.state = OutboundState::Cut;
            }
            self.socket.writer().shut(Shutdown::Both);
        }
        deed
    }
}

impl KnownWriter for Outbound {
    ghost use Rattle.std.specs.Prelude.{Some};

    ghost contents = { λ o. Some o.log };

    ghost answers = { λ o. Some o.answers };

    ghost socket = { λ o. Some o.socket };

    ghost is_over = { λ o. o.over };

    fn is_over(&self) -> bool {
        self.life.is_over
    }
}

impl<'a, K: BookName, R: Wait + Clock> Wire<Writing<'a, K, R>> for Outbound {
    fn write_by(&mut self, by: &Writing<'a, K, R>, bytes: &[u8]) -> io::Result<usize> {
        // Modelled in models/lane.h.
        let outcome = self.socket.write_by(&by.patience, bytes);
        self.takes_more = match &outcome {
            Ok(count) => *count == bytes.len(),
            Err(_) => false,
        };
        // The system tells it to one call only: to this one or to a read.
        if matches!(&outcome, Err(error) if error.kind() == ErrorKind::TimedOut) {
            by.context.speaker.count_timed_out(by.context.rt);
        }
        let asked = by.asked.asked(by.context.server);
        if asked.is_ending {
            let has_taken = matches!(outcome, Ok(count) if count > 0);
            let now = now_ms(by.context.rt);
            self.life.look(now, asked.is_stopping, has_taken);
        }
        outcome
    }
}
