//! A packet or a text that is to be queued.

ghost use Rattle.std.specs.Prelude.{◌≡◌, ◌+◌, ◌-◌, ◌<◌, ◌≤◌, ◌^◌, ◌++◌, [], true, Some, IfSome, IfOk, OnOk, All, length, take, drop};
ghost use Rattle.std.specs.Int.{w32, to_be_bytes};
ghost use Rattle.std.specs.List.{join_with_byte};
ghost use Rattle.gm_packet.specs.Answers.{Answer, answer_of, answer_packet};
ghost use Rattle.gm_packet.specs.Packets.{Fits};
ghost use Rattle.gm_conns.specs.Connections.{with_bytes};
ghost use Rattle.gm_conns.specs.ConnTables.{IsOpen, conn, Changes};
ghost use Rattle.gm_actions.specs.Bodies.{EndsWith};
ghost use Rattle.gm_core.specs.Writing.{bare_answer, copied_text, CanBePut, IsLight};

use gm_bytes::{Data, SHARED_ROOM, SharedBytes};
use gm_conns::Conns;
use gm_packet::{Response, write_response};
use std::alloc::{AllocError, Global};
use std::marker::Model;

/// The most room that is kept for the next text.
const MOST_KEPT: usize = 65_536;

/// A packet or a text that is to be queued: bytes that are copied to each queue, and after them perhaps a body that
/// the queues share. Contracts see the text, what it costs of a queue's room, and whether it is shared, with how many
/// owners it has for the queues.
#[derive(Drop)]
pub(crate) struct Written {
    copied: Vec<u8>,
    body: Option<SharedBytes>,
    // One for each queue that it is still put to.
    owners: Vec<SharedBytes>,
}

impl Model for Written {
    ghost use Rattle.std.specs.Prelude.{◌≡◌, ◌+◌, ◌++◌, [], Some, is_some, All, length};
    ghost use Rattle.std.specs.Option.{unwrap_or};
    ghost use Rattle.gm_core.specs.Writing.{Text, shared_room};

    ghost Value = { Text };

    ghost view = { λ w. record { bytes = w.copied.items ++ unwrap_or w.body []; cost = length w.copied.items + shared_room w.body; is_shared = is_some w.body; owners = length w.owners.items } };

    ghost invariant = { λ w. All (λ owner. w.body ≡ Some owner) w.owners.items };
}

/// A response that ends in a body, with an empty body.
fn without_body<'a>(response: &Response<'a>) -> Option<Response<'a>>
    ensures { IfSome result (λ bare. answer_of bare ≡ bare_answer (answer_of response.now)) }
{
    match *response {
        Response::EchoRes { .. } => Some(Response::EchoRes { body: &[] }),
        Response::WorkData { handle, .. } => Some(Response::WorkData { handle, body: &[] }),
        Response::WorkWarning { handle, .. } => Some(Response::WorkWarning { handle, body: &[] }),
        Response::WorkException { handle, .. } => {
            Some(Response::WorkException { handle, body: &[] })
        }
        Response::WorkComplete { handle, .. } => Some(Response::WorkComplete { handle, body: &[] }),
        Response::JobAssign {
            handle,
            function,
            ..
        } => Some(Response::JobAssign {
            handle,
            function,
            body: &[],
        }),
        Response::JobAssignUniq {
            handle,
            function,
            unique,
            ..
        } => Some(Response::JobAssignUniq {
            handle,
            function,
            unique,
            body: &[],
        }),
        _ => None,
    }
}

/// Says in the header of a packet that this many bytes follow it, which belong to it.
fn lengthen(packet: &mut Vec<u8>, count: usize)
    requires long { 12 ≤ length packet.old.items }
    requires fits { (length packet.old.items - 12) + count < 2 ^ 32 }
    ensures { packet.new.items ≡ take 8 packet.old.items ++ to_be_bytes w32 ((length packet.old.items - 12) + count) ++ drop 12 packet.old.items }
{
    let size = (packet.len() - 12 + count) as u32;
    packet[8..12].copy_from_slice(&size.to_be_bytes());
}

/// Adds owners of the body until there are this many.
fn share_each(
    body: &SharedBytes,
    owners: &mut Vec<SharedBytes>,
    count: usize,
) -> Result<(), AllocError>
    ensures ok { OnOk result (count ≤ length owners.new.items) }
    ensures all { All (λ owner. Some body.now ≡ Some owner) owners.old.items → All (λ owner. Some body.now ≡ Some owner) owners.new.items }
{
    while owners.len() < count {
        let owner = body.suffix(0)?;
        owners.push(owner)?;
    }
    Ok(())
}

impl Written {
    /// Nothing.
    pub(crate) fn new(alloc: Global) -> Written
        ensures { result ≡ copied_text [] }
    {
        Written::of(Vec::new(alloc))
    }

    /// This text.
    pub(crate) fn of(text: Vec<u8>) -> Written
        ensures { result ≡ copied_text text.items }
    {
        Written {
            owners: Vec::new(*text.allocator()),
            copied: text,
            body: None,
        }
    }

    /// How much of a queue's room it takes.
    pub(crate) fn cost(&self) -> usize
        ensures { result ≡ self.now.cost }
    {
        let shared = if self.body.is_some() { SHARED_ROOM } else { 0 };
        self.copied.len() + shared
    }

    /// Writes the packet of a response. Its last argument may be this body; one that can be shared isn't copied.
    #[inline(always)]
    pub(crate) fn write(
        &mut self,
        response: &Response<'_>,
        body: Option<&Data<'_>>,
    ) -> Result<(), AllocError>
        requires fits { Fits (answer_of response.now).arguments }
        requires ends { IfSome body (λ body. EndsWith body.now.bytes.now (answer_of response.now)) }
        ensures { OnOk result (self.new.bytes ≡ answer_packet (answer_of response.now)) }
    {
        if let Some(body) = body
            && let Some(shared) = body.share()
            && let Some(bare) = without_body(response)
        {
            return self.write_over(&bare, shared);
        }
        self.body = None;
        self.owners.clear();
        self.copied.clear();
        write_response(response, &mut self.copied)
    }

    /// Writes a packet whose last argument is empty, and puts a body in its place.
    fn write_over(&mut self, bare: &Response<'_>, body: SharedBytes) -> Result<(), AllocError>
        requires fits { Fits (answer_of bare.now).arguments }
        requires sized { length (join_with_byte 0 (answer_of bare.now).arguments) + length body < 2 ^ 32 }
        ensures { OnOk result ((answer : Answer) → answer_of bare.now ≡ bare_answer answer → EndsWith body answer → self.new.bytes ≡ answer_packet answer) }
    {
        self.owners.clear();
        self.copied.clear();
        write_response(bare, &mut self.copied)?;
        lengthen(&mut self.copied, body.as_slice().len());
        self.body = Some(body);
        Ok(())
    }

    /// Makes it ready to be put to this number of queues.
    #[inline(always)]
    pub(crate) fn own(&mut self, count: usize) -> Result<(), AllocError>
        ensures ok { OnOk result (CanBePut count self.new) }
        ensures bytes { self.new.bytes ≡ self.old.bytes }
        ensures cost { self.new.cost ≡ self.old.cost }
    {
        match &self.body {
            Some(body) => share_each(body, &mut self.owners, count),
            None => Ok(()),
        }
    }

    /// Queues it to a slot, if there is room.
    #[inline(always)]
    pub(crate) fn put(&mut self, conns: &mut Conns, slot: u32)
        requires open { IsOpen conns.old slot }
        requires room { self.old.cost ≤ (conn conns.old slot).room }
        requires owned { CanBePut 1 self.old }
        ensures conns { Changes slot (with_bytes self.old.bytes self.old.cost) true conns.old conns.new }
        ensures text { self.new ≡ record self.old { owners = self.old.owners - 1 } }
    {
        match self.owners.pop() {
            Some(owner) => conns.put_shared(slot, self.copied.as_slice(), owner),
            None => conns.put_out(slot, self.copied.as_slice()),
        }
    }

    /// Gives large memory back: the body, and a long text.
    pub(crate) fn let_go(&mut self)
        ensures { IsLight self.new }
    {
        self.body = None;
        self.owners.clear();
        if self.copied.capacity() > MOST_KEPT {
            self.copied = Vec::new(*self.copied.allocator());
        }
    }
}
