//! Answers: a packet or a text is written, room is made for it where it goes, and then it is queued.

ghost use Rattle.std.specs.Prelude.{◌≡◌, false, IfSome, OnOk, OnErr};
ghost use Rattle.gm_packet.specs.Answers.{answer_of, answer_packet};
ghost use Rattle.gm_packet.specs.Packets.{Fits};
ghost use Rattle.gm_conns.specs.Connections.{with_room};
ghost use Rattle.gm_conns.specs.ConnTables.{IsOpen, Changes};
ghost use Rattle.gm_notes.specs.Past.{with_output, give, refuse};
ghost use Rattle.gm_actions.specs.Bodies.{EndsWith};
ghost use Rattle.gm_actions.specs.Refusals.{code_of};
ghost use Rattle.gm_core.specs.Writing.{CanBePut};

use super::Tables;
use crate::written::Written;
use gm_actions::Refusal;
use gm_bytes::Data;
use gm_conns::Conns;
use gm_packet::Response;
use std::alloc::AllocError;

/// Writes a packet, whose last argument may be this body, and makes room for it at a slot.
pub(super) fn prepare(
    conns: &mut Conns,
    text: &mut Written,
    slot: u32,
    response: &Response<'_>,
    body: Option<&Data<'_>>,
) -> Result<(), AllocError>
    requires open { IsOpen conns.old slot }
    requires fits { Fits (answer_of response.now).arguments }
    requires ends { IfSome body (λ body. EndsWith body.now.bytes.now (answer_of response.now)) }
    ensures text { OnOk result (text.new.bytes ≡ answer_packet (answer_of response.now)) }
    ensures owned { OnOk result (CanBePut 1 text.new) }
    ensures conns { OnOk result (Changes slot (with_room text.new.cost) false conns.old conns.new) }
    ensures err { OnErr result (conns.new ≡ conns.old) }
{
    text.write(response, body)?;
    text.own(1)?;
    conns.reserve_out(slot, text.cost())
}

impl Tables {
    ghost use Rattle.gm_core.specs.Holds.{Does};

    /// Queues a packet to a slot; its last argument may be this body.
    pub(super) fn answer(
        &mut self,
        slot: u32,
        response: &Response<'_>,
        body: Option<&Data<'_>>,
    ) -> Result<(), AllocError>
        requires open { IsOpen self.old.conns slot }
        requires fits { Fits (answer_of response.now).arguments }
        requires ends { IfSome body (λ body. EndsWith body.now.bytes.now (answer_of response.now)) }
        ensures does { Does self.old result self.new (give slot (answer_of response.now)) }
        ensures open { IsOpen self.new.conns slot }
    {
        prepare(&mut self.conns, &mut self.text, slot, response, body)?;
        self.text.put(&mut self.conns, slot);
        Ok(())
    }

    /// Refuses a request of a slot.
    pub(super) fn refuse(&mut self, slot: u32, refusal: Refusal) -> Result<(), AllocError>
        requires { IsOpen self.old.conns slot }
        ensures { Does self.old result self.new (refuse slot (code_of refusal)) }
    {
        self.answer(slot, &refusal.response(), None)
    }

    /// Queues a text to a slot.
    pub(super) fn say(&mut self, slot: u32, text: Vec<u8>) -> Result<(), AllocError>
        requires { IsOpen self.old.conns slot }
        ensures does { Does self.old result self.new (with_output slot text.items) }
        ensures open { IsOpen self.new.conns slot }
    {
        self.conns.reserve_out(slot, text.len())?;
        self.conns.put_out(slot, text.as_slice());
        Ok(())
    }
}
