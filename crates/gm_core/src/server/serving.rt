//! Requests as they come.

ghost use Rattle.std.specs.Prelude.{IsErrOf, OnErr, IfOk, ◌≡◌, ◌<◌, ◌≤◌, ℕ, List, ◌++◌, length, true};
ghost use Rattle.std.specs.Int.{w32, to_be_bytes};
ghost use Rattle.gm_packet.specs.Answers.{echo_res};
ghost use Rattle.gm_packet.specs.Packets.{response_magic};
ghost use Rattle.gm_conns.specs.ConnTables.{IsOpen};
ghost use Rattle.gm_notes.specs.Past.{give};
ghost use Rattle.gm_notes.specs.Servers.{Answers, steps_after};
ghost use Rattle.gm_notes.specs.Settings.{Settings};
ghost use Rattle.gm_notes.specs.Steps.{Step, Packet};
ghost use Rattle.gm_actions.specs.Actions.{act, acted, HasGoodNames, CanBeTold, acts_without_memory, ActsWithoutMemory};
ghost use Rattle.gm_actions.specs.ReadEvents.{ReadsPacket};

use super::Tables;
use gm_actions::{Action, Refusal};
use gm_bytes::{Data, LONG, SharedBytes};
use gm_notes::{ApplyError, Done};
use gm_packet::{RESPONSE_MAGIC, Response};
use std::alloc::AllocError;

/// The header of an ECHO_RES with this many bytes.
#[inline(always)]
fn echo_header(size: u32) -> [u8; 12]
    ensures { result ≡ response_magic ++ to_be_bytes w32 17 ++ to_be_bytes w32 size }
{
    let [m0, m1, m2, m3] = RESPONSE_MAGIC;
    let [s0, s1, s2, s3] = size.to_be_bytes();
    [m0, m1, m2, m3, 0, 0, 0, 17, s0, s1, s2, s3]
}

impl Tables {
    ghost use Rattle.gm_core.specs.Freed.{Frees};
    ghost use Rattle.gm_core.specs.Holds.{IsKept, Does, Makes, AllTouched, CoreAgrees};

    /// A packet of a slot, which asks this.
    pub(super) fn packet(
        &mut self,
        slot: u32,
        action: &Result<Action<'_>, Refusal>,
        freed: &mut Option<SharedBytes>,
    ) -> Result<Done, ApplyError>
        requires named { IfOk action.now HasGoodNames }
        requires told { IfOk action.now CanBeTold }
        requires kept { IsKept self.old }
        ensures answers { (kind : ℕ) (bytes : List ℕ) → ReadsPacket kind bytes action.now → (k : Settings) (steps : List Step) → CoreAgrees self.old k steps
            → Answers k steps (Packet slot kind bytes) result × CoreAgrees self.new k (steps_after result (Packet slot kind bytes) steps) }
        ensures memory { ActsWithoutMemory action.now → IsErrOf result ApplyError.Memory → ⊥ }
        ensures touched { AllTouched self.old.conns self.new.conns }
        ensures freed { Frees self.old.jobs self.new.jobs freed.old freed.new }
    {
        if !self.can_take_units(slot) {
            return Err(ApplyError::NotOpen);
        }
        let created = self.serve(slot, action, freed)?;
        Ok(Done {
            created,
            ..Done::NONE
        })
    }

    /// Does what a packet of a slot asks, or refuses it. Gives the job that it made, if it made one.
    fn serve(
        &mut self,
        slot: u32,
        action: &Result<Action<'_>, Refusal>,
        freed: &mut Option<SharedBytes>,
    ) -> Result<Option<u64>, AllocError>
        requires open { IsOpen self.old.conns slot }
        requires named { IfOk action.now HasGoodNames }
        requires told { IfOk action.now CanBeTold }
        requires kept { IsKept self.old }
        ensures does { Does self.old result self.new (acted self.old.config slot action.now) }
        ensures made { Makes self.old result (acted self.old.config slot action.now) }
        ensures memory { ActsWithoutMemory action.now → OnErr result ⊥ }
        ensures freed { Frees self.old.jobs self.new.jobs freed.old freed.new }
    {
        match action {
            Ok(action) => self.act(slot, action, freed),
            Err(refusal) => {
                self.refuse(slot, *refusal)?;
                Ok(None)
            }
        }
    }

    /// Does what is asked of a slot. Gives the job that it made, if it made one.
    fn act(
        &mut self,
        slot: u32,
        action: &Action<'_>,
        freed: &mut Option<SharedBytes>,
    ) -> Result<Option<u64>, AllocError>
        requires open { IsOpen self.old.conns slot }
        requires named { HasGoodNames action.now }
        requires told { CanBeTold action.now }
        requires kept { IsKept self.old }
        ensures does { Does self.old result self.new (act self.old.config slot action.now) }
        ensures made { Makes self.old result (act self.old.config slot action.now) }
        ensures memory { acts_without_memory action.now ≡ true → OnErr result ⊥ }
        ensures freed { Frees self.old.jobs self.new.jobs freed.old freed.new }
    {
        match *action {
            Action::Submit(asked) => return self.submit(slot, &asked),
            Action::CanDo { function, timeout } => self.can_do(slot, function, timeout)?,
            Action::CantDo { function } => self.cant_do(slot, function),
            Action::ResetAbilities => self.reset(slot),
            Action::PreSleep => self.pre_sleep(slot),
            Action::Grab { with_unique } => self.grab(slot, with_unique)?,
            Action::Work(packet) => self.work(slot, &packet, freed)?,
            Action::GetStatus { handle } => self.tell_status(slot, handle)?,
            Action::Echo { body } => self.echo(slot, &body)?,
            Action::SetClientId { id } => self.set_client_id(slot, id)?,
            Action::SetOption { name } => self.set_option(slot, name)?,
            Action::Nothing => {}
        }
        Ok(None)
    }

    /// The connection in a slot gets its bytes back.
    fn echo(&mut self, slot: u32, body: &Data<'_>) -> Result<(), AllocError>
        requires open { IsOpen self.old.conns slot }
        requires sized { length body.now.bytes.now ≤ 1073741824 }
        ensures { Does self.old result self.new (give slot (echo_res body.now.bytes.now)) }
    {
        let bytes = body.as_slice();
        if bytes.len() < LONG {
            return self.echo_short(slot, bytes);
        }
        self.answer(slot, &Response::EchoRes { body: bytes }, Some(body))
    }

    /// `echo` of fewer bytes than are shared: they are copied once, straight into the queue.
    fn echo_short(&mut self, slot: u32, bytes: &[u8]) -> Result<(), AllocError>
        requires open { IsOpen self.old.conns slot }
        requires short { length bytes.now < 65536 }
        ensures { Does self.old result self.new (give slot (echo_res bytes.now)) }
    {
        let header = echo_header(bytes.len() as u32);
        self.conns.reserve_out(slot, 12 + bytes.len())?;
        self.conns.put_out(slot, &header);
        self.conns.put_out(slot, bytes);
        Ok(())
    }
}
