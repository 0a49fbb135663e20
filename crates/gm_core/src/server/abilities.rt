//! The workers' abilities, their sleep, and the job that each gets.

ghost use Rattle.std.specs.Prelude.{◌≡◌, ◌<◌, ◌≤◌, ◌++◌, false, Some, None, IfSome, length, map, drop, take, slice_get};
ghost use Rattle.std.specs.Option.{option_map};
ghost use Rattle.gm_packet.specs.Packets.{has_nul};
ghost use Rattle.gm_conns.specs.ConnTables.{IsOpen, conn};
ghost use Rattle.gm_queues.specs.FunctionTables.{number_of, waiting_for};
ghost use Rattle.gm_notes.specs.Jobs.{scan, pick_from, pick_with, pick_highest, pick};
ghost use Rattle.gm_notes.specs.Past.{Past, with_note};
ghost use Rattle.gm_notes.specs.Workers.{can_do, cant_do, pre_sleep};
ghost use Rattle.gm_notes.specs.Submissions.{is_bad_name};
ghost use Rattle.gm_notes.specs.declared.note.Note.TheVariants.{Reset};
ghost use Rattle.gm_core.specs.Firsts.{IsFirst};
ghost use Rattle.gm_core.specs.Holds.{name_at, ability_named, wake_if_waiting};
ghost use Rattle.gm_core.specs.declared.server.abilities.Choice.{Choice};

use super::Tables;
use gm_actions::Refusal;
use gm_notes::{Phase, Pick, Priority};
use gm_queues::MentionError;
use std::alloc::AllocError;

/// A job that is to be given out, and its function.
#[derive(Clone, Copy, Debug)]
pub(super) struct Choice {
    pub(super) pick: Pick,
    pub(super) function: u32,
}

impl Tables {
    ghost use Rattle.gm_core.specs.Holds.{IsKept, Keeps, Goes, Does};

    /// How many of a slot's `len` abilities are tried last: if functions take turns, those up to the one of its last
    /// job.
    fn tried_last(&self, slot: u32, len: usize) -> usize
        requires open { IsOpen self.now.conns slot }
        requires len { len ≡ length (conn self.now.conns slot).abilities }
        ensures scan { (past : Past) → Keeps self.now past → scan self.now.config slot past.notes
            ≡ map (ability_named self.now.functions.names) (drop result (conn self.now.conns slot).abilities ++ take result (conn self.now.conns slot).abilities) }
        ensures within { result ≤ length (conn self.now.conns slot).abilities }
    {
        if !self.config.round_robin() {
            return 0;
        }
        let Some(last) = self.conns.last(slot) else {
            return 0;
        };
        match self.conns.index_of(slot, last) {
            Some(i) => i + 1,
            None => 0,
        }
    }

    /// The first job for one of these abilities of a slot.
    fn pick_among(&mut self, slot: u32, from: usize, to: usize) -> Option<Choice>
        requires open { IsOpen self.old.conns slot }
        requires to { to ≤ length (conn self.old.conns slot).abilities }
        requires kept { IsKept self.old }
        ensures value { (past : Past) → Keeps self.old past → option_map (λ (found : Choice). found.pick) result
            ≡ pick_from (map (ability_named self.old.functions.names) (drop from (take to (conn self.old.conns slot).abilities))) past.notes }
        ensures first { IfSome result (λ found. slice_get (waiting_for self.old.functions found.function) 0 ≡ Some found.pick.job) }
        ensures within { IfSome result (λ found. found.function < length self.old.functions.names) }
        ensures same { self.new ≡ self.old }
    {
        for i in from..to {
            let (function, timeout) = self.conns.able(slot, i)?;
            if let Some(job) = self.functions.first(function) {
                return Some(Choice {
                    pick: Pick { job, timeout },
                    function,
                });
            }
        }
        None
    }

    /// The first job of the first function of a slot that has one, in the order in which they are tried.
    fn pick_by_function(&mut self, slot: u32) -> Option<Choice>
        requires open { IsOpen self.old.conns slot }
        requires kept { IsKept self.old }
        ensures value { (past : Past) → Keeps self.old past → option_map (λ (found : Choice). found.pick) result ≡ pick_from (scan self.old.config slot past.notes) past.notes }
        ensures first { IfSome result (λ found. slice_get (waiting_for self.old.functions found.function) 0 ≡ Some found.pick.job) }
        ensures within { IfSome result (λ found. found.function < length self.old.functions.names) }
        ensures same { self.new ≡ self.old }
    {
        let len = self.conns.abilities_len(slot);
        let last = self.tried_last(slot, len);
        match self.pick_among(slot, last, len) {
            Some(found) => Some(found),
            None => self.pick_among(slot, 0, last),
        }
    }

    /// The first job of a priority for one of these abilities of a slot.
    fn pick_with(&mut self, slot: u32, from: usize, to: usize, priority: Priority) -> Option<Choice>
        requires open { IsOpen self.old.conns slot }
        requires to { to ≤ length (conn self.old.conns slot).abilities }
        requires kept { IsKept self.old }
        ensures value { (past : Past) → Keeps self.old past → option_map (λ (found : Choice). found.pick) result
            ≡ pick_with priority (map (ability_named self.old.functions.names) (drop from (take to (conn self.old.conns slot).abilities))) past.notes }
        ensures first { IfSome result (λ found. IsFirst self.old.functions found.function found.pick.job) }
        ensures within { IfSome result (λ found. found.function < length self.old.functions.names) }
        ensures same { self.new ≡ self.old }
    {
        for i in from..to {
            let (function, timeout) = self.conns.able(slot, i)?;
            if let Some(job) = self.functions.first_in(function, priority) {
                return Some(Choice {
                    pick: Pick { job, timeout },
                    function,
                });
            }
        }
        None
    }

    /// The first job of a priority for a slot, `last` of whose `len` abilities are tried last.
    fn pick_in_turn(
        &mut self,
        slot: u32,
        last: usize,
        len: usize,
        priority: Priority,
    ) -> Option<Choice>
        requires open { IsOpen self.old.conns slot }
        requires len { len ≡ length (conn self.old.conns slot).abilities }
        requires last { last ≤ length (conn self.old.conns slot).abilities }
        requires kept { IsKept self.old }
        ensures value { (past : Past) → Keeps self.old past → option_map (λ (found : Choice). found.pick) result ≡ pick_with priority
            (map (ability_named self.old.functions.names) (drop last (conn self.old.conns slot).abilities ++ take last (conn self.old.conns slot).abilities)) past.notes }
        ensures first { IfSome result (λ found. IsFirst self.old.functions found.function found.pick.job) }
        ensures within { IfSome result (λ found. found.function < length self.old.functions.names) }
        ensures same { self.new ≡ self.old }
    {
        match self.pick_with(slot, last, len, priority) {
            Some(found) => Some(found),
            None => self.pick_with(slot, 0, last, priority),
        }
    }

    /// The first job of the highest priority that waits for any function of a slot.
    fn pick_by_priority(&mut self, slot: u32) -> Option<Choice>
        requires open { IsOpen self.old.conns slot }
        requires kept { IsKept self.old }
        ensures value { (past : Past) → Keeps self.old past → option_map (λ (found : Choice). found.pick) result ≡ pick_highest (scan self.old.config slot past.notes) past.notes }
        ensures first { IfSome result (λ found. IsFirst self.old.functions found.function found.pick.job) }
        ensures within { IfSome result (λ found. found.function < length self.old.functions.names) }
        ensures same { self.new ≡ self.old }
    {
        let len = self.conns.abilities_len(slot);
        let last = self.tried_last(slot, len);
        if let Some(found) = self.pick_in_turn(slot, last, len, Priority::High) {
            return Some(found);
        }
        if let Some(found) = self.pick_in_turn(slot, last, len, Priority::Normal) {
            return Some(found);
        }
        self.pick_in_turn(slot, last, len, Priority::Low)
    }

    /// The job that a grab of a slot gets.
    pub(super) fn pick(&mut self, slot: u32) -> Option<Choice>
        requires open { IsOpen self.old.conns slot }
        requires kept { IsKept self.old }
        ensures value { (past : Past) → Keeps self.old past → option_map (λ (found : Choice). found.pick) result ≡ pick self.old.config slot past.notes }
        ensures first { IfSome result (λ found. IsFirst self.old.functions found.function found.pick.job) }
        ensures within { IfSome result (λ found. found.function < length self.old.functions.names) }
        ensures same { self.new ≡ self.old }
    {
        if self.config.as_gearmand() {
            self.pick_by_priority(slot)
        } else {
            self.pick_by_function(slot)
        }
    }

    /// The worker in a slot wants to sleep; if a job waits that it can do, it is woken at once.
    pub(super) fn pre_sleep(&mut self, slot: u32)
        requires open { IsOpen self.old.conns slot }
        requires kept { IsKept self.old }
        ensures { Goes self.old self.new (pre_sleep self.old.config slot) }
    {
        // Modelled in models/jobs.pml.
        if !self.conns.phase(slot).is_awake() {
            return;
        }
        let beside = self.pick(slot).is_some();
        self.conns.set_phase(slot, Phase::Asleep);
        if beside {
            self.conns.set_phase(slot, Phase::Owed);
        }
    }

    /// The worker in a slot can do nothing any longer.
    pub(super) fn reset(&mut self, slot: u32)
        requires { IsOpen self.old.conns slot }
        ensures { Goes self.old self.new (with_note (Reset slot)) }
    {
        self.conns.reset(slot);
    }

    /// The worker in a slot can do a function.
    pub(super) fn can_do(
        &mut self,
        slot: u32,
        function: &[u8],
        timeout: u32,
    ) -> Result<(), AllocError>
        requires open { IsOpen self.old.conns slot }
        requires named { is_bad_name function.now ≡ false }
        requires plain { has_nul function.now ≡ false }
        ensures { Does self.old result self.new (can_do self.old.config slot function.now timeout) }
    {
        match self.functions.find(function) {
            Some(f) => {
                self.conns.can_do(slot, f, timeout)?;
                self.wake_at_once(slot, f);
                Ok(())
            }
            None => self.can_do_new_function(slot, function, timeout),
        }
    }

    /// The worker in a slot can do a function that wasn't mentioned yet, so that no job waits for it.
    fn can_do_new_function(
        &mut self,
        slot: u32,
        function: &[u8],
        timeout: u32,
    ) -> Result<(), AllocError>
        requires open { IsOpen self.old.conns slot }
        requires named { is_bad_name function.now ≡ false }
        requires plain { has_nul function.now ≡ false }
        requires new { number_of function.now self.old.functions ≡ None }
        ensures { Does self.old result self.new (can_do self.old.config slot function.now timeout) }
    {
        match self.functions.mention(function) {
            Ok(f) => match self.conns.can_do(slot, f, timeout) {
                Ok(()) => Ok(()),
                Err(wanting) => {
                    self.functions.unmention();
                    Err(wanting)
                }
            },
            Err(MentionError::TooManyFunctions) => self.refuse(slot, Refusal::TooManyFunctions),
            Err(MentionError::Memory) => Err(AllocError),
        }
    }

    /// A sleeping worker is owed a NOOP if a job of this function waits.
    fn wake_at_once(&mut self, slot: u32, f: u32)
        requires open { IsOpen self.old.conns slot }
        requires within { f < length self.old.functions.names }
        ensures { Goes self.old self.new (wake_if_waiting slot (name_at self.old.functions.names f)) }
    {
        if !self.conns.phase(slot).is_asleep() {
            return;
        }
        if self.functions.first(f).is_some() {
            self.conns.set_phase(slot, Phase::Owed);
        }
    }

    /// The worker in a slot can't do a function any longer.
    pub(super) fn cant_do(&mut self, slot: u32, function: &[u8])
        requires open { IsOpen self.old.conns slot }
        requires named { is_bad_name function.now ≡ false }
        ensures { Goes self.old self.new (cant_do slot function.now) }
    {
        if let Some(f) = self.functions.find(function) {
            self.conns.cant_do(slot, f);
        }
    }
}
