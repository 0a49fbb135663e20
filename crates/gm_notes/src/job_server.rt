//! The contract of every job server.

ghost use Rattle.std.specs.Prelude.{◌≡◌, List, ◌∷◌};
ghost use Rattle.std.specs.Result.{IsErrOf};
ghost use Rattle.gm_notes.specs.Settings.{Settings};
ghost use Rattle.gm_notes.specs.Flow.{waiting};
ghost use Rattle.gm_notes.specs.Notes.{mode};
ghost use Rattle.gm_notes.specs.Jobs.{job_state};
ghost use Rattle.gm_notes.specs.Steps.{Step, Took, Withdrew, Drain};
ghost use Rattle.gm_notes.specs.Steps.{run};
ghost use Rattle.gm_notes.specs.Servers.{step_of, IsSized, Answers, AnswersAt, steps_after, steps_after_that, NeedsNoMemory};
ghost use Rattle.gm_notes.specs.Servers.{is_closing, owes};
ghost use Rattle.gm_notes.specs.JobStates.{place_of};

use crate::event::{ApplyError, Done, Event};
use crate::states::{Mode, Place};
use gm_bytes::ByteQueue;

/// A job server, however it keeps what it knows.
///
/// It agrees with settings and with lists of steps, the newest first: its answers are those that the
/// definitions give after the steps. After a call it agrees with the list that the call's step heads,
/// and after a refusal with the same list.
pub trait JobServer {
    ghost agrees: { Self → Settings → List Step → Type 0 };

    /// Lets an event take effect, and answers what it made. For an opening, `Refusing` comes if the server takes no new
    /// connections, and then `NoSlot` if every slot is open; for a packet, a line or a fault, `NotOpen` if its slot
    /// isn't open or is shut; for a closing, `NotOpen` if it isn't open; `Memory` only for a step that would otherwise
    /// succeed; never for a closing. A packet's data are at most 1,073,741,824 bytes.
    fn apply(&mut self, event: &Event<'_>) -> Result<Done, ApplyError>
        requires { IsSized event.now }
        ensures answers { (k : Settings) (steps : List Step) → agrees self.old k steps
            → Answers k steps (step_of event.now) result
            × agrees self.new k (steps_after result (step_of event.now) steps) }
        ensures memory { NeedsNoMemory event.now → IsErrOf result ApplyError.Memory → ⊥ };

    /// Whether a NOOP is owed to the slot; never if it isn't open.
    fn owed(&self, slot: u32) -> bool
        ensures { (k : Settings) (steps : List Step) → agrees self.now k steps
            → result ≡ owes slot (run k steps) };

    /// Whether the slot is open and takes no more units.
    fn shut(&self, slot: u32) -> bool
        ensures { (k : Settings) (steps : List Step) → agrees self.now k steps
            → result ≡ is_closing slot (run k steps) };

    /// Whether requests mean what gearmand's applications mean by them.
    fn as_gearmand(&self) -> bool
        ensures { (k : Settings) (steps : List Step) → agrees self.now k steps
            → result ≡ k.as_gearmand };

    /// Whether the server goes on.
    fn mode(&self) -> Mode
        ensures { (k : Settings) (steps : List Step) → agrees self.now k steps
            → result ≡ mode (run k steps).notes };

    /// Where a job is.
    fn place(&self, job: u64) -> Place
        ensures { (k : Settings) (steps : List Step) → agrees self.now k steps
            → result ≡ place_of (job_state job (run k steps).notes) };

    /// The NOOP that is owed to the slot was taken. `NotOpen` comes if the slot isn't open, and then `NotOwed` if none
    /// is owed. It needs no memory.
    fn took(&mut self, slot: u32) -> Result<(), ApplyError>
        ensures { (k : Settings) (steps : List Step) → agrees self.old k steps
            → AnswersAt k steps (Took slot) result × agrees self.new k (steps_after_that result (Took slot) steps) };

    /// The NOOP that is owed to the slot was withdrawn; refused as `took`. It needs no memory.
    fn withdrew(&mut self, slot: u32) -> Result<(), ApplyError>
        ensures { (k : Settings) (steps : List Step) → agrees self.old k steps
            → AnswersAt k steps (Withdrew slot) result × agrees self.new k (steps_after_that result (Withdrew slot) steps) };

    /// Takes the bytes that wait for the slot, which wait no more; none if it isn't open. It needs no memory.
    fn drain(&mut self, slot: u32) -> ByteQueue
        ensures { (k : Settings) (steps : List Step) → agrees self.old k steps
            → (result.bytes ≡ waiting slot (run k steps).flow) × agrees self.new k (Drain slot ∷ steps) };
}
