//! Laws of every history. Each function here is a law: its contract states it, and its body is empty.

ghost use Rattle.gm_history.specs.History.{History};
ghost use Rattle.gm_history.specs.Laws.{AfterAnySteps, InEachStep, NotesAreCaused, SleepersAreOpen, BytesArrive};

/// Every note of the past was allowed when it was added: only a waiting job was given out, and only to whose grab gets
/// it; only a job with a worker waited again or was lost, and only one that somebody wants, lost exactly if the worker
/// was its last one; none was discarded that somebody wants, and none that was lost; a job got the next number, joined
/// nothing, and its function was below its limit; a NOOP became owed only when a job waited that the slot could do; no
/// mode came after a later one.
pub fn each_note_was_allowed()
    ensures { AfterAnySteps History }
{}

/// A slot that sleeps, or is owed a NOOP, is open: a slot that isn't open is awake.
pub fn sleepers_are_open()
    ensures { SleepersAreOpen }
{}

/// Of a slot that is open after any steps, what was drained since it was opened, followed by what waits, is what
/// was sent; for one that isn't open nothing waits, and what was drained is a prefix of what was sent.
pub fn bytes_arrive()
    ensures { BytesArrive }
{}

/// Each note that a step adds has its cause, down to what the packet or the text line says: `Causes` has a line for
/// each.
pub fn notes_are_caused()
    ensures { InEachStep NotesAreCaused }
{}
