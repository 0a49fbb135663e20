//! Laws of all inputs, and so of every front. Each function here is a law: its contract states it, and its body is
//! empty.

ghost use Rattle.std.specs.Prelude.{◌≡◌, ◌+◌, ◌*◌, ◌<◌, ◌≤◌, ℕ, max, List, [], ◌∷◌, ◌++◌, true, false, Some};
ghost use Rattle.gm_feeder.specs.declared.units.Limits.{Limits};
ghost use Rattle.gm_feeder.specs.Units.{Item, APacket};
ghost use Rattle.gm_notes.specs.declared.event.ApplyError.{ApplyError};
ghost use Rattle.gm_notes.specs.Settings.{Settings};
ghost use Rattle.gm_notes.specs.Notes.{is_open};
ghost use Rattle.gm_notes.specs.Steps.{free_slot};
ghost use Rattle.gm_notes.specs.Steps.{run};
ghost use Rattle.gm_history.specs.Laws.{SentSo};
ghost use Rattle.gm_front.specs.Readings.{seconds_meant};
ghost use Rattle.gm_front.specs.Units.{step_said, step_of_unit};
ghost use Rattle.gm_front.specs.Inputs.{Input, Opens, Gives, Reading, ReadsOn, Reads, refusal_of};

/// Inputs spell one list of steps, and one rest for each slot.
pub fn one_reading()
    ensures { (k : Settings) (limits : Limits) (inputs : List Input) (a b : Reading)
        → Reads k limits inputs a → Reads k limits inputs b → a ≡ b }
{}

/// A piece may be cut in two inputs that follow each other: whatever comes before and after, the steps are the
/// same, and so each note and each byte that is queued.
pub fn any_cut()
    ensures { (k : Settings) (limits : Limits) (before after : List Input) (c : ℕ) (front back : List ℕ) (whole parts : Reading)
        → Reads k limits (after ++ Gives c (front ++ back) ∷ before) whole
        → Reads k limits (after ++ Gives c back ∷ Gives c front ∷ before) parts → whole ≡ parts }
{}

/// A closing forgets the rest: a slot that isn't open has none, and a connection begins without one.
pub fn closing_forgets()
    ensures forgets { (k : Settings) (limits : Limits) (inputs : List Input) (reading : Reading) (c : ℕ)
        → Reads k limits inputs reading → is_open c (run k reading.steps).notes ≡ false → reading.rests c ≡ [] }
    ensures begins { (k : Settings) (limits : Limits) (inputs : List Input) (addr : List ℕ) (old new : Reading) (c : ℕ)
        → Reads k limits inputs old → ReadsOn k limits (Opens addr) old new
        → free_slot k (run k old.steps) ≡ Some c → new.rests c ≡ [] }
{}

/// Of a slot that is open, what was drained since it was opened, followed by what waits, is what was sent; for one
/// that isn't open nothing waits, and what was drained is a front of what was sent.
pub fn bytes_queued()
    ensures { (k : Settings) (limits : Limits) (inputs : List Input) (reading : Reading) (c : ℕ) → Reads k limits inputs reading
        → SentSo (is_open c (run k reading.steps).notes) c (run k reading.steps).flow }
{}

/// An input that is refused adds nothing.
pub fn refused_step()
    ensures { (k : Settings) (limits : Limits) (input : Input) (old new : Reading) (refused : ApplyError)
        → refusal_of k input old ≡ Some refused → ReadsOn k limits input old new → new ≡ old }
{}

/// Without `as_gearmand` a packet is read as it came.
pub fn packets_are_read_as_they_came()
    ensures { (k : Settings) (c : ℕ) (item : Item) → k.as_gearmand ≡ false → step_of_unit k c item ≡ step_said c item }
{}

/// With `as_gearmand` a grab by GRAB_JOB_ALL (39) is one by GRAB_JOB_UNIQ (30), whatever its data.
pub fn grabs_are_alike()
    ensures { (k : Settings) (c : ℕ) (bytes : List ℕ) → k.as_gearmand ≡ true → step_of_unit k c (APacket 39 bytes) ≡ step_of_unit k c (APacket 30 bytes) }
{}

/// With `as_gearmand` a time limit is in milliseconds, and less than 1,000 counts as 1,000. A limit of m milliseconds
/// is read as s seconds with `m ≤ 1000 * (s - 1) < m + 1000`. By `no_job_means_no_work` a job's deadline is s seconds
/// after the second that the clock shows when the job is given out. That second may have just begun or be nearly over,
/// so the job has at least m milliseconds, and its deadline comes less than m + 2,000 milliseconds after it was given
/// out.
pub fn limits_are_neither_early_nor_late()
    ensures not_early { (milliseconds : ℕ) → max milliseconds 1000 + 1000 ≤ 1000 * seconds_meant milliseconds }
    ensures not_late { (milliseconds : ℕ) → 1000 * seconds_meant milliseconds < max milliseconds 1000 + 2000 }
{}
