//! Until when a job may run.

ghost use Rattle.std.specs.Prelude.{◌≡◌};
ghost use Rattle.gm_notes.specs.Workers.{deadline_after};

/// The moment plus a number of seconds, at most the greatest `u64`; none for 0 seconds.
pub fn deadline_after(moment: u64, timeout: u32) -> Option<u64>
    ensures { result ≡ deadline_after moment timeout }
{
    if timeout == 0 {
        None
    } else {
        Some(moment.saturating_add(u64::from(timeout)))
    }
}
