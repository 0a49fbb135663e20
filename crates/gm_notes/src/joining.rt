//! Unique ids that name jobs.

ghost use Rattle.std.specs.Prelude.{◌≡◌};
ghost use Rattle.gm_notes.specs.Jobs.{joins};

/// Whether submissions with this unique id join one live job of a function: the id isn't empty, and no dash.
pub fn is_joining(unique: &[u8]) -> bool
    ensures { result ≡ joins unique.now }
{
    !unique.is_empty() && unique != b"-".as_slice()
}
