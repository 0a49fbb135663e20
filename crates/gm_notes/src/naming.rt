//! Names of functions.

ghost use Rattle.std.specs.Prelude.{◌≡◌};
ghost use Rattle.gm_notes.specs.Submissions.{is_bad_name};

/// The most bytes of a function's name.
pub const MAX_NAME: usize = 512;

/// Whether a function's name is empty, or too long.
pub fn is_bad_name(function: &[u8]) -> bool
    ensures { result ≡ is_bad_name function.now }
{
    function.is_empty() || function.len() > MAX_NAME
}
