//! The checks of values in tests. A call of one of these costs a proof little; an assertion in its place would be
//! spelled out each time.

ghost use Rattle.std.specs.Prelude.{IsTrue};

use std::fmt::Debug;
use std::process::Abort;

/// The test fails if this doesn't hold.
pub fn must(rt: &impl Abort, holds: bool)
    ensures { IsTrue holds }
{
    assert!(rt; holds);
}

/// The test fails if these aren't the same, and says at what.
pub fn same<A: Debug + Copy, T: PartialEq + Debug>(rt: &impl Abort, at: A, got: &T, wanted: &T) {
    assert!(rt; got == wanted, "at {at:?}: {got:?}, and not {wanted:?}");
}
