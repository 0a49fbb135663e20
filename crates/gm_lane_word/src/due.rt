//! A delivery that is due to a slot.

ghost use Rattle.std.specs.Prelude.{◌≡◌};

/// Something was queued for the connection of a slot, or may have been. It can't be dropped: a touch of a lane takes
/// it.
pub struct Due {
    pub(crate) slot: u32,
}

impl Due {
    /// Something may be queued for the connection of this slot.
    pub fn new(slot: u32) -> Due
        ensures { result.slot ≡ slot }
    {
        Due { slot }
    }

    /// The slot whose lane is to be touched.
    pub fn slot(&self) -> u32
        ensures { result ≡ self.now.slot }
    {
        self.slot
    }
}
