//! The knowledge of the seats at a lane's word. No value of these types is made: only proofs speak of them.

/// A seat's hold on the lane.
pub enum Hold {
    /// Nothing.
    Free,
    /// It has the lane, and is yet to begin an attempt.
    Claims,
    /// It has the lane, and has begun an attempt.
    Attempts,
}

/// The knowledge of a seat: its work at the lane so far, and its hold on the lane.
pub struct LaneView {
    /// How often it touched the lane.
    pub touches: u64,
    /// How many of these were take-overs.
    pub take_overs: u64,
    /// How many attempts it began.
    pub attempts: u64,
    /// How often it left the lane to the finisher.
    pub hand_overs: u64,
    /// How many touches, of whichever seat, its attempts were the first to follow.
    pub answers: u64,
    /// The word that its last touch found, or that it found when it came.
    pub found: u64,
    pub hold: Hold,
}
