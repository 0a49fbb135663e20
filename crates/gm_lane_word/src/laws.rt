//! Laws that hold for the word of every lane. Each function is a law: its body does nothing, and its contract is the
//! law.

ghost use Rattle.std.specs.Prelude.{◌≡◌, ◌≤◌, ◌+◌, ◌⊎◌, ℕ, List};
ghost use Rattle.gm_lane_word.specs.declared.view.LaneView.{LaneView};
ghost use Rattle.gm_lane_word.specs.Lane.{touches_of, answers_of, attempts_of, owners_of};
ghost use Rattle.gm_lane_word.specs.Steps.{Keeps, IsClaimed, Reached, Step};

/// The word rule holds between any two atomic steps, whatever the threads do: a lane is as steps of the six kinds
/// have left it (that is the rule under which `LaneWord` is made, so no call can make another step), and wherever such
/// steps lead, the word and the counts agree.
pub fn word_rule()
    ensures step { (word next : ℕ) (views after : List LaneView)
        → Keeps word views → Step word views next after → Keeps next after }
    ensures reached { (word : ℕ) (views : List LaneView) → Reached word views → Keeps word views }
{}

/// No delivery is forgotten: at any moment each touch so far was followed by an attempt that began after it, or a
/// thread owes one: the thread that has the lane or the finisher, as the word says. An idle lane has no owner, and no
/// touch of it is without an attempt. At most one has the lane. Nothing but an attempt follows touches, and it follows
/// all that came before it.
pub fn no_touch_is_forgotten()
    ensures followed { (word : ℕ) (views : List LaneView) → Reached word views
        → (touches_of views ≡ answers_of views) ⊎ IsClaimed word views }
    ensures idle { (views : List LaneView) → Reached 0 views
        → (touches_of views ≡ answers_of views) × (owners_of views ≡ 0) }
    ensures by_attempts { (word next : ℕ) (views after : List LaneView) → Reached word views → Step word views next after
        → (answers_of after ≡ answers_of views) ⊎ ((attempts_of after ≡ attempts_of views + 1) × (answers_of after ≡ touches_of views)) }
    ensures one_owner { (word : ℕ) (views : List LaneView) → Reached word views → owners_of views ≤ 1 }
{}
