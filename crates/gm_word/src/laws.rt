//! Laws that hold for every table of sleep words. Each function is a law: its body does nothing, and its
//! contract is the law.

ghost use Rattle.std.specs.Prelude.{◌≡◌, ℕ, ◌+◌, List, All, slice_index};
ghost use Rattle.gm_word.specs.declared.view.Line.{Line};
ghost use Rattle.gm_word.specs.declared.view.WordView.{WordView};
ghost use Rattle.gm_word.specs.Lines.{number, owing};
ghost use Rattle.gm_word.specs.Steps.{Keeps, Reached, Step, line_at};
ghost use Rattle.gm_word.specs.Seats.{PenState, Settles};

/// The word rule holds between any two atomic steps, whatever the threads do: a table is as steps of the eight
/// kinds have left it (that is the rule under which `SleepTable` is made, so no call can make another step),
/// and wherever such steps lead, the words and the counts agree.
pub fn word_rule()
    ensures step { (words next : List ℕ) (views after : List WordView)
        → Keeps words views → Step words views next after → Keeps next after }
    ensures reached { (words : List ℕ) (views : List WordView) → Reached words views → Keeps words views }
{}

/// How a table ends, for each pen that was handed in: each NOOP that its slot was owed was taken once, or was withdrawn
/// once, or is still owed; and the book has entered as many takes as the pen made, except one if it still says that the
/// slot is owed what was taken.
pub fn each_wake_once()
    ensures wakes { (words : List ℕ) (lines : List Line) (pens : List PenState) → Settles words lines pens
        → All (λ pen. (line_at pen.slot lines).wakes
        ≡ pen.takes + (line_at pen.slot lines).withdrawals + owing (slice_index words pen.slot)) pens }
    ensures entered { (words : List ℕ) (lines : List Line) (pens : List PenState) → Settles words lines pens
        → All (λ pen. pen.takes + owing (slice_index words pen.slot)
        ≡ (line_at pen.slot lines).entered + owing (number (line_at pen.slot lines).phase)) pens }
{}
