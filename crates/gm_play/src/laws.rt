//! Laws of every script. The function's body does nothing: its contract is the law.

ghost use Rattle.std.specs.Prelude.{◌≡◌, ℕ, List};
ghost use Rattle.gm_feeder.specs.declared.units.Limits.{Limits};
ghost use Rattle.gm_notes.specs.Settings.{Settings};
ghost use Rattle.gm_play.specs.Prints.{IsTextOf};

/// A script prints one text.
pub fn one_text()
    ensures { (k : Settings) (limits : Limits) (script a b : List ℕ)
        → IsTextOf k limits script a → IsTextOf k limits script b → a ≡ b }
{}
