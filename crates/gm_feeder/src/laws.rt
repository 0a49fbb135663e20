//! Laws that hold for every stream. Each function is a law: its body does nothing, and its contract is the
//! law.

ghost use Rattle.std.specs.Prelude.{◌≡◌, ◌<◌, ℕ, List, ◌++◌, length};
ghost use Rattle.gm_feeder.specs.declared.units.Limits.{Limits};
ghost use Rattle.gm_feeder.specs.declared.units.FeedFault.{FeedFault};
ghost use Rattle.gm_feeder.specs.Units.{Item, IsUnit, BeginsNoUnit, Spells, CanGoOn, IsHopeless, IsFaultOf, Waits};
ghost use Rattle.gm_feeder.specs.Streams.{Stream, Event, Runs, all_fed, all_given};

/// No unit is a proper prefix of another, be they packets or lines: bytes begin with one unit at most.
pub fn no_unit_begins_another()
    ensures { (limits : Limits) (whole other x y : List ℕ) (item another : Item)
        → IsUnit limits whole item → IsUnit limits other another → whole ++ x ≡ other ++ y
        → (whole ≡ other) × (item ≡ another) }
{}

/// A unit has bytes, so a feeder that gives one holds fewer afterwards.
pub fn no_unit_is_empty()
    ensures { (limits : Limits) (whole : List ℕ) (item : Item)
        → IsUnit limits whole item → 0 < length whole }
{}

/// A stream has one spelling.
pub fn one_spelling()
    ensures { (limits : Limits) (stream : List ℕ) (items others : List Item) (rest other : List ℕ)
        → Spells limits stream items rest → Spells limits stream others other
        → (items ≡ others) × (rest ≡ other) }
{}

/// It doesn't matter where a stream is cut: the units of the first part stay, and its rest is spelled together
/// with what comes.
pub fn any_cut()
    ensures { (limits : Limits) (first second : List ℕ) (items more : List Item) (rest end : List ℕ)
        → Spells limits first items rest → Spells limits (rest ++ second) more end
        → Spells limits (first ++ second) (items ++ more) end }
{}

/// A rest has at most one fault. If it has one it begins with no unit, and if more bytes are needed it has none.
pub fn one_fault()
    ensures one { (limits : Limits) (rest : List ℕ) (fault other : FeedFault)
        → IsFaultOf limits rest fault → IsFaultOf limits rest other → fault ≡ other }
    ensures no_unit { (limits : Limits) (rest : List ℕ) (fault : FeedFault)
        → IsFaultOf limits rest fault → BeginsNoUnit limits rest }
    ensures none { (limits : Limits) (rest : List ℕ) (fault : FeedFault)
        → Waits limits rest → IsFaultOf limits rest fault → ⊥ }
{}

/// A rest has a fault exactly if no continuation of it begins with a unit. If more bytes are needed, some
/// continuation does.
pub fn fault_where_no_unit_can_come()
    ensures hopeless { (limits : Limits) (rest : List ℕ) (fault : FeedFault)
        → IsFaultOf limits rest fault → IsHopeless limits rest }
    ensures faulty { (limits : Limits) (rest : List ℕ)
        → IsHopeless limits rest → (fault : FeedFault) × IsFaultOf limits rest fault }
    ensures waits { (limits : Limits) (rest : List ℕ) → Waits limits rest → CanGoOn limits rest }
{}

/// A fault stays, whatever bytes follow: so it doesn't matter in which pieces a faulty stream comes.
pub fn fault_stays()
    ensures { (limits : Limits) (rest more : List ℕ) (fault : FeedFault)
        → IsFaultOf limits rest fault → IsFaultOf limits (rest ++ more) fault }
{}

/// Once a feeder gives no more units, those that it gave and the bytes that it still holds are the spelling of the
/// bytes fed, in whichever pieces, and there is no other.
pub fn any_pieces()
    ensures spelled { (old new : Stream) (events : List Event)
        → Runs old events new → BeginsNoUnit new.limits new.pending
        → Spells old.limits (old.pending ++ all_fed events) (all_given events) new.pending }
    ensures only { (old new : Stream) (events : List Event) (items : List Item) (rest : List ℕ)
        → Runs old events new → BeginsNoUnit new.limits new.pending
        → Spells old.limits (old.pending ++ all_fed events) items rest
        → (all_given events ≡ items) × (new.pending ≡ rest) }
{}
