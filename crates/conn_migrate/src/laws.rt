//! What the histories of several squeues together tell of a block. Each law is a function that does nothing, whose contract is
//! the law.
ghost use Rattle.std.specs.Prelude.{◌≡◌, ℕ, ◌%◌, ◌<◌, true, List, [], ◌∷◌, ◌++◌, Some, slice_get};
ghost use Rattle.perimeter_core.specs.declared.entries.Act.{Act};
ghost use Rattle.perimeter_core.specs.declared.marks.SynchAct.TheVariants as Done;
ghost use Rattle.perimeter_core.specs.Perimeter.{is_here};
ghost use Rattle.perimeter_core.specs.History.{Element, Setting, run, made_by};
ghost use Rattle.perimeter_core.specs.Deeds.{acts};
ghost use Rattle.perimeter_core.specs.Legal.{Legal};
ghost use Rattle.histories.specs.Elements.{left_by_pass};
ghost use Rattle.histories.specs.Endings.{Ending};
ghost use Rattle.histories.specs.Stays.{all_in, begun, stays, reports, done_in};
ghost use Rattle.histories.specs.Stays.{AreSameStays, EndsAStay, AreLegal, StartsAtHome, IsLinked, AreLinked, AreOfAllStays};

/// An Out ends the stay that goes on.
pub fn an_out_ends_a_stay()
    ensures { (S : Setting) (H : List Element) (p rest c : ℕ) → Legal S (H ++ left_by_pass p rest (Done.Out c) [] ∷ [])
        → EndsAStay S H (left_by_pass p rest (Done.Out c) []) c }
{}

/// An In begins a stay, with its note.
pub fn an_in_begins_a_stay()
    ensures { (S : Setting) (H : List Element) (p rest c : ℕ) (note : List Act)
        → stays S (H ++ left_by_pass p rest (Done.In c) note ∷ []) c ≡ record { ended = all_in (stays S H c); now = Some (begun note) } }
{}

/// Where the block of a connection is, its acts are those of all its stays, one after another.
pub fn acts_are_those_of_all_stays()
    ensures each { (hs : List Ending) (c q : ℕ) (h : Ending) → AreLegal hs → StartsAtHome hs c → IsLinked hs c → slice_get hs q ≡ Some h
        → is_here (run h.setting h.history) c ≡ true → AreOfAllStays hs c (acts h.setting h.history c) }
    ensures linked { (n : ℕ) (hs : List Ending) (c q : ℕ) (h : Ending) → AreLinked n hs → c < n → slice_get hs q ≡ Some h
        → is_here (run h.setting h.history) c ≡ true
        → AreOfAllStays hs c (acts h.setting h.history c) }
{}

/// What a history did while the ring of a connection made nothing begins and ends no stay of it.
pub fn a_ring_knows_the_stays()
    ensures { (S : Setting) (H K : List Element) (c : ℕ) → Legal S (H ++ K) → made_by (c % S.rings) K ≡ [] → AreSameStays (stays S H c) (stays S (H ++ K) c) }
{}

/// All that a history reports of a connection was done in its stays there, one after another.
pub fn what_is_reported_is_done_in_a_stay()
    ensures { (S : Setting) (H : List Element) (c : ℕ) → Legal S H → reports S H c ≡ done_in (all_in (stays S H c)) }
{}
