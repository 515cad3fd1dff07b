//! What is so before a ring or an application thread begins, and how often calls were made, by histories and by what a thread has
//! seen of them. Each law is a function that does nothing, whose contract is the law.
ghost use Rattle.std.specs.Prelude.{◌≡◌, ◌<◌, ◌≤◌, ◌+◌, ℕ, List, [], ◌++◌, Contains, Option, length};
ghost use Rattle.turn_gate.specs.History.{Each};
ghost use Rattle.turn_gate.specs.declared.pass.Pass.{Pass};
ghost use Rattle.perimeter_core.specs.declared.entries.Feed.{Feed};
ghost use Rattle.perimeter_core.specs.History.{Element, Setting, made_by, worker};
ghost use Rattle.perimeter_core.specs.Legal.{Legal};
ghost use Rattle.squeue_state.specs.Naming.{Named};
ghost use Rattle.histories.specs.declared.mode.Mode.{Mode};
ghost use Rattle.squeue_serve.specs.Places.{AtEach, AtEachTwo, Became, HasClosed, Holds, IsNew};
ghost use Rattle.squeue_rings.specs.Rings.{AreNumbered};
ghost use Rattle.squeue_rings.specs.Starts.{StartAtHome};
ghost use Rattle.squeue_rings.specs.Bringing.{AreAt};
ghost use Rattle.squeue_rings.specs.Paced.{ArePaced};
ghost use Rattle.histories.specs.Keeping.{KeepsPace};
ghost use Rattle.squeue_rings.specs.Made.{times_made};
ghost use Rattle.squeue_rings.specs.Calling.{CallersAt};

use perimeter_core::Resident;

/// The new passes of a ring have brought nothing.
pub fn new_passes_have_brought_nothing<R: Resident>()
    ensures { (squeues spread r : ℕ) (ss : List (Named R)) (places : List (Option (Pass Element))) → 1 ≤ squeues → length ss ≡ squeues → AreNumbered ss
        → StartAtHome R.limits squeues ss → Each (λ s. r < length s.given.quotas) ss
        → AtEach (λ s o. Holds (IsNew r s) o) ss places → AreAt R.limits squeues spread r ss [] [] places }
{}

/// The new passes of a ring keep its pace.
pub fn new_passes_are_paced<R: Resident>()
    ensures { (squeues spread : ℕ) (mode : Mode) (budget r : ℕ) (ss : List (Named R)) (places : List (Option (Pass Element)))
        → AtEach (λ s o. Holds (IsNew r s) o) ss places → ArePaced R.limits squeues spread mode budget r ss places }
{}

/// A ring that closes its passes keeps its pace.
pub fn closing_keeps_the_pace<R: Resident>()
    ensures { (squeues spread : ℕ) (mode : Mode) (budget r : ℕ) (ss : List (Named R)) (entered reached : List Feed) (old new : List (Option (Pass Element)))
        → AreAt R.limits squeues spread r ss entered reached old → AtEachTwo (λ s o n. Became (HasClosed R.limits s) o n) ss old new
        → ArePaced R.limits squeues spread mode budget r ss old → ArePaced R.limits squeues spread mode budget r ss new }
{}

/// Behind the last mark of a ring others' marks leave its pace as it is.
pub fn a_ring_keeps_its_pace()
    ensures { (squeues spread : ℕ) (mode : Mode) (budget q : ℕ) (S : Setting) (r : ℕ) (H K : List Element)
        → KeepsPace squeues spread mode budget q S r H → made_by r K ≡ [] → KeepsPace squeues spread mode budget q S r (H ++ K) }
{}

/// A call is made by its own thread alone, so what a thread has seen of it stays as it is.
pub fn a_thread_knows_its_calls()
    ensures { (S : Setting) (H K : List Element) (c j k : ℕ) → Legal S (H ++ K) → made_by (S.rings + j) K ≡ []
        → times_made c j k (H ++ K) ≡ times_made c j k H }
{}

/// Only calls that the limits have are made.
pub fn nobody_makes_other_calls()
    ensures { (S : Setting) (H : List Element) (c j k : ℕ) → Legal S H → ¬ Contains S.limits.calls (c, j, k) → times_made c j k H ≡ 0 }
{}

/// Only threads that have a pass make calls.
pub fn no_thread_beyond_calls()
    ensures { (S : Setting) (H : List Element) (c j k : ℕ) → Legal S H → worker S ≤ S.rings + j → times_made c j k H ≡ 0 }
{}

/// The new passes of an application thread have made nothing.
pub fn new_passes_have_made_nothing<R: Resident>()
    ensures { (j : ℕ) (ss : List (Named R)) (places : List (Option (Pass Element))) → Each (λ s. s.given.rings + j < length s.given.quotas) ss
        → AtEach (λ s o. Holds (IsNew (s.given.rings + j) s) o) ss places → CallersAt R.limits j [] ss places }
{}
