//! The law of the calls among a block's acts. It is a function that does nothing, whose contract is the law.
ghost use Rattle.std.specs.Prelude.{◌≡◌, ℕ, ◌<◌, true, List, Some, slice_get};
ghost use Rattle.perimeter_core.specs.Perimeter.{is_here};
ghost use Rattle.perimeter_core.specs.History.{run};
ghost use Rattle.perimeter_core.specs.Deeds.{acts};
ghost use Rattle.histories.specs.Endings.{Ending};
ghost use Rattle.histories.specs.Stays.{AreLinked};
ghost use Rattle.squeue_pool.specs.Runs.{made_in_all};
ghost use Rattle.squeue_pool.specs.Counting.{times_called};

/// Where the block of a connection is at the end, the calls among its acts are those that all histories together made.
pub fn a_blocks_calls_are_those_of_all_histories()
    ensures { (n : ℕ) (hs : List Ending) (c q : ℕ) (h : Ending) (j k : ℕ) → AreLinked n hs → c < n → slice_get hs q ≡ Some h
        → is_here (run h.setting h.history) c ≡ true → times_called j k (acts h.setting h.history c) ≡ made_in_all c j k hs }
{}
