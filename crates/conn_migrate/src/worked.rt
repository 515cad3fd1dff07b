//! Worked histories of two squeues. Each is a function that does nothing, whose contract says what they tell.
ghost use Rattle.std.specs.Prelude.{◌≡◌, [], ◌∷◌, Some, None};
ghost use Rattle.perimeter_core.specs.declared.entries.Act.TheVariants as Did;
ghost use Rattle.perimeter_core.specs.Deeds.{acts};
ghost use Rattle.perimeter_core.specs.Legal.{Legal};
ghost use Rattle.histories.specs.Stays.{stay, ended_stay, joined};
ghost use Rattle.conn_migrate.specs.Worked as W;

/// A block leaves its first squeue after one feed, has one at the other, and comes back for a third.
pub fn there_and_back()
    ensures legal_home { Legal W.home W.at_home }
    ensures legal_other { Legal W.abroad W.at_the_other }
    ensures first { ended_stay W.there_and_back 0 0 ≡ Some (record { note = []; own = Did.Feed 0 ∷ []; had = Did.Feed 0 ∷ [] }) }
    ensures second { ended_stay W.there_and_back 0 1 ≡ Some (record { note = Did.Feed 0 ∷ []; own = Did.Feed 1 ∷ []; had = Did.Feed 0 ∷ Did.Feed 1 ∷ [] }) }
    ensures third { stay W.there_and_back 0 2 ≡ Some (record { note = Did.Feed 0 ∷ Did.Feed 1 ∷ []; own = Did.Feed 2 ∷ []; had = W.all_three }) }
    ensures goes_on { ended_stay W.there_and_back 0 2 ≡ None }
    ensures no_other { stay W.there_and_back 0 3 ≡ None }
    ensures together { joined W.there_and_back 0 3 ≡ W.all_three }
    ensures acts { acts W.home W.at_home 0 ≡ W.all_three }
{}
