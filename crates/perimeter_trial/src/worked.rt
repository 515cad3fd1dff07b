//! Worked histories: that they are legal, and what they lead to. Each is a function that does nothing, whose contract says it.
ghost use Rattle.std.specs.Prelude.{◌≡◌, [], ◌∷◌, Some, None};
ghost use Rattle.perimeter_core.specs.declared.entries.Entry.TheVariants.{Feed, Ask};
ghost use Rattle.perimeter_core.specs.declared.marks.SynchAct.TheVariants as Done;
ghost use Rattle.perimeter_core.specs.declared.marks.Mark.TheVariants as On;
ghost use Rattle.perimeter_core.specs.History.{plain, run};
ghost use Rattle.perimeter_core.specs.Deeds.{done, due, acts};
ghost use Rattle.perimeter_core.specs.Legal.{May, Legal};
ghost use Rattle.perimeter_core.specs.Blocks.{peri};
ghost use Rattle.perimeter_core.specs.Ending.{IsOver};
ghost use Rattle.perimeter_trial.specs.Worked as W;

/// Three rings fill and close, and the worker processes all five feeds in the order in which they were filled.
pub fn three_passes_one_worker()
    ensures legal { Legal W.three_passes W.three_passes_one_worker }
    ensures states { W.states W.three_passes W.three_passes_one_worker ≡ W.three_passes_states }
    ensures processed { done W.three_passes W.three_passes_one_worker ≡ W.all_five }
    ensures over { IsOver W.three_passes (run W.three_passes W.three_passes_one_worker) }
{}

/// A ring moves the block of its connection from one squeue to another: the marks at the first, and those at the second.
pub fn one_migration()
    ensures legal_out { Legal W.old_home W.moved_out }
    ensures states_out { W.states W.old_home W.moved_out ≡ W.moved_out_states }
    ensures acts_out { acts W.old_home W.moved_out 0 ≡ W.both_feeds }
    ensures gone { peri W.old_home W.moved_out 0 ≡ None }
    ensures legal_in { Legal W.new_home W.moved_in }
    ensures states_in { W.states W.new_home W.moved_in ≡ W.moved_in_states }
    ensures come { peri W.new_home W.moved_in 0 ≡ Some W.both_feeds }
    ensures next { due W.moved_in 0 ≡ 2 }
{}

/// An application thread asks, is granted the perimeter by a ring, and makes its call; what the ring left wakes the worker.
pub fn granted_call()
    ensures legal { Legal W.two_rings W.granted_call }
    ensures states { W.states W.two_rings W.granted_call ≡ W.granted_call_states }
    ensures acts { acts W.two_rings W.granted_call 0 ≡ W.fed_and_called }
{}

/// What may not come next, one for each thing that a legal history asks of an element.
pub fn what_may_not_follow()
    ensures unknown_pass { ¬ May W.two_rings [] (plain (On.Close 4)) }
    ensures worker_closes { ¬ May W.two_rings [] (plain (On.Close 3)) }
    ensures closed_pass_enters { ¬ May W.two_rings (plain (On.Close 0) ∷ []) (plain (On.Fill 0 (Feed 0 0 ∷ []))) }
    ensures ask_by_fill { ¬ May W.two_rings [] (plain (On.Fill 0 (Ask 0 ∷ []))) }
    ensures other_ring { ¬ May W.two_rings [] (plain (On.Fill 1 (Feed 0 0 ∷ []))) }
    ensures not_due { ¬ May W.two_rings [] (plain (On.Fill 0 (Feed 0 1 ∷ []))) }
    ensures past_limit { ¬ May W.two_rings [] (plain (On.Fill 0 (Feed 0 0 ∷ Feed 0 1 ∷ Feed 0 2 ∷ []))) }
    ensures past_quota { ¬ May W.two_rings [] (plain (On.Fill 1 (Feed 1 0 ∷ Feed 1 1 ∷ []))) }
    ensures block_elsewhere { ¬ May W.new_home [] (plain (On.Fill 0 (Feed 0 0 ∷ []))) }
    ensures ask_taken { ¬ May W.two_rings (plain (On.Claim 0 (Ask 0 ∷ [])) ∷ plain (On.Fill 1 (Feed 1 0 ∷ [])) ∷ []) (plain (On.Take 0)) }
    ensures act_without_ask { ¬ May W.two_rings (plain (On.Fast 0 (Feed 0 0)) ∷ []) (plain (On.Leave 0 0 (Done.Out 0))) }
    ensures no_such_call { ¬ May W.two_rings (plain (On.Claim 2 (Ask 2 ∷ [])) ∷ []) (plain (On.Leave 2 0 (Done.Call 0 0 1))) }
    ensures ring_away { ¬ May W.two_rings (plain (On.Claim 0 (Ask 0 ∷ [])) ∷ []) (plain (On.Leave 0 0 Done.Away)) }
    ensures may_not_leave { ¬ May W.two_rings (plain (On.Claim 1 (Ask 1 ∷ [])) ∷ []) (plain (On.Leave 1 0 (Done.Out 1))) }
    ensures in_twice { ¬ May W.two_rings (plain (On.Claim 0 (Ask 0 ∷ [])) ∷ []) (plain (On.Leave 0 0 (Done.In 0))) }
    ensures no_progress { ¬ May W.two_rings (plain (On.Claim 0 (Feed 0 0 ∷ [])) ∷ []) (plain (On.Leave 0 1 Done.None)) }
    ensures idle_note { ¬ May W.two_rings (plain (On.Fast 0 (Feed 0 0)) ∷ []) (record { mark = On.Leave 0 0 Done.None; note = W.both_feeds }) }
{}
