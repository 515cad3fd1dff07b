//! That the quotas suffice, and what linked histories say at the end of a run: a block's feeds are those that were brought, and where
//! each call was made once and all feeds were brought, its acts are all. Each law is a function that does nothing, whose contract is
//! the law.

ghost use Rattle.std.specs.Prelude.{◌≡◌, ℕ, ◌%◌, ◌<◌, ◌==◌, true, if◌then◌else◌, All, List, length};
ghost use Rattle.std.specs.Option.{option_map_or};
ghost use Rattle.std.specs.List.{range_with_len};
ghost use Rattle.turn_gate.specs.History.{Each};
ghost use Rattle.perimeter_core.specs.declared.entries.Act.{Act};
ghost use Rattle.perimeter_core.specs.declared.entries.Feed.{Feed};
ghost use Rattle.perimeter_core.specs.Perimeter.{is_here};
ghost use Rattle.perimeter_core.specs.History.{Element, Setting, run};
ghost use Rattle.perimeter_core.specs.Deeds.{acts, due, fed, feed_numbers};
ghost use Rattle.perimeter_core.specs.Legal.{Legal};
ghost use Rattle.perimeter_core.specs.Ending.{IsOver};
ghost use Rattle.squeue_state.specs.Naming.{Named};
ghost use Rattle.conn_classifier.specs.Plan.{PlanOf, IsPlan, items_in};
ghost use Rattle.conn_classifier.specs.RingList.{IsRingList};
ghost use Rattle.conn_blocks.specs.Allowed.{all_calls};
ghost use Rattle.conn_blocks.specs.CallLists.{CallLists, call_at, conns_called};
ghost use Rattle.conn_blocks.specs.ServeOrder.{BlockOf};
ghost use Rattle.conn_blocks.specs.Holding.{StandsFor};
ghost use Rattle.conn_blocks.specs.Limits.{callers};
ghost use Rattle.conn_blocks.specs.Orders.{IsAll};
ghost use Rattle.histories.specs.Runs.{InOrder, brought};
ghost use Rattle.squeue_rings.specs.Rings.{MayBring};
ghost use Rattle.squeue_rings.specs.Calling.{MayMakeEach};
ghost use Rattle.squeue_pool.specs.Counting.{times_called};
ghost use Rattle.ring_threads.specs.MadeFor.{IsMadeFor};

use perimeter_core::Resident;

/// The list of a ring has the feeds of each of its connections in order, and all of them.
pub fn a_rings_list_is_whole()
    ensures order { (p : PlanOf) (rings r : ℕ) (list : List Feed) → IsPlan p → IsRingList p rings r list → InOrder list }
    ensures whole { (p : PlanOf) (rings r : ℕ) (list : List Feed) (c : ℕ) → IsPlan p → IsRingList p rings r list → c < length p.tuples → r ≡ c % rings
        → brought c list ≡ length (items_in p c) }
{}

/// A ring may bring its list over squeues that were made with these quotas.
pub fn a_rings_list_may_be_brought<R: Resident>()
    ensures { (p : PlanOf) (calls : CallLists) (squeues rings spread r : ℕ) (list : List Feed) (ss : List (Named R)) → IsPlan p → r < rings
        → IsRingList p rings r list
        → Each (IsMadeFor R.limits p calls squeues rings spread) ss → Each (MayBring R.limits squeues spread r list) ss }
{}

/// An application thread may make its calls over squeues that were made with these quotas.
pub fn a_threads_calls_may_be_made<R: Resident>()
    ensures { (p : PlanOf) (calls : CallLists) (squeues rings spread j : ℕ) (ss : List (Named R)) → j < callers
        → All (λ call. call.0 < length p.tuples) (all_calls calls)
        → Each (IsMadeFor R.limits p calls squeues rings spread) ss → MayMakeEach R.limits j (conns_called calls j) ss }
{}

/// Acts with the feeds of all items in order, and with each call as often as the lists have it on the connection, are all.
pub fn whole_acts()
    ensures { (p : PlanOf) (calls : CallLists) (c : ℕ) (done : List Act) → feed_numbers done ≡ range_with_len 0 (length (items_in p c))
        → ((j k : ℕ) → times_called j k done ≡ option_map_or (λ x. if x.0 == c then 1 else 0) (call_at calls j k) 0) → IsAll p calls c done }
{}

/// Once a history is over, a block that is here has had all feeds that were brought for it.
pub fn feeds_of_a_block()
    ensures { (S : Setting) (H : List Element) (c : ℕ) → Legal S H → IsOver S (run S H) → is_here (run S H) c ≡ true → fed (acts S H c) ≡ due H c }
{}

/// The feeds of the acts for which a block stands are numbered from 0.
pub fn fed_is_numbered()
    ensures { (p : PlanOf) (calls : CallLists) (c : ℕ) (came : List Act) (b : BlockOf) → StandsFor p calls c came b
        → feed_numbers came ≡ range_with_len 0 (fed came) }
{}
