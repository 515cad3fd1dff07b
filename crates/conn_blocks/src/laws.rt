//! The laws of settled and whole orders, of blocks that get their acts one by one, and of the places where blocks lie. Each is a
//! function that does nothing, whose contract is the law.

ghost use Rattle.std.specs.Prelude.{◌≡◌, ℕ, ◌<◌, Contains, false, List, [], Option, Some, None, Box, map, length, slice_get};
ghost use Rattle.std.specs.List.{range_with_len};
ghost use Rattle.std.specs.declared.alloc.Global.{Global};
ghost use Rattle.perimeter_core.specs.declared.entries.Act.{Act};
ghost use Rattle.perimeter_core.specs.declared.entries.Act.TheVariants as Act;
ghost use Rattle.perimeter_core.specs.Blocks.{Blocks as Had};
ghost use Rattle.conn_classifier.specs.Plan.{PlanOf, items_in};
ghost use Rattle.tcb_machine.specs.declared.kinds.Call.{Call};
ghost use Rattle.conn_blocks.specs.Allowed.{all_calls};
ghost use Rattle.conn_blocks.specs.CallLists.{CallLists, call_at, calls_of};
ghost use Rattle.conn_blocks.specs.Limits.{callers};
ghost use Rattle.conn_blocks.specs.Orders.{is_held, numbers_on, settle, IsAll, IsWhole};
ghost use Rattle.conn_blocks.specs.ServeOrder.{serve, serving_of, BlockOf};
ghost use Rattle.conn_blocks.specs.Holding.{is_held_back, stage_at, HasFirstCalls, IsNew, StandsFor};
ghost use Rattle.conn_blocks.specs.Places.{PlacesStand};

/// Where all feeds came in order, and all calls in any order, what is kept is a whole order.
pub fn a_settled_order_is_whole()
    ensures { (p : PlanOf) (calls : CallLists) (c : ℕ) (acts : List Act) → IsAll p calls c acts → IsWhole p calls c (settle calls c acts) }
{}

/// A connection without calls has one whole order: its feeds, from the first to the last.
pub fn whole_orders_without_calls_are_equal()
    ensures feeds { (p : PlanOf) (calls : CallLists) (c : ℕ) (order : List Act) → ((j : ℕ) → numbers_on calls c j ≡ []) → IsWhole p calls c order
        → order ≡ map Act.Feed (range_with_len 0 (length (items_in p c))) }
    ensures equal { (p : PlanOf) (calls : CallLists) (c : ℕ) (order other : List Act) → ((j : ℕ) → numbers_on calls c j ≡ [])
        → IsWhole p calls c order → IsWhole p calls c other → order ≡ other }
{}

/// A new block has had no acts.
pub fn a_new_block_stands_for_no_acts()
    ensures { (p : PlanOf) (calls : CallLists) (c : ℕ) (b : BlockOf) → IsNew p calls c b → StandsFor p calls c [] b }
{}

/// What a block has had fixes its order: what settling keeps. It holds back the calls that came and weren't kept.
pub fn a_block_holds_back_what_settling_holds()
    ensures order { (p : PlanOf) (calls : CallLists) (c : ℕ) (came : List Act) (b : BlockOf) → StandsFor p calls c came b → b.order ≡ settle calls c came }
    ensures held { (p : PlanOf) (calls : CallLists) (c : ℕ) (came : List Act) (b : BlockOf) (j k : ℕ) → StandsFor p calls c came b → j < callers
        → k < length (calls_of calls j) → is_held_back (stage_at b.stages j k) ≡ is_held came (settle calls c came) j k }
    ensures served { (p : PlanOf) (calls : CallLists) (c : ℕ) (came : List Act) (b : BlockOf) → StandsFor p calls c came b → b.short ≡ false
        → serving_of b ≡ serve p calls c (settle calls c came) }
{}

/// Where places stand for what was done to blocks, the block of each connection that is here lies at its place and stands for
/// what was done to it. The place of a connection that isn't here is empty.
pub fn each_block_lies_at_its_place()
    ensures here { (p : PlanOf) (calls : CallLists) (places : List (Option (Box BlockOf Global))) (blocks : Had) (c : ℕ) (came : List Act)
        → PlacesStand p calls places blocks
        → blocks c ≡ Some came → (b : Box BlockOf Global) × (slice_get places c ≡ Some (Some b)) × StandsFor p calls c came b.value }
    ensures away { (p : PlanOf) (calls : CallLists) (places : List (Option (Box BlockOf Global))) (blocks : Had) (c : ℕ) → PlacesStand p calls places blocks
        → blocks c ≡ None → c < length places → slice_get places c ≡ Some None }
{}

/// Settling keeps an order as it is where the calls of each thread stand in order and once, as its first ones on the connection.
pub fn calls_in_order_settle_to_themselves()
    ensures { (calls : CallLists) (c : ℕ) (order : List Act) → HasFirstCalls calls c order → settle calls c order ≡ order }
{}

/// A call of the lists stands among all calls.
pub fn each_call_stands_among_all()
    ensures { (calls : CallLists) (c j k : ℕ) (call : Call) → call_at calls j k ≡ Some (c, call) → Contains (all_calls calls) (c, j, k) }
{}
