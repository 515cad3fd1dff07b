//! Acts that come one by one, in any order of the threads' calls.
//!
//! A squeue hands a block its acts as they come: feeds in order, and calls of threads that know nothing of each other. A call
//! that came before is dropped. One that comes before an earlier call of its thread on the connection is held back until that one
//! was made. A block never answers want of memory here: it is short from then on, and its order goes on.

ghost use Rattle.std.specs.Prelude.{◌≡◌, ℕ, ◌+◌, ◌*◌, ◌<◌, List, [], ◌∷◌, ◌++◌, length, map, set, take, drop, take_while};
ghost use Rattle.perimeter_core.specs.declared.entries.Act.{Act};
ghost use Rattle.perimeter_core.specs.declared.entries.Act.TheVariants as Act;
ghost use Rattle.conn_classifier.specs.Plan.{items_in};
ghost use Rattle.conn_blocks.specs.declared.stages.Stage.TheVariants as Stage;
ghost use Rattle.conn_blocks.specs.CallLists.{calls_of};
ghost use Rattle.conn_blocks.specs.Limits.{callers};
ghost use Rattle.conn_blocks.specs.ServeOrder.{IsActOf, IsCallOn};
ghost use Rattle.perimeter_core.specs.Deeds.{feed_numbers};
ghost use Rattle.conn_blocks.specs.Orders.{call_numbers, numbers_from, numbers_on};
ghost use Rattle.conn_blocks.specs.Holding.{all_made, is_held_back, is_made, stage_at, ComesNext, Fits, IsSettled, StandsFor};

use crate::block::Block;
use crate::calls::Calls;
use crate::stages::{Stage, place};
use conn_classifier::PlanView;
use perimeter_core::Act;
use std::alloc::Global;

impl Block {
    /// Feed `n` of connection `c` comes, which is the block's next one.
    pub(crate) fn feed(&mut self, alloc: Global, plan: &PlanView<'_>, calls: &Calls, c: u32, n: u32)
        requires conn { c < length plan.now.tuples }
        requires item { n < length (items_in plan.now c) }
        requires next { (came : List Act) × StandsFor plan.now calls.now c came self.old × (length (feed_numbers came) ≡ n) }
        ensures { (came : List Act) → StandsFor plan.now calls.now c came self.old → StandsFor plan.now calls.now c (came ++ Act.Feed n ∷ []) self.new }
    {
        self.keep_next(alloc, plan, calls, c, Act::Feed { n });
    }

    /// Call `k` of thread `j` comes, which is on connection `c`, for the first time or again, in its turn or early.
    pub(crate) fn call(
        &mut self,
        alloc: Global,
        plan: &PlanView<'_>,
        calls: &Calls,
        c: u32,
        j: u32,
        k: u32,
    )
        requires conn { c < length plan.now.tuples }
        requires exists { IsCallOn calls.now c (Act.Call j k) }
        requires stands { (came : List Act) × StandsFor plan.now calls.now c came self.old }
        ensures { (came : List Act) → StandsFor plan.now calls.now c came self.old → StandsFor plan.now calls.now c (came ++ Act.Call j k ∷ []) self.new }
    {
        match self.stage(j, k) {
            Stage::Held | Stage::Made => {}
            Stage::Unasked => self.first_call(alloc, plan, calls, c, j, k),
        }
    }

    /// Call `k` of thread `j` comes for the first time.
    fn first_call(
        &mut self,
        alloc: Global,
        plan: &PlanView<'_>,
        calls: &Calls,
        c: u32,
        j: u32,
        k: u32,
    )
        requires conn { c < length plan.now.tuples }
        requires exists { IsCallOn calls.now c (Act.Call j k) }
        requires stands { (came : List Act) × StandsFor plan.now calls.now c came self.old }
        requires unasked { stage_at self.old.stages j k ≡ Stage.Unasked }
        ensures { (came : List Act) → StandsFor plan.now calls.now c came self.old → StandsFor plan.now calls.now c (came ++ Act.Call j k ∷ []) self.new }
    {
        self.stages[place(j, k)] = Stage::Held;
        if self.is_next(calls, c, j, k) {
            self.let_go(alloc, plan, calls, c, j, k);
        }
    }

    /// The stage of call `k` of thread `j`.
    fn stage(&self, j: u32, k: u32) -> Stage
        requires { 4 * k + j < length self.now.stages }
        ensures { result ≡ stage_at self.now.stages j k }
    {
        self.stages[place(j, k)]
    }

    /// Whether call `k` of thread `j` was made.
    fn is_made(&self, j: u32, k: u32) -> bool
        requires { 4 * k + j < length self.now.stages }
        ensures { result ≡ is_made (stage_at self.now.stages j k) }
    {
        matches!(self.stage(j, k), Stage::Made)
    }

    /// Whether call `k` of thread `j` is held back.
    fn is_held(&self, j: u32, k: u32) -> bool
        requires { 4 * k + j < length self.now.stages }
        ensures { result ≡ is_held_back (stage_at self.now.stages j k) }
    {
        matches!(self.stage(j, k), Stage::Held)
    }

    /// Whether all calls of thread `j` on connection `c` with a smaller number than `k` were made.
    fn is_next(&self, calls: &Calls, c: u32, j: u32, k: u32) -> bool
        requires thread { j < callers }
        requires call { k < length (calls_of calls.now j) }
        requires table { (i : ℕ) → i < length (calls_of calls.now j) → 4 * i + j < length self.now.stages }
        ensures { result ≡ all_made self.now.stages j (numbers_from 0 c (take k (calls_of calls.now j))) }
    {
        for i in 0..k {
            if calls.get(j, i).0 == c && !self.is_made(j, i) {
                return false;
            }
        }
        true
    }

    /// The calls of thread `j` on connection `c` from number `from` on are made, up to the first that isn't held back.
    fn let_go(
        &mut self,
        alloc: Global,
        plan: &PlanView<'_>,
        calls: &Calls,
        c: u32,
        j: u32,
        from: u32,
    )
        requires conn { c < length plan.now.tuples }
        requires thread { j < callers }
        requires settled { IsSettled plan.now calls.now c self.old }
        requires next { numbers_on calls.now c j ≡ call_numbers j self.old.order ++ numbers_from from c (drop from (calls_of calls.now j)) }
        ensures order { self.new.order ≡ self.old.order
            ++ map (Act.Call j) (take_while (λ i. is_held_back (stage_at self.old.stages j i)) (numbers_from from c (drop from (calls_of calls.now j)))) }
        ensures settled { IsSettled plan.now calls.now c self.new }
        ensures fits { (came : List Act) → Fits calls.now came self.old → Fits calls.now came self.new }
    {
        for k in from..calls.len(j) {
            if calls.get(j, k).0 == c {
                if !self.is_held(j, k) {
                    return;
                }
                self.make_call(alloc, plan, calls, c, j, k);
            }
        }
    }

    /// Call `k` of thread `j` is made, which is the thread's next one on connection `c`.
    fn make_call(
        &mut self,
        alloc: Global,
        plan: &PlanView<'_>,
        calls: &Calls,
        c: u32,
        j: u32,
        k: u32,
    )
        requires conn { c < length plan.now.tuples }
        requires exists { IsCallOn calls.now c (Act.Call j k) }
        requires settled { IsSettled plan.now calls.now c self.old }
        requires next { ComesNext plan.now calls.now c self.old.order (Act.Call j k) }
        ensures order { self.new.order ≡ self.old.order ++ Act.Call j k ∷ [] }
        ensures stages { self.new.stages ≡ set self.old.stages (4 * k + j) Stage.Made }
        ensures settled { IsSettled plan.now calls.now c self.new }
    {
        self.stages[place(j, k)] = Stage::Made;
        self.keep_next(alloc, plan, calls, c, Act::Call { j, k });
    }

    /// An act that comes next is kept.
    fn keep_next(&mut self, alloc: Global, plan: &PlanView<'_>, calls: &Calls, c: u32, act: Act)
        requires conn { c < length plan.now.tuples }
        requires act { IsActOf plan.now calls.now c act }
        requires settled { IsSettled plan.now calls.now c self.old }
        requires next { ComesNext plan.now calls.now c self.old.order act }
        ensures order { self.new.order ≡ self.old.order ++ act ∷ [] }
        ensures stages { self.new.stages ≡ self.old.stages }
        ensures settled { IsSettled plan.now calls.now c self.new }
    {
        self.keep(alloc, plan, calls, c, act);
    }
}
