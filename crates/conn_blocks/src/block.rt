//! A block, and one order served.

ghost use Rattle.std.specs.Prelude.{◌≡◌, ◌+◌, ◌*◌, ◌<◌, ◌≤◌, ◌^◌, false, true, [], ◌∷◌, ◌++◌, length, slice_get, Some, IfOk, OnOk};
ghost use Rattle.std.specs.List.{AllByRecursion};
ghost use Rattle.tcb_machine.specs.BlockState.{offered};
ghost use Rattle.byte_queues.specs.ReceiveQueue.{next_of};
ghost use Rattle.capture_reader.specs.Limits.{latest_time};
ghost use Rattle.conn_classifier.specs.Plan.{items_in, time_of, text_len_of};
ghost use Rattle.conn_blocks.specs.Limits.{most_calls};
ghost use Rattle.conn_blocks.specs.Holding.{IsNew};
ghost use Rattle.conn_blocks.specs.ServeOrder.{asks, receives, serve, serves_act, serving_of, IsActOf, IsDone, FeedsRise, IsTimely, SameOrder, SetsClock};

use crate::calls::Calls;
use crate::facts::{Connection, connection_of};
use crate::limits::CALLERS;
use crate::services::service_in;
use crate::stages::Stage;
use conn_classifier::{Item, Plan, PlanView};
use echo_services::{Service, ask, serve, tick};
use perimeter_core::{Act, Known};
use std::alloc::{AllocError, Global};
use std::marker::Model;
use tcb_machine::{Answer, Call, Tcb};

/// A connection's TCP state with the acts that made it, in order, and the answers of its calls.
#[derive(Drop)]
pub struct Block {
    /// Whose block it is, for contracts alone.
    of: Known<Connection>,
    service: Service,
    tcb: Tcb,
    order: Vec<Act>,
    /// Thread, number and answer of each call served.
    answers: Vec<(u32, u32, Answer)>,
    short: bool,
    /// The stage of each call of all threads, where calls may come early.
    pub(crate) stages: Vec<Stage>,
}

impl Model for Block {
    ghost use Rattle.std.specs.Prelude.{vec_capacity};
    ghost use Rattle.conn_blocks.specs.ServeOrder.{BlockOf};

    ghost Value = { BlockOf };

    ghost view = { λ b. record {
      of = b.of.value;
      service = b.service;
      tcb = b.tcb;
      order = b.order.items;
      answers = b.answers.items;
      short = b.short;
      stages = b.stages.items;
      order_room = vec_capacity b.order;
      answers_room = vec_capacity b.answers;
    } };
}

impl Block {
    /// A new block of connection `c`, in LISTEN, with all the room that its acts, their answers and calls that come early
    /// will take, and some for its replies. Fails only for want of memory.
    pub fn make(alloc: Global, plan: &Plan, calls: &Calls, c: u32) -> Result<Box<Block>, AllocError>
        requires { c < length plan.now.tuples }
        ensures { IfOk result (λ b. IsNew plan.now calls.now c b.value) }
    {
        Block::fresh(alloc, &plan.view(), calls, c)
    }

    /// The same, of a plan that is borrowed.
    pub(crate) fn fresh(
        alloc: Global,
        plan: &PlanView<'_>,
        calls: &Calls,
        c: u32,
    ) -> Result<Box<Block>, AllocError>
        requires { c < length plan.now.tuples }
        ensures { IfOk result (λ b. IsNew plan.now calls.now c b.value) }
    {
        let asked = calls.count_on(c);
        let mut tcb = Tcb::make(alloc);
        // Mostly one segment answers each item.
        tcb.reserve_replies(plan.items(c) as usize)?;
        let block = Block {
            of: connection_of(plan, calls, c),
            service: service_in(plan, c),
            tcb,
            order: Vec::with_capacity(alloc, plan.items(c) as usize + asked)?,
            answers: Vec::with_capacity(alloc, asked)?,
            short: false,
            stages: vec![in alloc; Stage::Unasked; CALLERS as usize * calls.longest() as usize]?,
        };
        Ok(Box::new(alloc, block)?)
    }

    /// The acts served, in order.
    pub fn order(&self) -> &[Act]
        ensures { result.now ≡ self.now.order }
    {
        self.order.as_slice()
    }

    /// The connection's TCP state.
    pub fn tcb(&self) -> &Tcb
        ensures { result.now ≡ self.now.tcb }
    {
        &self.tcb
    }

    /// How many calls were served.
    pub fn answers(&self) -> usize
        ensures { result ≡ length self.now.answers }
    {
        self.answers.len()
    }

    /// The thread, the number and the answer of the call that was served as number `i`.
    pub fn answer(&self, i: usize) -> (u32, u32, Answer)
        requires { i < length self.now.answers }
        ensures { slice_get self.now.answers i ≡ Some result }
    {
        self.answers[i]
    }

    /// Whether memory ran out in an act. A short block promises nothing of its replies.
    pub fn short(&self) -> bool
        ensures { result ≡ self.now.short }
    {
        self.short
    }

    /// An item of the connection is received.
    fn receive(&mut self, alloc: Global, item: Item, text: &[u8]) -> Result<(), AllocError>
        requires clock { self.old.tcb.clock ≤ time_of item }
        requires time { time_of item ≤ latest_time }
        requires text { length text.now ≡ text_len_of item }
        requires received { next_of self.old.tcb.recv < 2 ^ 60 }
        requires offered { offered self.old.tcb < 2 ^ 60 }
        ensures step { OnOk result (self.new ≡ record self.old { tcb = receives self.old.service item text.now self.old.tcb }) }
        ensures clock { OnOk result (self.new.tcb.clock ≡ time_of item) }
        ensures received { OnOk result (next_of self.new.tcb.recv ≤ next_of self.old.tcb.recv + 2 ^ 20) }
        ensures offered { OnOk result (offered self.new.tcb ≤ offered self.old.tcb + 2 ^ 16) }
        ensures same { SameOrder self.new self.old × (self.new.short ≡ self.old.short) }
    {
        match item {
            Item::Time { at } => tick(&mut self.tcb, alloc, at),
            Item::Segment { at, iss, seg, .. } => {
                let mut service = self.service;
                serve(&mut service, &mut self.tcb, alloc, at, iss, &seg, text)
            }
        }
    }

    /// Call `k` of thread `j` is made.
    fn answer_call(&mut self, alloc: Global, j: u32, k: u32, call: Call) -> Result<(), AllocError>
        ensures step { OnOk result (serving_of self.new ≡ asks self.old.service j k call (serving_of self.old)) }
        ensures clock { OnOk result (self.new.tcb.clock ≡ self.old.tcb.clock) }
        ensures received { OnOk result (next_of self.new.tcb.recv ≤ next_of self.old.tcb.recv + 2 ^ 20) }
        ensures offered { OnOk result (offered self.new.tcb ≤ offered self.old.tcb + 2 ^ 16) }
        ensures same { SameOrder self.new self.old × (self.new.short ≡ self.old.short) }
    {
        let mut service = self.service;
        let answer = ask(&mut service, &mut self.tcb, alloc, call)?;
        self.answers.push((j, k, answer))?;
        Ok(())
    }

    /// One act of connection `c` is done.
    fn apply(
        &mut self,
        alloc: Global,
        plan: &PlanView<'_>,
        calls: &Calls,
        c: u32,
        act: Act,
    ) -> Result<(), AllocError>
        requires conn { c < length plan.now.tuples }
        requires act { IsActOf plan.now calls.now c act }
        requires clock { IsTimely plan.now c act self.old.tcb.clock }
        requires received { next_of self.old.tcb.recv < 2 ^ 60 }
        requires offered { offered self.old.tcb < 2 ^ 60 }
        ensures same { SameOrder self.new self.old × (self.new.short ≡ self.old.short) }
        ensures step { OnOk result (serving_of self.new ≡ serves_act plan.now calls.now c self.old.service act (serving_of self.old)) }
        ensures clock { OnOk result (SetsClock plan.now c act self.old.tcb.clock self.new.tcb.clock) }
        ensures received { OnOk result (next_of self.new.tcb.recv ≤ next_of self.old.tcb.recv + 2 ^ 20) }
        ensures offered { OnOk result (offered self.new.tcb ≤ offered self.old.tcb + 2 ^ 16) }
    {
        match act {
            Act::Feed { n } => self.receive(alloc, plan.item(c, n), plan.text(c, n)),
            Act::Call { j, k } => self.answer_call(alloc, j, k, calls.get(j, k).1),
        }
    }

    /// One act of connection `c` joins the order and is done.
    fn serve(
        &mut self,
        alloc: Global,
        plan: &PlanView<'_>,
        calls: &Calls,
        c: u32,
        act: Act,
    ) -> Result<(), AllocError>
        requires conn { c < length plan.now.tuples }
        requires act { IsActOf plan.now calls.now c act }
        requires clock { IsTimely plan.now c act self.old.tcb.clock }
        requires received { next_of self.old.tcb.recv < 2 ^ 60 }
        requires offered { offered self.old.tcb < 2 ^ 60 }
        ensures order { OnOk result (self.new.order ≡ self.old.order ++ act ∷ []) }
        ensures same { OnOk result ((self.new.service ≡ self.old.service) × (self.new.short ≡ self.old.short)) }
        ensures step { OnOk result (serving_of self.new ≡ serves_act plan.now calls.now c self.old.service act (serving_of self.old)) }
        ensures clock { OnOk result (SetsClock plan.now c act self.old.tcb.clock self.new.tcb.clock) }
        ensures received { OnOk result (next_of self.new.tcb.recv ≤ next_of self.old.tcb.recv + 2 ^ 20) }
        ensures offered { OnOk result (offered self.new.tcb ≤ offered self.old.tcb + 2 ^ 16) }
    {
        self.order.push(act)?;
        self.apply(alloc, plan, calls, c, act)
    }

    /// An act that comes next joins the order, in room that is there. A block that isn't short does it, and is short from
    /// then on where memory is missing.
    pub(crate) fn keep(
        &mut self,
        alloc: Global,
        plan: &PlanView<'_>,
        calls: &Calls,
        c: u32,
        act: Act,
    )
        requires conn { c < length plan.now.tuples }
        requires act { IsActOf plan.now calls.now c act }
        requires room { length self.old.order < self.old.order_room }
        requires clock { self.old.short ≡ false → IsTimely plan.now c act self.old.tcb.clock }
        requires received { self.old.short ≡ false → next_of self.old.tcb.recv < 2 ^ 60 }
        requires offered { self.old.short ≡ false → offered self.old.tcb < 2 ^ 60 }
        ensures order { self.new.order ≡ self.old.order ++ act ∷ [] }
        ensures same { (self.new.service ≡ self.old.service) × (self.new.stages ≡ self.old.stages) × (self.new.order_room ≡ self.old.order_room)
            × (self.old.answers_room ≤ self.new.answers_room) × (self.new.of ≡ self.old.of) }
        ensures short { self.old.short ≡ true → self.new.short ≡ true }
        ensures done { self.new.short ≡ false → IsDone plan.now calls.now c act self.old self.new }
    {
        self.order.push_reserved(act);
        if !self.short {
            self.short = self.apply(alloc, plan, calls, c, act).is_err();
        }
    }
}

/// Connection `c` served on one thread: the acts in this order, from a new block. The feeds' numbers rise, and there are at most
/// 4,096 acts more than the connection has items. Fails only for want of memory.
///
/// # Example
///
/// ```
/// let plan = plan(rt, alloc, capture, false)?;
/// if plan.conns() == 0 || !can_serve(&plan, calls, order) {
///     return Ok(None);
/// }
/// Ok(Some(serve_one(alloc, &plan, calls, 0, order)?))
/// ```
pub fn serve_one(
    alloc: Global,
    plan: &Plan,
    calls: &Calls,
    c: u32,
    order: &[Act],
) -> Result<Box<Block>, AllocError>
    requires conn { c < length plan.now.tuples }
    requires acts { AllByRecursion (IsActOf plan.now calls.now c) order.now }
    requires rising { FeedsRise 0 order.now }
    requires few { length order.now ≤ length (items_in plan.now c) + 4 * most_calls }
    ensures order { IfOk result (λ b. b.value.order ≡ order.now) }
    ensures whole { IfOk result (λ b. b.value.short ≡ false) }
    ensures served { IfOk result (λ b. serving_of b.value ≡ serve plan.now calls.now c order.now) }
{
    serve_order(alloc, &plan.view(), calls, c, order)
}

/// The same, of a plan that is borrowed.
fn serve_order(
    alloc: Global,
    plan: &PlanView<'_>,
    calls: &Calls,
    c: u32,
    order: &[Act],
) -> Result<Box<Block>, AllocError>
    requires conn { c < length plan.now.tuples }
    requires acts { AllByRecursion (IsActOf plan.now calls.now c) order.now }
    requires rising { FeedsRise 0 order.now }
    requires few { length order.now ≤ length (items_in plan.now c) + 4 * most_calls }
    ensures order { IfOk result (λ b. b.value.order ≡ order.now) }
    ensures whole { IfOk result (λ b. b.value.short ≡ false) }
    ensures served { IfOk result (λ b. serving_of b.value ≡ serve plan.now calls.now c order.now) }
{
    let mut block = Block::fresh(alloc, plan, calls, c)?;
    for act in order {
        block.serve(alloc, plan, calls, c, *act)?;
    }
    Ok(block)
}
