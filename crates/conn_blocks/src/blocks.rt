//! The resident of TCP blocks: a place for each connection of a plan, with its block where that is here.
//!
//! It gives each act to the block of its connection, which holds early calls back. A block for which memory is missing is short
//! from then on, and its order goes on. It knows nothing of squeues but which one it is of.

ghost use Rattle.std.specs.Prelude.{◌≡◌, ◌%◌, ◌==◌, ◌<◌, All, IfOk, Some, None, [], length, if◌then◌else◌};
ghost use Rattle.std.specs.List.{AllByRecursion};
ghost use Rattle.conn_blocks.specs.Allowed.{all_calls, limits_in};

use crate::block::Block;
use crate::calls::Calls;
use crate::facts::Origin;
use conn_classifier::{Plan, PlanView};
use perimeter_core::Resident;
use std::alloc::{AllocError, Global};

/// The blocks of the connections that are at squeue number `squeue` of `squeues`, each at the place of its connection. A
/// connection moves to the next squeue after each `spread` feeds, and never where that is 0.
#[derive(Drop)]
pub struct Blocks<'p> {
    plan: PlanView<'p>,
    calls: &'p Calls,
    /// These three numbers say how often a block may leave, for contracts alone.
    squeue: u32,
    squeues: u32,
    spread: u32,
    places: Vec<Option<Box<Block>>>,
    ghost each: { length places.items ≡ length plan.tuples },
    ghost named: { All (λ call. call.0 < length plan.tuples) (all_calls calls.now) },
}

impl<'p> Blocks<'p> {
    ghost use Rattle.perimeter_core.specs.Blocks.{Blocks as Had};
    ghost use Rattle.conn_blocks.specs.Places.{NoneShort, NotShort, PlaceFits, PlacesStand, Stands, limits_of, origin_of, size_of};
    ghost use Rattle.placed_parts.specs.Standing.{first_here};

    /// A place for each connection of the plan, and new blocks of those whose first squeue is number `squeue`. Fails only for
    /// want of memory.
    pub fn make(
        alloc: Global,
        plan: &'p Plan<'_>,
        calls: &'p Calls,
        squeue: u32,
        squeues: u32,
        spread: u32,
    ) -> Result<Blocks<'p>, AllocError>
        requires squeue { squeue < squeues }
        requires calls { All (λ call. call.0 < length plan.now.tuples) (all_calls calls.now) }
        ensures whole { IfOk result (λ r. NoneShort r) }
        ensures stands { IfOk result (λ r. Stands r (first_here (length plan.now.tuples) squeue squeues)) }
        ensures size { IfOk result (λ r. size_of r ≡ length plan.now.tuples) }
        ensures limits { IfOk result (λ r. limits_of r ≡ limits_in plan.now calls.now squeue squeues spread) }
        ensures origin { IfOk result (λ r. origin_of r ≡ record { plan = plan.now; calls = calls.now }) }
    {
        let plan = plan.view();
        let places = Blocks::first(alloc, &plan, calls, squeue, squeues)?;
        Ok(Blocks {
            plan,
            calls,
            squeue,
            squeues,
            spread,
            places,
        })
    }

    /// The places at first.
    fn first(
        alloc: Global,
        plan: &PlanView<'_>,
        calls: &Calls,
        squeue: u32,
        squeues: u32,
    ) -> Result<Vec<Option<Box<Block>>>, AllocError>
        requires { squeue < squeues }
        ensures whole { IfOk result (λ v. AllByRecursion NotShort v.items) }
        ensures stand { IfOk result (λ v. PlacesStand plan.now calls.now v.items (first_here (length plan.now.tuples) squeue squeues)) }
        ensures each { IfOk result (λ v. length v.items ≡ length plan.now.tuples) }
    {
        let mut places = Vec::new(alloc);
        for c in 0..plan.conns() {
            places.push(Blocks::place(alloc, plan, calls, c, c % squeues == squeue)?)?;
        }
        Ok(places)
    }

    /// What lies at the place of connection `c` at first.
    fn place(
        alloc: Global,
        plan: &PlanView<'_>,
        calls: &Calls,
        c: u32,
        here: bool,
    ) -> Result<Option<Box<Block>>, AllocError>
        requires { c < length plan.now.tuples }
        ensures whole { IfOk result (λ place. NotShort place) }
        ensures fits { IfOk result (λ place. PlaceFits plan.now calls.now c (Some place) (if here then Some [] else None)) }
    {
        if !here {
            return Ok(None);
        }
        let block = Block::fresh(alloc, plan, calls, c)?;
        Ok(Some(block))
    }

    /// The blocks that are here, each at the place of its connection.
    pub fn into_places(self) -> Vec<Option<Box<Block>>>
        ensures each { length result.items ≡ size_of self.entry }
        ensures blocks { (blocks : Had) → Stands self.entry blocks → PlacesStand (origin_of self.entry).plan (origin_of self.entry).calls result.items blocks }
    {
        self.places
    }
}

impl<'p> Resident for Blocks<'p> {
    ghost use Rattle.conn_blocks.specs.Places.{IsPartOf, PartStands, Stands, limits_of, origin_of, size_of};
    ghost use Rattle.conn_blocks.specs.PlaceLaws.{blocks_in_range, blocks_same_feeds, blocks_within, part_same_feeds};

    type Part = Box<Block>;

    type Origin = Origin;

    ghost stands = { Stands };

    ghost part_stands = { PartStands };

    ghost limits = { limits_of };

    ghost size = { size_of };

    ghost origin = { origin_of };

    ghost is_part_of = { IsPartOf };

    fn conns(&self) -> u32 {
        self.plan.conns()
    }

    fn is_here(&self, c: u32) -> bool {
        self.places[c as usize].is_some()
    }

    fn feed(&mut self, alloc: Global, c: u32, n: u32) {
        if let Some(block) = &mut self.places[c as usize] {
            block.feed(alloc, &self.plan, self.calls, c, n);
        }
    }

    fn call(&mut self, alloc: Global, c: u32, j: u32, k: u32) {
        if let Some(block) = &mut self.places[c as usize] {
            block.call(alloc, &self.plan, self.calls, c, j, k);
        }
    }

    fn take_out(&mut self, c: u32) -> Box<Block> {
        match self.places[c as usize].take() {
            Some(block) => block,
            None => unreachable!(),
        }
    }

    fn put_in(&mut self, c: u32, part: Box<Block>) {
        self.places[c as usize] = Some(part);
    }

    ghost in_range = { blocks_in_range };

    ghost limits_in_range = { blocks_within };

    ghost same_part_feeds = { part_same_feeds };

    ghost same_feeds = { blocks_same_feeds };
}
