//! The resident: a place for each stream of a plan, with its block where that is here.

ghost use Rattle.std.specs.Prelude.{◌≡◌, ◌<◌, All, IfOk, length};

use crate::block::StreamBlock;
use perimeter_core::Resident;
use std::alloc::{AllocError, Global};
use stream_plan::MorePlan;

/// The blocks of the streams that are at a squeue, each at the place of its stream. Feed `n` of a stream serves its item `n`. A call
/// changes nothing. The calls that there may be are given: `(c, j, k)` where call `k` of thread `j` is on stream `c`.
///
/// # Example
///
/// ```
/// let calls = vec![in rt.alloc(); (1, 0, 0)]?;
/// let mut blocks = StreamBlocks::make(rt.alloc(), &plan, calls, 1, 2)?;
/// assert_eq!(rt; blocks.conns(), 3);
/// ...
/// let block = blocks.take_out(1);
/// assert!(rt; !blocks.is_here(1));
/// blocks.put_in(1, block);
/// ```
#[derive(Drop)]
pub struct StreamBlocks<'p> {
    plan: &'p MorePlan<'p>,
    calls: Vec<(u32, u32, u32)>,
    places: Vec<Option<StreamBlock>>,
    ghost each: { length places.items ≡ length plan.now.streams },
    ghost named: { All (λ call. call.0 < length plan.now.streams) calls.items },
}

impl<'p> StreamBlocks<'p> {
    ghost use Rattle.datagram_services.specs.Standing.{FirstFits, Stands, calls_of, origin_of, size_of};
    ghost use Rattle.placed_parts.specs.Standing.{first_here};

    /// A place for each stream of the plan, and new blocks of those whose number leaves `squeue`, divided by `squeues`. Fails
    /// only for want of memory.
    pub fn make(
        alloc: Global,
        plan: &'p MorePlan<'p>,
        calls: Vec<(u32, u32, u32)>,
        squeue: u32,
        squeues: u32,
    ) -> Result<StreamBlocks<'p>, AllocError>
        requires squeue { squeue < squeues }
        requires named { All (λ call. call.0 < length plan.now.streams) calls.items }
        ensures stands { IfOk result (λ r. Stands r (first_here (length plan.now.streams) squeue squeues)) }
        ensures size { IfOk result (λ r. size_of r ≡ length plan.now.streams) }
        ensures origin { IfOk result (λ r. origin_of r ≡ plan.now) }
        ensures calls { IfOk result (λ r. calls_of r ≡ calls.items) }
    {
        plan.is_sound();
        let mut places = Vec::new(alloc);
        for c in 0..plan.streams() {
            places.push(StreamBlocks::place(alloc, c % squeues == squeue))?;
        }
        Ok(StreamBlocks {
            plan,
            calls,
            places,
        })
    }

    // What lies at the place of a stream at first.
    fn place(alloc: Global, here: bool) -> Option<StreamBlock>
        ensures { FirstFits result here }
    {
        if here {
            Some(StreamBlock::make(alloc))
        } else {
            None
        }
    }
}

impl<'p> Resident for StreamBlocks<'p> {
    ghost use Rattle.datagram_services.specs.Standing.{HasHad, IsPartOf, Stands, limits_of, origin_of, size_of};
    ghost use Rattle.datagram_services.specs.StandingLaws.{blocks_in_range, blocks_same_feeds, blocks_within, part_same_feeds};

    type Part = StreamBlock;

    type Origin = MorePlan<'p>;

    ghost stands = { Stands };

    ghost part_stands = { HasHad };

    ghost limits = { limits_of };

    ghost size = { size_of };

    ghost origin = { origin_of };

    ghost is_part_of = { IsPartOf };

    fn conns(&self) -> u32 {
        self.plan.streams()
    }

    fn is_here(&self, c: u32) -> bool {
        self.places[c as usize].is_some()
    }

    fn feed(&mut self, alloc: Global, c: u32, _n: u32) {
        let plan = self.plan;
        plan.is_sound();
        if let Some(block) = &mut self.places[c as usize] {
            block.feed(alloc, plan.capture(), plan.stream(c));
        }
    }

    /// Changes nothing.
    fn call(&mut self, _alloc: Global, _c: u32, _j: u32, _k: u32) {}

    fn take_out(&mut self, c: u32) -> StreamBlock {
        match self.places[c as usize].take() {
            Some(block) => block,
            None => unreachable!(),
        }
    }

    fn put_in(&mut self, c: u32, part: StreamBlock) {
        self.places[c as usize] = Some(part);
    }

    ghost in_range = { blocks_in_range };

    ghost limits_in_range = { blocks_within };

    ghost same_part_feeds = { part_same_feeds };

    ghost same_feeds = { blocks_same_feeds };
}
