//! The lanes of one ring.
ghost use Rattle.std.specs.Prelude.{◌≡◌, ◌+◌, ◌<◌, ◌≤◌, ◌^◌, ◌++◌, ◌∷◌, [], IfNone, IfSome, Some, length, slice_get};
ghost use Rattle.shards.specs.Sharing.{limits_for};
ghost use Rattle.shard_rings.specs.Knowing.{IsBeside, SameEnd, came_of, sent_of};
ghost use Rattle.shard_rings.specs.Rows.{AreKnown, IsKnown, SameEnds};

use crate::cell::Cell;
use crate::lanes::Lanes;
use crate::pool::ShardPool;
use crate::way::{Way, pop_back, send, wait_back};
use perimeter_core::Known;
use shards::{Shard, Shared};
use squeue_serve::{put_pass, take_pass};
use squeue_state::{Pass, Squeue};
use std::alloc::Global;
use std::sync::Wait;

/// So many parcels a lane may send.
pub(crate) const LIFE: u64 = 1 << 50;

/// A ring's lanes while it brings: how it reaches the squeues, what it has of each, the same as it was first, for contracts alone, and its
/// passes, by the squeues' numbers.
pub(crate) struct RingLanes<'q, X: Shared + Drop, H: Wait + Drop> {
    pub(crate) rt: &'q H,
    pub(crate) squeues: &'q [Squeue<Shard<X, H>>],
    pub(crate) pool: ShardPool,
    pub(crate) ring: u32,
    pub(crate) cells: Vec<Cell<X::Parcel>>,
    pub(crate) first: Known<Vec<Cell<X::Parcel>>>,
    pub(crate) places: Vec<Option<Pass>>,
    ghost spends: { 1 ≤ pool.budget },
    ghost spans: { (1 ≤ pool.span) × (pool.span ≤ 2 ^ 31) },
}

impl<'q, X: Shared + Drop, H: Wait + Drop> Lanes for RingLanes<'q, X, H> {
    ghost use Rattle.std.specs.Prelude.{map};

    type Parcel = X::Parcel;

    type Origin = (u32, Vec<Cell<X::Parcel>>, &'q [Squeue<Shard<X, H>>]);

    ghost sent = { λ l. map sent_of l.cells.items };

    ghost back = { λ l. map came_of l.cells.items };

    ghost room = { λ l. l.pool.parcels };

    ghost origin = { λ l. (l.ring, l.first.value, l.squeues) };

    ghost ready = { λ l. AreKnown limits_for l.ring l.squeues.now l.places.items l.cells.items
        × SameEnds l.first.value.items l.cells.items };

    fn squeues(&self) -> usize {
        self.cells.len()
    }

    fn most_out(&self) -> u64 {
        u64::from(self.pool.parcels)
    }

    fn out(&self, q: usize) -> u64 {
        self.cells[q].pushed - self.cells[q].popped
    }

    fn left(&self, q: usize) -> u64 {
        LIFE - self.cells[q].pushed
    }

    fn send(&mut self, alloc: Global, q: usize, parcel: X::Parcel) {
        let way = Way {
            rt: self.rt,
            squeue: &self.squeues[q],
            ring: self.ring,
            mode: self.pool.mode,
            budget: self.pool.budget,
            span: self.pool.span,
        };
        send_in(&way, alloc, &mut self.places[q], &mut self.cells[q], parcel);
    }

    fn try_back(&mut self, q: usize) -> Option<X::Parcel> {
        pop_back(&mut self.cells[q])
    }

    fn back(&mut self, alloc: Global, q: usize) -> X::Parcel {
        let way = Way {
            rt: self.rt,
            squeue: &self.squeues[q],
            ring: self.ring,
            mode: self.pool.mode,
            budget: self.pool.budget,
            span: self.pool.span,
        };
        back_in(&way, alloc, &mut self.places[q], &mut self.cells[q])
    }
}

// Sends a parcel by the pass in this place.
fn send_in<X: Shared + Drop, H: Wait + Drop, W: Wait>(
    way: &Way<'_, Shard<X, H>, W>,
    alloc: Global,
    place: &mut Option<Pass>,
    cell: &mut Cell<X::Parcel>,
    parcel: X::Parcel,
)
    requires known { IsKnown limits_for way.now.ring way.now.squeue.now place.old cell.old }
    requires life { length (sent_of cell.old) < 2 ^ 50 }
    ensures known { IsKnown limits_for way.now.ring way.now.squeue.now place.new cell.new }
    ensures sent { sent_of cell.new ≡ sent_of cell.old ++ parcel ∷ [] }
    ensures back { came_of cell.new ≡ came_of cell.old }
    ensures end { SameEnd cell.old cell.new }
{
    let pass = take_pass(place);
    put_pass(place, send(way, alloc, pass, cell, parcel));
}

// The next parcel that is back. It waits for it, by the pass in this place.
fn back_in<X: Shared + Drop, H: Wait + Drop, W: Wait>(
    way: &Way<'_, Shard<X, H>, W>,
    alloc: Global,
    place: &mut Option<Pass>,
    cell: &mut Cell<X::Parcel>,
) -> X::Parcel
    requires known { IsKnown limits_for way.now.ring way.now.squeue.now place.old cell.old }
    requires out { length (came_of cell.old) < length (sent_of cell.old) }
    ensures known { IsKnown limits_for way.now.ring way.now.squeue.now place.new cell.new }
    ensures sent { sent_of cell.new ≡ sent_of cell.old }
    ensures back { came_of cell.new ≡ came_of cell.old ++ result ∷ [] }
    ensures end { SameEnd cell.old cell.new }
{
    let pass = take_pass(place);
    let (pass, parcel) = wait_back(way, alloc, pass, cell);
    put_pass(place, pass);
    parcel
}
