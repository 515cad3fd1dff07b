//! The two ends of a ring. Each holds a pass of the ring's queue, which knows in contracts what the end's count is at run
//! time.

ghost use Rattle.std.specs.Prelude.{◌≡◌, ◌≤◌, []};
ghost use Rattle.crossbeam_queue.specs.Passes.{view as known};
ghost use Rattle.poll_ring.specs.Rings.{FeedCount, PollCount};
ghost use Rattle.poll_ring.specs.Rule.{feeder, poller};

use crate::rule::View;
use crossbeam_queue::Pass;
use std::marker::Model;

/// The end of a ring that puts numbers. There is one for each ring. Contracts see whose it is, and how many numbers were
/// put.
#[derive(Drop)]
pub struct FeedEnd {
    pub(crate) pass: Pass<u32, View>,
    // How many numbers were put, and so the next one.
    pub(crate) put: u32,
}

impl Model for FeedEnd {
    ghost Value = { FeedCount };

    ghost view = { λ e. record { ring = e.pass.table_id; put = e.put } };

    ghost invariant = { λ e. (e.pass.me.1 ≡ []) × (known e.pass ≡ feeder e.put) × (e.put ≤ e.pass.table_id.slots) };
}

/// The end of a ring that pops numbers. There is one for each ring. Contracts see whose it is, and how many numbers were
/// popped.
#[derive(Drop)]
pub struct PollEnd {
    pub(crate) pass: Pass<u32, View>,
    // How many numbers were popped, and so the next one.
    pub(crate) popped: u32,
}

impl Model for PollEnd {
    ghost Value = { PollCount };

    ghost view = { λ e. record { ring = e.pass.table_id; popped = e.popped } };

    ghost invariant = { λ e. (e.pass.me.1 ≡ []) × (known e.pass ≡ poller e.popped) × (e.popped ≤ e.pass.table_id.slots) };
}
