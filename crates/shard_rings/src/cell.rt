//! What a ring has of one squeue.
ghost use Rattle.std.specs.Prelude.{◌≡◌, ◌≤◌, ◌^◌, length};
ghost use Rattle.rtrb.specs.Ring.{received, sent};

use shards::RingEnd;

/// What a ring has of one squeue: its ends of the lane; how many feeds it has entered since its part was put in; and how many parcels it
/// has pushed, and popped.
#[derive(Drop)]
pub(crate) struct Cell<P: Drop> {
    pub(crate) end: RingEnd<P>,
    pub(crate) entered: u32,
    pub(crate) pushed: u64,
    pub(crate) popped: u64,
    ghost sends: { pushed ≡ length (sent end.output) },
    ghost takes: { popped ≡ length (received end.back) },
    ghost order: { popped ≤ pushed },
    ghost life: { pushed ≤ 2 ^ 50 },
}
