//! The way between a ring and a squeue.
ghost use Rattle.std.specs.Prelude.{◌≡◌, [], IfOk};
ghost use Rattle.rtrb.specs.Ring.{received, sent};
ghost use Rattle.shards.specs.Lanes.{IsLane};
ghost use Rattle.shards.specs.Merging.{IsUnused};

use rtrb::{Consumer, Producer, RingBuffer};
use std::alloc::{AllocError, Global};

/// The ends of a lane at its ring: `output` pushes parcels, and `back` pops those that are back.
#[derive(Drop)]
pub struct RingEnd<P: Drop> {
    pub output: Producer<P>,
    pub back: Consumer<P>,
}

/// The ends of a lane at its squeue: `input` pops parcels, and `back` gives them back.
#[derive(Drop)]
pub struct SqueueEnd<P: Drop> {
    pub input: Consumer<P>,
    pub back: Producer<P>,
}

/// A lane with room for so many parcels each way, by which nothing came. A ring with more parcels than that could wait for ever.
/// Fails only for want of memory.
pub fn lane<P: Drop>(alloc: Global, room: usize) -> Result<(RingEnd<P>, SqueueEnd<P>), AllocError>
    ensures lane { IfOk result (λ r. IsLane r.0 r.1) }
    ensures ring { IfOk result (λ r. (sent r.0.output ≡ []) × (received r.0.back ≡ [])) }
    ensures squeue { IfOk result (λ r. IsUnused r.1) }
{
    let (output, input) = RingBuffer::new(alloc, room)?;
    let (back, popped) = RingBuffer::new(alloc, room)?;
    Ok((
        RingEnd {
            output,
            back: popped,
        },
        SqueueEnd { input, back },
    ))
}
