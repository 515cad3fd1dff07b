//! What comes in by a ring: the feeds that it brings, and the receive ring through which it learns of them.
ghost use Rattle.std.specs.Prelude.{◌≡◌, ◌<◌, ◌^◌, IfOk, length};
ghost use Rattle.squeue_rings.specs.Tasks.{IsUnused};

use perimeter_core::Feed;
use poll_ring::{FeedEnd, PollEnd, Ring};
use std::alloc::{AllocError, Global};

/// The feeds that a ring brings, in order, and its receive ring, which gives their places. Where there are none it has none.
#[derive(Drop)]
pub struct Intake {
    pub list: Vec<Feed>,
    pub ring: Option<Ring>,
}

/// A ring's intake with the two ends of its receive ring.
#[derive(Drop)]
pub struct IntakeEnds {
    pub intake: Intake,
    pub feed: Option<FeedEnd>,
    pub poll: Option<PollEnd>,
}

/// The intake of a ring that brings these feeds. Fails only for want of memory.
pub fn intake_of(alloc: Global, list: Vec<Feed>) -> Result<IntakeEnds, AllocError>
    requires { length list.items < 2 ^ 32 }
    ensures list { IfOk result (λ e. e.intake.list.items ≡ list.items) }
    ensures unused { IfOk result (λ e. IsUnused e) }
{
    if list.is_empty() {
        return Ok(IntakeEnds {
            intake: Intake { list, ring: None },
            feed: None,
            poll: None,
        });
    }
    let (ring, feed, poll) = Ring::make(alloc, list.len() as u32)?;
    let intake = Intake {
        list,
        ring: Some(ring),
    };
    Ok(IntakeEnds {
        intake,
        feed: Some(feed),
        poll: Some(poll),
    })
}
