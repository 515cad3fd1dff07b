//! A rate limiter by key, for requests that arrive through channels: what a user of `squeue_answers` writes.
//!
//! A request comes through a channel, with its key and its time, and is answered whether it passes. The rule is that of `key_limiter`, here
//! for requests that nobody knows before. It knows no pass and no squeue.
#![tactic(auto)]

ghost use Rattle.std.specs.Prelude.{◌≡◌, ◌≤◌, All, IfOk, length};
ghost use Rattle.key_limiter.specs.Limiting.{full, level_after, passes};
ghost use Rattle.squeue_arrivals.specs.Pooling.{IsInRange};
ghost use Rattle.arriving_limiter.specs.Limited.{IsLimited};

use crossbeam_channel::Receiver;
use key_limiter::{Level, Limit};
use squeue_answers::{Answered, Kept, KeyAnswers, serve_answering};
use squeue_arrivals::{ArrivalPool, Channelled};
use std::alloc::{AllocError, Global};
use std::sync::Wait;
use std::thread::Threads;

// How many requests of a channel may wait for their answers.
const AHEAD: u32 = 64;

/// A key's state is its bucket, which begins full.
#[derive(Drop, Clone, Copy)]
pub struct Limiting {
    pub limit: Limit,
}

impl KeyAnswers for Limiting {
    type Item = u32;

    type State = Level;

    type Answer = bool;

    ghost begins = { λ w level. level ≡ full w.limit };

    ghost step = { λ w level time passed next. (passed ≡ passes w.limit level time) × (next ≡ level_after w.limit level time) };

    fn begin(&self, _alloc: Global) -> Result<Level, AllocError> {
        Ok(Level::full(self.limit))
    }

    fn take(&self, _alloc: Global, level: &mut Level, time: u32) -> bool {
        level.take(self.limit, time)
    }
}

/// Answers the requests of each channel, whose items are keys and times in microseconds: whether each passes by its key's requests so far
/// in this channel. The answers of channel k are in the sink of source k, all of them where it `is_whole`. A channel is served until it is
/// empty and has no sender, or a request is refused. Fails only for want of memory before a squeue begins, and where the rings of a squeue
/// have 2^32 places or more.
pub fn limit_requests<'r, W: Threads + Wait + Sync>(
    rt: &'r W,
    alloc: Global,
    pool: &ArrivalPool,
    limit: Limit,
    channels: Vec<Receiver<(u64, u32)>>,
) -> Result<Answered<Channelled<'r, u32, W>, Kept<bool>, u32, Level>, AllocError>
    requires pool { IsInRange pool.now }
    requires channels { length channels.items ≤ 63 }
    ensures many { IfOk result (λ r. length r.sources.items ≡ length channels.items) }
    ensures limited { IfOk result (λ r. All (IsLimited limit pool.now.places) r.sources.items) }
{
    let mut sources = Vec::new(alloc);
    for channel in channels {
        sources.push((Channelled::of(rt, channel), Kept::none(alloc)))?;
    }
    serve_answering(rt, alloc, pool, AHEAD, Limiting { limit }, sources)
}
