//! The part of a key: which of its requests passed so far, and what its bucket holds. It takes no memory after it is made.
ghost use Rattle.std.specs.Prelude.{◌≡◌};

use squeue::Parts;
use std::alloc::{AllocError, Global};
use std::collections::LinkedList;

/// A token is this many microseconds of filling, and a bucket holds at most so many: with `most` three times `token`, three
/// requests pass at once, and then one in each `token` microseconds.
#[derive(Clone, Copy)]
pub struct Limit {
    pub token: u32,
    pub most: u32,
}

/// What a bucket held after the last request, in microseconds of filling, and the latest time of all requests so far.
#[derive(Clone, Copy)]
pub struct Level {
    filled: u32,
    at: u32,
}

/// Which requests of a key passed, in order, and what its bucket holds.
#[derive(Drop)]
pub struct Bucket {
    pub(crate) passed: Vec<bool>,
    level: Level,
}

/// The times of the requests of all keys, in microseconds, their limit, and the calls that there are, by key, thread and number. A
/// call changes nothing.
#[derive(Clone, Copy)]
pub struct Requests<'a> {
    pub(crate) rows: &'a [Vec<u32>],
    pub(crate) limit: Limit,
    pub(crate) calls: &'a [(u32, u32, u32)],
}

impl Level {
    ghost use Rattle.key_limiter.specs.Limiting.{full, level_after, passes};

    /// A bucket is full before its first request.
    pub fn full(limit: Limit) -> Level
        ensures { result ≡ full limit }
    {
        Level {
            filled: limit.most,
            at: 0,
        }
    }

    /// Takes a token out, if there is one at this time, in microseconds, and says whether there was.
    pub fn take(&mut self, limit: Limit, time: u32) -> bool
        ensures passes { result ≡ passes limit self.old time }
        ensures after { self.new ≡ level_after limit self.old time }
    {
        let filled = self
            .filled
            .saturating_add(time.saturating_sub(self.at))
            .min(limit.most);
        let passes = limit.token <= filled;
        self.filled = if passes { filled - limit.token } else { filled };
        self.at = self.at.max(time);
        passes
    }
}

impl Parts for Requests<'_> {
    ghost use Rattle.key_limiter.specs.Buckets.{HasDecided, IsPartOf, limits_of, origin_of};
    ghost use Rattle.std.proofs.Common.{sym, ◌∙◌};

    type Part = Bucket;

    type Origin = (Limit, LinkedList<LinkedList<u32>>);

    ghost part_stands = { HasDecided };

    ghost limits = { limits_of };

    ghost origin = { origin_of };

    ghost is_part_of = { IsPartOf };

    fn fresh(&self, alloc: Global, c: u32) -> Result<Bucket, AllocError> {
        let passed = Vec::with_capacity(alloc, self.rows[c as usize].len())?;
        let level = Level::full(self.limit);
        Ok(Bucket { passed, level })
    }

    fn feed(&self, _alloc: Global, bucket: &mut Bucket, c: u32, n: u32) {
        let time = self.rows[c as usize][n as usize];
        let passes = bucket.level.take(self.limit, time);
        bucket.passed.push_reserved(passes);
    }

    fn call(&self, _alloc: Global, _bucket: &mut Bucket, _c: u32, _j: u32, _k: u32) {}

    ghost same_count = { λ k a b x y. x ∙ sym y };
}
