//! The plainest resident: the block of a connection is the list of its acts. Tests of this crate and of others run on it.
ghost use Rattle.std.specs.Prelude.{◌≡◌, ◌+◌, ◌^◌, ◌<◌, ◌++◌, ◌∷◌, [], All, IfOk, length, option_map, replicate, false};

use perimeter_core::{Act, Resident};
use std::alloc::{AllocError, Global};

/// The block of connection `c`: the acts that were done to it, and how many of them are feeds. Where memory was missing for
/// an act it is short, and the list promises nothing from then on.
#[derive(Drop)]
pub struct Log {
    c: u32,
    fed: u32,
    short: bool,
    acts: Vec<Act>,
}

impl Log {
    ghost use Rattle.perimeter_core.specs.Blocks.{fresh};
    ghost use Rattle.perimeter_trial.specs.Logging.{LogAt, noted, is_short};

    // The log of the connection, if it is here, with no act yet.
    fn first(alloc: Global, c: u32, here: bool) -> Option<Log>
        ensures { LogAt c (Some result) (fresh here) }
    {
        if here {
            Some(Log {
                c,
                fed: 0,
                short: false,
                acts: Vec::new(alloc),
            })
        } else {
            None
        }
    }

    // Notes the act, if there is room.
    fn note(&mut self, act: Act)
        ensures number { self.new.c ≡ self.old.c }
        ensures fed { self.new.fed ≡ self.old.fed }
        ensures noted { self.new.short ≡ false → (self.old.short ≡ false) × (self.new.acts.items ≡ self.old.acts.items ++ act ∷ []) }
    {
        if self.acts.push(act).is_err() {
            self.short = true;
        }
    }

    /// The acts, in the order in which they were done.
    pub fn acts(&self) -> &[Act]
        ensures { result.now ≡ noted self.now }
    {
        self.acts.as_slice()
    }

    /// Whether memory was missing for an act.
    pub fn short(&self) -> bool
        ensures { result ≡ is_short self.now }
    {
        self.short
    }
}

/// A place for the log of each connection. Each may have `feeds` feeds and leave `leaves` times, and the calls that exist
/// are given: `(c, j, k)` where call `k` of thread `j` is on connection `c`.
#[derive(Drop)]
pub struct Logs {
    count: u32,
    feeds: u32,
    leaves: u32,
    calls: Vec<(u32, u32, u32)>,
    logs: Vec<Option<Log>>,
    ghost places: { length logs.items ≡ count },
    ghost named: { All (λ call. call.0 < count) calls.items },
}

impl Logs {
    ghost use Rattle.perimeter_core.specs.Blocks.{none_done};
    ghost use Rattle.perimeter_trial.specs.Logging.{Stands, limits_of, size_of, log_of};

    /// The connections that the flags name are here, and nothing was done to them. Fails only for want of memory.
    pub fn make(
        alloc: Global,
        starts: &[bool],
        feeds: u32,
        leaves: u32,
        calls: Vec<(u32, u32, u32)>,
    ) -> Result<Logs, AllocError>
        requires count { length starts.now < 2 ^ 32 }
        requires calls { All (λ call. call.0 < length starts.now) calls.items }
        ensures stands { IfOk result (λ r. Stands r (none_done starts.now)) }
        ensures count { IfOk result (λ r. size_of r ≡ length starts.now) }
        ensures limits { IfOk result (λ r. limits_of r
            ≡ record { feeds = replicate (length starts.now) feeds; leaves = replicate (length starts.now) leaves; calls = calls.items }) }
    {
        let mut logs = Vec::new(alloc);
        for (c, here) in starts.iter().enumerate() {
            logs.push(Log::first(alloc, c as u32, *here))?;
        }
        Ok(Logs {
            count: starts.len() as u32,
            feeds,
            leaves,
            calls,
            logs,
        })
    }

    /// The log of the connection, if it is here.
    pub fn log(&self, c: u32) -> Option<&Log>
        requires { c < size_of self.now }
        ensures { option_map (λ log. log.now) result ≡ log_of self.now c }
    {
        self.logs[c as usize].as_ref()
    }
}

impl Resident for Logs {
    ghost use Rattle.perimeter_trial.specs.Logging.{Stands, IsLogOf, limits_of, size_of};
    ghost use Rattle.perimeter_trial.specs.LogLaws.{logs_in_range, logs_within, log_same_feeds, logs_same_feeds};

    type Part = Log;

    type Origin = ();

    ghost stands = { Stands };

    ghost part_stands = { IsLogOf };

    ghost limits = { limits_of };

    ghost size = { size_of };

    ghost origin = { λ r. tt };

    ghost is_part_of = { λ _ c part. part.c ≡ c };

    fn conns(&self) -> u32 {
        self.count
    }

    fn is_here(&self, c: u32) -> bool {
        self.logs[c as usize].is_some()
    }

    fn feed(&mut self, _alloc: Global, c: u32, n: u32) {
        if let Some(log) = &mut self.logs[c as usize] {
            log.note(Act::Feed { n });
            log.fed = n + 1;
        }
    }

    fn call(&mut self, _alloc: Global, c: u32, j: u32, k: u32) {
        if let Some(log) = &mut self.logs[c as usize] {
            log.note(Act::Call { j, k });
        }
    }

    fn take_out(&mut self, c: u32) -> Log {
        match self.logs[c as usize].take() {
            Some(log) => log,
            None => unreachable!(),
        }
    }

    fn put_in(&mut self, c: u32, part: Log) {
        self.logs[c as usize] = Some(part);
    }

    ghost in_range = { logs_in_range };

    ghost limits_in_range = { logs_within };

    ghost same_part_feeds = { log_same_feeds };

    ghost same_feeds = { logs_same_feeds };
}
