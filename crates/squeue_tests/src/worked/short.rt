//! A resident that finds memory wanting at one act.
ghost use Rattle.std.specs.Prelude.{◌≡◌, ◌^◌, ◌<◌, IfOk, length};
ghost use Rattle.perimeter_trial.specs.Logging.{Stands, limits_of, size_of};
ghost use Rattle.squeue_tests.specs.Rows.{IsNew};

use perimeter_core::{Act, Feed, Resident};
use perimeter_trial::{Log, Logs};
use std::alloc::{AllocError, Global};
use std::process::Abort;

// Logs, and beside them the list of all acts, with the connection of each. At act `at`, counted from 0, memory is wanting:
// the resident notes that, and has its acts listed from then on as before, as a block that is short does.
#[derive(Drop)]
pub(super) struct Short {
    logs: Logs,
    at: usize,
    wanted: bool,
    acts: Vec<(u32, Act)>,
}

impl Short {
    // The connections that the flags name are here, and nothing was done to them. The list has room for so many acts.
    pub(super) fn make(
        alloc: Global,
        starts: &[bool],
        feeds: u32,
        at: usize,
        room: usize,
    ) -> Result<Short, AllocError>
        requires { length starts.now < 2 ^ 32 }
        ensures { IfOk result (λ r. IsNew Stands limits_of size_of starts.now feeds r.logs) }
    {
        let logs = Logs::make(alloc, starts, feeds, 0, Vec::new(alloc))?;
        let acts = Vec::with_capacity(alloc, room)?;
        Ok(Short {
            logs,
            at,
            wanted: false,
            acts,
        })
    }

    // Whether memory was wanting at an act.
    pub(super) fn wanted(&self) -> bool {
        self.wanted
    }

    // Lists the act, which takes no memory, and notes whether it is the one at which memory is wanting.
    fn list(&mut self, c: u32, act: Act)
        ensures { self.new.logs ≡ self.old.logs }
    {
        if self.acts.len() == self.at {
            self.wanted = true;
        }
        if self.acts.len() < self.acts.capacity() {
            self.acts.push_reserved((c, act));
        }
    }
}

impl Resident for Short {
    ghost use Rattle.perimeter_trial.specs.Logging.{IsLogOf};
    ghost use Rattle.perimeter_trial.specs.LogLaws.{logs_in_range, logs_within, log_same_feeds, logs_same_feeds};

    type Part = Log;

    type Origin = ();

    ghost stands = { λ r. Stands r.logs };

    ghost part_stands = { IsLogOf };

    ghost limits = { λ r. limits_of r.logs };

    ghost size = { λ r. size_of r.logs };

    ghost origin = { λ r. tt };

    ghost is_part_of = { λ _ c part. part.c ≡ c };

    fn conns(&self) -> u32 {
        self.logs.conns()
    }

    fn is_here(&self, c: u32) -> bool {
        self.logs.is_here(c)
    }

    fn feed(&mut self, alloc: Global, c: u32, n: u32) {
        self.list(c, Act::Feed { n });
        self.logs.feed(alloc, c, n);
    }

    fn call(&mut self, alloc: Global, c: u32, j: u32, k: u32) {
        self.list(c, Act::Call { j, k });
        self.logs.call(alloc, c, j, k);
    }

    fn take_out(&mut self, c: u32) -> Log {
        self.logs.take_out(c)
    }

    fn put_in(&mut self, c: u32, part: Log) {
        self.logs.put_in(c, part);
    }

    ghost in_range = { λ r. logs_in_range r.logs };

    ghost limits_in_range = { λ r. logs_within r.logs };

    ghost same_part_feeds = { log_same_feeds };

    ghost same_feeds = { λ r. logs_same_feeds r.logs };
}

// The acts are these feeds, in this order, and no others.
pub(super) fn has_done<A: Abort>(rt: &A, short: &Short, feeds: &[Feed]) {
    assert_eq!(rt; short.acts.len(), feeds.len());
    for (i, f) in feeds.iter().enumerate() {
        let (c, act) = short.acts[i];
        assert_eq!(rt; c, f.c, "connection of act {i}");
        assert_eq!(rt; act, Act::Feed { n: f.n }, "act {i}");
    }
}
