//! A value that may be sent to another thread but not shared with one: a gate round it may be.

ghost use Rattle.std.specs.Prelude.{◌≡◌, [], ◌<◌, ◌+◌, All};
ghost use Rattle.turn_gate.specs.Gates.{gate_id};
ghost use Rattle.gate_trial.specs.Diary.{writer};
ghost use Rattle.gate_trial.specs.Jobs.{IsReady, TookTurns, job_number, job_turns, SameNumbers};

use crate::diary::Line;
use crate::jobs::Job;
use std::cell::Cell;
use std::sync::Wait;
use std::thread::{Threads, for_each_mut};
use turn_gate::{Gate, Storied};

/// A number in a cell. It has no history.
#[derive(Drop)]
pub struct Unshared {
    pub count: Cell<u64>,
}

impl Storied for Unshared {
    type Mark = ();

    type Element = Line;

    ghost stands = { λ _ _ story. story ≡ [] };

    ghost number = { writer };
}

/// Every job's pass takes the gate once, counts, and gives it back.
pub fn count_all<R: Threads + Wait + Sync>(
    rt: &R,
    gate: &Gate<Unshared>,
    jobs: &mut [Job<Line>],
    threads: usize,
)
    requires threads { 0 < threads }
    requires jobs { All (IsReady writer (gate_id gate.now)) jobs.old }
    ensures jobs { All (IsReady writer (gate_id gate.now)) jobs.new }
    ensures numbers { SameNumbers jobs.old jobs.new }
    ensures turns { TookTurns 1 jobs.old jobs.new }
{
    for_each_mut(
        rt,
        jobs,
        threads,
        &|_, job: &mut Job<Line>|
            requires { IsReady writer (gate_id gate.now) job.now }
            ensures { IsReady writer (gate_id gate.entry.now) job.exit.now × (job_number job.exit.now ≡ job_number job.entry.now)
                × (job_turns job.exit.now ≡ job_turns job.entry.now + 1) }
        { count_once(rt, gate, job) },
    );
}

fn count_once<R: Wait>(rt: &R, gate: &Gate<Unshared>, job: &mut Job<Line>)
    requires { IsReady writer (gate_id gate.now) job.old }
    ensures { IsReady writer (gate_id gate.now) job.new × (job_number job.new ≡ job_number job.old) × (job_turns job.new ≡ job_turns job.old + 1) }
{
    let taken = job.pass.take();
    let Some(pass) = taken else { unreachable!() };
    let held = gate.hold(rt, pass);
    let count = &held.get().count;
    count.set(count.get().wrapping_add(1));
    let old = job.pass.replace(gate.release_plain(held));
    let None = old else { unreachable!() };
}
