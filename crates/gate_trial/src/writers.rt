//! Threads that write a diary together.

ghost use Rattle.std.specs.Prelude.{◌≡◌, ◌<◌, ◌+◌, All};
ghost use Rattle.turn_gate.specs.Gates.{gate_id};
ghost use Rattle.turn_gate.specs.Passes.{IsPassOf, turns_of, number, steps};
ghost use Rattle.gate_trial.specs.Diary.{writer};
ghost use Rattle.gate_trial.specs.Jobs.{IsReady, TookTurns, job_number, job_turns, SameNumbers};

use crate::diary::{Diary, Line};
use crate::jobs::Job;
use std::hint::spin_loop;
use std::sync::Wait;
use std::thread::{Threads, for_each_mut};
use turn_gate::{Gate, Pass};

/// Every job's pass takes the gate `turns` times and writes a line each time, where the diary has room for it; it spins for
/// `pause` rounds while it holds the gate. The jobs are shared out among at most `threads` threads.
pub fn write_all<R: Threads + Wait + Sync>(
    rt: &R,
    gate: &Gate<Diary>,
    jobs: &mut [Job<Line>],
    threads: usize,
    turns: u32,
    pause: u32,
)
    requires threads { 0 < threads }
    requires jobs { All (IsReady writer (gate_id gate.now)) jobs.old }
    ensures jobs { All (IsReady writer (gate_id gate.now)) jobs.new }
    ensures numbers { SameNumbers jobs.old jobs.new }
    ensures turns { TookTurns turns jobs.old jobs.new }
{
    for_each_mut(
        rt,
        jobs,
        threads,
        &|_, job: &mut Job<Line>|
            requires { IsReady writer (gate_id gate.now) job.now }
            ensures { IsReady writer (gate_id gate.entry.now) job.exit.now × (job_number job.exit.now ≡ job_number job.entry.now)
                × (job_turns job.exit.now ≡ job_turns job.entry.now + turns) }
        { run(rt, gate, job, turns, pause) },
    );
}

fn run<R: Wait>(rt: &R, gate: &Gate<Diary>, job: &mut Job<Line>, turns: u32, pause: u32)
    requires { IsReady writer (gate_id gate.now) job.old }
    ensures { IsReady writer (gate_id gate.now) job.new × (job_number job.new ≡ job_number job.old) × (job_turns job.new ≡ job_turns job.old + turns) }
{
    let taken = job.pass.take();
    let Some(pass) = taken else { unreachable!() };
    let pass = write_often(rt, gate, pass, turns, pause);
    let old = job.pass.replace(pass);
    let None = old else { unreachable!() };
}

fn write_often<R: Wait>(
    rt: &R,
    gate: &Gate<Diary>,
    pass: Pass<Line>,
    turns: u32,
    pause: u32,
) -> Pass<Line>
    requires { IsPassOf writer (gate_id gate.now) pass }
    ensures { IsPassOf writer (gate_id gate.now) result × (number result ≡ number pass) × (turns_of (steps result) ≡ turns_of (steps pass) + turns) }
{
    let mut pass = pass;
    for nth in 0..turns {
        let held = gate.hold(rt, pass);
        spin(pause);
        pass = Diary::write(gate, held, nth);
    }
    pass
}

fn spin(rounds: u32) {
    for _ in 0..rounds {
        spin_loop();
    }
}
