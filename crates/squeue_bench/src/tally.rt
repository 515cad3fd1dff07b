//! The value behind the measured gate: a count of the turns, and a number that a turn mixes.

ghost use Rattle.std.specs.Prelude.{◌≡◌, ◌≤◌, ◌<◌, All};
ghost use Rattle.turn_gate.specs.Gates.{gate_id};
ghost use Rattle.turn_gate.specs.Passes.{IsPassOf, number};
ghost use Rattle.turn_gate.specs.Helds.{IsHeldOf, held_number, held_seen, held_value};
ghost use Rattle.gate_trial.specs.Jobs.{IsReady, job_number, SameNumbers};

use gate_trial::{Job, lend, take_back};
use std::alloc::{AllocError, Global};
use std::marker::Brand;
use std::sync::Wait;
use std::thread::{Threads, for_each_mut};
use turn_gate::{Gate, Held, Pass, Storied};

/// A turn of the pass of this number.
pub struct Turn {
    pub by: u32,
}

#[derive(Drop)]
pub struct Tally {
    turns: u64,
    mixed: u64,
}

impl Storied for Tally {
    ghost use Rattle.squeue_bench.specs.Tally.{IsTally, taker};

    type Mark = ();

    type Element = Turn;

    ghost stands = { λ _. IsTally };

    ghost number = { taker };
}

impl Tally {
    ghost use Rattle.squeue_bench.specs.Tally.{IsTally, taker};

    pub(crate) fn turns(&self) -> u64
        ensures { result ≡ self.now.turns }
    {
        self.turns
    }

    pub(crate) fn mixed(&self) -> u64
        ensures { result ≡ self.now.mixed }
    {
        self.mixed
    }

    /// The tally after so many threads took so many turns each.
    pub(crate) fn of_threads<R: Threads + Wait + Sync>(
        rt: &R,
        alloc: Global,
        threads: u32,
        turns: u32,
        rounds: u32,
    ) -> Result<Tally, AllocError>
        requires { (1 ≤ threads) × (threads ≤ 64) }
    {
        let mut jobs = Vec::with_capacity(alloc, threads as usize)?;
        let Ok((gate, mut all)) = Gate::make(alloc, Tally { turns: 0, mixed: 1 }, threads) else {
            jobs.destroy_empty();
            return Err(AllocError);
        };
        lend(&gate, &mut all, &mut jobs);
        Tally::run_all(rt, &gate, &mut jobs, threads as usize, turns, rounds);
        take_back(&gate, &mut jobs, &mut all);
        jobs.destroy_empty();
        Ok(gate.close(all))
    }

    fn run_all<R: Threads + Wait + Sync>(
        rt: &R,
        gate: &Gate<Tally>,
        jobs: &mut [Job<Turn>],
        threads: usize,
        turns: u32,
        rounds: u32,
    )
        requires threads { 0 < threads }
        requires jobs { All (IsReady taker (gate_id gate.now)) jobs.old }
        ensures jobs { All (IsReady taker (gate_id gate.now)) jobs.new }
        ensures numbers { SameNumbers jobs.old jobs.new }
    {
        for_each_mut(
            rt,
            jobs,
            threads,
            &|_, job: &mut Job<Turn>|
                requires { IsReady taker (gate_id gate.now) job.now }
                ensures { IsReady taker (gate_id gate.entry.now) job.exit.now × (job_number job.exit.now ≡ job_number job.entry.now) }
            { Tally::run(rt, gate, job, turns, rounds) },
        );
    }

    fn run<R: Wait>(rt: &R, gate: &Gate<Tally>, job: &mut Job<Turn>, turns: u32, rounds: u32)
        requires { IsReady taker (gate_id gate.now) job.old }
        ensures { IsReady taker (gate_id gate.now) job.new × (job_number job.new ≡ job_number job.old) }
    {
        let taken = job.pass.take();
        let Some(pass) = taken else { unreachable!() };
        let pass = Tally::take_turns(rt, gate, pass, turns, rounds);
        let old = job.pass.replace(pass);
        let None = old else { unreachable!() };
    }

    fn take_turns<R: Wait>(
        rt: &R,
        gate: &Gate<Tally>,
        pass: Pass<Turn>,
        turns: u32,
        rounds: u32,
    ) -> Pass<Turn>
        requires { IsPassOf taker (gate_id gate.now) pass }
        ensures { IsPassOf taker (gate_id gate.now) result × (number result ≡ number pass) }
    {
        let mut pass = pass;
        for _ in 0..turns {
            let held = gate.hold_soon(rt, pass);
            pass = Tally::take_turn(gate, held, rounds);
        }
        pass
    }

    fn take_turn(gate: &Gate<Tally>, mut held: Held<Tally>, rounds: u32) -> Pass<Turn>
        requires held { IsHeldOf taker (gate_id gate.now) held }
        requires tally { IsTally (held_value held) (held_seen held) }
        ensures { IsPassOf taker (gate_id gate.now) result × (number result ≡ held_number held) }
    {
        if held.count() >= 1 << 63 {
            return gate.release_plain(held);
        }
        let tally = held.value();
        tally.turns += 1;
        tally.mixed = mix(tally.mixed, rounds);
        gate.release::<Brand>(held, ())
    }
}

fn mix(from: u64, rounds: u32) -> u64 {
    let mut x = from;
    for _ in 0..rounds {
        x = (x ^ (x >> 29)).wrapping_mul(6364136223846793005);
    }
    x
}
