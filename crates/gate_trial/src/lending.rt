//! Lending the passes of a gate to jobs, and taking them back.

ghost use Rattle.std.specs.Prelude.{◌≡◌, ◌≤◌, [], All, vec_len, vec_capacity};
ghost use Rattle.turn_gate.specs.Gates.{gate_id, passes_of};
ghost use Rattle.turn_gate.specs.Passes.{AreAll, AreFresh};
ghost use Rattle.gate_trial.specs.Counted.{AreFrom, CountDown};
ghost use Rattle.gate_trial.specs.Jobs.{IsReady};

use crate::jobs::Job;
use turn_gate::{Gate, Pass, Storied};

/// Lends the passes of a new gate to jobs, the last one first.
#[tactic(auto, using(crate::proofs::Counting::from_fresh))]
pub fn lend<T: Storied>(
    gate: &Gate<T>,
    all: &mut Vec<Pass<T::Element>>,
    jobs: &mut Vec<Job<T::Element>>,
)
    requires passes { AreFresh T.number (gate_id gate.now) 0 all.old.items × (vec_len all.old ≡ passes_of gate.now) }
    requires room { (jobs.old.items ≡ []) × (vec_len all.old ≤ vec_capacity jobs.old) }
    ensures jobs { All (IsReady T.number (gate_id gate.now)) jobs.new.items }
    ensures numbers { CountDown (passes_of gate.now) jobs.new.items × (vec_len jobs.new ≡ passes_of gate.now) }
    ensures all { (all.new.items ≡ []) × (vec_capacity all.new ≡ vec_capacity all.old) }
{
    while let Some(pass) = all.pop() {
        jobs.push_reserved(Job { pass: Some(pass) });
    }
}

/// Takes the passes back from the jobs, in order of their numbers.
pub fn take_back<T: Storied>(
    gate: &Gate<T>,
    jobs: &mut Vec<Job<T::Element>>,
    all: &mut Vec<Pass<T::Element>>,
)
    requires jobs { All (IsReady T.number (gate_id gate.now)) jobs.old.items }
    requires numbers { CountDown (passes_of gate.now) jobs.old.items × (vec_len jobs.old ≡ passes_of gate.now) }
    requires room { (all.old.items ≡ []) × (vec_len jobs.old ≤ vec_capacity all.old) }
    ensures all { AreAll T.number (gate_id gate.now) (passes_of gate.now) all.new.items }
    ensures order { AreFrom T.number (gate_id gate.now) 0 all.new.items }
    ensures jobs { jobs.new.items ≡ [] }
{
    while let Some(job) = jobs.pop() {
        let Job { pass } = job;
        let Some(pass) = pass else { unreachable!() };
        all.push_reserved(pass);
    }
}
