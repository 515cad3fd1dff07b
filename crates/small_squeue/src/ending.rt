//! The end of a small squeue.
ghost use Rattle.std.specs.Prelude.{◌≡◌, ◌≤◌, [], true, length, map, vec_capacity};
ghost use Rattle.perimeter_core.specs.Blocks.{peri};
ghost use Rattle.perimeter_trial.specs.Logging.{Stands, limits_of, size_of};
ghost use Rattle.perimeter_core.specs.Perimeter.{Idle};
ghost use Rattle.perimeter_core.specs.History.{run};
ghost use Rattle.histories.specs.Endings.{HasEnded};
ghost use Rattle.squeue_state.specs.Naming.{setting_of};
ghost use Rattle.histories.specs.Elements.{number_of};
ghost use Rattle.squeue_state.specs.Told.{marks_of};
ghost use Rattle.turn_gate.specs.Passes.{IsPassOf, number, seen};

use perimeter_core::NoHook;
use perimeter_trial::Logs;
use squeue_drain::worker;
use squeue_state::{Ended, Pass, Squeue, Trace};
use std::alloc::Global;
use std::sync::Wait;

/// Closes the passes of the ring and of the thread, lets the worker come to its end, and takes the squeue apart. The passes
/// are spent in the room given. It gives the logs, the squeue's end and its marks, as `Squeue::finish` does.
pub fn ended<W: Wait>(
    rt: &W,
    alloc: Global,
    squeue: Squeue<Logs>,
    room: Vec<Pass>,
    ring: Pass,
    thread: Pass,
    last: Pass,
) -> (Logs, Ended, Trace)
    requires room { (room.items ≡ []) × (3 ≤ vec_capacity room) }
    requires given { length squeue.given.quotas ≡ 2 }
    requires are { IsPassOf number_of squeue.gate ring × IsPassOf number_of squeue.gate thread × IsPassOf number_of squeue.gate last }
    requires numbers { (number ring ≡ 0) × (number thread ≡ 1) × (number last ≡ 2) }
    requires idle { Idle (run (setting_of limits_of squeue.given) (seen ring)) (number ring)
        × Idle (run (setting_of limits_of squeue.given) (seen thread)) (number thread) }
    ensures size { size_of result.0 ≡ length squeue.given.starts }
    ensures stands { Stands result.0 (peri (setting_of limits_of squeue.given) result.1.history) }
    ensures ended { HasEnded result.1 }
    ensures setting { result.1.setting ≡ setting_of limits_of squeue.given }
    ensures trace { squeue.given.traced ≡ true → marks_of result.2 ≡ map (λ e. e.mark) result.1.history }
{
    let mut passes = room;
    passes.push_reserved(squeue.close_pass(rt, ring));
    passes.push_reserved(squeue.close_pass(rt, thread));
    passes.push_reserved(worker(&squeue, rt, alloc, &NoHook, last));
    squeue.finish(passes)
}
