//! A new squeue and its passes.
ghost use Rattle.std.specs.Prelude.{◌≡◌, ◌≤◌, ◌^◌, ◌∷◌, [], true, false, length, slice_index_or, vec_capacity, IfOk};
ghost use Rattle.perimeter_trial.specs.Logging.{limits_of};
ghost use Rattle.squeue_state.specs.AllRoom.{HasAllRoom};
ghost use Rattle.histories.specs.Elements.{number_of};
ghost use Rattle.turn_gate.specs.Passes.{AreFresh};

use perimeter_trial::Logs;
use squeue_state::{Pass, Quota, Squeue};
use std::alloc::{AllocError, Global};

/// A squeue of one connection, whose block is here or elsewhere, and which keeps its marks. The ring may bring so many feeds,
/// the application thread has one call on the connection, and each may ask once. The passes are those of the ring, the
/// thread and the worker. `number` names the squeue. Fails only for want of memory.
///
/// # Example
///
/// ```
/// let (squeue, mut passes) = opened(alloc, 0, true, 0)?;
/// let (ring, thread, last) = three(&mut passes);
/// ...
/// let (logs, _ended, trace) = ended(&rt, alloc, squeue, passes, ring, thread, last);
/// ```
pub fn opened(
    alloc: Global,
    number: u32,
    here: bool,
    feeds: u32,
) -> Result<(Squeue<Logs>, Vec<Pass>), AllocError>
    requires { feeds ≤ 2 ^ 30 }
    ensures passes { IfOk result (λ r. (length r.1.items ≡ 3) × AreFresh number_of r.0.gate 0 r.1.items) }
    ensures number { IfOk result (λ r. r.0.given.number ≡ number) }
    ensures traced { IfOk result (λ r. r.0.given.traced ≡ true) }
    ensures given { IfOk result (λ r. (r.0.given.quotas ≡ (feeds, 1) ∷ (0, 1) ∷ []) × (r.0.given.rings ≡ 1) × (length r.0.given.starts ≡ 1)) }
    ensures room { IfOk result (λ r. HasAllRoom r.0.given) }
    ensures here { IfOk result (λ r. slice_index_or r.0.given.starts 0 false ≡ here) }
    ensures limits { IfOk result (λ r. limits_of r.0.given.first ≡ record { feeds = feeds ∷ []; leaves = 1 ∷ []; calls = (0, 0, 0) ∷ [] }) }
{
    let mut calls = Vec::new(alloc);
    calls.push((0, 0, 0))?;
    let logs = Logs::make(alloc, &[here], feeds, 1, calls)?;
    let quotas = [Quota { feeds, asks: 1 }, Quota { feeds: 0, asks: 1 }];
    Squeue::make(alloc, number, logs, 1, &quotas, true)
}

/// The passes of the ring, the thread and the worker, of the three that `opened` gives. The room that they stood in is left,
/// for `ended`.
pub fn three(passes: &mut Vec<Pass>) -> (Pass, Pass, Pass)
    requires { length passes.old.items ≡ 3 }
    ensures old { passes.old.items ≡ result.0 ∷ result.1 ∷ result.2 ∷ [] }
    ensures new { passes.new.items ≡ [] }
    ensures room { vec_capacity passes.new ≡ vec_capacity passes.old }
{
    let Some(worker) = passes.pop() else {
        unreachable!()
    };
    let Some(thread) = passes.pop() else {
        unreachable!()
    };
    let Some(ring) = passes.pop() else {
        unreachable!()
    };
    (ring, thread, worker)
}
