//! What the turns of a new squeue tell, and its end with nothing entered.
ghost use Rattle.std.specs.Prelude.{◌≡◌, ◌∷◌, [], length, IfOk};
ghost use Rattle.histories.specs.Elements.{number_of};
ghost use Rattle.turn_gate.specs.Passes.{AreFresh};

use super::has_marks;
use perimeter_core::{NoHook, Own, Resident};
use perimeter_trial::Logs;
use small_squeue::three;
use squeue_drain::worker;
use squeue_state::{Missed, Pass, Quota, Squeue, TraceMark};
use std::alloc::{AllocError, Global};
use std::process::Abort;
use std::test::Fail;

// Two connections, of which the first is here; a ring, an application thread and the worker.
fn opened(alloc: Global) -> Result<(Squeue<Logs>, Vec<Pass>), AllocError>
    ensures passes { IfOk result (λ r. (length r.1.items ≡ 3) × AreFresh number_of r.0.gate 0 r.1.items) }
    ensures given { IfOk result (λ r. (r.0.given.quotas ≡ (2, 1) ∷ (0, 1) ∷ []) × (r.0.given.rings ≡ 1) × (length r.0.given.starts ≡ 2)) }
{
    let logs = Logs::make(alloc, &[true, false], 2, 1, Vec::new(alloc))?;
    let quotas = [Quota { feeds: 2, asks: 1 }, Quota { feeds: 0, asks: 1 }];
    Squeue::make(alloc, 7, logs, 1, &quotas, true)
}

// What somebody missed who came to a held gate for the first time, and so took it for the free one of the beginning.
fn missed<A: Abort>(rt: &A, missed: Missed) -> Pass
    ensures { result ≡ missed.pass }
{
    let Missed {
        pass,
        expected,
        found,
    } = missed;
    assert_eq!(rt; (expected, found), (0, 1));
    pass
}

#[test]
fn a_new_squeue(rt: HostRuntime) -> Result<(), Fail> {
    let alloc = rt.alloc();
    let (squeue, mut passes) = opened(alloc)?;
    let (ring, thread, last) = three(&mut passes);
    let numbers = (ring.number(), thread.number(), last.number());
    assert_eq!(rt; numbers, (0, 1, 2));
    assert_eq!(rt; squeue.number(), 7);
    let turn = squeue.turn(&rt, last);
    let found = (turn.own(), turn.chain_len(), turn.wake(), turn.polling());
    assert_eq!(rt; found, (Own::Free, 0, false, false));
    let tells = (turn.is_here(0), turn.is_here(1), turn.others_closed());
    assert_eq!(rt; tells, (true, false, false));
    let ring = match squeue.try_turn(ring) {
        Ok(_) => panic!(rt; "the gate is held"),
        Err(held) => missed(&rt, held),
    };
    let last = squeue.plain(turn);
    let ring = squeue.close_pass(&rt, ring);
    let thread = squeue.close_pass(&rt, thread);
    let turn = match squeue.try_turn(last) {
        Ok(turn) => turn,
        Err(_) => panic!(rt; "nobody holds the gate"),
    };
    assert!(rt; turn.others_closed());
    let last = squeue.plain(turn);
    let last = worker(&squeue, &rt, alloc, &NoHook, last);
    passes.push_reserved(ring);
    passes.push_reserved(thread);
    passes.push_reserved(last);
    let (logs, ended, trace) = squeue.finish(passes);
    assert_eq!(rt; (ended.number(), logs.conns()), (7, 2));
    let marks = [TraceMark::Close { p: 0 }, TraceMark::Close { p: 1 }];
    has_marks(&rt, &trace, &marks);
    Ok(())
}
