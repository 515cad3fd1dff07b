//! Calls where the block is and where it isn't, and hints.
ghost use Rattle.std.specs.Prelude.{◌≡◌, ◌+◌, ◌<◌, [], length, Contains};
ghost use Rattle.turn_gate.specs.Passes.{IsPassOf, number, seen};
ghost use Rattle.perimeter_core.specs.declared.marks.SynchAct.TheVariants as Done;
ghost use Rattle.perimeter_core.specs.Perimeter.{Idle};
ghost use Rattle.perimeter_core.specs.History.{run};
ghost use Rattle.squeue_state.specs.Naming.{setting_of};
ghost use Rattle.histories.specs.Elements.{number_of};
ghost use Rattle.synch_enter.specs.Synch.{MayAsk, StandsAtItsAsk};

mod beside;

use perimeter_core::{Act, NoHook, Resident, SynchAct};
use small_squeue::{ended, has_marks, opened, three};
use squeue_drain::Owner;
use squeue_state::{Pass, Squeue, TraceMark};
use std::alloc::Global;
use std::marker::Brand;
use std::sync::Wait;
use std::test::Fail;
use synch_enter::{Called, Hints, call, synch_enter, synch_exit, synch_try};

// Makes the call, and leaves.
fn calls<R: Resident, W: Wait>(
    rt: &W,
    alloc: Global,
    squeue: &Squeue<R>,
    owner: Owner<R>,
    c: u32,
    j: u32,
    k: u32,
) -> (Pass, Called)
    requires stands { StandsAtItsAsk R.Resident squeue.now [] owner }
    requires no_act { owner.act ≡ Done.None }
    requires thread { number owner.pass ≡ squeue.now.given.rings + j }
    requires exists { Contains (R.limits squeue.now.given.first).calls (c, j, k) }
    ensures pass { IsPassOf number_of squeue.now.gate result.0 × (number result.0 ≡ number owner.pass) }
    ensures idle { Idle (run (setting_of R.limits squeue.now.given) (seen result.0)) (number owner.pass) }
{
    let mut owner = owner;
    let called = call(&mut owner, alloc, c, j, k);
    (synch_exit::<R, Brand, W>(squeue, rt, owner), called)
}

// Makes the call where its block is here. Else it enters all the same, and the call finds its block elsewhere.
fn tries<R: Resident, W: Wait>(
    rt: &W,
    alloc: Global,
    squeue: &Squeue<R>,
    pass: Pass,
    c: u32,
    j: u32,
    k: u32,
) -> (Pass, Called, bool)
    requires may { MayAsk R.limits squeue.now pass }
    requires range { c < length squeue.now.given.starts }
    requires thread { number pass ≡ squeue.now.given.rings + j }
    requires exists { Contains (R.limits squeue.now.given.first).calls (c, j, k) }
    ensures pass { IsPassOf number_of squeue.now.gate result.0 × (number result.0 ≡ number pass) }
    ensures idle { Idle (run (setting_of R.limits squeue.now.given) (seen result.0)) (number pass) }
{
    match synch_try(squeue, rt, alloc, &NoHook, pass, c) {
        Ok(owner) => {
            let (pass, called) = calls(rt, alloc, squeue, owner, c, j, k);
            (pass, called, true)
        }
        Err(pass) => {
            let owner = synch_enter(squeue, rt, alloc, &NoHook, pass);
            let (pass, called) = calls(rt, alloc, squeue, owner, c, j, k);
            (pass, called, false)
        }
    }
}

#[test]
fn a_call_here(rt: HostRuntime) -> Result<(), Fail> {
    let alloc = rt.alloc();
    let (squeue, mut passes) = opened(alloc, 0, true, 0)?;
    let (ring, thread, last) = three(&mut passes);
    let (thread, called, found) = tries(&rt, alloc, &squeue, thread, 0, 0, 0);
    assert_eq!(rt; (called, found), (Called::Done, true));
    let (logs, _ended, trace) = ended(&rt, alloc, squeue, passes, ring, thread, last);
    let act = SynchAct::Call { c: 0, j: 0, k: 0 };
    let marks = [
        TraceMark::Claim {
            p: 1,
            first: 0,
            len: 1,
        },
        TraceMark::Leave { p: 1, rest: 0, act },
        TraceMark::Close { p: 0 },
        TraceMark::Close { p: 1 },
    ];
    assert!(rt; has_marks(&trace, &marks));
    let log = logs.log(0).expect(&rt, "the connection is here");
    assert!(rt; matches!(log.acts(), [Act::Call { j: 0, k: 0 }]));
    assert!(rt; !log.short());
    Ok(())
}

#[test]
fn a_call_elsewhere(rt: HostRuntime) -> Result<(), Fail> {
    let alloc = rt.alloc();
    let (squeue, mut passes) = opened(alloc, 0, false, 0)?;
    let (ring, thread, last) = three(&mut passes);
    let (thread, called, found) = tries(&rt, alloc, &squeue, thread, 0, 0, 0);
    assert_eq!(rt; (called, found), (Called::Elsewhere, false));
    let (logs, _ended, trace) = ended(&rt, alloc, squeue, passes, ring, thread, last);
    let act = SynchAct::Away;
    let marks = [
        TraceMark::Claim {
            p: 1,
            first: 0,
            len: 1,
        },
        TraceMark::Leave { p: 1, rest: 0, act },
        TraceMark::Close { p: 0 },
        TraceMark::Close { p: 1 },
    ];
    assert!(rt; has_marks(&trace, &marks));
    assert!(rt; logs.log(0).is_none());
    Ok(())
}

#[test]
fn hints_of_five_connections(rt: HostRuntime) -> Result<(), Fail> {
    let hints = Hints::make(rt.alloc(), 5, 3)?;
    for c in 0..5 {
        assert_eq!(rt; hints.get(c), [0, 1, 2, 0, 1][c as usize]);
    }
    hints.set(3, 2);
    for c in 0..5 {
        assert_eq!(rt; hints.get(c), [0, 1, 2, 2, 1][c as usize]);
    }
    Ok(())
}
