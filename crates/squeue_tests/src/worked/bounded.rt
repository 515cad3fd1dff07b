//! A squeue whose room is apart from what may ever be entered: it refuses where its room is full, and not at one place less.
ghost use Rattle.std.specs.Prelude.{◌≡◌, ◌+◌, ◌-◌, ◌<◌, ◌≤◌, length, IfOk};
ghost use Rattle.perimeter_trial.specs.Logging.{limits_of, size_of};
ghost use Rattle.squeue_enter.specs.Entering.{MayEnter};
ghost use Rattle.squeue_tests.specs.Rows.{in_order, one_for_life};
ghost use Rattle.histories.specs.Elements.{number_of};
ghost use Rattle.histories.specs.Limits.{most_feeds};
ghost use Rattle.squeue_state.specs.Naming.{setting_of};
ghost use Rattle.turn_gate.specs.Passes.{AreFresh, number};

use super::{feed, has_had};
use perimeter_core::NoHook;
use perimeter_trial::Logs;
use squeue_drain::worker;
use squeue_enter::{Entered, How, Mode, enter_or_full, fill_or_full};
use squeue_state::{Life, Pass, Squeue};
use std::alloc::{AllocError, Global};
use std::process::Abort;
use std::sync::Wait;
use std::test::Fail;

// One ring over one connection, and so many places.
fn bounded(alloc: Global, room: u32) -> Result<(Squeue<Logs>, Vec<Pass>), AllocError>
    requires { (1 ≤ room) × (room ≤ most_feeds) }
    ensures passes { IfOk result (λ r. (length r.1.items ≡ 2) × AreFresh number_of r.0.gate 0 r.1.items) }
    ensures setting { IfOk result (λ r. setting_of limits_of r.0.given ≡ one_for_life) }
{
    let logs = Logs::make(alloc, &[true], 20, 0, Vec::new(alloc))?;
    let lives = [Life {
        feeds: 1 << 40,
        asks: 0,
    }];
    Squeue::make_bounded(alloc, 0, logs, 1, &lives, room)
}

// Feed `n` of the twenty is queued.
fn queues<W: Wait + Abort>(rt: &W, squeue: &Squeue<Logs>, pass: Pass, n: u32) -> Pass
    requires below { n < 20 }
    requires may { MayEnter limits_of squeue.now pass (in_order 0 n (20 - n)) }
    ensures number { number result ≡ number pass }
    ensures more { MayEnter limits_of squeue.now result (in_order 0 (n + 1) (19 - n)) }
{
    match fill_or_full(squeue, rt, pass, &[feed(0, n)]) {
        Ok(pass) => pass,
        Err(_) => panic!(rt; "there is room for feed {n}"),
    }
}

// Feed `n` of the twenty finds no room.
fn refuses<W: Wait + Abort>(rt: &W, squeue: &Squeue<Logs>, pass: Pass, n: u32) -> Pass
    requires below { n < 20 }
    requires may { MayEnter limits_of squeue.now pass (in_order 0 n (20 - n)) }
    ensures number { number result ≡ number pass }
    ensures more { MayEnter limits_of squeue.now result (in_order 0 n (20 - n)) }
{
    match fill_or_full(squeue, rt, pass, &[feed(0, n)]) {
        Ok(_) => panic!(rt; "there is no room for feed {n}"),
        Err(pass) => pass,
    }
}

// Feeds 0 and 1 find no room together.
fn refuses_two<W: Wait + Abort>(rt: &W, squeue: &Squeue<Logs>, pass: Pass) -> Pass
    requires may { MayEnter limits_of squeue.now pass (in_order 0 0 20) }
    ensures number { number result ≡ number pass }
    ensures more { MayEnter limits_of squeue.now result (in_order 0 0 20) }
{
    match fill_or_full(squeue, rt, pass, &[feed(0, 0), feed(0, 1)]) {
        Ok(_) => panic!(rt; "there is no room for two"),
        Err(pass) => pass,
    }
}

// Feed `n` of the twenty is processed at once, and takes no room.
fn processes<W: Wait + Abort>(
    rt: &W,
    alloc: Global,
    squeue: &Squeue<Logs>,
    pass: Pass,
    n: u32,
) -> Pass
    requires below { n < 20 }
    requires may { MayEnter limits_of squeue.now pass (in_order 0 n (20 - n)) }
    ensures number { number result ≡ number pass }
    ensures more { MayEnter limits_of squeue.now result (in_order 0 (n + 1) (19 - n)) }
{
    let chain = [feed(0, n)];
    let entered = match enter_or_full(squeue, rt, alloc, &NoHook, pass, &chain, Mode::Process, 1) {
        Ok(entered) => entered,
        Err(_) => panic!(rt; "there is room for feed {n}"),
    };
    let Entered {
        pass,
        how,
        polling: _,
    } = entered;
    assert_eq!(rt; how, How::Fast { rest: 0 });
    pass
}

// The ring fills the room, one feed after another, and then one feed more is refused.
fn fills_up<W: Wait + Abort>(rt: &W, squeue: &Squeue<Logs>, pass: Pass, room: u32) -> Pass
    requires room { room < 20 }
    requires may { MayEnter limits_of squeue.now pass (in_order 0 0 20) }
    ensures number { number result ≡ number pass }
    ensures more { MayEnter limits_of squeue.now result (in_order 0 room (20 - room)) }
{
    let mut pass = pass;
    for n in 0..room {
        pass = queues(rt, squeue, pass, n);
    }
    refuses(rt, squeue, pass, room)
}

// The room is full at `room` feeds. The worker processes them all.
fn is_full_at<W: Wait + Abort>(rt: &W, alloc: Global, room: u32) -> Result<Logs, AllocError>
    requires { (1 ≤ room) × (room < 20) }
    ensures { IfOk result (λ r. size_of r ≡ 1) }
{
    let (squeue, mut passes) = bounded(alloc, room)?;
    let Some(last) = passes.pop() else {
        unreachable!()
    };
    let Some(zero) = passes.pop() else {
        unreachable!()
    };
    let zero = fills_up(rt, &squeue, zero, room);
    let zero = squeue.close_pass(rt, zero);
    let last = worker(&squeue, rt, alloc, &NoHook, last);
    passes.push_reserved(zero);
    passes.push_reserved(last);
    let (logs, _ended, _trace) = squeue.finish(passes);
    Ok(logs)
}

// One place: two feeds never fit, one after another do where each is processed, and then one waits and the next is refused.
fn goes_through_one_place<W: Wait + Abort>(rt: &W, alloc: Global) -> Result<Logs, AllocError>
    ensures { IfOk result (λ r. size_of r ≡ 1) }
{
    let (squeue, mut passes) = bounded(alloc, 1)?;
    let Some(last) = passes.pop() else {
        unreachable!()
    };
    let Some(zero) = passes.pop() else {
        unreachable!()
    };
    let zero = refuses_two(rt, &squeue, zero);
    let zero = processes(rt, alloc, &squeue, zero, 0);
    let zero = processes(rt, alloc, &squeue, zero, 1);
    let zero = processes(rt, alloc, &squeue, zero, 2);
    let zero = queues(rt, &squeue, zero, 3);
    let zero = refuses(rt, &squeue, zero, 4);
    let zero = squeue.close_pass(rt, zero);
    let last = worker(&squeue, rt, alloc, &NoHook, last);
    passes.push_reserved(zero);
    passes.push_reserved(last);
    let (logs, _ended, _trace) = squeue.finish(passes);
    Ok(logs)
}

#[test]
fn full_at_a_full_room(rt: HostRuntime) -> Result<(), Fail> {
    let alloc = rt.alloc();
    for room in [1, 2, 3, 16] {
        let logs = is_full_at(&rt, alloc, room)?;
        has_had(&rt, &logs, 0, room);
    }
    Ok(())
}

#[test]
fn a_chain_longer_than_the_room(rt: HostRuntime) -> Result<(), Fail> {
    let alloc = rt.alloc();
    let logs = goes_through_one_place(&rt, alloc)?;
    has_had(&rt, &logs, 0, 4);
    Ok(())
}
