//! One pass brings so much that its ring is to bring chains, and drains it.
ghost use Rattle.std.specs.Prelude.{◌≡◌, ◌+◌, ◌-◌, ◌<◌, length, IfOk};
ghost use Rattle.perimeter_core.specs.Perimeter.{Idle};
ghost use Rattle.perimeter_core.specs.History.{run};
ghost use Rattle.squeue_state.specs.AllRoom.{HasAllRoom};
ghost use Rattle.squeue_enter.specs.Entering.{MayEnter};
ghost use Rattle.squeue_tests.specs.Rows.{IsNew, in_order, one_here, the_one};
ghost use Rattle.histories.specs.Elements.{number_of};
ghost use Rattle.squeue_state.specs.Naming.{setting_of};
ghost use Rattle.turn_gate.specs.Passes.{AreFresh, IsPassOf, number, seen};

use super::short::{Short, has_done};
use super::{enters, feed, filled, has_had, has_marks, left};
use perimeter_core::{Feed, NoHook, Resident};
use perimeter_trial::Logs;
use squeue_drain::worker;
use squeue_enter::{How, Mode};
use squeue_state::{Pass, Quota, Squeue, Trace, TraceMark};
use std::alloc::{AllocError, Global};
use std::process::Abort;
use std::sync::Wait;
use std::test::Fail;

// One ring over one connection, which may bring twenty feeds.
fn one_ring<R: Resident + Drop>(
    alloc: Global,
    resident: R,
) -> Result<(Squeue<R>, Vec<Pass>), AllocError>
    requires { IsNew R.stands R.limits R.size the_one 20 resident }
    ensures passes { IfOk result (λ r. (length r.1.items ≡ 2) × AreFresh number_of r.0.gate 0 r.1.items) }
    ensures setting { IfOk result (λ r. setting_of R.limits r.0.given ≡ one_here) }
    ensures room { IfOk result (λ r. HasAllRoom r.0.given) }
{
    let quotas = [Quota { feeds: 20, asks: 0 }];
    Squeue::make(alloc, 0, resident, 1, &quotas, true)
}

// The first fifteen feeds of connection 0.
fn fifteen() -> [Feed; 15]
    ensures { result ≡ in_order 0 0 15 }
{
    let mut chain = [feed(0, 0); 15];
    for n in 0..15 {
        chain[n] = feed(0, n as u32);
    }
    chain
}

// The first fifteen feeds are queued.
fn enters_fifteen<R: Resident, W: Wait + Abort>(
    rt: &W,
    alloc: Global,
    squeue: &Squeue<R>,
    pass: Pass,
) -> Pass
    requires may { MayEnter R.limits squeue.now pass (in_order 0 0 20) }
    requires room { HasAllRoom squeue.now.given }
    ensures number { number result ≡ number pass }
    ensures more { MayEnter R.limits squeue.now result (in_order 0 15 5) }
{
    let woke = How::Queued { woke: true };
    let chain = fifteen();
    enters(rt, alloc, squeue, pass, &chain, Mode::Fill, woke, false)
}

// Feed `n` of the twenty is entered.
fn enters_next<R: Resident, W: Wait + Abort>(
    rt: &W,
    alloc: Global,
    squeue: &Squeue<R>,
    pass: Pass,
    n: u32,
    mode: Mode,
    how: How,
    polling: bool,
) -> Pass
    requires below { n < 20 }
    requires may { MayEnter R.limits squeue.now pass (in_order 0 n (20 - n)) }
    requires room { HasAllRoom squeue.now.given }
    ensures pass { IsPassOf number_of squeue.now.gate result }
    ensures number { number result ≡ number pass }
    ensures idle { Idle (run (setting_of R.limits squeue.now.given) (seen result)) (number result) }
    ensures more { MayEnter R.limits squeue.now result (in_order 0 (n + 1) (19 - n)) }
{
    let chain = [feed(0, n)];
    enters(rt, alloc, squeue, pass, &chain, mode, how, polling)
}

// The twenty feeds are entered one after another, with what each entry is to answer.
fn enters_twenty<R: Resident, W: Wait + Abort>(
    rt: &W,
    alloc: Global,
    squeue: &Squeue<R>,
    pass: Pass,
) -> Pass
    requires may { MayEnter R.limits squeue.now pass (in_order 0 0 20) }
    requires room { HasAllRoom squeue.now.given }
    ensures pass { IsPassOf number_of squeue.now.gate result }
    ensures number { number result ≡ number pass }
    ensures idle { Idle (run (setting_of R.limits squeue.now.given) (seen result)) (number result) }
{
    let woke = How::Queued { woke: true };
    let seven = How::Drained { rest: 7 };
    let none = How::Drained { rest: 0 };
    let fast = How::Fast { rest: 0 };
    let pass = enters_fifteen(rt, alloc, squeue, pass);
    let pass = enters_next(rt, alloc, squeue, pass, 15, Mode::Fill, woke, true);
    // It takes the sixteen, and its own behind them, and has a budget of ten.
    let pass = enters_next(rt, alloc, squeue, pass, 16, Mode::Process, seven, false);
    let pass = enters_next(rt, alloc, squeue, pass, 17, Mode::Process, none, false);
    let pass = enters_next(rt, alloc, squeue, pass, 18, Mode::NoDrain, fast, false);
    enters_next(rt, alloc, squeue, pass, 19, Mode::Process, fast, false)
}

// The row, with this resident.
fn polls<R: Resident + Drop, W: Wait + Abort>(
    rt: &W,
    alloc: Global,
    resident: R,
) -> Result<R, AllocError>
    requires { IsNew R.stands R.limits R.size the_one 20 resident }
    ensures { IfOk result (λ r. R.size r ≡ 1) }
{
    let (squeue, mut passes) = one_ring(alloc, resident)?;
    let Some(last) = passes.pop() else {
        unreachable!()
    };
    let Some(zero) = passes.pop() else {
        unreachable!()
    };
    let zero = enters_twenty(rt, alloc, &squeue, zero);
    let zero = squeue.close_pass(rt, zero);
    let last = worker(&squeue, rt, alloc, &NoHook, last);
    passes.push_reserved(zero);
    passes.push_reserved(last);
    let (resident, _ended, trace) = squeue.finish(passes);
    tells(rt, &trace);
    Ok(resident)
}

// The trace tells of the six entries. The first drain leaves seven, since its budget is ten.
fn tells<A: Abort>(rt: &A, trace: &Trace) {
    let marks = [
        filled(0, 0, 15),
        filled(0, 15, 1),
        TraceMark::Claim {
            p: 0,
            first: 16,
            len: 1,
        },
        left(0, 7),
        TraceMark::Claim {
            p: 0,
            first: 17,
            len: 1,
        },
        left(0, 0),
        TraceMark::Fast { p: 0, first: 18 },
        left(0, 0),
        TraceMark::Fast { p: 0, first: 19 },
        left(0, 0),
        TraceMark::Close { p: 0 },
    ];
    has_marks(rt, trace, &marks);
}

#[test]
fn polling_mark(rt: HostRuntime) -> Result<(), Fail> {
    let alloc = rt.alloc();
    let logs = Logs::make(alloc, &[true], 20, 0, Vec::new(alloc))?;
    let logs = polls(&rt, alloc, logs)?;
    has_had(&rt, &logs, 0, 20);
    Ok(())
}

#[test]
fn polling_mark_short_of_memory(rt: HostRuntime) -> Result<(), Fail> {
    let alloc = rt.alloc();
    let mut feeds = [feed(0, 0); 20];
    for n in 0..20 {
        feeds[n] = feed(0, n as u32);
    }
    // The last of these acts is never reached.
    for at in [0, 1, 2, 3, 4, 20] {
        let short = Short::make(alloc, &[true], 20, at, 20)?;
        let short = polls(&rt, alloc, short)?;
        assert_eq!(rt; short.wanted(), at < 20, "memory wanting at act {at}");
        has_done(&rt, &short, &feeds);
    }
    Ok(())
}
