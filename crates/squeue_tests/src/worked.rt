//! What the worked rows share: how they begin, one entry with its answer, and reading a trace.
ghost use Rattle.std.specs.Prelude.{◌≡◌, ◌+◌, ◌<◌, ◌≤◌, length};
ghost use Rattle.perimeter_trial.specs.Logging.{size_of};
ghost use Rattle.perimeter_core.specs.Perimeter.{Idle};
ghost use Rattle.perimeter_core.specs.History.{run};
ghost use Rattle.squeue_state.specs.AllRoom.{HasAllRoom};
ghost use Rattle.squeue_enter.specs.Entering.{MayEnter, MayGoOn};
ghost use Rattle.histories.specs.Elements.{number_of};
ghost use Rattle.squeue_state.specs.Naming.{setting_of};
ghost use Rattle.turn_gate.specs.Passes.{IsPassOf, number, seen};

mod beside;
mod bounded;
mod modes;
mod polling;
mod short;
mod three_passes;
mod turns;

use perimeter_core::{Act, Entry, Feed, NoHook, Resident, SynchAct};
use perimeter_trial::Logs;
use squeue_enter::{Entered, How, Mode, enter};
use squeue_state::{Pass, Squeue, Trace, TraceMark};
use std::alloc::Global;
use std::process::Abort;
use std::sync::Wait;

// How many feeds an owner processes in one entry.
const BUDGET: u32 = 10;

// Feed `n` of connection `c`.
fn feed(c: u32, n: u32) -> Feed
    ensures { result ≡ record { c = c; n = n } }
{
    Feed { c, n }
}

// One entry, with what it is to answer.
fn enters<R: Resident, W: Wait + Abort>(
    rt: &W,
    alloc: Global,
    squeue: &Squeue<R>,
    pass: Pass,
    chain: &[Feed],
    mode: Mode,
    how: How,
    polling: bool,
) -> Pass
    requires some { 0 < length chain.now }
    requires may { MayEnter R.limits squeue.now pass chain.now }
    requires room { HasAllRoom squeue.now.given }
    ensures pass { IsPassOf number_of squeue.now.gate result }
    ensures number { number result ≡ number pass }
    ensures idle { Idle (run (setting_of R.limits squeue.now.given) (seen result)) (number result) }
    ensures more { MayGoOn R.limits squeue.now chain.now pass result }
{
    let entered = enter(squeue, rt, alloc, &NoHook, pass, chain, mode, BUDGET);
    let Entered {
        pass,
        how: did,
        polling: flag,
    } = entered;
    assert_eq!(rt; did, how);
    assert_eq!(rt; flag, polling);
    pass
}

// So many entries were queued.
fn filled(p: u32, first: u64, len: u64) -> TraceMark {
    TraceMark::Fill { p, first, len }
}

// The owner left with so many entries unprocessed.
fn left(p: u32, rest: u64) -> TraceMark {
    TraceMark::Leave {
        p,
        rest,
        act: SynchAct::None,
    }
}

// The trace has these marks and no others.
fn has_marks<A: Abort>(rt: &A, trace: &Trace, marks: &[TraceMark])
    ensures { length trace.now.marks ≡ length marks.now }
{
    assert_eq!(rt; trace.len(), marks.len() as u64);
    for (i, mark) in marks.iter().enumerate() {
        assert_eq!(rt; trace.mark(i as u64), *mark, "mark {i}");
    }
}

// The mark at `i` filled these feeds.
fn has_filled<A: Abort>(rt: &A, trace: &Trace, i: u64, chain: &[Feed])
    requires { i < length trace.now.marks }
{
    match trace.mark(i) {
        TraceMark::Fill { p: _, first, len } => {
            assert_eq!(rt; len, chain.len() as u64);
            has_entries(rt, trace, first, chain);
        }
        _ => panic!(rt; "mark {i} isn't a Fill"),
    }
}

// These feeds stand among the entries, from `first` on.
fn has_entries<A: Abort>(rt: &A, trace: &Trace, first: u64, chain: &[Feed])
    requires { first + length chain.now ≤ length trace.now.entries }
{
    for (k, f) in chain.iter().enumerate() {
        let queued = Entry::Feed { c: f.c, n: f.n };
        let at = first.checked_add(k as u64).expect(rt, "a place");
        assert_eq!(rt; trace.entry(at), queued, "entry {k}");
    }
}

// Connection `c` has had so many feeds, and nothing else was done to it.
fn has_had<A: Abort>(rt: &A, logs: &Logs, c: u32, feeds: u32)
    requires { c < size_of logs.now }
{
    let log = logs.log(c).expect(rt, "the connection is here");
    assert!(rt; !log.short());
    assert_eq!(rt; log.acts().len(), feeds as usize);
    for (n, act) in log.acts().iter().enumerate() {
        assert_eq!(rt; *act, Act::Feed { n: n as u32 });
    }
}
