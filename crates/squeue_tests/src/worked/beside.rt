//! One thread enters while another is owner and processes.
//!
//! The owner is held by a hook, before its feed, until the other thread's entry was answered. So the row also refuses a squeue
//! that processes entries with its gate held: there the other thread misses the gate each time, until its turns run out. Each
//! wait is bounded, so the row ends in any case.
ghost use Rattle.std.specs.Prelude.{◌≡◌, [], ◌∷◌, length, IfOk};
ghost use Rattle.perimeter_trial.specs.Logging.{limits_of, size_of};
ghost use Rattle.squeue_state.specs.AllRoom.{HasAllRoom};
ghost use Rattle.squeue_tests.specs.Rows.{Holds, IsIdle, MayBring, two_here};
ghost use Rattle.histories.specs.Elements.{number_of};
ghost use Rattle.squeue_state.specs.Naming.{setting_of};
ghost use Rattle.turn_gate.specs.Passes.{AreFresh};

use super::{feed, filled, has_had, has_marks, left};
use perimeter_core::{Hook, NoHook};
use perimeter_trial::Logs;
use squeue_drain::worker;
use squeue_enter::{Entered, How, Mode, enter, try_fill};
use squeue_state::{Missed, Pass, Quota, Squeue, TraceMark};
use std::alloc::{AllocError, Global};
use std::hint::spin_loop;
use std::process::Abort;
use std::sync::Wait;
use std::sync::atomic::{AtomicBool, Ordering};
use std::test::Fail;
use std::thread::{Threads, join_mut};

// How often a thread looks for the other before it gives up.
const TURNS: u32 = 1 << 26;

// The number of the squeue.
const NUMBER: u32 = 7;

// Where the two threads meet: the owner is about to process feed 0 of connection 0; the other thread's entry was answered;
// one of them has waited in vain.
#[derive(Drop)]
struct Meeting {
    begun: AtomicBool,
    entered: AtomicBool,
    in_vain: AtomicBool,
}

impl Meeting {
    fn new() -> Meeting {
        Meeting {
            begun: AtomicBool::new(false),
            entered: AtomicBool::new(false),
            in_vain: AtomicBool::new(false),
        }
    }
}

impl Hook for Meeting {
    fn before(&self, squeue: u32, c: u32, n: u32) {
        if squeue == NUMBER && c == 0 && n == 0 {
            set(&self.begun);
            if !comes(&self.entered) {
                set(&self.in_vain);
            }
        }
    }
}

fn set(flag: &AtomicBool) {
    flag.store(true, Ordering::SeqCst);
}

fn is_set(flag: &AtomicBool) -> bool {
    flag.load(Ordering::SeqCst)
}

// Waits for the flag, and tells whether it came.
fn comes(flag: &AtomicBool) -> bool {
    for _ in 0..TURNS {
        if is_set(flag) {
            return true;
        }
        spin_loop();
    }
    false
}

// A pass in a place of its own, which a thread gets by `&mut`.
struct Job {
    pass: Option<Pass>,
}

// The first thread enters feed 0 of connection 0.
fn brings<W: Wait>(
    rt: &W,
    alloc: Global,
    squeue: &Squeue<Logs>,
    meeting: &Meeting,
    mode: Mode,
    job: &mut Job,
) -> How
    requires { Holds (MayBring limits_of squeue.now 0 (record { c = 0; n = 0 } ∷ [])) job.old.pass }
    ensures { Holds (IsIdle limits_of squeue.now 0) job.new.pass }
{
    let taken = job.pass.take();
    let Some(pass) = taken else { unreachable!() };
    let chain = [feed(0, 0)];
    let entered = enter(squeue, rt, alloc, meeting, pass, &chain, mode, 64);
    let Entered {
        pass,
        how,
        polling: _,
    } = entered;
    let old = job.pass.replace(pass);
    let None = old else { unreachable!() };
    how
}

// The second thread enters feed 0 of connection 1 meanwhile.
fn fills(squeue: &Squeue<Logs>, meeting: &Meeting, job: &mut Job)
    requires { Holds (MayBring limits_of squeue.now 1 (record { c = 1; n = 0 } ∷ [])) job.old.pass }
    ensures { Holds (IsIdle limits_of squeue.now 1) job.new.pass }
{
    let taken = job.pass.take();
    let Some(pass) = taken else { unreachable!() };
    let pass = if comes(&meeting.begun) {
        fills_again(squeue, meeting, pass)
    } else {
        set(&meeting.in_vain);
        pass
    };
    let old = job.pass.replace(pass);
    let None = old else { unreachable!() };
}

// Tries until the feed is queued.
fn fills_again(squeue: &Squeue<Logs>, meeting: &Meeting, pass: Pass) -> Pass
    requires { MayBring limits_of squeue.now 1 (record { c = 1; n = 0 } ∷ []) pass }
    ensures { IsIdle limits_of squeue.now 1 result }
{
    let mut pass = pass;
    for _ in 0..TURNS {
        match try_fill(squeue, pass, feed(1, 0)) {
            Ok(filled) => {
                set(&meeting.entered);
                return filled;
            }
            Err(missed) => {
                let Missed {
                    pass: back,
                    expected: _,
                    found: _,
                } = missed;
                pass = back;
            }
        }
        spin_loop();
    }
    set(&meeting.in_vain);
    pass
}

// The two threads.
fn both<W: Threads + Wait + Sync>(
    rt: &W,
    alloc: Global,
    squeue: &Squeue<Logs>,
    meeting: &Meeting,
    mode: Mode,
    first: &mut Job,
    second: &mut Job,
) -> How
    requires first { Holds (MayBring limits_of squeue.now 0 (record { c = 0; n = 0 } ∷ [])) first.old.pass }
    requires second { Holds (MayBring limits_of squeue.now 1 (record { c = 1; n = 0 } ∷ [])) second.old.pass }
    ensures first { Holds (IsIdle limits_of squeue.now 0) first.new.pass }
    ensures second { Holds (IsIdle limits_of squeue.now 1) second.new.pass }
{
    let (how, ()) = join_mut(
        rt,
        &mut || brings(rt, alloc, squeue, meeting, mode, first),
        &mut || fills(squeue, meeting, second),
    );
    how
}

// Two rings over two connections, each of which may bring one feed.
fn two_rings(alloc: Global) -> Result<(Squeue<Logs>, Vec<Pass>), AllocError>
    ensures passes { IfOk result (λ r. (length r.1.items ≡ 3) × AreFresh number_of r.0.gate 0 r.1.items) }
    ensures setting { IfOk result (λ r. setting_of limits_of r.0.given ≡ two_here) }
    ensures room { IfOk result (λ r. HasAllRoom r.0.given) }
{
    let logs = Logs::make(alloc, &[true, true], 1, 0, Vec::new(alloc))?;
    let quotas = [Quota { feeds: 1, asks: 0 }, Quota { feeds: 1, asks: 0 }];
    Squeue::make(alloc, NUMBER, logs, 2, &quotas, true)
}

// Both threads enter; then the passes close, and the worker runs.
fn meets<W: Threads + Wait + Sync + Abort>(
    rt: &W,
    alloc: Global,
    mode: Mode,
    how: How,
    marks: &[TraceMark],
) -> Result<Logs, AllocError>
    ensures { IfOk result (λ r. size_of r ≡ 2) }
{
    let (squeue, mut passes) = two_rings(alloc)?;
    let Some(last) = passes.pop() else {
        unreachable!()
    };
    let mut second = Job { pass: passes.pop() };
    let mut first = Job { pass: passes.pop() };
    let meeting = Meeting::new();
    let did = both(rt, alloc, &squeue, &meeting, mode, &mut first, &mut second);
    assert!(rt; is_set(&meeting.begun), "the hook is called for the feed");
    assert!(rt; !is_set(&meeting.in_vain), "nobody waits in vain");
    assert_eq!(rt; did, how);
    let Job { pass: Some(zero) } = first else {
        unreachable!()
    };
    let Job { pass: Some(one) } = second else {
        unreachable!()
    };
    let zero = squeue.close_pass(rt, zero);
    let one = squeue.close_pass(rt, one);
    let last = worker(&squeue, rt, alloc, &NoHook, last);
    passes.push_reserved(zero);
    passes.push_reserved(one);
    passes.push_reserved(last);
    let (logs, _ended, trace) = squeue.finish(passes);
    has_marks(rt, &trace, marks);
    Ok(logs)
}

#[test]
fn entry_while_the_owner_works(rt: HostRuntime) -> Result<(), Fail> {
    let alloc = rt.alloc();
    let fast = TraceMark::Fast { p: 0, first: 0 };
    let fill = filled(1, 1, 1);
    let take = TraceMark::Take { p: 0 };
    let zero = TraceMark::Close { p: 0 };
    let one = TraceMark::Close { p: 1 };
    let work = TraceMark::Work { p: 2 };
    // The owner takes what was queued meanwhile.
    let marks = [fast, fill, take, left(0, 0), zero, one];
    let logs = meets(&rt, alloc, Mode::Process, How::Fast { rest: 0 }, &marks)?;
    has_had(&rt, &logs, 0, 1);
    has_had(&rt, &logs, 1, 1);
    // The owner leaves it to the worker.
    let marks = [fast, fill, left(0, 0), zero, one, work, left(2, 0)];
    let logs = meets(&rt, alloc, Mode::NoDrain, How::Fast { rest: 1 }, &marks)?;
    has_had(&rt, &logs, 0, 1);
    has_had(&rt, &logs, 1, 1);
    Ok(())
}
