//! A thread that asks while a ring is owner. The ring grants where it meets the Ask; or it leaves with the block, and the
//! worker grants.
//!
//! Three roles meet. The ring becomes owner, and a hook holds it before feed 0. The thread waits for that, and then comes as a
//! synchronous owner, since its turn finds the block here: it asks, and waits for its grant. The third looks with the worker's
//! pass until the Ask is queued, lets the ring go on, and works to the end. The ring closes its pass when the thread has closed
//! its own. So the marks are the same whatever the schedule. Each wait is bounded but that for the grant.
ghost use Rattle.std.specs.Prelude.{◌≡◌, ◌<◌, ◌≤◌, ◌∷◌, [], true, IsSome, IfOk, IfSome, length, slice_index, vec_capacity};
ghost use Rattle.perimeter_core.specs.Deeds.{times_left};
ghost use Rattle.perimeter_core.specs.Ending.{IsOver};
ghost use Rattle.perimeter_core.specs.History.{run};
ghost use Rattle.perimeter_trial.specs.Logging.{limits_of, size_of};
ghost use Rattle.perimeter_core.specs.Perimeter.{Idle, is_here};
ghost use Rattle.squeue_enter.specs.Entering.{MayEnter};
ghost use Rattle.squeue_state.specs.AllRoom.{HasAllRoom};
ghost use Rattle.histories.specs.Elements.{number_of};
ghost use Rattle.squeue_state.specs.Naming.{setting_of};
ghost use Rattle.synch_enter.specs.Synch.{MayAsk};
ghost use Rattle.turn_gate.specs.Passes.{IsPassOf, number, seen};

use super::tries;
use perimeter_core::{Act, Feed, Hook, SynchAct};
use perimeter_trial::Logs;
use small_squeue::{has_marks, opened, three};
use squeue_drain::worker;
use squeue_enter::{Entered, Mode, enter};
use squeue_state::{Pass, Squeue, Trace, TraceMark};
use std::alloc::{AllocError, Global};
use std::hint::spin_loop;
use std::marker::Brand;
use std::process::Abort;
use std::sync::Wait;
use std::sync::atomic::{AtomicBool, Ordering};
use std::test::Fail;
use std::thread::{Threads, join_mut, yield_now};
use synch_enter::{Called, synch_enter, synch_exit, take_block};

// How often a thread looks for another before it gives up.
const TURNS: u32 = 1 << 26;

// Where they meet: the ring is about to process feed 0; an Ask is queued; the thread has closed its pass; somebody has waited
// in vain.
#[derive(Drop)]
struct Meeting {
    begun: AtomicBool,
    asked: AtomicBool,
    done: AtomicBool,
    in_vain: AtomicBool,
}

impl Meeting {
    fn new() -> Meeting {
        Meeting {
            begun: AtomicBool::new(false),
            asked: AtomicBool::new(false),
            done: AtomicBool::new(false),
            in_vain: AtomicBool::new(false),
        }
    }

    // Waits for the flag.
    fn wait(&self, flag: &AtomicBool) {
        for _ in 0..TURNS {
            if flag.load(Ordering::SeqCst) {
                return;
            }
            spin_loop();
        }
        self.in_vain.store(true, Ordering::SeqCst);
    }
}

impl Hook for Meeting {
    fn before(&self, _squeue: u32, _c: u32, _n: u32) {
        self.begun.store(true, Ordering::SeqCst);
        self.wait(&self.asked);
    }
}

// A pass in a place of its own, which a thread gets by `&mut`.
struct Job {
    pass: Option<Pass>,
}

// The ring enters feed 0 as owner and drains, so it grants; or it queues the feed, comes as a synchronous owner behind it,
// takes the block out and leaves, so the worker grants.
fn rings<W: Wait>(
    rt: &W,
    alloc: Global,
    squeue: &Squeue<Logs>,
    meeting: &Meeting,
    drains: bool,
    pass: Pass,
) -> Pass
    requires may { MayEnter limits_of squeue.now pass (record { c = 0; n = 0 } ∷ []) }
    requires asks { MayAsk limits_of squeue.now pass }
    requires room { HasAllRoom squeue.now.given }
    requires ring { number pass ≡ 0 }
    requires here { is_here (run (setting_of limits_of squeue.now.given) (seen pass)) 0 ≡ true }
    requires leaves { times_left 0 (seen pass) < slice_index (limits_of squeue.now.given.first).leaves 0 }
    ensures pass { IsPassOf number_of squeue.now.gate result × (number result ≡ number pass) }
    ensures idle { Idle (run (setting_of limits_of squeue.now.given) (seen result)) (number pass) }
{
    let chain = [Feed { c: 0, n: 0 }];
    let mode = if drains { Mode::Process } else { Mode::Fill };
    let entered = enter(squeue, rt, alloc, meeting, pass, &chain, mode, 64);
    let Entered {
        pass,
        how: _,
        polling: _,
    } = entered;
    if drains {
        return pass;
    }
    let mut owner = synch_enter(squeue, rt, alloc, meeting, pass);
    let _log = take_block(&mut owner, 0);
    synch_exit::<Logs, Brand, W>(squeue, rt, owner)
}

fn run_ring<W: Wait>(
    rt: &W,
    alloc: Global,
    squeue: &Squeue<Logs>,
    meeting: &Meeting,
    drains: bool,
    job: &mut Job,
)
    requires some { IsSome job.old.pass }
    requires may { IfSome job.old.pass
        (λ p. MayEnter limits_of squeue.now p (record { c = 0; n = 0 } ∷ []) × MayAsk limits_of squeue.now p × (number p ≡ 0)
        × (is_here (run (setting_of limits_of squeue.now.given) (seen p)) 0 ≡ true)
        × (times_left 0 (seen p) < slice_index (limits_of squeue.now.given.first).leaves 0)) }
    requires room { HasAllRoom squeue.now.given }
    ensures some { IsSome job.new.pass }
    ensures pass { IfSome job.new.pass (λ p. IsPassOf number_of squeue.now.gate p × (number p ≡ 0)) }
{
    let taken = job.pass.take();
    let Some(pass) = taken else { unreachable!() };
    let pass = rings(rt, alloc, squeue, meeting, drains, pass);
    meeting.wait(&meeting.done);
    let old = job.pass.replace(squeue.close_pass(rt, pass));
    let None = old else { unreachable!() };
}

// The thread makes its call as owner. It tells whether the block was here when it asked, too.
fn run_thread<W: Wait>(
    rt: &W,
    alloc: Global,
    squeue: &Squeue<Logs>,
    meeting: &Meeting,
    job: &mut Job,
) -> (Called, bool)
    requires some { IsSome job.old.pass }
    requires may { IfSome job.old.pass (λ p. MayAsk limits_of squeue.now p × (number p ≡ 1)) }
    requires given { (squeue.now.given.rings ≡ 1) × (length squeue.now.given.starts ≡ 1) }
    requires calls { (limits_of squeue.now.given.first).calls ≡ (0, 0, 0) ∷ [] }
    ensures some { IsSome job.new.pass }
    ensures pass { IfSome job.new.pass (λ p. IsPassOf number_of squeue.now.gate p × (number p ≡ 1)) }
{
    let taken = job.pass.take();
    let Some(pass) = taken else { unreachable!() };
    meeting.wait(&meeting.begun);
    let (pass, called, found) = tries(rt, alloc, squeue, pass, 0, 0, 0);
    let old = job.pass.replace(squeue.close_pass(rt, pass));
    let None = old else { unreachable!() };
    meeting.done.store(true, Ordering::SeqCst);
    (called, found)
}

// Looks until something is queued, while the ring is owner.
fn look<W: Wait>(rt: &W, squeue: &Squeue<Logs>, meeting: &Meeting, pass: Pass) -> Pass
    requires { IsPassOf number_of squeue.now.gate pass }
    ensures { IsPassOf number_of squeue.now.gate result × (number result ≡ number pass) }
{
    meeting.wait(&meeting.begun);
    let mut pass = pass;
    for _ in 0..TURNS {
        let turn = squeue.turn(rt, pass);
        let queued = turn.chain_len();
        pass = squeue.plain(turn);
        if queued > 0 {
            break;
        }
        yield_now();
    }
    meeting.asked.store(true, Ordering::SeqCst);
    pass
}

fn run_worker<W: Wait>(
    rt: &W,
    alloc: Global,
    squeue: &Squeue<Logs>,
    meeting: &Meeting,
    job: &mut Job,
)
    requires some { IsSome job.old.pass }
    requires is { IfSome job.old.pass (λ p. IsPassOf number_of squeue.now.gate p × (number p ≡ 2)) }
    requires given { length squeue.now.given.quotas ≡ 2 }
    ensures some { IsSome job.new.pass }
    ensures over { IfSome job.new.pass (λ p. IsPassOf number_of squeue.now.gate p × (number p ≡ 2)
        × IsOver (setting_of limits_of squeue.now.given) (run (setting_of limits_of squeue.now.given) (seen p))) }
{
    let taken = job.pass.take();
    let Some(pass) = taken else { unreachable!() };
    let pass = look(rt, squeue, meeting, pass);
    let old = job.pass.replace(worker(squeue, rt, alloc, meeting, pass));
    let None = old else { unreachable!() };
}

// The three run beside each other.
fn run_all<W: Threads + Wait + Sync>(
    rt: &W,
    alloc: Global,
    squeue: &Squeue<Logs>,
    meeting: &Meeting,
    drains: bool,
    ring: &mut Job,
    thread: &mut Job,
    third: &mut Job,
) -> (Called, bool)
    requires ring { IsSome ring.old.pass
        × IfSome ring.old.pass
        (λ p. MayEnter limits_of squeue.now p (record { c = 0; n = 0 } ∷ []) × MayAsk limits_of squeue.now p × (number p ≡ 0)
        × (is_here (run (setting_of limits_of squeue.now.given) (seen p)) 0 ≡ true)
        × (times_left 0 (seen p) < slice_index (limits_of squeue.now.given.first).leaves 0)) }
    requires thread { IsSome thread.old.pass × IfSome thread.old.pass (λ p. MayAsk limits_of squeue.now p × (number p ≡ 1)) }
    requires third { IsSome third.old.pass × IfSome third.old.pass (λ p. IsPassOf number_of squeue.now.gate p × (number p ≡ 2)) }
    requires given { (squeue.now.given.rings ≡ 1) × (length squeue.now.given.starts ≡ 1) × (length squeue.now.given.quotas ≡ 2) × HasAllRoom squeue.now.given }
    requires calls { (limits_of squeue.now.given.first).calls ≡ (0, 0, 0) ∷ [] }
    ensures ring { IsSome ring.new.pass × IfSome ring.new.pass (λ p. IsPassOf number_of squeue.now.gate p × (number p ≡ 0)) }
    ensures thread { IsSome thread.new.pass × IfSome thread.new.pass (λ p. IsPassOf number_of squeue.now.gate p × (number p ≡ 1)) }
    ensures third { IsSome third.new.pass × IfSome third.new.pass (λ p. IsPassOf number_of squeue.now.gate p × (number p ≡ 2)
        × IsOver (setting_of limits_of squeue.now.given) (run (setting_of limits_of squeue.now.given) (seen p))) }
{
    let (answer, ()) = join_mut(
        rt,
        &mut || run_thread(rt, alloc, squeue, meeting, thread),
        &mut ||
            requires { IsSome ring.now.pass
                × IfSome ring.now.pass
                (λ p. MayEnter limits_of squeue.now p (record { c = 0; n = 0 } ∷ []) × MayAsk limits_of squeue.now p × (number p ≡ 0)
                × (is_here (run (setting_of limits_of squeue.now.given) (seen p)) 0 ≡ true)
                × (times_left 0 (seen p) < slice_index (limits_of squeue.now.given.first).leaves 0))
                × IsSome third.now.pass × IfSome third.now.pass (λ p. IsPassOf number_of squeue.now.gate p × (number p ≡ 2))
                × (length squeue.now.given.quotas ≡ 2) × HasAllRoom squeue.now.given }
            ensures { IsSome ring.exit.now.pass × IfSome ring.exit.now.pass (λ p. IsPassOf number_of squeue.entry.now.gate p × (number p ≡ 0))
                × IsSome third.exit.now.pass × IfSome third.exit.now.pass (λ p. IsPassOf number_of squeue.entry.now.gate p × (number p ≡ 2)
                × IsOver (setting_of limits_of squeue.entry.now.given) (run (setting_of limits_of squeue.entry.now.given) (seen p))) }
        { run_two(rt, alloc, squeue, meeting, drains, ring, third) },
    );
    answer
}

// The ring and the worker's thread.
fn run_two<W: Threads + Wait + Sync>(
    rt: &W,
    alloc: Global,
    squeue: &Squeue<Logs>,
    meeting: &Meeting,
    drains: bool,
    ring: &mut Job,
    third: &mut Job,
)
    requires ring { IsSome ring.old.pass
        × IfSome ring.old.pass
        (λ p. MayEnter limits_of squeue.now p (record { c = 0; n = 0 } ∷ []) × MayAsk limits_of squeue.now p × (number p ≡ 0)
        × (is_here (run (setting_of limits_of squeue.now.given) (seen p)) 0 ≡ true)
        × (times_left 0 (seen p) < slice_index (limits_of squeue.now.given.first).leaves 0)) }
    requires third { IsSome third.old.pass × IfSome third.old.pass (λ p. IsPassOf number_of squeue.now.gate p × (number p ≡ 2)) }
    requires given { (length squeue.now.given.quotas ≡ 2) × HasAllRoom squeue.now.given }
    ensures ring { IsSome ring.new.pass × IfSome ring.new.pass (λ p. IsPassOf number_of squeue.now.gate p × (number p ≡ 0)) }
    ensures third { IsSome third.new.pass × IfSome third.new.pass (λ p. IsPassOf number_of squeue.now.gate p × (number p ≡ 2)
        × IsOver (setting_of limits_of squeue.now.given) (run (setting_of limits_of squeue.now.given) (seen p))) }
{
    join_mut(
        rt,
        &mut || run_ring(rt, alloc, squeue, meeting, drains, ring),
        &mut || run_worker(rt, alloc, squeue, meeting, third),
    );
}

// Takes the squeue apart, when the worker's pass has seen the end.
fn finish(squeue: Squeue<Logs>, room: Vec<Pass>, zero: Pass, one: Pass, last: Pass) -> (Logs, Trace)
    requires room { (room.items ≡ []) × (3 ≤ vec_capacity room) }
    requires given { length squeue.given.quotas ≡ 2 }
    requires are { IsPassOf number_of squeue.gate zero × IsPassOf number_of squeue.gate one × IsPassOf number_of squeue.gate last }
    requires numbers { (number zero ≡ 0) × (number one ≡ 1) × (number last ≡ 2) }
    requires over { IsOver (setting_of limits_of squeue.given) (run (setting_of limits_of squeue.given) (seen last)) }
    ensures { size_of result.0 ≡ length squeue.given.starts }
{
    let mut passes = room;
    passes.push_reserved(zero);
    passes.push_reserved(one);
    passes.push_reserved(last);
    let (logs, _ended, trace) = squeue.finish(passes);
    (logs, trace)
}

// The three run beside each other. The thread's call answers so, and the marks are these.
fn meets<W: Threads + Wait + Sync + Abort>(
    rt: &W,
    alloc: Global,
    drains: bool,
    called: Called,
    marks: &[TraceMark],
) -> Result<Logs, AllocError>
    ensures { IfOk result (λ r. size_of r ≡ 1) }
{
    let (squeue, mut passes) = opened(alloc, 0, true, 1)?;
    let (zero, one, last) = three(&mut passes);
    let mut ring = Job { pass: Some(zero) };
    let mut thread = Job { pass: Some(one) };
    let mut third = Job { pass: Some(last) };
    let meeting = Meeting::new();
    let answer = run_all(
        rt,
        alloc,
        &squeue,
        &meeting,
        drains,
        &mut ring,
        &mut thread,
        &mut third,
    );
    assert!(rt;
        !meeting.in_vain.load(Ordering::SeqCst),
        "nobody waits in vain"
    );
    assert_eq!(rt; answer, (called, true));
    let Job { pass: Some(zero) } = ring else {
        unreachable!()
    };
    let Job { pass: Some(one) } = thread else {
        unreachable!()
    };
    let Job { pass: Some(last) } = third else {
        unreachable!()
    };
    let (logs, trace) = finish(squeue, passes, zero, one, last);
    assert!(rt; has_marks(&trace, marks));
    Ok(logs)
}

#[test]
fn the_owner_grants(rt: HostRuntime) -> Result<(), Fail> {
    let act = SynchAct::Call { c: 0, j: 0, k: 0 };
    let marks = [
        TraceMark::Fast { p: 0, first: 0 },
        TraceMark::Ask { p: 1 },
        TraceMark::Take { p: 0 },
        TraceMark::Grant {
            p: 0,
            j: 1,
            rest: 0,
        },
        TraceMark::Accept { j: 1 },
        TraceMark::Leave { p: 1, rest: 0, act },
        TraceMark::Close { p: 1 },
        TraceMark::Close { p: 0 },
    ];
    let logs = meets(&rt, rt.alloc(), true, Called::Done, &marks)?;
    let log = logs.log(0).expect(&rt, "the connection is here");
    assert!(rt; matches!(log.acts(), [Act::Feed { n: 0 }, Act::Call { j: 0, k: 0 }]));
    Ok(())
}

// The block leaves between the thread's Ask and its turn as owner, so the call finds it elsewhere.
#[test]
fn the_worker_grants(rt: HostRuntime) -> Result<(), Fail> {
    let out = SynchAct::Out { c: 0 };
    let away = SynchAct::Away;
    let marks = [
        TraceMark::Fill {
            p: 0,
            first: 0,
            len: 1,
        },
        TraceMark::Claim {
            p: 0,
            first: 1,
            len: 1,
        },
        TraceMark::Ask { p: 1 },
        TraceMark::Leave {
            p: 0,
            rest: 0,
            act: out,
        },
        TraceMark::Work { p: 2 },
        TraceMark::Grant {
            p: 2,
            j: 1,
            rest: 0,
        },
        TraceMark::Accept { j: 1 },
        TraceMark::Leave {
            p: 1,
            rest: 0,
            act: away,
        },
        TraceMark::Close { p: 1 },
        TraceMark::Close { p: 0 },
    ];
    let logs = meets(&rt, rt.alloc(), false, Called::Elsewhere, &marks)?;
    assert!(rt; logs.log(0).is_none());
    Ok(())
}
