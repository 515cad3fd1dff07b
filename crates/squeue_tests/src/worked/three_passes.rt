//! Three passes bring their feeds, and one worker processes them.
ghost use Rattle.std.specs.Prelude.{◌≡◌, length, IfOk};
ghost use Rattle.squeue_state.specs.AllRoom.{HasAllRoom};
ghost use Rattle.squeue_tests.specs.Rows.{IsNew, all_here, four_here};
ghost use Rattle.histories.specs.Elements.{number_of};
ghost use Rattle.squeue_state.specs.Naming.{setting_of};
ghost use Rattle.turn_gate.specs.Passes.{AreFresh};

use super::short::{Short, has_done};
use super::{enters, feed, filled, has_filled, has_had, has_marks, left};
use perimeter_core::{Feed, NoHook, Resident};
use perimeter_trial::Logs;
use squeue_drain::worker;
use squeue_enter::{How, Mode};
use squeue_report::{is_countable, push_squeue};
use squeue_state::{Pass, Quota, Squeue, Trace, TraceMark};
use std::alloc::{AllocError, Global};
use std::process::Abort;
use std::sync::Wait;
use std::test::Fail;

// Three rings over four connections, of which the first two may bring two feeds and the third one.
fn three_rings<R: Resident + Drop>(
    alloc: Global,
    resident: R,
) -> Result<(Squeue<R>, Vec<Pass>), AllocError>
    requires { IsNew R.stands R.limits R.size all_here 2 resident }
    ensures passes { IfOk result (λ r. (length r.1.items ≡ 4) × AreFresh number_of r.0.gate 0 r.1.items) }
    ensures setting { IfOk result (λ r. setting_of R.limits r.0.given ≡ four_here) }
    ensures room { IfOk result (λ r. HasAllRoom r.0.given) }
{
    let quotas = [
        Quota { feeds: 2, asks: 0 },
        Quota { feeds: 2, asks: 0 },
        Quota { feeds: 1, asks: 0 },
    ];
    Squeue::make(alloc, 0, resident, 3, &quotas, true)
}

// The row, with this resident.
fn three_passes<R: Resident + Drop, W: Wait + Abort>(
    rt: &W,
    alloc: Global,
    resident: R,
) -> Result<R, AllocError>
    requires { IsNew R.stands R.limits R.size all_here 2 resident }
    ensures { IfOk result (λ r. R.size r ≡ 4) }
{
    let (squeue, mut passes) = three_rings(alloc, resident)?;
    let Some(last) = passes.pop() else {
        unreachable!()
    };
    let Some(two) = passes.pop() else {
        unreachable!()
    };
    let Some(one) = passes.pop() else {
        unreachable!()
    };
    let Some(zero) = passes.pop() else {
        unreachable!()
    };
    let woke = How::Queued { woke: true };
    let first = [feed(0, 0), feed(0, 1)];
    let second = [feed(1, 0), feed(1, 1)];
    let third = [feed(2, 0)];
    let zero = enters(rt, alloc, &squeue, zero, &first, Mode::Fill, woke, false);
    let one = enters(rt, alloc, &squeue, one, &second, Mode::Fill, woke, false);
    let two = enters(rt, alloc, &squeue, two, &third, Mode::NoDrain, woke, false);
    let zero = squeue.close_pass(rt, zero);
    let one = squeue.close_pass(rt, one);
    let two = squeue.close_pass(rt, two);
    let last = worker(&squeue, rt, alloc, &NoHook, last);
    passes.push_reserved(zero);
    passes.push_reserved(one);
    passes.push_reserved(two);
    passes.push_reserved(last);
    let (resident, _ended, trace) = squeue.finish(passes);
    tells(rt, &trace, &first, &second, &third);
    prints(rt, alloc, &trace)?;
    Ok(resident)
}

// The trace tells of three entries and of the worker that processed them.
fn tells<A: Abort>(rt: &A, trace: &Trace, first: &[Feed], second: &[Feed], third: &[Feed]) {
    let marks = [
        filled(0, 0, 2),
        filled(1, 2, 2),
        filled(2, 4, 1),
        TraceMark::Close { p: 0 },
        TraceMark::Close { p: 1 },
        TraceMark::Close { p: 2 },
        TraceMark::Work { p: 3 },
        left(3, 0),
    ];
    has_marks(rt, trace, &marks);
    has_filled(rt, trace, 0, first);
    has_filled(rt, trace, 1, second);
    has_filled(rt, trace, 2, third);
}

// The lines of the trace in a report.
const PRINTED: &str = concat!(
    "squeue 0 marks 8\n",
    "fill 0 0.0 0.1\n",
    "fill 1 1.0 1.1\n",
    "fill 2 2.0\n",
    "close 0\n",
    "close 1\n",
    "close 2\n",
    "work 3\n",
    "leave 3 0 none\n",
);

// A report prints it so.
fn prints<A: Abort>(rt: &A, alloc: Global, trace: &Trace) -> Result<(), AllocError> {
    assert!(rt; is_countable(trace));
    let mut text = Vec::new(alloc);
    push_squeue(&mut text, 0, trace)?;
    assert_eq!(rt; text.as_slice(), PRINTED.as_bytes());
    Ok(())
}

#[test]
fn three_passes_one_worker(rt: HostRuntime) -> Result<(), Fail> {
    let alloc = rt.alloc();
    let logs = Logs::make(alloc, &[true, true, true, true], 2, 0, Vec::new(alloc))?;
    let logs = three_passes(&rt, alloc, logs)?;
    has_had(&rt, &logs, 0, 2);
    has_had(&rt, &logs, 1, 2);
    has_had(&rt, &logs, 2, 1);
    has_had(&rt, &logs, 3, 0);
    Ok(())
}

#[test]
fn three_passes_short_of_memory(rt: HostRuntime) -> Result<(), Fail> {
    let alloc = rt.alloc();
    let feeds = [feed(0, 0), feed(0, 1), feed(1, 0), feed(1, 1), feed(2, 0)];
    // The last of these acts is never reached.
    for at in 0..6 {
        let short = Short::make(alloc, &[true, true, true, true], 2, at, 5)?;
        let short = three_passes(&rt, alloc, short)?;
        assert_eq!(rt; short.wanted(), at < 5, "memory wanting at act {at}");
        has_done(&rt, &short, &feeds);
    }
    Ok(())
}
