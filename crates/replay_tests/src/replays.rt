//! One history, mark by mark: what each mark says was processed, and a mark that isn't legal.

ghost use Rattle.std.specs.Prelude.{◌<◌};

use capture_reader::parse_capture;
use conn_blocks::Calls;
use conn_classifier::{Plan, plan};
use perimeter_core::{Feed, Kind, SynchAct};
use ring_quotas::Setup;
use sq_base::Octets;
use squeue_enter::Mode;
use squeue_replay::{ReadMark, ReplayedSqueue, RunSetup};
use std::alloc::{AllocError, AllocGlobal, Global};
use std::process::Abort;
use std::test::Fail;

/// A capture of one SYN to the echo service: one connection of two items.
const CAPTURE: [u8; 80] = [
    0xd4, 0xc3, 0xb2, 0xa1, 2, 0, 4, 0, 0, 0, 0, 0, 0, 0, 0, 0, 0, 0, 4, 0, 101, 0, 0, 0, 0, 0, 0,
    0, 0, 0, 0, 0, 40, 0, 0, 0, 40, 0, 0, 0, 0x45, 0, 0, 40, 0, 0, 0x40, 0, 0x40, 6, 0, 0, 10, 0,
    0, 1, 10, 0, 0, 2, 15, 160, 0, 7, 0, 0, 0, 100, 0, 0, 0, 0, 0x50, 2, 16, 0, 0, 0, 0, 0,
];

const SETUP: Setup = Setup {
    squeues: 1,
    rings: 1,
    mode: Mode::Process,
    budget: 1,
    spread: 0,
    trace: true,
};

/// A mark by its pass, its kind and the numbers of the feeds that it enters; and how many feeds it says were processed.
type Row = (u32, Kind, &'static [u32], u64);

const LEAVE_ONE: Kind = Kind::Leave {
    rest: 1,
    act: SynchAct::None,
};

const LEAVE_NONE: Kind = Kind::Leave {
    rest: 0,
    act: SynchAct::None,
};

/// The ring enters both feeds and processes one; the worker, whose pass is the last, processes the other.
const HISTORY: &[Row] = &[
    (1, Kind::Close, &[], 0),
    (0, Kind::Claim, &[0, 1], 0),
    (0, LEAVE_ONE, &[], 1),
    (5, Kind::Work, &[], 0),
    (5, LEAVE_NONE, &[], 1),
    (0, Kind::Close, &[], 0),
    (2, Kind::Close, &[], 0),
    (3, Kind::Close, &[], 0),
    (4, Kind::Close, &[], 0),
];

fn add(
    alloc: Global,
    squeue: &mut ReplayedSqueue<'_, '_>,
    row: &Row,
) -> Result<Option<u64>, AllocError> {
    let (p, kind, numbers, _) = *row;
    let mut mark = ReadMark::make(alloc);
    mark.p = p;
    mark.kind = kind;
    for &n in numbers {
        mark.feeds.push(Feed { c: 0, n })?;
    }
    squeue.add(&mark)
}

/// The squeue of a run takes the history, and then not its first mark again.
fn take_history(rt: &(impl Abort + AllocGlobal), run: RunSetup<'_, '_>) -> Result<(), AllocError>
    requires { 0 < run.setup.squeues }
{
    let mut squeue = ReplayedSqueue::make(rt.alloc(), run, 0)?;
    for row in HISTORY {
        assert!(rt; !squeue.has_ended());
        assert_eq!(rt; add(rt.alloc(), &mut squeue, &row)?, Some(row.3));
    }
    assert!(rt; squeue.has_ended());
    assert_eq!(rt; add(rt.alloc(), &mut squeue, &HISTORY[0])?, None);
    Ok(())
}

/// The same of a plan, without calls.
fn take_history_of(rt: &(impl Abort + AllocGlobal), plan: &Plan<'_>) -> Result<(), AllocError> {
    let calls = Calls::make(rt.alloc());
    let run = RunSetup {
        plan,
        calls: &calls,
        setup: SETUP,
    };
    take_history(rt, run)
}

#[test]
fn a_history_mark_by_mark(rt: HostRuntime) -> Result<(), Fail> {
    let capture = parse_capture(rt.alloc(), Octets::of(rt.alloc(), &CAPTURE)?)?;
    let plan = plan(&rt, rt.alloc(), &capture, false)?;
    take_history_of(&rt, &plan)?;
    Ok(())
}
