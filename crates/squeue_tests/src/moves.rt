//! One move between two squeues of logs.
ghost use Rattle.std.specs.Prelude.{◌≡◌, ◌<◌, ◌∷◌, [], true, false, length, slice_index_or, IfOk};
ghost use Rattle.perimeter_trial.specs.Logging.{limits_of};
ghost use Rattle.synch_enter.specs.Hinting.{conns_of};
ghost use Rattle.squeue_state.specs.AllRoom.{HasAllRoom};
ghost use Rattle.histories.specs.Elements.{number_of};
ghost use Rattle.turn_gate.specs.Passes.{AreFresh};

use conn_migrate::migrate;
use perimeter_core::{Act, Entry, Feed, NoHook, SynchAct};
use perimeter_trial::Logs;
use small_squeue::{ended, has_marks, three};
use squeue_enter::{Entered, How, Mode, enter};
use squeue_state::{Pass, Quota, Squeue, Trace, TraceMark};
use std::alloc::{AllocError, Global};
use std::process::Abort;
use std::test::Fail;
use synch_enter::Hints;

// The entries of the mark at `i` are these.
fn has_entries<A: Abort>(rt: &A, trace: &Trace, i: u64, entries: &[Entry])
    requires { i < length trace.now.marks }
{
    match trace.mark(i) {
        TraceMark::Fill { p: _, first, len } | TraceMark::Claim { p: _, first, len } => {
            assert_eq!(rt; len, entries.len() as u64);
            for (k, entry) in entries.iter().enumerate() {
                let at = first.checked_add(k as u64).expect(rt, "a place");
                assert_eq!(rt; trace.entry(at), *entry, "entry {k}");
            }
        }
        _ => panic!(rt; "mark {i} names no entries"),
    }
}

// A squeue of three connections, whose blocks are all here or all elsewhere, and which keeps its marks. The ring may bring
// two feeds and ask once, as the one application thread may.
fn opened(alloc: Global, number: u32, here: bool) -> Result<(Squeue<Logs>, Vec<Pass>), AllocError>
    ensures passes { IfOk result (λ r. (length r.1.items ≡ 3) × AreFresh number_of r.0.gate 0 r.1.items) }
    ensures number { IfOk result (λ r. r.0.given.number ≡ number) }
    ensures traced { IfOk result (λ r. r.0.given.traced ≡ true) }
    ensures given { IfOk result (λ r. (r.0.given.quotas ≡ (2, 1) ∷ (0, 1) ∷ []) × (r.0.given.rings ≡ 1) × (length r.0.given.starts ≡ 3)) }
    ensures room { IfOk result (λ r. HasAllRoom r.0.given) }
    ensures here { IfOk result (λ r. slice_index_or r.0.given.starts 2 false ≡ here) }
    ensures limits { IfOk result (λ r. limits_of r.0.given.first ≡ record { feeds = 2 ∷ 2 ∷ 2 ∷ []; leaves = 1 ∷ 1 ∷ 1 ∷ []; calls = (0, 0, 0) ∷ [] }) }
{
    let mut calls = Vec::new(alloc);
    calls.push((0, 0, 0))?;
    let logs = Logs::make(alloc, &[here, here, here], 2, 1, calls)?;
    let quotas = [Quota { feeds: 2, asks: 1 }, Quota { feeds: 0, asks: 1 }];
    Squeue::make(alloc, number, logs, 1, &quotas, true)
}

// Which squeue's number stands for each of the three connections.
fn hinted(hints: &Hints) -> [u32; 3]
    requires { conns_of hints.now ≡ 3 }
{
    [hints.get(0), hints.get(1), hints.get(2)]
}

// The marks that a squeue keeps from which the block was taken: what was queued, and the turn that took it.
fn has_left<A: Abort>(rt: &A, trace: &Trace) {
    let marks = [
        TraceMark::Fill {
            p: 0,
            first: 0,
            len: 2,
        },
        TraceMark::Claim {
            p: 0,
            first: 2,
            len: 1,
        },
        TraceMark::Leave {
            p: 0,
            rest: 0,
            act: SynchAct::Out { c: 2 },
        },
        TraceMark::Close { p: 0 },
        TraceMark::Close { p: 1 },
    ];
    assert!(rt; has_marks(trace, &marks));
    let feeds = [Entry::Feed { c: 2, n: 0 }, Entry::Feed { c: 2, n: 1 }];
    has_entries(rt, trace, 0, &feeds);
    has_entries(rt, trace, 1, &[Entry::Ask { p: 0 }]);
}

// The marks of the squeue to which it came.
fn has_come<A: Abort>(rt: &A, trace: &Trace) {
    let marks = [
        TraceMark::Claim {
            p: 0,
            first: 0,
            len: 1,
        },
        TraceMark::Leave {
            p: 0,
            rest: 0,
            act: SynchAct::In { c: 2 },
        },
        TraceMark::Close { p: 0 },
        TraceMark::Close { p: 1 },
    ];
    assert!(rt; has_marks(trace, &marks));
    has_entries(rt, trace, 0, &[Entry::Ask { p: 0 }]);
}

// Connection 2 moves, one of three. The hints of the others stay.
#[test]
fn one_migration(rt: HostRuntime) -> Result<(), Fail> {
    let alloc = rt.alloc();
    let hints = Hints::make(alloc, 3, 2)?;
    let (a, mut room_a) = opened(alloc, 0, true)?;
    let (b, mut room_b) = opened(alloc, 1, false).expect(&rt, "memory");
    let (ring_a, thread_a, last_a) = three(&mut room_a);
    let (ring_b, thread_b, last_b) = three(&mut room_b);
    assert_eq!(rt; hinted(&hints), [0, 1, 0]);

    let chain = [Feed { c: 2, n: 0 }, Feed { c: 2, n: 1 }];
    let Entered {
        pass: ring_a,
        how,
        polling: _,
    } = enter(&a, &rt, alloc, &NoHook, ring_a, &chain, Mode::Fill, 64);
    assert_eq!(rt; how, How::Queued { woke: true });
    let (ring_a, ring_b) = migrate(&rt, alloc, &NoHook, &a, ring_a, &b, ring_b, 2, &hints);
    assert_eq!(rt; hinted(&hints), [0, 1, 1]);

    let (logs, _ended, trace) = ended(&rt, alloc, a, room_a, ring_a, thread_a, last_a);
    has_left(&rt, &trace);
    assert!(rt; logs.log(2).is_none());
    for c in 0..2 {
        let log = logs.log(c).expect(&rt, "the block stays");
        assert!(rt; log.acts().is_empty());
    }
    let (logs, _ended, trace) = ended(&rt, alloc, b, room_b, ring_b, thread_b, last_b);
    has_come(&rt, &trace);
    let log = logs.log(2).expect(&rt, "the block is here");
    assert!(rt; matches!(log.acts(), [Act::Feed { n: 0 }, Act::Feed { n: 1 }]));
    assert!(rt; !log.short());
    Ok(())
}
