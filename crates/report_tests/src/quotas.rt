ghost use Rattle.std.specs.Prelude.{◌<◌, All, IfOk, length};
ghost use Rattle.conn_blocks.specs.Allowed.{all_calls};

use capture_reader::{Capture, parse_capture};
use conn_blocks::{Blocks, Calls};
use conn_classifier::{Plan, plan};
use ring_quotas::{Setup, coming, feeds, leaving, marks_most, quotas_at};
use ring_threads::laws::{
    a_rings_list_is_whole, a_rings_list_may_be_brought, a_threads_calls_may_be_made,
};
use sq_base::Octets;
use squeue_enter::Mode;
use squeue_rings::Homes;
use std::alloc::{AllocError, Global};
use std::process::Abort;
use std::test::Fail;
use tcb_machine::Call;

/// Squeues, spread, connection and feeds; and at each of three squeues how many of the feeds find the connection at home, and how
/// often it leaves it and comes to it.
type Row = (u32, u32, u32, u32, [(u32, u32, u32); 3]);

#[test]
fn shares_are_those_of_a_walk(rt: HostRuntime) {
    let rows: [Row; 9] = [
        (1, 0, 5, 7, [(7, 0, 0), (0, 0, 0), (0, 0, 0)]),
        (1, 2, 0, 7, [(7, 0, 0), (0, 0, 0), (0, 0, 0)]),
        (2, 1, 1, 6, [(3, 2, 3), (3, 3, 2), (0, 0, 0)]),
        (2, 3, 0, 7, [(4, 1, 1), (3, 1, 1), (0, 0, 0)]),
        (3, 0, 4, 9, [(0, 0, 0), (9, 0, 0), (0, 0, 0)]),
        (3, 2, 1, 1, [(0, 0, 0), (1, 0, 0), (0, 0, 0)]),
        (3, 2, 2, 12, [(4, 2, 2), (4, 1, 2), (4, 2, 1)]),
        (3, 2, 7, 13, [(4, 2, 2), (5, 2, 2), (4, 2, 2)]),
        (3, 4, 0, 40, [(16, 3, 3), (12, 3, 3), (12, 3, 3)]),
    ];
    for (squeues, spread, c, items, wanted) in rows {
        assert!(rt; squeues > 0 && squeues <= 3 && items > 0 && items <= 40);
        let homes = Homes { squeues, spread };
        for q in 0..squeues {
            let got = (
                feeds(homes, c, items, q),
                leaving(homes, c, items, q),
                coming(homes, c, items, q),
            );
            assert_eq!(rt;
                got,
                wanted[q as usize],
                "connection {c} at squeue {q} of {squeues}"
            );
        }
    }
}

/// The header of a capture file: little-endian, microseconds, raw IP.
const HEADER: [u8; 24] = [
    0xd4, 0xc3, 0xb2, 0xa1, 2, 0, 4, 0, 0, 0, 0, 0, 0, 0, 0, 0, 0, 0, 0, 0, 101, 0, 0, 0,
];

/// One more record: an empty segment from that port of 10.0.0.1 to port 7 of 10.0.0.2, a datagram without sums.
fn add(bytes: &mut Vec<u8>, from: u16, flags: u8, seq: u32) -> Result<(), Fail> {
    bytes.extend_from_slice(&[0, 0, 0, 0, 0, 0, 0, 0, 40, 0, 0, 0, 40, 0, 0, 0])?;
    bytes.extend_from_slice(&[0x45, 0, 0, 40, 0, 0, 0x40, 0, 0x40, 6, 0, 0])?;
    bytes.extend_from_slice(&[10, 0, 0, 1, 10, 0, 0, 2])?;
    bytes.extend_from_slice(&from.to_be_bytes())?;
    bytes.extend_from_slice(&[0, 7])?;
    bytes.extend_from_slice(&seq.to_be_bytes())?;
    bytes.extend_from_slice(&[0, 0, 1, 0xf5, 0x50, flags, 16, 0, 0, 0, 0, 0])?;
    Ok(())
}

/// A capture of three connections, with so many segments each; each has one item more.
fn three(rt: &HostRuntime, segments: [u32; 3]) -> Result<Capture, Fail> {
    let mut bytes = Vec::from_slice(rt.alloc(), &HEADER)?;
    for (from, count) in segments.iter().enumerate() {
        add(&mut bytes, from as u16, 2, 100)?;
        for _ in 1..*count {
            add(&mut bytes, from as u16, 16, 101)?;
        }
    }
    Ok(parse_capture(rt.alloc(), Octets::of(rt.alloc(), &bytes)?)?)
}

/// Thread 0 calls on the connections 0 and 2, thread 3 twice on connection 1.
fn four_calls(alloc: Global) -> Result<Calls, AllocError>
    ensures { IfOk result (λ calls. All (λ call. call.0 < 3) (all_calls calls)) }
{
    let mut calls = Calls::make(alloc);
    calls.push(0, 0, Call::Status)?;
    calls.push(0, 2, Call::Close)?;
    calls.push(3, 1, Call::Status)?;
    calls.push(3, 1, Call::Close)?;
    Ok(calls)
}

/// Three squeues and two rings, and two feeds at each home.
const SETUP: Setup = Setup {
    squeues: 3,
    rings: 2,
    mode: Mode::Process,
    budget: 1,
    spread: 2,
    trace: false,
};

/// The passes of a squeue may bring so many feeds, and ask so often.
fn expect_quotas<A: Abort>(
    rt: &A,
    alloc: Global,
    plan: &Plan<'_>,
    calls: &Calls,
    q: u32,
    wanted: &[(u32, u64)],
) -> Result<(), Fail>
    requires squeue { q < 3 }
    requires calls { All (λ call. call.0 < length plan.now.tuples) (all_calls calls.now) }
{
    let quotas = quotas_at(alloc, plan, calls, &SETUP, q)?;
    let pairs: Vec<(u32, u64)> = quotas
        .iter()
        .map(|quota| (quota.feeds, quota.asks))
        .collect(alloc)?;
    assert_eq!(rt; pairs.as_slice(), wanted, "squeue {q}");
    Ok(())
}

/// A setup of so many squeues and rings, with this spread, makes at most so many marks.
fn expect_marks<A: Abort>(rt: &A, plan: &Plan<'_>, calls: &Calls, row: (u32, u32, u32, u64))
    requires calls { All (λ call. call.0 < length plan.now.tuples) (all_calls calls.now) }
{
    let (squeues, rings, spread, marks) = row;
    assert!(rt; squeues > 0 && squeues <= 16 && rings > 0 && rings <= 8 && spread <= 2);
    let setup = Setup {
        squeues,
        rings,
        spread,
        ..SETUP
    };
    assert_eq!(rt; marks_most(plan, calls, &setup), marks);
}

#[test]
fn quotas_of_three_connections(rt: HostRuntime) -> Result<(), Fail> {
    let capture = three(&rt, [6, 11, 4])?;
    let plan = plan(&rt, rt.alloc(), &capture, false)?;
    let calls = four_calls(rt.alloc())?;
    assert_eq!(rt; plan.conns(), 3);
    let wanted = [
        [(5, 4), (4, 3), (0, 4), (0, 0), (0, 0), (0, 4)],
        [(3, 3), (4, 3), (0, 3), (0, 0), (0, 0), (0, 6)],
        [(4, 3), (4, 4), (0, 4), (0, 0), (0, 0), (0, 6)],
    ];
    for q in 0..3 {
        expect_quotas(&rt, rt.alloc(), &plan, &calls, q, &wanted[q as usize])?;
    }
    let rows = [
        (3, 2, 2, 652),
        (2, 1, 1, 896),
        (1, 8, 0, 276),
        (16, 3, 1, 1808),
    ];
    for row in rows {
        expect_marks(&rt, &plan, &calls, row);
    }
    Ok(())
}

#[test]
fn the_laws_hold_for_blocks(_rt: HostRuntime) {
    a_rings_list_is_whole();
    a_rings_list_may_be_brought::<Blocks<'_>>();
    a_threads_calls_may_be_made::<Blocks<'_>>();
}
