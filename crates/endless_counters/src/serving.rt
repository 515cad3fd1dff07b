//! A run from its making to its end.
ghost use Rattle.std.specs.Prelude.{◌≡◌, ◌≤◌, ◌^◌, All, IfOk, length};
ghost use Rattle.endless_counters.specs.Counting.{AreSummed, AreTotals};
ghost use Rattle.endless_counters.specs.Rounds.{HasDone};
ghost use Rattle.endless_counters.specs.Serving.{AreNew, SawTotals, WereServed, all_given, brought_by, total_by};

use crate::source::{Amounts, Stint};
use crate::totals::{Adding, Total};
use crate::watching::Seconds;
use squeue_arrivals::{ArrivalPool, ServedSource, WatchedEnd, serve_watched};
use squeue_enter::Mode;
use std::alloc::{AllocError, Global};
use std::io;
use std::sync::Wait;
use std::sync::atomic::AtomicU32;
use std::thread::Threads;
use std::time::{Clock, Instant};

/// How many rings there are, how many entries may be queued at once, how long amounts are brought, and after how many amounts the place of
/// a ring is opened anew.
#[derive(Clone, Copy)]
pub struct Size {
    pub rings: u32,
    pub room: u32,
    pub stint: Stint,
    pub span: u32,
}

/// What is left of a ring's amounts.
pub type Brought<'a, W> = ServedSource<Amounts<'a, W>, u32, Total>;

/// What is left of a run: the amounts of each ring, its squeue with what the last look has seen, and the total at the end.
#[derive(Drop)]
pub struct RunEnd<'a, W: Clock> {
    pub rings: Vec<Brought<'a, W>>,
    pub squeue: WatchedEnd<Total>,
    pub end: Total,
}

// How many feeds an owner processes before it leaves the rest.
const BUDGET: u32 = 64;

/// Brings amounts by so many rings until their stints are over, prints what each look has seen, and answers the total at the end. The first ring
/// alone rests. Looks are counted in `looked`, which is 0. Fails for want of memory, and where a look could not be printed.
pub fn sum_for<'a, W: Threads + Wait + Clock + Print + Sync>(
    rt: &'a W,
    alloc: Global,
    looked: &'a AtomicU32,
    size: Size,
) -> io::Result<RunEnd<'a, W>>
    requires rings { (1 ≤ size.rings) × (size.rings ≤ 62) }
    requires room { (1 ≤ size.room) × (size.room ≤ 2 ^ 30) }
    ensures rings { IfOk result (λ r. (length r.rings.items ≡ size.rings) × All (λ left. HasDone size.stint.rounds (all_given left)) r.rings.items) }
    ensures end { IfOk result (λ r. AreTotals brought_by r.rings.items r.end) }
    ensures histories { IfOk result (λ r. WereServed size.stint.rounds r.squeue.end r.rings.items) }
    ensures last { IfOk result (λ r. SawTotals size.stint.seconds r.squeue) }
{
    let pool = ArrivalPool {
        squeues: 1,
        places: 1,
        room: size.room,
        mode: Mode::Process,
        budget: BUDGET,
        span: size.span,
    };
    let watcher = Seconds {
        rt,
        looked,
        start: Instant::now(rt).ok(),
        seconds: size.stint.seconds,
    };
    let sources = new_sources(rt, alloc, looked, size)?;
    let served = serve_watched(rt, alloc, &pool, Adding, &watcher, sources)?;
    let rings = served.sources;
    let mut squeues = served.squeues;
    let Some(squeue) = squeues.pop() else {
        unreachable!()
    };
    if !squeue.told {
        return Err(io::ErrorKind::WriteZero.into());
    }
    let end = total_of(&rings);
    Ok(RunEnd { rings, squeue, end })
}

// The amounts of each ring. The first one alone rests.
fn new_sources<'a, W: Clock>(
    rt: &'a W,
    alloc: Global,
    looked: &'a AtomicU32,
    size: Size,
) -> Result<Vec<Amounts<'a, W>>, AllocError>
    ensures { IfOk result (λ v. AreNew size.rings size.stint.rounds v.items) }
{
    let mut sources = Vec::with_capacity(alloc, size.rings as usize)?;
    for ring in 0..size.rings {
        let pause = if ring == 0 { size.stint.pause } else { 0 };
        sources.push_reserved(Amounts::of(
            rt,
            looked,
            Stint {
                pause,
                ..size.stint
            },
        ));
    }
    Ok(sources)
}

// The total of what was made of all amounts.
fn total_of<W: Clock>(rings: &[Brought<'_, W>]) -> Total
    ensures { AreSummed total_by rings.now result }
{
    let mut all = Total::zero();
    for ring in rings {
        all = all.and(part(ring));
    }
    all
}

// What was made of the amounts of a ring, which have one key.
fn part<W: Clock>(ring: &Brought<'_, W>) -> Total
    ensures { result ≡ total_by ring.now }
{
    match ring.parts.first() {
        Some(part) => part.state,
        None => Total::zero(),
    }
}
