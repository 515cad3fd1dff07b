//! The measured turns: so many threads take turns at one gate.

use crate::tally::Tally;
use std::alloc::AllocGlobal;
use std::io;
use std::sync::Wait;
use std::thread::Threads;
use std::time::{Clock, Instant};

/// Short fixed runs, of which each prints what it counted.
pub(crate) fn short_turns<R: AllocGlobal + Print + Threads + Wait + Sync>(
    rt: &R,
) -> io::Result<()> {
    for threads in [1, 2, 4] {
        let tally = Tally::of_threads(rt, rt.alloc(), threads, 1000, 10)?;
        println!(rt; "threads {threads} turns {}", tally.turns())?;
    }
    Ok(())
}

/// Measures that many threads which take that many turns each, and prints their time; nothing where there are none, or more than 64.
pub(crate) fn measured_turns<R: AllocGlobal + Print + Threads + Wait + Clock + Sync>(
    rt: &R,
    threads: u32,
    turns: u32,
    rounds: u32,
) -> io::Result<()> {
    if threads < 1 || threads > 64 {
        return Ok(());
    }
    let start = Instant::now(rt)?;
    let tally = Tally::of_threads(rt, rt.alloc(), threads, turns, rounds)?;
    let nanos = start.elapsed(rt)?.as_nanos();
    println!(rt;
        "turns {} nanos {nanos} mixed {}",
        tally.turns(),
        tally.mixed()
    )
}
