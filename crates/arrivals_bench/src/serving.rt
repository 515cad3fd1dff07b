//! The sources, and how they are served.
ghost use Rattle.std.specs.Prelude.{◌≡◌, ◌≤◌, All, IfOk, length};
ghost use Rattle.arrivals_bench.specs.Making.{AreServed, items_in};
ghost use Rattle.arrivals_bench.specs.Asking.{IsInRange};

use crate::made::MadeItems;
use crate::words::BenchWords;
use arriving_counters::count;
use squeue_arrivals::{ArrivalPool, SPAN, ServedSource};
use squeue_enter::Mode;
use std::alloc::{AllocError, Global};
use std::sync::Wait;
use std::thread::Threads;

/// What is left of the sources when squeues have served them. A ring has a place for each key.
pub fn served<W: Threads + Wait + Sync>(
    rt: &W,
    alloc: Global,
    asked: &BenchWords,
) -> Result<Vec<ServedSource<MadeItems, u32, u64>>, AllocError>
    requires { IsInRange asked.now }
    ensures { IfOk result (λ v. AreServed asked.now.producers asked.now.keys asked.now.items v.items) }
{
    let pool = ArrivalPool {
        squeues: asked.squeues,
        places: asked.keys,
        room: asked.room,
        mode: Mode::Process,
        budget: 64,
        span: SPAN,
    };
    let sources = sources_of(alloc, asked.producers, asked.keys, asked.items)?;
    let served = count(rt, alloc, &pool, sources)?;
    Ok(served.sources)
}

fn sources_of(
    alloc: Global,
    producers: u32,
    keys: u32,
    items: u32,
) -> Result<Vec<MadeItems>, AllocError>
    requires { 1 ≤ keys }
    ensures many { IfOk result (λ v. length v.items ≡ producers) }
    ensures each { IfOk result (λ v. All (λ m. items_in m ≡ items) v.items) }
{
    let mut sources = Vec::with_capacity(alloc, producers as usize)?;
    for number in 0..producers {
        sources.push_reserved(MadeItems::of(number, keys, items));
    }
    Ok(sources)
}
