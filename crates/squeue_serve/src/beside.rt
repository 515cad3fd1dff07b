//! Doing all jobs beside each other, or, where a thread is refused, one after another.
ghost use Rattle.std.specs.Fork.{AcceptsAt, AcceptsEach, ChangesAt, ChangesEach};
ghost use Rattle.squeue_serve.specs.Numbering.{BecameByNumber, EachByNumber, IsDoneIf};
ghost use denote.Param.Send.{IsSend, IsSync};

use crate::start::Start;
use std::sync::Wait;
use std::thread::{Threads, join_mut};

/// Does `f(i, &mut jobs[i])` for each job, each in a thread of its own, until all are done. None begins before all threads have been
/// made. Where one can't be made, all jobs are done on this thread, in order, with nobody beside: so a job that waits for others has
/// to find done there what it waits for, by the jobs before it or by itself.
pub fn run_each<W: Threads + Wait + Sync, T: Send, F: Fn(usize, &mut T) + Sync>(
    rt: &W,
    jobs: &mut [T],
    f: &F,
)
    requires { AcceptsEach F.Fn f.now jobs.old }
    ensures { ChangesEach F.Fn f.now jobs.old jobs.new }
{
    run_each_after(rt, jobs.len().saturating_sub(1), jobs, f);
}

/// Does the jobs as [`run_each`] does, where none begins before `others` threads beside this one have been made. Where there are fewer
/// other jobs than that, it is as if a thread couldn't be made.
pub fn run_each_after<W: Threads + Wait + Sync, T: Send, F: Fn(usize, &mut T) + Sync>(
    rt: &W,
    others: usize,
    jobs: &mut [T],
    f: &F,
)
    requires { AcceptsEach F.Fn f.now jobs.old }
    ensures { ChangesEach F.Fn f.now jobs.old jobs.new }
{
    run_all(rt, f, &Start::of(others), jobs);
}

// Does the jobs: the first on this thread, each other in a new one, which are made from the last down.
#[cycle(others)]
fn run_all<W: Threads + Wait + Sync, T: Send, F: Fn(usize, &mut T) + Sync>(
    rt: &W,
    f: &F,
    start: &Start,
    jobs: &mut [T],
)
    requires { EachByNumber (AcceptsAt F.Fn f.now) jobs.old }
    ensures { BecameByNumber (ChangesAt F.Fn f.now) jobs.old jobs.new }
{
    let Some((last, others)) = jobs.split_last_mut() else {
        return;
    };
    if others.is_empty() {
        do_first(rt, f, start, last);
    } else {
        run_both(rt, f, start, others.len(), last, others);
    }
}

// Does the job at `at` and the others, all before it. The kit's `join_mut` does its first closure in a new thread, or where none can
// be made behind the second. A job that wasn't begun is done when all before it are done, so in order.
#[cycle(others)]
fn run_both<W: Threads + Wait + Sync, T: Send, F: Fn(usize, &mut T) + Sync>(
    rt: &W,
    f: &F,
    start: &Start,
    at: usize,
    last: &mut T,
    others: &mut [T],
)
    requires last { AcceptsAt F.Fn f.now at last.old }
    requires others { EachByNumber (AcceptsAt F.Fn f.now) others.old }
    ensures last { ChangesAt F.Fn f.now at last.old last.new }
    ensures others { BecameByNumber (ChangesAt F.Fn f.now) others.old others.new }
{
    let mut there = || -> bool
        requires { IsSync W.row × AcceptsAt F.Fn f.now at last.now }
        ensures { IsDoneIf result (ChangesAt F.Fn f.entry.now at) last.entry.now last.exit.now }
    { do_at_start(rt, f, start, at, last) };
    let mut here = ||
        requires { IsSync W.row × IsSync F.row × IsSend T.row × EachByNumber (AcceptsAt F.Fn f.now) others.now }
        ensures { BecameByNumber (ChangesAt F.Fn f.entry.now) others.entry.now others.exit.now }
    { run_all(rt, f, start, others) };
    let (done, ()) = join_mut(rt, &mut there, &mut here);
    if !done {
        do_one(f, at, last);
    }
}

// Comes to the start, and does the job where all begin. Answers whether it has.
fn do_at_start<W: Wait, T, F: Fn(usize, &mut T)>(
    rt: &W,
    f: &F,
    start: &Start,
    at: usize,
    job: &mut T,
) -> bool
    requires { AcceptsAt F.Fn f.now at job.old }
    ensures { IsDoneIf result (ChangesAt F.Fn f.now at) job.old job.new }
{
    if !start.come(rt) {
        return false;
    }
    do_one(f, at, job);
    true
}

// Does the first job, for which no thread was to be made, when the start is over: beside the others, or before them.
fn do_first<W: Threads + Wait, T, F: Fn(usize, &mut T)>(rt: &W, f: &F, start: &Start, job: &mut T)
    requires { AcceptsAt F.Fn f.now 0 job.old }
    ensures { ChangesAt F.Fn f.now 0 job.old job.new }
{
    start.open(rt);
    do_one(f, 0, job);
}

// Does one job.
fn do_one<T, F: Fn(usize, &mut T)>(f: &F, i: usize, job: &mut T)
    requires { AcceptsAt F.Fn f.now i job.old }
    ensures { ChangesAt F.Fn f.now i job.old job.new }
{
    f(i, job);
}
