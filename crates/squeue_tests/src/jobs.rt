//! Jobs beside each other, and one after another where threads are refused.

use squeue_serve::{run_each, run_each_after};
use std::sync::Barrier;
use std::sync::atomic::{AtomicU64, Ordering};
use std::test::*;
use std::thread::yield_now;

// How many jobs had begun before a job, and how many were being done when it began.
#[derive(Clone, Copy, PartialEq, Debug)]
struct Seen {
    before: u64,
    beside: u64,
}

const UNSEEN: Seen = Seen {
    before: 99,
    beside: 99,
};

// Where one thread fewer comes than is waited for, no job begins in a thread, and all are done in order, with nobody beside.
#[test]
fn one_thread_is_missing(rt: HostRuntime) -> Result<(), Fail> {
    let begun = AtomicU64::new(0);
    let inside = AtomicU64::new(0);
    let mut jobs = [UNSEEN; 6];
    run_each_after(
        &rt,
        6,
        &mut jobs,
        &|_, job: &mut Seen| {
            job.before = begun.fetch_add(1, Ordering::SeqCst);
            job.beside = inside.fetch_add(1, Ordering::SeqCst);
            yield_now();
            inside.fetch_sub(1, Ordering::SeqCst);
        },
    );
    for i in 0..6 {
        let wanted = Seen {
            before: i as u64,
            beside: 0,
        };
        assert_eq!(rt; jobs[i], wanted);
    }
    Ok(())
}

// Where none is refused, all jobs are done beside each other: each waits for all.
#[test]
fn all_beside_each_other(rt: HostRuntime) -> Result<(), Fail> {
    let all = Barrier::new(6);
    let mut jobs = [0u32; 6];
    run_each(
        &rt,
        &mut jobs,
        &|i, job: &mut u32| {
            all.wait(&rt);
            *job = i as u32;
        },
    );
    assert_eq!(rt; jobs, [0, 1, 2, 3, 4, 5]);
    let mut none: [u32; 0] = [];
    run_each(&rt, &mut none, &|_, _: &mut u32| ());
    Ok(())
}
