//! Where threads wait until all of them have been made.

use std::sync::atomic::{AtomicU64, Ordering};
use std::sync::{OnceLock, Wait};
use std::thread::{Threads, spawn};
use std::time::Duration;

// How many milliseconds one look for threads that are still to come takes at most, and how many looks there are beside one for each.
const LOOK: u64 = 10;

const LOOKS: u32 = 100;

/// A start of so many threads. None of them begins before all have come.
#[derive(Drop)]
pub(crate) struct Start {
    threads: u32,
    came: AtomicU64,
    begins: OnceLock<bool>,
}

impl Start {
    /// A start to which nobody has come.
    pub(crate) fn of(threads: usize) -> Start {
        Start {
            threads: u32::try_from(threads).unwrap_or(u32::MAX),
            came: AtomicU64::new(0),
            begins: OnceLock::new(),
        }
    }

    /// Comes, and waits for the word of `open`: whether to begin.
    pub(crate) fn come<W: Wait>(&self, rt: &W) -> bool {
        self.came.fetch_add(1, Ordering::SeqCst);
        self.came.wake_all();
        *self.begins.wait(rt)
    }

    /// Waits until all threads have come, and lets them begin. Where one can't have been made none begins, now or later.
    pub(crate) fn open<W: Threads + Wait>(&self, rt: &W) {
        let begins = self.have_all_come(rt);
        let _ = self.begins.set(rt, begins);
    }

    // The kit doesn't say whether `join_mut` could make its thread. One that doesn't come for a second, or for one look where no
    // other thread can be made, counts as refused; it may still come, and then leaves.
    fn have_all_come<W: Threads + Wait>(&self, rt: &W) -> bool {
        for _ in 0..self.threads.saturating_add(LOOKS) {
            let came = self.came.load(Ordering::SeqCst);
            if came >= u64::from(self.threads) {
                return true;
            }
            self.came
                .park_timeout(rt, came as u32, Duration::from_millis(LOOK));
            if self.came.load(Ordering::SeqCst) == came && is_refused(rt) {
                return false;
            }
        }
        false
    }
}

// Whether no thread can be made.
fn is_refused<W: Threads>(rt: &W) -> bool {
    match spawn(rt, || ()) {
        Ok(thread) => {
            thread.join(rt);
            false
        }
        Err(_) => true,
    }
}
