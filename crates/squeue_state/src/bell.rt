//! How a thread sleeps until another's turn may have brought what it waits for. No clause speaks of it: it is for speed
//! alone, and a squeue without it would do the same. Each pass has a bell of its own, so a ring wakes no other thread.
//!
//! A thread listens, then looks in a turn, and sleeps where it found nothing. Who brings something by a turn rings after
//! that turn. So where the thread's turn was the earlier one it had begun to listen before the ring.

use std::alloc::{AllocError, Global};
use std::hint::spin_loop;
use std::sync::Wait;
use std::sync::atomic::AtomicU64;
use std::sync::atomic::Ordering::SeqCst;

/// How often a thread looks whether it was rung before it makes the system call.
const LOOKS: u32 = 400;

/// A word without a rule. 0: it was rung. 1: its thread listens. 2: its thread sleeps.
#[derive(Drop)]
pub(crate) struct Bell {
    word: AtomicU64,
}

impl Bell {
    fn new() -> Bell {
        Bell {
            word: AtomicU64::new(0),
        }
    }

    /// From now on a ring is heard.
    pub(crate) fn listen(&self) {
        self.word.store(1, SeqCst);
    }

    /// Wakes its thread, where that sleeps.
    pub(crate) fn ring(&self) {
        if self.word.load(SeqCst) != 0 && self.word.swap(0, SeqCst) == 2 {
            self.word.wake_one();
        }
    }

    /// Sleeps until a ring since the call of `listen`.
    pub(crate) fn sleep<W: Wait>(&self, rt: &W) {
        for _ in 0..LOOKS {
            if self.word.load(SeqCst) == 0 {
                return;
            }
            spin_loop();
        }
        if self.word.compare_exchange(1, 2, SeqCst, SeqCst).is_err() {
            return;
        }
        for _ in rt.forever() {
            if self.word.load(SeqCst) != 2 {
                return;
            }
            self.word.park(rt, 2);
        }
    }
}

/// The bells of a squeue: that of the worker, and of the other passes by their numbers.
#[derive(Drop)]
pub(crate) struct Bells {
    worker: Bell,
    others: Vec<Bell>,
}

impl Bells {
    /// Bells for so many passes and the worker.
    pub(crate) fn for_passes(alloc: Global, others: usize) -> Result<Bells, AllocError> {
        let mut bells = Vec::with_capacity(alloc, others)?;
        for _k in 0..others {
            bells.push_reserved(Bell::new());
        }
        Ok(Bells {
            worker: Bell::new(),
            others: bells,
        })
    }

    /// The bell of the pass of this number.
    pub(crate) fn of(&self, pass: u32) -> &Bell {
        match self.others.get(pass as usize) {
            Some(bell) => bell,
            None => &self.worker,
        }
    }

    /// Rings for the worker.
    pub(crate) fn ring_worker(&self) {
        self.worker.ring();
    }
}
