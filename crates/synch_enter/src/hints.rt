//! Where the block of each connection is to be looked for first.
ghost use Rattle.std.specs.Prelude.{◌≡◌, ◌<◌, ◌≤◌, IfOk};

use crossbeam_utils::CachePadded;
use std::alloc::{AllocError, Global};
use std::sync::atomic::{AtomicU32, Ordering};

/// For each connection the number of a squeue, which any thread may read and write. Nothing is claimed of a hint but that it
/// is the number of a squeue. Each stands in a cache line of its own.
#[derive(Drop)]
pub struct Hints {
    words: Vec<CachePadded<AtomicU32>>,
    squeues: u32,
    ghost some: { 1 ≤ squeues },
}

impl Hints {
    ghost use Rattle.synch_enter.specs.Hinting.{conns_of, squeues_of};

    /// Each connection's first squeue: its number modulo the number of squeues. Fails only for want of memory.
    pub fn make(alloc: Global, conns: u32, squeues: u32) -> Result<Hints, AllocError>
        requires { 1 ≤ squeues }
        ensures conns { IfOk result (λ h. conns_of h ≡ conns) }
        ensures squeues { IfOk result (λ h. squeues_of h ≡ squeues) }
    {
        let mut words = Vec::with_capacity(alloc, conns as usize)?;
        for c in 0..conns {
            words.push_reserved(CachePadded::new(AtomicU32::new(c % squeues)));
        }
        Ok(Hints { words, squeues })
    }

    /// The hint of connection `c`: the number of a squeue, and no more is claimed.
    pub fn get(&self, c: u32) -> u32
        requires { c < conns_of self.now }
        ensures { result < squeues_of self.now }
    {
        self.words[c as usize].load(Ordering::SeqCst) % self.squeues
    }

    /// Writes the hint of connection `c`.
    pub fn set(&self, c: u32, q: u32)
        requires range { c < conns_of self.now }
        requires squeue { q < squeues_of self.now }
    {
        self.words[c as usize].store(q, Ordering::SeqCst);
    }
}
