//! The receive queue: the peer's text by position, until the service takes it (RFC 9293, 3.3.1 and 3.4).
//!
//! It holds at most 64 runs above the next byte that is wanted. Text beyond that isn't kept; the peer sends it again.

ghost use Rattle.std.specs.Prelude.{◌≡◌, ◌+◌, ◌-◌, ◌^◌, ◌<◌, ◌≤◌, length, None, Some, min, ◌==◌, ◌||◌, nat_lt, IfOk, OnOk, OnErr, slice_get, false, true};
ghost use Rattle.byte_queues.specs.ReceiveQueue.{Recv, empty_recv, next_of, front, window_of, ready_of, is_ended, runs, runs_of};
ghost use Rattle.byte_queues.specs.ReceiveQueue.{bytes, placed, placed_as, laid, up_to, next_bytes, without, without_ahead, with_cap, with_end};
ghost use Rattle.byte_queues.specs.Limits.{most_runs, position_limit};

use crate::run::{Run, drop_front, front, held_in, join, runs_before, runs_touched};
use sq_base::Octets;
use std::alloc::{AllocError, Global};
use std::marker::Model;

/// How many runs may stand above the next byte: `most_runs` of `specs/Limits.antt`.
const MOST_RUNS: usize = 64;

/// Whether a text was placed.
#[derive(Clone, Copy, Debug, PartialEq, Eq)]
pub enum Placed {
    /// All of it that is new, and below the edge and the end.
    Held,
    /// Nothing of it: more than 64 runs would stand above the next byte.
    Blocks,
}

/// The peer's text from the first byte that wasn't taken on. Positions count the stream's bytes, from 0.
///
/// # Example
///
/// ```
/// let mut queue = RecvQueue::make(rt.alloc(), 1000);
/// assert_eq!(rt; placed(&rt, &mut queue, 2, b"cd")?, Placed::Held);
/// assert_eq!(rt; placed(&rt, &mut queue, 4, b"ef")?, Placed::Held);
/// assert_eq!(rt; queue.runs(), 1);
/// let (start, bytes) = queue.run(0);
/// assert_eq!(rt; start, 2);
/// assert!(rt; bytes == b"cdef".as_slice());
/// ```
#[derive(Drop)]
pub struct RecvQueue {
    /// By rising position, with a gap between each two.
    runs: Vec<Run>,
    /// A store for the next run that stands alone, since mostly the service takes each text before the next one comes.
    spare: Vec<u8>,
    /// How many bytes the service took: the position of the next one that it takes.
    taken: u64,
    /// The right edge of the window, as a position. It never falls.
    edge: u64,
    /// How many bytes may stand from `taken` on.
    cap: u32,
    /// The position of the peer's FIN, where it is known.
    stream_end: Option<u64>,
}

impl Model for RecvQueue {
    ghost use Rattle.byte_queues.specs.ReceiveQueue.{Recv};

    ghost Value = { Recv };

    ghost use Rattle.byte_queues.specs.Inside.{recv_of, IsQueue};

    ghost view = { recv_of };

    ghost invariant = { IsQueue };
}

impl RecvQueue {
    /// An empty queue with room for `cap` bytes. It takes no memory.
    pub fn make(alloc: Global, cap: u32) -> RecvQueue
        ensures { result ≡ empty_recv cap }
    {
        RecvQueue {
            runs: Vec::new(alloc),
            spare: Vec::new(alloc),
            taken: 0,
            edge: u64::from(cap),
            cap,
            stream_end: None,
        }
    }

    /// Holds what is new of a text at position `at`, below the edge and the end. The first copy of a byte stays.
    /// `Blocks`, with nothing changed, where more than 64 runs would stand above the next byte. Unchanged after an error, which says that memory was
    /// missing.
    pub fn place(&mut self, at: u64, text: &[u8]) -> Result<Placed, AllocError>
        requires behind { next_of self.old ≤ at }
        requires small { at < position_limit }
        ensures ok { IfOk result (λ p. placed at text.now self.old ≡ placed_as p self.new) }
        ensures blocks { IfOk result (λ p. p ≡ Placed.Blocks → self.new ≡ self.old) }
        ensures unchanged { OnErr result (self.new ≡ self.old) }
    {
        let (text, _) = text.split_at(self.fitting(at, text.len()));
        if text.is_empty() {
            Ok(Placed::Held)
        } else {
            self.place_fitting(at, text)
        }
    }

    /// How many bytes of a text at `at` stand below the edge and the end.
    #[tactic(auto, unfolding(crate::specs::ReceiveQueue::next_of))]
    fn fitting(&self, at: u64, length: usize) -> usize
        ensures fits { result ≡ min (up_to self.now.stream_end self.now.edge - at) length }
        ensures read { self.now.taken ≤ next_of self.now }
        ensures few { runs true self.now.got ≤ most_runs }
    {
        let limit = match self.stream_end {
            None => self.edge,
            Some(end) => end.min(self.edge),
        };
        limit.saturating_sub(at).min(length as u64) as usize
    }

    /// Holds what is new of a text below the edge.
    fn place_fitting(&mut self, at: u64, text: &[u8]) -> Result<Placed, AllocError>
        requires behind { self.old.taken ≤ at }
        requires small { at < position_limit }
        requires some { 0 < length text.now }
        requires within { at + length text.now ≤ self.old.edge }
        ensures ok { IfOk result (λ p. laid at text.now self.old ≡ placed_as p self.new) }
        ensures blocks { IfOk result (λ p. p ≡ Placed.Blocks → self.new ≡ self.old) }
        ensures unchanged { OnErr result (self.new ≡ self.old) }
    {
        let first = runs_before(self.runs.as_slice(), at);
        let count = runs_touched(self.runs.as_slice(), first, at + text.len() as u64);
        if self.has_room(at, count) {
            join(&mut self.runs, &mut self.spare, first, count, at, text)?;
            Ok(Placed::Held)
        } else {
            Ok(Placed::Blocks)
        }
    }

    /// Whether a text that touches so many runs leaves at most 64 above the next byte.
    fn has_room(&self, at: u64, count: usize) -> bool
        ensures { result ≡ (nat_lt 0 count || (at == self.now.taken || nat_lt (runs true self.now.got) most_runs)) }
    {
        count > 0 || at == self.taken || self.runs_above() < MOST_RUNS
    }

    /// How many runs stand above the next byte: all but one that begins at the next byte to be taken.
    fn runs_above(&self) -> usize
        ensures { result ≡ runs true self.now.got }
    {
        let here = front(self.runs.as_slice(), self.taken);
        self.runs.len() - here.len().min(1)
    }

    /// The stream ends at position `f`.
    #[tactic(auto, unfolding(crate::specs::ReceiveQueue::with_end, crate::specs::ReceiveQueue::next_of))]
    pub fn end_at(&mut self, f: u64)
        requires first { self.old.stream_end ≡ None }
        requires behind { next_of self.old ≤ f }
        ensures { self.new ≡ with_end f self.old }
    {
        self.stream_end = Some(f);
    }

    /// Where the stream ends, once that is known.
    pub fn stream_end(&self) -> Option<u64>
        ensures { result ≡ self.now.stream_end }
    {
        self.stream_end
    }

    /// The largest position, not above the end, below which every byte is held.
    #[tactic(auto, unfolding(crate::specs::ReceiveQueue::next_of))]
    pub fn next(&self) -> u64
        ensures next { result ≡ next_of self.now }
        ensures small { result ≤ position_limit + 2 ^ 32 }
    {
        let held = self.taken + front(self.runs.as_slice(), self.taken).len() as u64;
        match self.stream_end {
            None => held,
            Some(end) => end.min(held),
        }
    }

    /// How many bytes were taken or thrown away.
    pub fn taken(&self) -> u64
        ensures { result ≡ self.now.taken }
    {
        self.taken
    }

    /// How many bytes are held, behind a gap too.
    #[tactic(auto, using(crate::proofs::HeldLemmas::held_below, crate::proofs::HeldLemmas::held_bytes))]
    pub fn held(&self) -> u64
        ensures is { result ≡ length (bytes self.now.got) }
        ensures most { result < 2 ^ 33 }
    {
        held_in(&self.runs)
    }

    /// How many bytes can be taken.
    #[tactic(auto, unfolding(crate::specs::ReceiveQueue::ready_of, crate::specs::ReceiveQueue::next_of))]
    pub fn ready(&self) -> u32
        ensures { result ≡ ready_of self.now }
    {
        (self.next() - self.taken) as u32
    }

    /// How many positions lie from the next byte to the edge.
    #[tactic(auto, unfolding(crate::specs::ReceiveQueue::window_of))]
    pub fn window(&self) -> u32
        ensures window { result ≡ window_of self.now }
        ensures fits { result ≤ self.now.edge - self.now.taken }
    {
        self.edge.saturating_sub(self.next()) as u32
    }

    /// Whether the end is known and all before it is held.
    #[tactic(auto, unfolding(crate::specs::ReceiveQueue::is_ended))]
    pub fn ended(&self) -> bool
        ensures { result ≡ is_ended self.now }
    {
        match self.stream_end {
            None => false,
            Some(end) => end == self.next(),
        }
    }

    /// The next `n` bytes, which leave the queue. The edge rises to `taken + cap`. Unchanged after NoMemory.
    pub fn take(&mut self, alloc: Global, n: u32) -> Result<Octets, AllocError>
        requires { n ≤ ready_of self.old }
        ensures bytes { IfOk result (λ text. text ≡ next_bytes n self.old) }
        ensures rest { OnOk result (self.new ≡ without n self.old) }
        ensures unchanged { OnErr result (self.new ≡ self.old) }
    {
        let bytes = Octets::of(alloc, self.peek(n))?;
        self.skip(n);
        Ok(bytes)
    }

    /// The next `n` bytes, which stay in the queue.
    #[tactic(auto, unfolding(crate::specs::ReceiveQueue::next_bytes, crate::specs::ReceiveQueue::ready_of, crate::specs::ReceiveQueue::next_of))]
    pub fn peek(&self, n: u32) -> &[u8]
        requires { n ≤ ready_of self.now }
        ensures bytes { result.now ≡ next_bytes n self.now }
        ensures count { length result.now ≡ n }
    {
        let (bytes, _) = front(self.runs.as_slice(), self.taken).split_at(n as usize);
        bytes
    }

    /// Throws the next `n` bytes away. The edge rises to `taken + cap`.
    #[tactic(auto, unfolding(crate::specs::ReceiveQueue::without, crate::specs::ReceiveQueue::ready_of, crate::specs::ReceiveQueue::next_of))]
    pub fn skip(&mut self, n: u32)
        requires { n ≤ ready_of self.old }
        ensures { self.new ≡ without n self.old }
    {
        drop_front(&mut self.runs, &mut self.spare, self.taken, n);
        self.taken += u64::from(n);
        self.edge = self.edge.max(self.taken + u64::from(self.cap));
    }

    /// Forgets each run that doesn't begin at the next byte to be taken. None of their text was acknowledged, so the peer sends it again
    /// (RFC 9293, 3.10.7.4).
    #[tactic(auto, unfolding(crate::specs::ReceiveQueue::without_ahead))]
    pub fn forget_ahead(&mut self)
        ensures { self.new ≡ without_ahead self.old }
    {
        let kept = front(self.runs.as_slice(), self.taken).len().min(1);
        self.runs.truncate(kept);
    }

    /// Sets the capacity. The edge rises to `taken + cap`, and doesn't fall.
    #[tactic(auto, unfolding(crate::specs::ReceiveQueue::with_cap, crate::specs::ReceiveQueue::next_of))]
    pub fn set_cap(&mut self, cap: u32)
        ensures { self.new ≡ with_cap cap self.old }
    {
        self.cap = cap;
        self.edge = self.edge.max(self.taken + u64::from(cap));
    }

    /// How many runs of neighbouring positions are held.
    pub fn runs(&self) -> u32
        ensures { result ≡ length (runs_of self.now.taken self.now.got) }
    {
        self.runs.len() as u32
    }

    /// The first position and the bytes of run `i`, counted from 0 by rising position.
    pub fn run(&self, i: u32) -> (u64, &[u8])
        requires { i < length (runs_of self.now.taken self.now.got) }
        ensures { slice_get (runs_of self.now.taken self.now.got) i ≡ Some (result.0, result.1.now) }
    {
        let run = &self.runs[i as usize];
        (run.start, run.bytes.as_slice())
    }
}
