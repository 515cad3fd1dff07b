//! The two queues, and the receive queue beside a plain map from position to byte. Rows of their calls stand in `cases_library`.

use byte_queues::{Placed, RecvQueue, SendQueue};
use std::alloc::{AllocError, Global};
use std::collections::BTreeMap;
use std::process::Abort;
use std::test::Fail;

fn taken_bytes(
    rt: &impl Abort,
    queue: &mut RecvQueue,
    alloc: Global,
    n: u32,
) -> Result<Vec<u8>, AllocError> {
    assert!(rt; n <= queue.ready());
    Vec::from_slice(alloc, queue.take(alloc, n)?.as_slice())
}

/// Places a text that stands at or behind the next byte.
fn placed(
    rt: &impl Abort,
    queue: &mut RecvQueue,
    at: u64,
    text: &[u8],
) -> Result<Placed, AllocError> {
    assert!(rt; queue.next() <= at && at < 1_000_000);
    queue.place(at, text)
}

#[test]
fn runs_joined(rt: HostRuntime) -> Result<(), Fail> {
    let mut queue = RecvQueue::make(rt.alloc(), 1000);
    assert_eq!(rt; placed(&rt, &mut queue, 2, b"cd")?, Placed::Held);
    assert_eq!(rt; placed(&rt, &mut queue, 4, b"ef")?, Placed::Held);
    assert_eq!(rt; queue.runs(), 1);
    let (start, bytes) = queue.run(0);
    assert_eq!(rt; start, 2);
    assert!(rt; bytes == b"cdef".as_slice());
    assert_eq!(rt; placed(&rt, &mut queue, 0, b"XbXdX")?, Placed::Held);
    assert!(rt; taken_bytes(&rt, &mut queue, rt.alloc(), 6)?.as_slice() == b"Xbcdef".as_slice());
    Ok(())
}

/// What a queue holds, byte by byte.
#[derive(Drop)]
struct Plain {
    held: BTreeMap<u64, u8>,
    taken: u64,
    edge: u64,
    cap: u64,
    end: u64,
}

impl Plain {
    fn next(&self) -> u64 {
        let mut next = self.taken;
        for _ in 0..4096 {
            if next >= self.end || !self.held.contains_key(&next) {
                break;
            }
            next = next.wrapping_add(1);
        }
        next
    }

    /// How many runs stand above a position.
    fn runs_above(&self, from: u64) -> u64 {
        let mut runs = 0u64;
        let mut behind = from;
        for at in self.held.keys() {
            if *at >= from && (*at != behind || *at == from) {
                runs = runs.wrapping_add(1);
            }
            behind = at.wrapping_add(1);
        }
        runs
    }

    fn place(&mut self, alloc: Global, at: u64, text: &[u8]) -> Result<Placed, AllocError> {
        let mut put = Vec::new(alloc);
        for (k, byte) in text.iter().enumerate() {
            let here = at.wrapping_add(k as u64);
            if here < self.edge && here < self.end && !self.held.contains_key(&here) {
                self.held.insert(here, *byte)?;
                put.push(here)?;
            }
        }
        if self.runs_above(self.next()) <= 64 {
            return Ok(Placed::Held);
        }
        for here in &put {
            self.held.remove(here);
        }
        Ok(Placed::Blocks)
    }

    /// Nothing is held any more behind the first position that isn't.
    fn forget_ahead(&mut self) {
        let next = self.next();
        self.held.retain(|at, _| *at < next);
    }

    fn skip(&mut self, n: u64) {
        for _ in 0..n.min(4096) {
            self.held.remove(&self.taken);
            self.taken = self.taken.wrapping_add(1);
        }
        self.edge = self.edge.max(self.taken.wrapping_add(self.cap));
    }
}

/// A fixed sequence of numbers.
fn draw(x: &mut u64, below: u32) -> u32 {
    *x = x
        .wrapping_mul(6_364_136_223_846_793_005)
        .wrapping_add(1_442_695_040_888_963_407);
    ((*x >> 33) as u32) % below.max(1)
}

fn compare(rt: &impl Abort, queue: &RecvQueue, plain: &Plain) {
    let next = plain.next();
    assert_eq!(rt; queue.next(), next);
    assert_eq!(rt; queue.taken(), plain.taken);
    assert_eq!(rt; u64::from(queue.window()), plain.edge.wrapping_sub(next));
    assert_eq!(rt; u64::from(queue.runs()), plain.runs_above(plain.taken));
    let mut count = 0usize;
    for i in 0..queue.runs() {
        let (start, bytes) = queue.run(i);
        count = count.wrapping_add(bytes.len());
        for (k, byte) in bytes.iter().enumerate() {
            assert!(rt; plain.held.get(&start.wrapping_add(k as u64)).copied() == Some(*byte));
        }
    }
    assert_eq!(rt; count, plain.held.len());
}

/// Both of them, which are told the same, and the numbers that are drawn.
#[derive(Drop)]
struct Beside {
    queue: RecvQueue,
    plain: Plain,
    drawn: u64,
}

impl Beside {
    fn make(alloc: Global, cap: u32) -> Beside {
        Beside {
            queue: RecvQueue::make(alloc, cap),
            plain: Plain {
                held: BTreeMap::new(alloc),
                taken: 0,
                edge: u64::from(cap),
                cap: u64::from(cap),
                end: u64::MAX,
            },
            drawn: 7,
        }
    }

    /// Places a text fewer bytes behind the next one than this. Both answer the same.
    fn place(
        &mut self,
        rt: &impl Abort,
        alloc: Global,
        below: u32,
        text: &[u8],
    ) -> Result<Placed, AllocError> {
        let ahead = draw(&mut self.drawn, below);
        let at = self.queue.next().wrapping_add(u64::from(ahead));
        let answer = placed(rt, &mut self.queue, at, text)?;
        assert_eq!(rt; self.plain.place(alloc, at, text)?, answer);
        Ok(answer)
    }

    /// Takes away some of the bytes that are ready.
    fn skip(&mut self, rt: &impl Abort) {
        let n = draw(&mut self.drawn, self.queue.ready().wrapping_add(1));
        assert!(rt; n <= self.queue.ready());
        self.queue.skip(n);
        self.plain.skip(u64::from(n));
    }

    /// What is held behind a gap is forgotten.
    fn forget_ahead(&mut self) {
        self.queue.forget_ahead();
        self.plain.forget_ahead();
    }

    /// Another capacity; the edge of the window never goes back.
    fn resize(&mut self) {
        let cap = draw(&mut self.drawn, 400);
        self.queue.set_cap(cap);
        self.plain.cap = u64::from(cap);
        let edge = self.plain.taken.wrapping_add(self.plain.cap);
        self.plain.edge = self.plain.edge.max(edge);
    }

    /// No more bytes come from so far behind the next one on.
    fn end(&mut self, rt: &impl Abort, ahead: u32) {
        let end = self.queue.next().wrapping_add(u64::from(ahead));
        assert_eq!(rt; self.queue.stream_end(), None);
        self.queue.end_at(end);
        self.plain.end = end;
    }
}

const LETTERS: &[u8; 26] = b"abcdefghijklmnopqrstuvwxyz";

/// Several thousand placements, takes and changed capacities, at sizes that make runs join, stick out and block; now and then what is held
/// behind a gap is forgotten.
#[test]
fn beside_a_plain_map(rt: HostRuntime) -> Result<(), Fail> {
    let mut both = Beside::make(rt.alloc(), 300);
    let mut blocks = 0u32;
    for turn in 0..2000u32 {
        let most = if turn % 1000 < 600 { 2 } else { 26 };
        let length = draw(&mut both.drawn, most) as usize;
        let from = draw(&mut both.drawn, 26) as usize;
        assert!(rt; from <= 26 && length <= 26);
        let piece = &LETTERS[from..(from + length).min(26)];
        if both.place(&rt, rt.alloc(), 320, piece)? == Placed::Blocks {
            blocks = blocks.wrapping_add(1);
        }
        if draw(&mut both.drawn, 60) == 0 {
            both.skip(&rt);
        }
        if draw(&mut both.drawn, 200) == 0 {
            both.resize();
        }
        if turn % 1000 > 800 && draw(&mut both.drawn, 40) == 0 {
            both.forget_ahead();
        }
        if turn % 16 == 0 {
            compare(&rt, &both.queue, &both.plain);
        }
    }
    assert!(rt; blocks > 0);
    both.end(&rt, 40);
    for _ in 0..200 {
        both.place(&rt, rt.alloc(), 60, LETTERS)?;
        compare(&rt, &both.queue, &both.plain);
    }
    assert!(rt; both.queue.ended());
    Ok(())
}

#[test]
fn offered_bytes(rt: HostRuntime) -> Result<(), Fail> {
    let mut queue = SendQueue::make(rt.alloc());
    assert_eq!(rt; queue.room(), 65_535);
    queue.offer(b"abcdef")?;
    queue.acked(2);
    assert!(rt; queue.slice(rt.alloc(), 1, 2)?.as_slice() == b"de".as_slice());
    assert_eq!(rt; queue.held(), 4);
    Ok(())
}
