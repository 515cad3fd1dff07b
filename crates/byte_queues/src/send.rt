//! The send queue: our own text until the peer acknowledges it (RFC 9293, 3.8.1).

ghost use Rattle.std.specs.Prelude.{◌≡◌, ◌+◌, ◌-◌, ◌≤◌, ◌++◌, [], length, take, drop, IfOk, OnOk, OnErr};
ghost use Rattle.byte_queues.specs.SendQueue.{room_of};
ghost use Rattle.byte_queues.specs.Limits.{send_space};

use crate::buffer::Buffer;
use sq_base::Octets;
use std::alloc::{AllocError, Global};
use std::marker::Model;

/// How many bytes may be held: `send_space` of `specs/Limits.antt`.
const SEND_SPACE: u32 = 65_535;

/// The bytes that were offered and aren't acknowledged, at most 65,535.
///
/// # Example
///
/// ```
/// let mut queue = SendQueue::make(rt.alloc());
/// assert_eq!(rt; queue.room(), 65_535);
/// queue.offer(b"abcdef")?;
/// queue.acked(2);
/// assert!(rt; queue.slice(rt.alloc(), 1, 2)?.as_slice() == b"de".as_slice());
/// assert_eq!(rt; queue.held(), 4);
/// ```
#[derive(Drop)]
pub struct SendQueue {
    bytes: Buffer,
}

impl Model for SendQueue {
    ghost use Rattle.std.specs.Prelude.{ℕ, List, ◌≤◌, length};
    ghost use Rattle.byte_queues.specs.Limits.{send_space};

    ghost Value = { List ℕ };

    ghost view = { λ q. q.bytes };

    ghost invariant = { λ q. length q.bytes ≤ send_space };
}

impl SendQueue {
    /// An empty queue. It takes no memory.
    pub fn make(alloc: Global) -> SendQueue
        ensures { result ≡ [] }
    {
        SendQueue {
            bytes: Buffer::make(alloc),
        }
    }

    /// How many bytes are held.
    pub fn held(&self) -> u32
        ensures held { result ≡ length self.now }
        ensures most { result ≤ send_space }
    {
        self.bytes.len() as u32
    }

    /// How many bytes more may be offered.
    pub fn room(&self) -> u32
        ensures { result ≡ room_of self.now }
    {
        SEND_SPACE - self.held()
    }

    /// Adds a text at the end. Unchanged after NoMemory.
    pub fn offer(&mut self, text: &[u8]) -> Result<(), AllocError>
        requires { length text.now ≤ room_of self.old }
        ensures ok { OnOk result (self.new ≡ self.old ++ text.now) }
        ensures unchanged { OnErr result (self.new ≡ self.old) }
    {
        self.bytes.append(text)
    }

    /// Drops the first `n` bytes: the peer has them.
    pub fn acked(&mut self, n: u32)
        requires { n ≤ length self.old }
        ensures { self.new ≡ drop n self.old }
    {
        self.bytes.drop_front(n as usize);
    }

    /// A copy of `n` bytes from place `from` on, counted from 0 at the first one that isn't acknowledged. An error says that memory
    /// for it was missing.
    pub fn slice(&self, alloc: Global, from: u32, n: u32) -> Result<Octets, AllocError>
        requires { from + n ≤ length self.now }
        ensures { IfOk result (λ bytes. bytes ≡ take n (drop from self.now)) }
    {
        let (_, rest) = self.bytes.as_slice().split_at(from as usize);
        let (bytes, _) = rest.split_at(n as usize);
        Octets::of(alloc, bytes)
    }
}
