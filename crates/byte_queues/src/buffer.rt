//! Bytes in one piece that grow at both ends and leave at the front.
//!
//! What left the front, and room kept before it, lies in the store below an offset. Compaction moves at most as many
//! bytes as left, and a growing front takes as much room again as it has bytes, so each byte is moved a bounded number of times.

ghost use Rattle.std.specs.Prelude.{◌≡◌, ◌+◌, ◌<◌, ◌≤◌, ◌++◌, [], length, drop, IfOk, OnOk, OnErr};

use std::alloc::{AllocError, Global};
use std::marker::Model;

/// Bytes in one piece, for contracts the list of them.
#[derive(Drop)]
pub struct Buffer {
    store: Vec<u8>,
    /// Where the bytes begin in the store.
    from: usize,
}

impl Model for Buffer {
    ghost use Rattle.std.specs.Prelude.{ℕ, List, ◌≤◌, length, drop};

    ghost Value = { List ℕ };

    ghost view = { λ b. drop b.from b.store.items };

    ghost invariant = { λ b. b.from ≤ length b.store.items };
}

impl Buffer {
    pub fn make(alloc: Global) -> Buffer
        ensures { result ≡ [] }
    {
        Buffer {
            store: Vec::new(alloc),
            from: 0,
        }
    }

    /// A copy of the bytes, in a store that may have room for them. What the store had is gone.
    pub fn of(store: Vec<u8>, bytes: &[u8]) -> Result<Buffer, AllocError>
        ensures { IfOk result (λ b. b ≡ bytes.now) }
    {
        let mut store = store;
        store.clear();
        store.extend_from_slice(bytes)?;
        Ok(Buffer { store, from: 0 })
    }

    /// The store, for other bytes.
    pub(crate) fn into_store(self) -> Vec<u8> {
        self.store
    }

    pub fn as_slice(&self) -> &[u8]
        ensures { result.now ≡ self.now }
    {
        let (_, bytes) = self.store.split_at(self.from);
        bytes
    }

    pub fn len(&self) -> usize
        ensures { result ≡ length self.now }
    {
        self.store.len() - self.from
    }

    /// Puts bytes behind the last one. Unchanged after an error.
    pub fn append(&mut self, tail: &[u8]) -> Result<(), AllocError>
        ensures ok { OnOk result (self.new ≡ self.old ++ tail.now) }
        ensures unchanged { OnErr result (self.new ≡ self.old) }
    {
        self.store.extend_from_slice(tail)
    }

    /// Drops the first `n` bytes.
    pub fn drop_front(&mut self, n: usize)
        requires { n ≤ length self.old }
        ensures { self.new ≡ drop n self.old }
    {
        self.from += n;
        if self.from > self.store.len() - self.from {
            keep_from(&mut self.store, self.from);
            self.from = 0;
        }
    }

    /// Puts bytes before the first one and behind the last one. Unchanged after an error.
    pub fn surround(&mut self, alloc: Global, head: &[u8], tail: &[u8]) -> Result<(), AllocError>
        ensures ok { OnOk result (self.new ≡ head.now ++ self.old ++ tail.now) }
        ensures unchanged { OnErr result (self.new ≡ self.old) }
    {
        if head.len() > self.from {
            return self.rebuild(alloc, head, tail);
        }
        self.store.extend_from_slice(tail)?;
        let at = self.from - head.len();
        self.store[at..self.from].copy_from_slice(head);
        self.from = at;
        Ok(())
    }

    /// The same in a new store, with room in front.
    fn rebuild(&mut self, alloc: Global, head: &[u8], tail: &[u8]) -> Result<(), AllocError>
        ensures ok { OnOk result (self.new ≡ head.now ++ self.old ++ tail.now) }
        ensures unchanged { OnErr result (self.new ≡ self.old) }
    {
        let room = head.len().saturating_add(self.len());
        let mut store = vec![in alloc; 0; room]?;
        store.extend_from_slice(head)?;
        store.extend_from_slice(self.as_slice())?;
        store.extend_from_slice(tail)?;
        self.store = store;
        self.from = room;
        Ok(())
    }
}

/// Bytes lose those before a place, and the rest, which aren't more, move to the front in one go.
fn keep_from(store: &mut Vec<u8>, from: usize)
    requires within { from ≤ length store.old.items }
    requires short { length store.old.items ≤ from + from }
    ensures { store.new.items ≡ drop from store.old.items }
{
    let left = store.len() - from;
    let (front, kept) = store.split_at_mut(from);
    front[..left].copy_from_slice(kept);
    store.truncate(left);
}
