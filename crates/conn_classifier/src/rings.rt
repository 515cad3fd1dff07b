//! The feeds of a ring, in the order in which the ring brings them.

ghost use Rattle.std.specs.Prelude.{◌≡◌, ◌+◌, ◌<◌, ◌≤◌, ◌++◌, IfOk, OnOk, drop, length};
ghost use Rattle.conn_classifier.specs.Limits.{most_items};
ghost use Rattle.conn_classifier.specs.Plan.{items_in, records_of, IsSpaced};
ghost use Rattle.conn_classifier.specs.RingList.{feeds, to_segment, IsFront, IsRingList};

use crate::planned::Plan;
use perimeter_core::Feed;
use std::alloc::{AllocError, Global};

impl<'c> Plan<'c> {
    /// The feeds that ring `r` of so many brings: the items of its connections in record order, a time item just before
    /// its segment, then the last time items by connection. Fails only for want of memory.
    pub fn ring_list(&self, alloc: Global, rings: u32, r: u32) -> Result<Vec<Feed>, AllocError>
        requires { r < rings }
        ensures { IfOk result (λ v. IsRingList self.now rings r v.items) }
    {
        let mut list = self.ring_front(alloc, rings, r)?;
        for c in 0..self.conns() {
            if c % rings == r {
                list.push(Feed {
                    c,
                    n: self.items(c) - 1,
                })?;
            }
        }
        Ok(list)
    }

    /// The ring's feeds without the last time items: one pass over the served segments, with the number of the next item
    /// of each connection.
    fn ring_front(&self, alloc: Global, rings: u32, r: u32) -> Result<Vec<Feed>, AllocError>
        requires { r < rings }
        ensures { IfOk result (λ v. IsFront self.now rings r v.items) }
    {
        let mut next = vec![in alloc; 0u32; self.conns() as usize]?;
        let mut list = Vec::new(alloc);
        for c in self.table.order.iter() {
            if *c % rings == r {
                let n = next[*c as usize];
                next[*c as usize] = self.bring(&mut list, *c, n)?;
            }
        }
        Ok(list)
    }

    /// Brings the next segment of connection `c`, with a time item that stands before it, from item `n` on, and gives the
    /// number of the item behind it.
    fn bring(&self, list: &mut Vec<Feed>, c: u32, n: u32) -> Result<u32, AllocError>
        requires conn { c < length self.now.tuples }
        requires few { length (items_in self.now c) ≤ most_items }
        requires spaced { IsSpaced (drop n (items_in self.now c)) }
        requires segment { 0 < length (records_of (drop n (items_in self.now c))) }
        ensures next { IfOk result (λ m. m ≡ n + to_segment (drop n (items_in self.now c))) }
        ensures list { OnOk result (list.new.items ≡ list.old.items ++ feeds c n (to_segment (drop n (items_in self.now c)))) }
    {
        list.push(Feed { c, n })?;
        if !self.view().is_time(c, n) {
            return Ok(n + 1);
        }
        list.push(Feed { c, n: n + 1 })?;
        Ok(n + 2)
    }
}
