//! The reading of a plan: what the calls of `Plan` look up of connections and items, on borrows alone, so that a value that keeps
//! a plan borrowed has one lifetime. It takes no memory. What the records count as `Plan::counts` alone tells.

ghost use Rattle.std.specs.Prelude.{◌≡◌, ℕ, ◌<◌, ◌≤◌, true, length, slice_get, IfSome, Some};
ghost use Rattle.capture_reader.specs.Limits.{latest_time};
ghost use Rattle.conn_classifier.specs.Limits.{most_conns, most_items};
ghost use Rattle.conn_classifier.specs.RingList.{is_time};
ghost use Rattle.conn_classifier.specs.Rules.{is_served};
ghost use Rattle.conn_classifier.specs.Plan.{items_in, time_of, text_of, text_len_of};

use crate::kinds::{Item, Slot};
use crate::planned::Table;
use crate::rules::Ports;
use crate::slots::item_of;
use capture_reader::Capture;
use sq_base::Tuple;
use std::marker::Model;

/// A plan that is borrowed, with its reading calls.
#[derive(Drop)]
pub struct PlanView<'p> {
    pub(crate) capture: &'p Capture,
    pub(crate) table: &'p Table,
}

impl<'p> Model for PlanView<'p> {
    ghost use Rattle.std.specs.Prelude.{map};
    ghost use Rattle.conn_classifier.specs.Plan.{PlanOf, IsPlan};
    ghost use Rattle.conn_classifier.specs.Slots.{item_of};

    ghost Value = { PlanOf };

    ghost view = { λ p. record {
      file = p.capture.now;
      ports = p.table.now.ports;
      tuples = p.table.now.tuples.keys;
      items = map (λ v. map (item_of p.table.now.packets.items) v.items) p.table.now.items.items;
      order = p.table.now.order.items;
      counts = p.table.now.counts;
    } };

    ghost invariant = { λ p. IsPlan (record {
      file = p.capture.now;
      ports = p.table.now.ports;
      tuples = p.table.now.tuples.keys;
      items = map (λ v. map (item_of p.table.now.packets.items) v.items) p.table.now.items.items;
      order = p.table.now.order.items;
      counts = p.table.now.counts;
    }) };
}

impl<'p> PlanView<'p> {
    /// The ports by which the connections were found.
    pub fn ports(&self) -> Ports
        ensures { result ≡ self.now.ports }
    {
        self.table.ports
    }

    /// How many connections there are.
    pub fn conns(&self) -> u32
        ensures value { result ≡ length self.now.tuples }
        ensures most { result ≤ most_conns }
    {
        self.table.tuples.len() as u32
    }

    /// The two ends of connection `c`. The server's port is one of the plan's.
    pub fn tuple(&self, c: u32) -> Tuple
        requires { c < length self.now.tuples }
        ensures value { slice_get self.now.tuples c ≡ Some result }
        ensures served { is_served self.now.ports result.server_port ≡ true }
    {
        match self.table.tuples.get_index(c as usize) {
            Some(tuple) => *tuple,
            None => unreachable!(),
        }
    }

    /// How many items connection `c` has.
    pub fn items(&self, c: u32) -> u32
        requires { c < length self.now.tuples }
        ensures value { result ≡ length (items_in self.now c) }
        ensures some { 0 < result }
        ensures most { result ≤ most_items }
    {
        self.table.items[c as usize].len() as u32
    }

    /// Item `n` of connection `c`. Times never fall from an item to a later one.
    pub fn item(&self, c: u32, n: u32) -> Item
        requires conn { c < length self.now.tuples }
        requires item { n < length (items_in self.now c) }
        ensures value { slice_get (items_in self.now c) n ≡ Some result }
        ensures most { time_of result ≤ latest_time }
        ensures rises { (m : ℕ) → m ≤ n → IfSome (slice_get (items_in self.now c) m) (λ before. time_of before ≤ time_of result) }
    {
        let slot = self.table.items[c as usize][n as usize];
        item_of(self.table.packets.as_slice(), slot)
    }

    /// Whether item `n` of connection `c` is a time item. It looks at the slot alone, and not at the packet.
    pub(crate) fn is_time(&self, c: u32, n: u32) -> bool
        requires conn { c < length self.now.tuples }
        requires item { n < length (items_in self.now c) }
        ensures { IfSome (slice_get (items_in self.now c) n) (λ item. result ≡ is_time item) }
    {
        matches!(self.table.items[c as usize][n as usize], Slot::Time { .. })
    }

    /// The text of item `n` of connection `c`: the segment's, or none for a time item.
    pub fn text(&self, c: u32, n: u32) -> &'p [u8]
        requires conn { c < length self.now.tuples }
        requires item { n < length (items_in self.now c) }
        ensures value { IfSome (slice_get (items_in self.now c) n) (λ item. result.now ≡ text_of self.now.file item) }
        ensures whole { IfSome (slice_get (items_in self.now c) n) (λ item. length result.now ≡ text_len_of item) }
    {
        match self.item(c, n) {
            Item::Time { .. } => &[],
            Item::Segment { rec, seg, .. } => {
                let from = seg.text_from as usize;
                &self.capture.body(rec)[from..from + seg.text_len as usize]
            }
        }
    }
}
