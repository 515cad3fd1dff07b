//! The plan of a capture, as the layers above see it.

ghost use Rattle.std.specs.Prelude.{◌≡◌, ℕ, ◌<◌, ◌≤◌, ◌%◌, true, length, slice_get, IfSome, Some};
ghost use Rattle.capture_reader.specs.Limits.{latest_time};
ghost use Rattle.conn_classifier.specs.Limits.{most_conns, most_items};
ghost use Rattle.conn_classifier.specs.Rules.{is_served};
ghost use Rattle.conn_classifier.specs.Plan.{IsPlan, items_in, time_of, text_of, text_len_of};

use crate::kinds::{Counts, Item, Slot};
use crate::rules::Ports;
use crate::view::PlanView;
use capture_reader::Capture;
use indexmap::IndexSet;
use segment_codec::Packet;
use sq_base::Tuple;
use std::marker::Model;

/// What a plan owns.
#[derive(Drop)]
pub(crate) struct Table {
    /// The ports by which the connections were found.
    pub(crate) ports: Ports,
    pub(crate) tuples: IndexSet<Tuple>,
    /// What each record holds.
    pub(crate) packets: Vec<Packet>,
    pub(crate) items: Vec<Vec<Slot>>,
    /// The connection of each served segment, in record order.
    pub(crate) order: Vec<u32>,
    pub(crate) counts: Counts,
}

/// The connections of a capture, numbered from 0 by first appearance, at most 4,096, and their items, numbered from 0.
#[derive(Drop)]
pub struct Plan<'c> {
    pub(crate) capture: &'c Capture,
    pub(crate) table: Table,
}

impl<'c> Model for Plan<'c> {
    ghost use Rattle.std.specs.Prelude.{map};
    ghost use Rattle.conn_classifier.specs.Plan.{PlanOf, IsPlan};
    ghost use Rattle.conn_classifier.specs.Slots.{item_of};

    ghost Value = { PlanOf };

    ghost view = { λ p. record {
      file = p.capture.now;
      ports = p.table.ports;
      tuples = p.table.tuples.keys;
      items = map (λ v. map (item_of p.table.packets.items) v.items) p.table.items.items;
      order = p.table.order.items;
      counts = p.table.counts;
    } };

    ghost invariant = { λ p. IsPlan (record {
      file = p.capture.now;
      ports = p.table.ports;
      tuples = p.table.tuples.keys;
      items = map (λ v. map (item_of p.table.packets.items) v.items) p.table.items.items;
      order = p.table.order.items;
      counts = p.table.counts;
    }) };
}

impl<'c> Plan<'c> {
    /// The same plan, borrowed.
    pub fn view(&self) -> PlanView<'_>
        ensures { result ≡ self.now }
    {
        PlanView {
            capture: self.capture,
            table: &self.table,
        }
    }

    /// What holds of every plan. It does nothing.
    pub fn is_sound(&self)
        ensures { IsPlan self.now }
    {
        let _table = &self.table;
    }

    /// The ports by which the connections were found.
    pub fn ports(&self) -> Ports
        ensures { result ≡ self.now.ports }
    {
        self.table.ports
    }

    /// How many connections there are.
    pub fn conns(&self) -> u32
        ensures value { result ≡ length self.now.tuples }
        ensures most { result ≤ most_conns }
    {
        self.view().conns()
    }

    /// How many records there are, and how many of them count as what: each as one of the eight kinds that `Counts` lists.
    pub fn counts(&self) -> Counts
        ensures { result ≡ self.now.counts }
    {
        self.table.counts
    }

    /// The two ends of connection `c`. The server's port is one of the plan's.
    pub fn tuple(&self, c: u32) -> Tuple
        requires { c < length self.now.tuples }
        ensures value { slice_get self.now.tuples c ≡ Some result }
        ensures served { is_served self.now.ports result.server_port ≡ true }
    {
        self.view().tuple(c)
    }

    /// How many items connection `c` has.
    pub fn items(&self, c: u32) -> u32
        requires { c < length self.now.tuples }
        ensures value { result ≡ length (items_in self.now c) }
        ensures some { 0 < result }
        ensures most { result ≤ most_items }
    {
        self.view().items(c)
    }

    /// The ring that brings connection `c`, of so many.
    pub fn ring_of(&self, c: u32, rings: u32) -> u32
        requires conn { c < length self.now.tuples }
        requires some { 1 ≤ rings }
        ensures { result ≡ c % rings }
    {
        c % rings
    }

    /// The squeue at which connection `c` starts, of so many.
    pub fn first_squeue(&self, c: u32, squeues: u32) -> u32
        requires conn { c < length self.now.tuples }
        requires some { 1 ≤ squeues }
        ensures { result ≡ c % squeues }
    {
        c % squeues
    }

    /// Item `n` of connection `c`. Times never fall from an item to a later one.
    pub fn item(&self, c: u32, n: u32) -> Item
        requires conn { c < length self.now.tuples }
        requires item { n < length (items_in self.now c) }
        ensures value { slice_get (items_in self.now c) n ≡ Some result }
        ensures most { time_of result ≤ latest_time }
        ensures rises { (m : ℕ) → m ≤ n → IfSome (slice_get (items_in self.now c) m) (λ before. time_of before ≤ time_of result) }
    {
        self.view().item(c, n)
    }

    /// The text of item `n` of connection `c`: the segment's, or none for a time item.
    pub fn text(&self, c: u32, n: u32) -> &[u8]
        requires conn { c < length self.now.tuples }
        requires item { n < length (items_in self.now c) }
        ensures value { IfSome (slice_get (items_in self.now c) n) (λ item. result.now ≡ text_of self.now.file item) }
        ensures whole { IfSome (slice_get (items_in self.now c) n) (λ item. length result.now ≡ text_len_of item) }
    {
        self.view().text(c, n)
    }
}
