//! The records of a capture: their connections found, sorted by connection and counted by class, all in one pass.

ghost use Rattle.std.specs.Prelude.{◌≡◌, ℕ, ◌+◌, ◌<◌, ◌≤◌, Bool, List, length, IfOk, IfSome, OnOk, [], ◌∷◌, ◌++◌, set, get_or, position};
ghost use Rattle.conn_classifier.specs.Limits.{most_conns};
ghost use Rattle.conn_classifier.specs.Connections.{conns, tuple_eq};
ghost use Rattle.conn_classifier.specs.Classes.{class_in, counts_of};
ghost use Rattle.conn_classifier.specs.Items.{Seen};
ghost use Rattle.conn_classifier.specs.Sorting.{counted, total, with_conn, sorted_of, sorted_seen, seen_of};

use crate::kinds::{Class, Counts};
use crate::rules::Ports;
use crate::tuples::served;
use capture_reader::Capture;
use indexmap::IndexSet;
use segment_codec::{Packet, tuple_of};
use sq_base::Tuple;
use std::alloc::{AllocError, Global};
use std::marker::Model;

const MOST_CONNECTIONS: usize = 4096;

/// What is sorted out of the records: the connections, the records of each, the connection of each served segment, and the counts.
#[derive(Drop)]
pub struct Sorted {
    /// The first 4,096 tuples of served segments, by first appearance.
    pub tuples: IndexSet<Tuple>,
    /// By connection the records of its segments, in record order.
    pub lists: Vec<Vec<u32>>,
    /// The connection of each served segment, in record order.
    pub order: Vec<u32>,
    pub counts: Counts,
}

impl Model for Sorted {
    ghost use Rattle.std.specs.Prelude.{map};
    ghost use Rattle.conn_classifier.specs.Sorting.{SortedOf};

    ghost Value = { SortedOf };

    ghost view = { λ s. record {
      tuples = s.tuples.keys;
      lists = map (λ v. v.items) s.lists.items;
      order = s.order.items;
      counts = s.counts;
    } };
}

/// The class of a record that is of no connection.
fn class_of(ports: Ports, packet: &Packet) -> Class
    ensures { result ≡ class_in ports [] packet.now }
{
    match packet {
        Packet::Segment(seg) if ports.is_served(seg.dst_port) => Class::NoFit,
        Packet::Segment(seg) if ports.is_served(seg.src_port) => Class::Server,
        Packet::Segment(_) | Packet::Other => Class::Other,
        Packet::Fragment => Class::Fragment,
        Packet::Cut => Class::Cut,
        Packet::Malformed(_) => Class::Malformed,
        Packet::BadSum => Class::BadSum,
    }
}

impl Counts {
    fn none(records: u32, cut_tail: bool) -> Counts
        ensures { result ≡ counts_of records cut_tail [] }
    {
        Counts {
            records,
            tail: u32::from(cut_tail),
            served: 0,
            nofit: 0,
            server: 0,
            other: 0,
            fragment: 0,
            cut: 0,
            malformed: 0,
            badsum: 0,
        }
    }

    /// One more record of this class.
    fn count(&mut self, class: Class)
        requires { total self.old < 4294967295 }
        ensures { self.new ≡ counted class self.old }
    {
        match class {
            Class::Served => self.served += 1,
            Class::NoFit => self.nofit += 1,
            Class::Server => self.server += 1,
            Class::Other => self.other += 1,
            Class::Fragment => self.fragment += 1,
            Class::Cut => self.cut += 1,
            Class::Malformed => self.malformed += 1,
            Class::BadSum => self.badsum += 1,
        }
    }
}

impl Sorted {
    /// The number of the connection with this tuple. A new one has the next number, where connections still fit.
    fn number(&mut self, alloc: Global, tuple: Tuple) -> Result<Option<usize>, AllocError>
        requires few { length self.old.tuples ≤ most_conns }
        requires even { length self.old.lists ≡ length self.old.tuples }
        ensures conns { OnOk result (self.new ≡ with_conn tuple self.old) }
        ensures number { IfOk result (λ c. c ≡ position (tuple_eq tuple) self.new.tuples) }
        ensures within { IfOk result (λ o. IfSome o (λ c. (c < length self.new.lists) × (c < most_conns))) }
        ensures counts { self.new.counts ≡ self.old.counts }
    {
        if let Some(c) = self.tuples.get_index_of(&tuple) {
            return Ok(Some(c));
        }
        let next = self.tuples.len();
        if next >= MOST_CONNECTIONS {
            return Ok(None);
        }
        self.tuples.insert(tuple)?;
        self.lists.push(Vec::new(alloc))?;
        Ok(Some(next))
    }

    /// One more segment, of connection `c`.
    fn add(&mut self, c: usize, rec: u32) -> Result<(), AllocError>
        requires within { c < length self.old.lists }
        requires few { c < most_conns }
        requires room { total self.old.counts < 4294967295 }
        ensures { OnOk result (self.new ≡ record self.old {
          lists = set self.old.lists c (get_or self.old.lists c [] ++ rec ∷ []);
          order = self.old.order ++ c ∷ [];
          counts = counted Class.Served self.old.counts;
        }) }
    {
        self.lists[c].push(rec)?;
        self.order.push(c as u32)?;
        self.counts.count(Class::Served);
        Ok(())
    }

    /// One more record, of no connection.
    fn pass(&mut self, class: Class)
        requires { total self.old.counts < 4294967295 }
        ensures { self.new ≡ record self.old { counts = counted class self.old.counts } }
    {
        self.counts.count(class);
    }

    /// One more record, with its number.
    fn sort_in(
        &mut self,
        alloc: Global,
        ports: Ports,
        rec: u32,
        packet: &Packet,
    ) -> Result<(), AllocError>
        requires few { length self.old.tuples ≤ most_conns }
        requires even { length self.old.lists ≡ length self.old.tuples }
        requires room { total self.old.counts < 4294967295 }
        ensures { (records at : ℕ) (cut : Bool) (xs : List Seen) → self.old ≡ sorted_seen ports records cut xs → rec ≡ length xs
            → OnOk result (self.new ≡ sorted_seen ports records cut (xs ++ (at, packet.now) ∷ [])) }
    {
        let Some(seg) = served(ports, packet) else {
            self.pass(class_of(ports, packet));
            return Ok(());
        };
        match self.number(alloc, tuple_of(&seg))? {
            Some(c) => self.add(c, rec)?,
            None => self.pass(class_of(ports, packet)),
        }
        Ok(())
    }
}

/// The records' packets, sorted, where these ports are served.
pub fn sort(
    alloc: Global,
    ports: Ports,
    capture: &Capture,
    packets: &[Packet],
) -> Result<Sorted, AllocError>
    requires { length packets.now ≡ length capture.now.packets }
    ensures { IfOk result (λ s. s ≡ sorted_of ports (length capture.now.packets) capture.now.cut
        (conns ports packets.now) (seen_of capture.now.packets packets.now)) }
{
    let mut sorted = Sorted {
        tuples: IndexSet::new(alloc),
        lists: Vec::new(alloc),
        order: Vec::new(alloc),
        counts: Counts::none(capture.len(), capture.cut_tail()),
    };
    for i in 0..capture.len() {
        sorted.sort_in(alloc, ports, i, &packets[i as usize])?;
    }
    Ok(sorted)
}
