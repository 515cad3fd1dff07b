//! The records of a capture: what of them is served is found, sorted by stream and counted, all in one pass.

ghost use Rattle.std.specs.Prelude.{◌≡◌, ◌+◌, ◌<◌, ◌≤◌, List, length, IfOk, IfSome, OnOk, [], ◌∷◌, ◌++◌, set, get_or, position};
ghost use Rattle.conn_classifier.specs.Connections.{tuple_eq};
ghost use Rattle.stream_plan.specs.Limits.{most_streams};
ghost use Rattle.stream_plan.specs.Streams.{StreamOf, arrivals_of};
ghost use Rattle.stream_plan.specs.Sorting.{entered, heard, sorted_seen, with_stream};
ghost use Rattle.stream_plan.specs.declared.kinds.Arrived.{Arrived as ArrivedOf};

use crate::finding::{served, tuple_of};
use crate::kinds::{Arrived, Found};
use crate::planned::CapturedStream;
use capture_reader::Capture;
use conn_classifier::Arrival;
use indexmap::IndexSet;
use sq_base::Tuple;
use std::alloc::{AllocError, Global};
use std::marker::Model;

const MOST_STREAMS: usize = 4096;

/// What is sorted out of the records.
#[derive(Drop)]
pub struct Sorted {
    /// The first 4,096 streams, by first appearance.
    pub tuples: IndexSet<Tuple>,
    /// The same by number, each with its datagrams, and without items.
    pub streams: Vec<CapturedStream>,
    /// By stream its segments, in record order.
    pub segments: Vec<Vec<Arrival>>,
    /// How many records are of these streams, and how many of all streams.
    pub served: u32,
    pub arrived: u32,
}

impl Model for Sorted {
    ghost use Rattle.std.specs.Prelude.{map};
    ghost use Rattle.stream_plan.specs.Sorting.{SortedOf};

    ghost Value = { SortedOf };

    ghost view = { λ s. record {
      tuples = s.tuples.keys;
      streams = s.streams.items;
      segments = map (λ v. v.items) s.segments.items;
      served = s.served;
      arrived = s.arrived;
    } };
}

impl Sorted {
    /// The number of the stream with these ends. A new one has the next number, where streams still fit.
    fn number(&mut self, alloc: Global, tuple: Tuple) -> Result<Option<usize>, AllocError>
        requires few { length self.old.tuples ≤ most_streams }
        requires even { length self.old.streams ≡ length self.old.tuples }
        requires both { length self.old.segments ≡ length self.old.tuples }
        ensures streams { OnOk result (self.new ≡ with_stream tuple self.old) }
        ensures number { IfOk result (λ c. c ≡ position (tuple_eq tuple) self.new.tuples) }
        ensures stream { IfOk result (λ o. IfSome o (λ c. c < length self.new.streams)) }
        ensures segments { IfOk result (λ o. IfSome o (λ c. c < length self.new.segments)) }
        ensures served { self.new.served ≡ self.old.served }
        ensures arrived { self.new.arrived ≡ self.old.arrived }
    {
        if let Some(c) = self.tuples.get_index_of(&tuple) {
            return Ok(Some(c));
        }
        let next = self.tuples.len();
        if next >= MOST_STREAMS {
            return Ok(None);
        }
        self.tuples.insert(tuple)?;
        self.streams.push(CapturedStream::new(alloc, tuple))?;
        self.segments.push(Vec::new(alloc))?;
        Ok(Some(next))
    }

    /// One more of what arrived, of stream `c`.
    fn add(&mut self, c: usize, arrived: Arrived) -> Result<(), AllocError>
        requires stream { c < length self.old.streams }
        requires segments { c < length self.old.segments }
        requires served { self.old.served < 4294967295 }
        requires arrived { self.old.arrived < 4294967295 }
        ensures { (s : StreamOf) → OnOk result (self.new ≡ record self.old {
          streams = set self.old.streams c (heard arrived.rec arrived.at arrived.found (get_or self.old.streams c s));
          segments = set self.old.segments c (entered arrived.rec arrived.at arrived.found (get_or self.old.segments c []));
          served = self.old.served + 1;
          arrived = self.old.arrived + 1;
        }) }
    {
        let Arrived { rec, at, found } = arrived;
        match found {
            Found::Datagram(udp) => self.streams[c].hear(rec, at, udp)?,
            Found::Segment(seg) => self.segments[c].push(Arrival { rec, at, seg })?,
        }
        self.served += 1;
        self.arrived += 1;
        Ok(())
    }

    /// One more of what arrived, of no stream.
    fn pass(&mut self)
        requires { self.old.arrived < 4294967295 }
        ensures { self.new ≡ record self.old { arrived = self.old.arrived + 1 } }
    {
        self.arrived += 1;
    }

    /// One more of what arrived.
    fn sort_in(&mut self, alloc: Global, arrived: Arrived) -> Result<(), AllocError>
        requires few { length self.old.tuples ≤ most_streams }
        requires even { length self.old.streams ≡ length self.old.tuples }
        requires both { length self.old.segments ≡ length self.old.tuples }
        requires served { self.old.served < 4294967295 }
        requires arrived { self.old.arrived < 4294967295 }
        ensures { (xs : List ArrivedOf) → self.old ≡ sorted_seen xs → OnOk result (self.new ≡ sorted_seen (xs ++ arrived ∷ [])) }
    {
        match self.number(alloc, tuple_of(&arrived.found))? {
            Some(c) => self.add(c, arrived)?,
            None => self.pass(),
        }
        Ok(())
    }
}

/// The records, sorted.
pub fn sort(alloc: Global, capture: &Capture) -> Result<Sorted, AllocError>
    ensures value { IfOk result (λ s. s ≡ sorted_seen (arrivals_of capture.now)) }
    ensures few { IfOk result (λ s. s.arrived ≤ length capture.now.packets) }
{
    let mut sorted = Sorted {
        tuples: IndexSet::new(alloc),
        streams: Vec::new(alloc),
        segments: Vec::new(alloc),
        served: 0,
        arrived: 0,
    };
    for rec in 0..capture.len() {
        if let Some(found) = served(capture.link(), capture.body(rec)) {
            let at = capture.rec(rec).at;
            sorted.sort_in(alloc, Arrived { rec, at, found })?;
        }
    }
    Ok(sorted)
}
