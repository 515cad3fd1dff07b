//! The plan of a capture: its streams and their items.

ghost use Rattle.std.specs.Prelude.{◌≡◌, ◌*◌, ◌<◌, ◌≤◌, length, slice_get, IfSome, OnOk, Some};
ghost use Rattle.capture_reader.specs.Limits.{most_records};
ghost use Rattle.stream_plan.specs.Limits.{most_streams};
ghost use Rattle.stream_plan.specs.Sound.{IsMorePlan};
ghost use Rattle.stream_plan.specs.Streams.{item_count};
ghost use Rattle.stream_plan.specs.Sorting.{last_at, new_stream, with_datagram};
ghost use Rattle.conn_classifier.specs.Items.{items_of};

use crate::kinds::{Counts, ServedDatagram};
use capture_reader::Capture;
use conn_classifier::{Arrival, Item, hints, items_in};
use sq_base::Tuple;
use std::alloc::{AllocError, Global};
use std::marker::Model;
use udp_codec::Udp;

/// The streams of a capture, numbered from 0 by first appearance, at most 4,096, and their items, numbered from 0.
#[derive(Drop)]
pub struct MorePlan<'c> {
    pub(crate) capture: &'c Capture,
    pub(crate) counts: Counts,
    pub(crate) streams: Vec<CapturedStream>,
}

/// A stream: its two ends, the datagrams to echo or discard, and the items of the segments to the generator. One list is empty.
#[derive(Drop)]
pub struct CapturedStream {
    pub(crate) tuple: Tuple,
    pub(crate) datagrams: Vec<ServedDatagram>,
    pub(crate) items: Vec<Item>,
}

impl Model for CapturedStream {
    ghost use Rattle.stream_plan.specs.Streams.{StreamOf};

    ghost Value = { StreamOf };

    ghost view = { λ s. record { tuple = s.tuple; datagrams = s.datagrams.items; items = s.items.items } };
}

impl<'c> Model for MorePlan<'c> {
    ghost use Rattle.stream_plan.specs.Streams.{MorePlanOf};
    ghost use Rattle.stream_plan.specs.Sound.{IsMorePlan};

    ghost Value = { MorePlanOf };

    ghost view = { λ p. record { file = p.capture.now; counts = p.counts; streams = p.streams.items } };

    ghost invariant = { λ p. IsMorePlan (record { file = p.capture.now; counts = p.counts; streams = p.streams.items }) };
}

/// The time of the last datagram, or 0.
fn last_time(datagrams: &[ServedDatagram]) -> u64
    ensures { result ≡ last_at 0 datagrams.now }
{
    match datagrams.last() {
        Some(datagram) => datagram.at,
        None => 0,
    }
}

impl CapturedStream {
    /// A stream without datagrams and items. It takes no memory.
    pub(crate) fn new(alloc: Global, tuple: Tuple) -> CapturedStream
        ensures { result ≡ new_stream tuple }
    {
        CapturedStream {
            tuple,
            datagrams: Vec::new(alloc),
            items: Vec::new(alloc),
        }
    }

    /// One datagram more. Its time doesn't fall behind that of the one before it.
    pub(crate) fn hear(&mut self, rec: u32, at: u64, udp: Udp) -> Result<(), AllocError>
        ensures { OnOk result (self.new ≡ with_datagram rec at udp self.old) }
    {
        let at = last_time(self.datagrams.as_slice()).max(at);
        self.datagrams.push(ServedDatagram { at, rec, udp })?;
        Ok(())
    }

    /// The items of these segments come in place of those that are here, where this is the greatest time of all records.
    pub(crate) fn enter(
        &mut self,
        alloc: Global,
        last: u64,
        segments: &[Arrival],
    ) -> Result<(), AllocError>
        ensures { OnOk result (self.new ≡ record self.old { items = items_of last segments.now }) }
    {
        let hints = hints(alloc, segments)?;
        self.items = items_in(alloc, last, segments, hints.as_slice())?;
        Ok(())
    }

    /// The client's end and the server's, whose port is that of the service.
    pub fn tuple(&self) -> Tuple
        ensures { result ≡ self.now.tuple }
    {
        self.tuple
    }

    /// The datagrams to echo or discard, in record order.
    pub fn datagrams(&self) -> &[ServedDatagram]
        ensures { result.now ≡ self.now.datagrams }
    {
        self.datagrams.as_slice()
    }

    /// The items of the segments to the generator.
    pub fn items(&self) -> &[Item]
        ensures { result.now ≡ self.now.items }
    {
        self.items.as_slice()
    }
}

impl<'c> MorePlan<'c> {
    /// What holds of every plan. It does nothing.
    pub fn is_sound(&self)
        ensures { IsMorePlan self.now }
    {
        let _counts = self.counts;
    }

    /// The capture that the plan is of.
    pub fn capture(&self) -> &Capture
        ensures { result.now ≡ self.now.file }
    {
        self.capture
    }

    /// How many records count as what.
    pub fn counts(&self) -> Counts
        ensures { result ≡ self.now.counts }
    {
        self.counts
    }

    /// How many streams there are.
    pub fn streams(&self) -> u32
        ensures value { result ≡ length self.now.streams }
        ensures most { result ≤ most_streams }
    {
        self.streams.len() as u32
    }

    /// CapturedStream number `c`.
    pub fn stream(&self, c: u32) -> &CapturedStream
        requires { c < length self.now.streams }
        ensures { slice_get self.now.streams c ≡ Some result.now }
    {
        &self.streams[c as usize]
    }

    /// How many datagrams or items stream `c` has.
    pub fn items(&self, c: u32) -> u32
        requires { c < length self.now.streams }
        ensures value { IfSome (slice_get self.now.streams c) (λ s. result ≡ item_count s) }
        ensures most { result ≤ 2 * most_records }
    {
        self.is_sound();
        let stream = self.stream(c);
        (stream.datagrams.len() + stream.items.len()) as u32
    }
}
