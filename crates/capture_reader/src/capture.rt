//! A capture: packets that are places in the bytes of a file. Those of a libpcap file are found here, in one pass over its bytes.

ghost use Rattle.std.specs.Prelude.{◌≡◌, ◌+◌, ◌<◌, ◌≤◌, ◌^◌, ◌==◌, length, slice_get, IfSome, IfOk, IfErr, MatchResult, Some, fold, max};
ghost use Rattle.capture_reader.specs.Limits.{most_bytes, most_records, latest_time, header_size};
ghost use Rattle.capture_reader.specs.Outcome.{IsCapture, ParseFails, packet_at};
ghost use Rattle.capture_reader.specs.CaptureFile.{Ends, named_time, last_time};
ghost use Rattle.capture_reader.specs.SoFar.{StopsAt, Fails};

use crate::fault::CaptureFault;
use crate::form::{Form, rest_at};
use crate::header::header_of;
use crate::limits::{HEADER, LONGEST_BODY, MOST_BYTES, MOST_RECORDS, RECORD_HEADER};
use sq_base::{Link, Octets};
use std::alloc::{AllocError, Global};
use std::marker::Model;

/// One packet.
#[derive(Clone, Copy, Debug, PartialEq, Eq)]
pub struct Record {
    /// Its time in microseconds, since 1970 in a file that follows its format.
    pub at: u64,
    /// Where its captured bytes begin in the file.
    pub from: u32,
    /// How many captured bytes it has.
    pub len: u32,
}

/// The packets of a file, at most 1,048,576, numbered from 0, beside the file's bytes, which stay as they are.
#[derive(Debug, Drop)]
pub struct Capture {
    bytes: Octets,
    link: Link,
    records: Vec<Record>,
    cut: bool,
}

impl Model for Capture {
    ghost use Rattle.std.specs.Prelude.{◌≤◌, length, map};
    ghost use Rattle.std.specs.List.{AllByRecursion};
    ghost use Rattle.capture_reader.specs.Limits.{most_records};
    ghost use Rattle.capture_reader.specs.Outcome.{CaptureFile, packet_at, IsInside};

    ghost Value = { CaptureFile };

    ghost view = { λ c. record {
      bytes = c.bytes;
      link = c.link;
      packets = map (packet_at c.bytes) c.records.items;
      cut = c.cut;
    } };

    ghost invariant = { λ c. AllByRecursion (IsInside c.bytes) c.records.items × (length c.records.items ≤ most_records) };
}

impl Capture {
    ghost use Rattle.std.specs.Prelude.{map};
    ghost use Rattle.std.specs.List.{AllByRecursion};
    ghost use Rattle.capture_reader.specs.Outcome.{IsInside};

    /// The capture of these records of a file in another form, its packets in their order. `cut_tail` says whether an interrupted
    /// capture cut the last packet, which is none of the records. Fails only for want of memory.
    pub fn make(
        alloc: Global,
        link: Link,
        bytes: Octets,
        records: &[Record],
        cut_tail: bool,
    ) -> Result<Capture, AllocError>
        requires few { length records.now ≤ most_records }
        requires inside { AllByRecursion (IsInside bytes) records.now }
        ensures { IfOk result (λ c. c ≡ record { bytes = bytes; link = link; packets = map (packet_at bytes) records.now; cut = cut_tail }) }
    {
        Ok(Capture {
            bytes,
            link,
            records: Vec::from_slice(alloc, records)?,
            cut: cut_tail,
        })
    }

    /// The link layer of all packets.
    pub fn link(&self) -> Link
        ensures { result ≡ self.now.link }
    {
        self.link
    }

    /// How many packets there are.
    pub fn len(&self) -> u32
        ensures value { result ≡ length self.now.packets }
        ensures most { result ≤ most_records }
    {
        self.records.len() as u32
    }

    /// Whether there is no packet.
    pub fn is_empty(&self) -> bool
        ensures { result ≡ (length self.now.packets == 0) }
    {
        self.records.is_empty()
    }

    /// Whether an interrupted capture cut the end of the file; what was cut is left out.
    pub fn cut_tail(&self) -> bool
        ensures { result ≡ self.now.cut }
    {
        self.cut
    }

    /// The time of packet `i` in microseconds, and the place of its captured bytes in the file.
    pub fn rec(&self, i: u32) -> Record
        requires { i < length self.now.packets }
        ensures packet { slice_get self.now.packets i ≡ Some (packet_at self.now.bytes result) }
        ensures inside { result.from + result.len ≤ length self.now.bytes }
        ensures time { result.at ≤ latest_time }
    {
        self.records[i as usize]
    }

    /// The captured bytes of packet `i`.
    pub fn body(&self, i: u32) -> &[u8]
        requires { i < length self.now.packets }
        ensures value { IfSome (slice_get self.now.packets i) (λ p. result.now ≡ p.body) }
        ensures most { length result.now < 2 ^ 32 }
    {
        let record = self.rec(i);
        let rest = rest_at(self.bytes.as_slice(), record.from as usize);
        rest.split_at(record.len as usize).0
    }

    /// The bytes of the whole file.
    pub fn bytes(&self) -> &[u8]
        ensures { result.now ≡ self.now.bytes }
    {
        self.bytes.as_slice()
    }

    /// The greatest time of all packets in microseconds, and 0 where there is none.
    #[tactic(auto, using(crate::proofs::Times::last_time_of, crate::proofs::Times::latest_below))]
    pub fn last_time(&self) -> u64
        ensures value { result ≡ last_time self.now.packets }
        ensures most { result ≤ latest_time }
    {
        latest(&self.records)
    }
}

/// The capture that the bytes are (libpcap file format 2.4), or the first refusal that they meet. `Read` is never answered, `TooLarge` exactly
/// where there are more than 67,108,864 bytes, and `NoMemory` where room for the list of packets was missing.
///
/// # Example
///
/// ```
/// let capture = parse_capture(rt.alloc(), Octets::of(rt.alloc(), &CAPTURE)?)?;
/// let plan = plan(&rt, rt.alloc(), &capture, false)?;
/// ```
pub fn parse_capture(alloc: Global, bytes: Octets) -> Result<Capture, CaptureFault>
    ensures ok { IfOk result (λ c. IsCapture c × (c.bytes ≡ bytes)) }
    ensures err { IfErr result (ParseFails bytes) }
{
    let size = bytes.as_slice().len();
    if size > MOST_BYTES {
        return Err(CaptureFault::TooLarge(size as u64));
    }
    let (form, link) = header_of(bytes.as_slice())?;
    let (records, cut) = records_of(alloc, form, bytes.as_slice())?;
    Ok(Capture {
        bytes,
        link,
        records,
        cut,
    })
}

/// The packets behind the header, and whether the last one is cut.
fn records_of(alloc: Global, form: Form, bytes: &[u8]) -> Result<(Vec<Record>, bool), CaptureFault>
    requires header { header_size ≤ length bytes.now }
    requires small { length bytes.now ≤ most_bytes }
    ensures { MatchResult result (λ x. StopsAt form bytes.now x.0.items (Ends x.1 form (length x.0.items))) (Fails form bytes.now) }
{
    let mut at = HEADER;
    let mut records = Vec::new(alloc);
    loop {
        let rest = rest_at(bytes, at);
        if rest.is_empty() {
            return Ok((records, false));
        }
        if records.len() == MOST_RECORDS {
            return Err(CaptureFault::TooManyRecords);
        }
        if rest.len() < RECORD_HEADER {
            return Ok((records, true));
        }
        let len = form.u32_at(rest, 8);
        if len > LONGEST_BODY {
            return Err(CaptureFault::RecordLength {
                index: records.len() as u32,
                len,
            });
        }
        let size = RECORD_HEADER + len as usize;
        if rest.len() < size {
            return Ok((records, true));
        }
        let record = Record {
            at: time_of(form, rest),
            from: (at + RECORD_HEADER) as u32,
            len,
        };
        records.push(record).map_err(|_| CaptureFault::NoMemory)?;
        at += size;
    }
}

/// The greatest time, and 0 where there is none.
fn latest(records: &[Record]) -> u64
    ensures { result ≡ fold (λ latest r. max latest r.at) 0 records.now }
{
    let mut latest = 0;
    for record in records {
        latest = latest.max(record.at);
    }
    latest
}

/// The time in a packet's header, in microseconds.
fn time_of(form: Form, bytes: &[u8]) -> u64
    requires { 8 ≤ length bytes.now }
    ensures value { result ≡ named_time form bytes.now }
    ensures small { result ≤ latest_time }
{
    let fraction = form.u32_at(bytes, 4);
    let micros = if form.nanoseconds {
        fraction / 1000
    } else {
        fraction
    };
    u64::from(form.u32_at(bytes, 0)) * 1_000_000 + u64::from(micros)
}
