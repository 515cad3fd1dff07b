//! The top call: from the words and the bytes of a capture to a report that is written.

ghost use Rattle.std.specs.Prelude.{◌≡◌, false, MatchResult, map, string_bytes};
ghost use Rattle.sq_base.specs.Ends.{Rose, end_of};
ghost use Rattle.ring_quotas.specs.Quotas.{IsInRange};
ghost use Rattle.shell.specs.Reading.{IsDone};
ghost use Rattle.datagram_services.specs.MoreCauses.{MoreFails, MoreGives, ReadFails, ReadGives, ReportFails};
ghost use Rattle.datagram_services.specs.MoreRan.{GetsReport, HasMoreRan, MoreAccepts};
ghost use Rattle.datagram_services.specs.MoreWords.{more_setup};

use crate::refusal::{Refusal, refuse};
use crate::serving::serve_more;
use crate::words::setup_words;
use crate::writing::{DatagramRoom, write_more};
use capture_reader::{Capture, read_bytes};
use pcapng_reader::{InputFault, parse_input};
use perimeter_core::NoHook;
use ring_quotas::Setup;
use shell::WordFault;
use sq_base::{Sink, Source, Status};
use std::alloc::Global;
use std::sync::Wait;
use std::thread::Threads;
use stream_plan::more_plan;

/// Reads the words and the input, serves its streams, and writes the report; or writes why not as one line to `err`.
///
/// # Example
///
/// ```
/// let mut src = MemSource::make(alloc, &HEADER, 65_536, &[])?;
/// let mut out = MemSink::make(alloc, 1000, 1000, &[])?;
/// let mut err = MemSink::make(alloc, 1000, 1000, &[])?;
/// let status = more_run(rt, alloc, words.as_slice(), &mut src, &mut out, &mut err);
/// ```
pub fn more_run<S: Source, K: Sink, E: Sink>(
    rt: &(impl Threads + Wait + Sync),
    alloc: Global,
    words: &[String],
    src: &mut S,
    out: &mut K,
    err: &mut E,
) -> Status
    ensures ran { HasMoreRan (more_setup (map (λ w. string_bytes w) words.now))
        (end_of S.rest S.read_faults src.old src.new)
        (end_of K.contents K.write_faults out.old out.new)
        (end_of E.contents E.write_faults err.old err.new)
        result }
    ensures complete { MoreAccepts (more_setup (map (λ w. string_bytes w) words.now)) (S.rest src.old)
        → (Rose (S.read_faults src.old) (S.read_faults src.new) → ⊥) → (Rose (K.write_faults out.old) (K.write_faults out.new) → ⊥)
        → IsDone result }
{
    match output(rt, alloc, words, src, out) {
        Ok(()) => Status::Ok,
        Err(refusal) => refuse(alloc, err, refusal),
    }
}

/// Writes the report, or says why there is no whole one. Unless a write failed, nothing is written then.
fn output<S: Source, K: Sink>(
    rt: &(impl Threads + Wait + Sync),
    alloc: Global,
    words: &[String],
    src: &mut S,
    out: &mut K,
) -> Result<(), Refusal>
    ensures { MatchResult result
        (λ _. MoreGives (more_setup (map (λ w. string_bytes w) words.now)) (end_of S.rest S.read_faults src.old src.new)
        (end_of K.contents K.write_faults out.old out.new))
        (MoreFails (more_setup (map (λ w. string_bytes w) words.now)) (end_of S.rest S.read_faults src.old src.new)
        (end_of K.contents K.write_faults out.old out.new)) }
{
    match setup_words(alloc, words) {
        Ok(setup) => output_for(rt, alloc, &setup, src, out),
        Err(WordFault::Usage) => Err(Refusal::Usage),
        Err(WordFault::NoMemory) => Err(Refusal::NoMemory),
    }
}

/// The same for accepted words.
fn output_for<S: Source, K: Sink>(
    rt: &(impl Threads + Wait + Sync),
    alloc: Global,
    setup: &Setup,
    src: &mut S,
    out: &mut K,
) -> Result<(), Refusal>
    requires setup { IsInRange setup.now }
    requires spread { setup.now.spread ≡ 0 }
    requires trace { setup.now.trace ≡ false }
    ensures { MatchResult result
        (λ _. ReadGives (end_of S.rest S.read_faults src.old src.new) (end_of K.contents K.write_faults out.old out.new))
        (ReadFails (end_of S.rest S.read_faults src.old src.new) (end_of K.contents K.write_faults out.old out.new)) }
{
    let bytes = match read_bytes(alloc, src) {
        Ok(bytes) => bytes,
        Err(fault) => return Err(Refusal::Input(InputFault::Capture(fault))),
    };
    match parse_input(alloc, bytes) {
        Ok(capture) => report(rt, alloc, setup, &capture, out),
        Err(fault) => Err(Refusal::Input(fault)),
    }
}

/// Writes the report of a capture. Where memory is missing nothing is written.
fn report<K: Sink>(
    rt: &(impl Threads + Wait + Sync),
    alloc: Global,
    setup: &Setup,
    capture: &Capture,
    out: &mut K,
) -> Result<(), Refusal>
    requires setup { IsInRange setup.now }
    requires spread { setup.now.spread ≡ 0 }
    requires trace { setup.now.trace ≡ false }
    ensures { MatchResult result
        (λ _. GetsReport capture.now (end_of K.contents K.write_faults out.old out.new))
        (ReportFails capture.now (end_of K.contents K.write_faults out.old out.new)) }
{
    let plan = more_plan(alloc, capture)?;
    let served = serve_more(rt, alloc, &plan, setup, &NoHook)?;
    let room = DatagramRoom::make(alloc)?;
    match write_more(out, room, &plan, &served) {
        Ok(()) => Ok(()),
        Err(_) => Err(Refusal::Write),
    }
}
