//! Standard input and output as a TUN device: each read is a datagram, and each write is one.

ghost use Rattle.std.specs.Prelude.{◌≡◌, ◌+◌, ◌-◌, ◌/◌, ◌<◌, ◌≤◌, ◌^◌, [], ◌∷◌, if◌then◌else◌, min, length, OnErr, OnOk};
ghost use Rattle.std.specs.Duration.{as_nanos};
ghost use Rattle.sq_base.specs.Ends.{end_of};
ghost use Rattle.tcb_machine.specs.Limits.{last_time};
ghost use Rattle.live_server.specs.Written.{HasSent};
ghost use Rattle.live_run.specs.Rounds.{round, ticked_by, told_after, LosesAtRound, WritesEach};

use crate::fault::Fault;
use live_server::{Datagram, Server};
use sq_base::{Sink, StdSink};
use std::alloc::{AllocError, Global};
use std::io;
use std::io::Read;
use std::time::{Duration, Instant, SystemTime};
use tcb_machine::LAST_TIME;

/// The most bytes of a datagram.
const MOST: usize = 65_536;

/// How often the time comes to every connection, in microseconds. Something has to be read for it: the launcher sends a datagram.
const TICK: u64 = 20_000;

/// The most that passes between two looks at the clock, in microseconds, of which all counts.
const MOST_STEP: u64 = 100_000;

/// Serves until nothing more can be read. Where memory is missing one connection is lost, and the others go on. The time is the
/// system's at the start, and goes on by a clock that nobody sets. After a pause of the machine it goes on twice as fast, until it has caught
/// up: so deadlines of the pause don't all fire at once. The answer is how many datagrams weren't written whole.
pub fn serve(rt: &HostRuntime, server: Server) -> Result<u64, Fault> {
    let mut server = server;
    let mut reader = rt.reader();
    let mut device = StdSink::over(io::writer(rt));
    let mut body = room(rt.alloc())?;
    let mut sent = Vec::new(rt.alloc());
    let begun = since_1970(rt)?;
    let start = moment(Instant::now(rt))?;
    let (mut now, mut looked) = (begun, begun);
    let (mut ticked, mut lost) = (0u64, 0u64);
    for _ in 0..u64::MAX {
        let Ok(read) = reader.read(&mut body[..]) else {
            return Err(Fault::Reading);
        };
        if read == 0 {
            break;
        }
        let time = later(begun, micros(moment(start.elapsed(rt))?));
        now = told_after(now, looked, time);
        looked = time;
        let (datagram, _) = body[..read].split_at(read.min(MOST));
        let _ = round(
            &mut server,
            rt.alloc(),
            now,
            &mut ticked,
            datagram,
            &mut sent,
        );
        lost = lost.saturating_add(write_each(&mut device, &sent) as u64);
    }
    Ok(lost)
}

/// Room for a datagram.
fn room(alloc: Global) -> Result<Vec<u8>, Fault> {
    match vec![in alloc; 0u8; MOST] {
        Ok(body) => Ok(body),
        Err(_) => Err(Fault::NoMemory),
    }
}

/// What the clock says.
fn moment<T: Drop>(said: io::Result<T>) -> Result<T, Fault> {
    said.map_err(|_| Fault::Reading)
}

/// The microseconds since 1970, by the system's clock.
fn since_1970(rt: &HostRuntime) -> Result<u64, Fault> {
    match moment(SystemTime::now(rt))?.duration_since(SystemTime::UNIX_EPOCH) {
        Ok(since) => Ok(micros(since)),
        Err(_) => Err(Fault::Reading),
    }
}

/// A time in whole microseconds, or the most that there are.
fn micros(since: Duration) -> u64
    ensures { result ≡ min (2 ^ 64 - 1) (as_nanos since / 1_000) }
{
    since.as_micros().min(u128::from(u64::MAX)) as u64
}

/// So many microseconds later, or the last time that there is.
fn later(begun: u64, passed: u64) -> u64
    ensures value { result ≡ min last_time (begun + passed) }
    ensures bound { result ≤ last_time }
{
    begun.saturating_add(passed).min(LAST_TIME)
}

/// The time that is told at a look at the clock, behind what was told at the last one: the clock's, but no more than twice what has passed.
fn told_after(told: u64, looked: u64, time: u64) -> u64
    ensures { result ≡ told_after told looked time }
{
    let passed = time.saturating_sub(looked).min(MOST_STEP);
    told.saturating_add(2 * passed).min(time)
}

/// A datagram that was read: the time comes to every connection first, where that is due. What is sent takes the place of what
/// was. An error says that memory was missing: then some of it is.
fn round(
    server: &mut Server,
    alloc: Global,
    now: u64,
    ticked: &mut u64,
    body: &[u8],
    sent: &mut Vec<Datagram>,
) -> Result<(), AllocError>
    requires time { now ≤ last_time }
    requires body { length body.now < 2 ^ 32 }
    ensures server { OnOk result (server.new ≡ (round now ticked.old body.now server.old).server) }
    ensures sent { OnOk result (sent.new.items ≡ (round now ticked.old body.now server.old).sent) }
    ensures wrote { OnErr result (HasSent [] sent.new.items (round now ticked.old body.now server.old).sent) }
    ensures ticked { ticked.new ≡ ticked_by now ticked.old }
    ensures lost { OnErr result (LosesAtRound now ticked.old body.now server.old server.new) }
{
    sent.clear();
    if now.saturating_sub(*ticked) >= TICK {
        *ticked = now;
        server.tick(alloc, now, sent)?;
    }
    server.datagram(alloc, now, body, sent)
}

/// Writes each datagram, by one write each, and answers how many weren't written whole. One that the device refuses or cuts short is lost,
/// as on any wire.
fn write_each<K: Sink>(device: &mut K, sent: &[Datagram]) -> usize
    ensures { WritesEach (end_of K.contents K.write_faults device.old device.new) sent.now result }
{
    let mut lost = 0;
    for datagram in sent {
        let whole = write_one(device, datagram);
        if !whole {
            lost += 1;
        }
    }
    lost
}

/// Writes a datagram by one write, and answers whether it was written whole.
fn write_one<K: Sink>(device: &mut K, datagram: &Datagram) -> bool
    ensures written { WritesEach (end_of K.contents K.write_faults device.old device.new) (datagram.now ∷ []) (if result then 0 else 1) }
    ensures never_falls { K.write_faults device.old ≤ K.write_faults device.new }
{
    let bytes = datagram.bytes.as_slice();
    match device.write(bytes) {
        Ok(written) => written == bytes.len(),
        Err(_) => false,
    }
}
