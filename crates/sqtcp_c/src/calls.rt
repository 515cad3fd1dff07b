//! The calls of C. Each takes any server: one that isn't open has an answer of its own.

ghost use Rattle.std.specs.Prelude.{◌≡◌, ◌<◌, ◌≤◌, ◌⊎◌, ◌++◌, MatchResult, length, drop};
ghost use Rattle.tcb_machine.specs.Limits.{last_time};
ghost use Rattle.sqtcp_engine.specs.Engines.{DatagramCosts, TickCosts, after_datagram, after_tick};
ghost use Rattle.sqtcp_c.specs.Answers.{IsClosed, Opens, Passes, Refuses, Stays, Takes};
ghost use Rattle.sqtcp_c.specs.Answers.{count_of, done, most_bytes, next_bytes, no_memory};
ghost use Rattle.sqtcp_c.specs.Settings.{setting_of};

use crate::handle::{Sqtcp, put, taken};
use crate::setting::SqtcpSetting;
use sqtcp_engine::Engine;
use std::alloc::{AllocError, Global};
use tcb_machine::LAST_TIME;

/// Done.
const DONE: u32 = 0;

/// Memory was missing.
const NO_MEMORY: u32 = 1;

/// The time is later than any, the datagram longer than any, or the server that is to be opened is open.
const REFUSED: u32 = 2;

/// The server isn't open.
const CLOSED: u32 = 3;

/// The most bytes of a datagram (RFC 791, 3.1).
const MOST_BYTES: usize = 65_535;

/// Opens a server, with no connection and nothing to send. One that is open stays as it is.
#[unsafe(no_mangle)]
pub extern "C" fn sqtcp_open(alloc: Global, server: &mut Sqtcp, setting: &SqtcpSetting) -> u32
    ensures { Opens (setting_of setting.now) setting.now.secret result server.old server.new }
{
    match taken(alloc, server) {
        Some(engine) => {
            put(server, engine);
            REFUSED
        }
        None => match Box::new(
            alloc,
            Engine::new(alloc, setting.setting(), setting.secret()),
        ) {
            Ok(engine) => {
                put(server, engine);
                DONE
            }
            Err(_) => NO_MEMORY,
        },
    }
}

/// Closes a server, and frees what it has. One that isn't open stays so.
#[unsafe(no_mangle)]
pub extern "C" fn sqtcp_close(alloc: Global, server: &mut Sqtcp)
    ensures { IsClosed server.new }
{
    drop(taken(alloc, server));
}

/// An IPv4 datagram comes at a time in microseconds. What is sent waits behind what is there. Want of memory costs one connection at most,
/// with half-open ones that gave way, and some of what is to be sent.
#[unsafe(no_mangle)]
pub extern "C" fn sqtcp_datagram(alloc: Global, server: &mut Sqtcp, now: u64, body: &[u8]) -> u32
    ensures late { last_time < now → Refuses result server.old server.new }
    ensures long { most_bytes < length body.now → Refuses result server.old server.new }
    ensures heard { now ≤ last_time → length body.now ≤ most_bytes
        → Takes (after_datagram now body.now) (DatagramCosts now body.now) result server.old server.new }
{
    if now > LAST_TIME || body.len() > MOST_BYTES {
        return REFUSED;
    }
    match taken(alloc, server) {
        Some(mut engine) => {
            let done = engine.datagram(alloc, now, body);
            put(server, engine);
            status(done)
        }
        None => CLOSED,
    }
}

/// The time, in microseconds, comes to every connection. What is sent waits behind what is there. Want of memory costs one connection, and
/// to those behind it the time doesn't come.
#[unsafe(no_mangle)]
pub extern "C" fn sqtcp_tick(alloc: Global, server: &mut Sqtcp, now: u64) -> u32
    ensures late { last_time < now → Refuses result server.old server.new }
    ensures timed { now ≤ last_time → Takes (after_tick now) (TickCosts now) result server.old server.new }
{
    if now > LAST_TIME {
        return REFUSED;
    }
    match taken(alloc, server) {
        Some(mut engine) => {
            let done = engine.tick(alloc, now);
            put(server, engine);
            status(done)
        }
        None => CLOSED,
    }
}

/// How many bytes the next datagram has that is to be sent, or 0 where there is none.
#[unsafe(no_mangle)]
pub extern "C" fn sqtcp_next_size(alloc: Global, server: &mut Sqtcp) -> usize
    ensures size { result ≡ length (next_bytes server.old) }
    ensures stays { Stays server.old server.new }
{
    match taken(alloc, server) {
        Some(engine) => {
            let length = engine.first().len();
            put(server, engine);
            length
        }
        None => 0,
    }
}

/// The next datagram that is to be sent goes to the front of a buffer and leaves the server, and its length comes back; 0 where there is
/// none. One that is longer than the buffer stays, and nothing is written.
#[unsafe(no_mangle)]
pub extern "C" fn sqtcp_next(alloc: Global, server: &mut Sqtcp, buffer: &mut [u8]) -> usize
    ensures size { result ≡ length (next_bytes server.old) }
    ensures bytes { result ≤ length buffer.old → buffer.new ≡ next_bytes server.old ++ drop result buffer.old }
    ensures passes { 0 < result → result ≤ length buffer.old → Passes server.old server.new }
    ensures unwritten { length buffer.old < result → buffer.new ≡ buffer.old }
    ensures stays { (result ≡ 0) ⊎ (length buffer.old < result) → Stays server.old server.new }
{
    match taken(alloc, server) {
        Some(mut engine) => {
            let size = engine.first().len();
            if 0 < size && size <= buffer.len() {
                let (front, _) = buffer.split_at_mut(size);
                front.copy_from_slice(engine.first());
                engine.pass_first();
            }
            put(server, engine);
            size
        }
        None => 0,
    }
}

/// How many connections there are.
#[unsafe(no_mangle)]
pub extern "C" fn sqtcp_connections(alloc: Global, server: &mut Sqtcp) -> usize
    ensures count { result ≡ count_of server.old }
    ensures stays { Stays server.old server.new }
{
    match taken(alloc, server) {
        Some(engine) => {
            let count = engine.connections();
            put(server, engine);
            count
        }
        None => 0,
    }
}

/// What is answered for what a call said.
fn status(said: Result<(), AllocError>) -> u32
    ensures { MatchResult said (λ _. result ≡ done) (λ _. result ≡ no_memory) }
{
    match said {
        Ok(()) => DONE,
        Err(_) => NO_MEMORY,
    }
}
