ghost use Rattle.squeue_arrivals.specs.Pooling.{IsInRange};

use arriving_counters::count;
use crossbeam_channel::{Sender, bounded};
use rtrb::{Producer, PushError, RingBuffer};
use squeue_arrivals::{ArrivalPool, Channelled, Iterated, KeyPart, Piped, SPAN, ServedSource};
use squeue_enter::Mode;
use std::sync::Wait;
use std::test::*;
use std::thread::{join, yield_now};

fn pool(places: u32) -> ArrivalPool
    ensures { IsInRange result }
{
    ArrivalPool {
        squeues: 1,
        places,
        room: 16,
        mode: Mode::Process,
        budget: 4,
        span: SPAN,
    }
}

// Whether the parts are the sums of the numbers below 300, by their remainders by three.
fn are_sums(parts: &[KeyPart<u64>]) -> bool {
    if parts.len() != 3 {
        return false;
    }
    parts[0].state == 14_850 && parts[1].state == 14_950 && parts[2].state == 15_050
}

// Whether the key 2 was refused behind an item of each key before it.
fn is_refused_at_two<A>(source: &ServedSource<A, u32, u64>) -> bool {
    let Some(refused) = &source.refused else {
        return false;
    };
    let parts = source.parts.as_slice();
    refused.key == 2 && parts.len() == 2 && parts[0].state == 0 && parts[1].state == 1
}

// Sends the amounts below 300, each to the key that is its remainder by three.
fn send<W: Wait>(rt: &W, output: Sender<(u64, u32)>) {
    for n in 0..300 {
        if output.send(rt, (u64::from(n % 3), n)).is_err() {
            return;
        }
    }
}

// Pushes them into a ring. It waits while that is full, unless nobody pops any more.
fn push<W: Wait>(rt: &W, output: Producer<(u64, u32)>) {
    let mut output = output;
    for n in 0..300 {
        push_one(rt, &mut output, n);
    }
}

fn push_one<W: Wait>(rt: &W, output: &mut Producer<(u64, u32)>, n: u32) {
    for _ in rt.forever() {
        match output.push((u64::from(n % 3), n)) {
            Ok(()) => return,
            Err(PushError::Full(_)) if output.is_abandoned() => return,
            Err(PushError::Full(_)) => yield_now(),
        }
    }
}

// Amounts of another thread come through a channel that has room for four.
#[test]
fn amounts_come_through_a_channel(rt: HostRuntime) -> Result<(), Fail> {
    let alloc = rt.alloc();
    let (output, input) = bounded(alloc, 4)?;
    let sources = vec![in alloc; Channelled::of(&rt, input)]?;
    let pool = pool(8);
    let (arrived, ()) = join(
        &rt,
        || count(&rt, alloc, &pool, sources),
        || send(&rt, output),
    );
    assert!(rt; are_sums(arrived?.sources[0].parts.as_slice()));
    Ok(())
}

// They come through a ring that has room for four.
#[test]
fn amounts_come_through_a_ring(rt: HostRuntime) -> Result<(), Fail> {
    let alloc = rt.alloc();
    let (output, input) = RingBuffer::new(alloc, 4)?;
    let sources = vec![in alloc; Piped::of(input)]?;
    let pool = pool(8);
    let (arrived, ()) = join(
        &rt,
        || count(&rt, alloc, &pool, sources),
        || push(&rt, output),
    );
    assert!(rt; are_sums(arrived?.sources[0].parts.as_slice()));
    Ok(())
}

// They come of an iterator.
#[test]
fn amounts_are_iterated(rt: HostRuntime) -> Result<(), Fail> {
    let alloc = rt.alloc();
    let mut items = Vec::new(alloc);
    for n in 0..300u32 {
        items.push((u64::from(n % 3), n))?;
    }
    let sources = vec![in alloc; Iterated::of(items.into_iter())]?;
    let arrived = count(&rt, alloc, &pool(8), sources)?;
    assert!(rt; are_sums(arrived.sources[0].parts.as_slice()));
    Ok(())
}

// Where a source has no place for a key, its end of a channel is dropped, so that a sender whose items don't fit isn't held up.
#[test]
fn refusal_ends_a_sender(rt: HostRuntime) -> Result<(), Fail> {
    let alloc = rt.alloc();
    let (output, input) = bounded(alloc, 4)?;
    let sources = vec![in alloc; Channelled::of(&rt, input)]?;
    let pool = pool(2);
    let (arrived, ()) = join(
        &rt,
        || count(&rt, alloc, &pool, sources),
        || send(&rt, output),
    );
    assert!(rt; is_refused_at_two(&arrived?.sources[0]));
    Ok(())
}

// So is its end of a ring, which the other end sees.
#[test]
fn refusal_ends_a_pusher(rt: HostRuntime) -> Result<(), Fail> {
    let alloc = rt.alloc();
    let (output, input) = RingBuffer::new(alloc, 4)?;
    let sources = vec![in alloc; Piped::of(input)]?;
    let pool = pool(2);
    let (arrived, ()) = join(
        &rt,
        || count(&rt, alloc, &pool, sources),
        || push(&rt, output),
    );
    assert!(rt; is_refused_at_two(&arrived?.sources[0]));
    Ok(())
}
