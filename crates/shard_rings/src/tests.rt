//! Rings write bytes to several squeues.
ghost use Rattle.std.specs.Prelude.{◌≡◌, ◌<◌, [], All, IfOk, length};
ghost use Rattle.shards.specs.Writing.{IsWritten};

use crate::bringing::Brings;
use crate::lanes::Lanes;
use crate::pool::{SPAN, ShardPool};
use crate::run::run_shards;
use shards::Written;
use squeue_enter::Mode;
use std::alloc::{AllocError, Global};
use std::process::Abort;
use std::sync::Wait;
use std::test::*;
use std::thread::Threads;

// A ring that writes its number and that of the round, to one squeue after another; and whether a parcel came back unwritten.
#[derive(Drop)]
struct Writer {
    number: u8,
    rounds: u32,
    unwritten: bool,
}

impl Brings for Writer {
    type Parcel = Vec<u8>;

    ghost did = { λ before sent back after. after.number ≡ before.number };

    fn bring<L: Lanes<Parcel = Vec<u8>>>(&mut self, alloc: Global, lanes: &mut L) {
        'rounds: for k in 0..self.rounds {
            write_all(self, alloc, lanes, (k % 256) as u8);
        }
        'lanes: for q in 0..lanes.squeues() {
            take_all(self, alloc, lanes, q);
        }
    }
}

// Writes a byte to each squeue.
fn write_all<L: Lanes<Parcel = Vec<u8>>>(
    writer: &mut Writer,
    alloc: Global,
    lanes: &mut L,
    byte: u8,
)
    requires ready { L.ready lanes.old }
    ensures ready { L.ready lanes.new }
    ensures origin { L.origin lanes.new ≡ L.origin lanes.old }
    ensures number { writer.new.number ≡ writer.old.number }
{
    'lanes: for q in 0..lanes.squeues() {
        make_room(writer, alloc, lanes, q);
        write(writer.number, alloc, lanes, q, byte);
    }
}

// Writes a byte to one squeue, where there is room for it.
fn write<L: Lanes<Parcel = Vec<u8>>>(number: u8, alloc: Global, lanes: &mut L, q: usize, byte: u8)
    requires ready { L.ready lanes.old }
    requires range { q < length (L.sent lanes.old) }
    ensures ready { L.ready lanes.new }
    ensures origin { L.origin lanes.new ≡ L.origin lanes.old }
    ensures lanes { length (L.sent lanes.new) ≡ length (L.sent lanes.old) }
{
    let Ok(parcel) = Vec::from_array(alloc, [number, byte]) else {
        return;
    };
    if lanes.out(q) < lanes.most_out() && lanes.left(q) > 0 {
        lanes.send(alloc, q, parcel);
    }
}

// Takes a parcel that is back; it waits for one where all are out.
fn make_room<L: Lanes<Parcel = Vec<u8>>>(
    writer: &mut Writer,
    alloc: Global,
    lanes: &mut L,
    q: usize,
)
    requires ready { L.ready lanes.old }
    requires range { q < length (L.sent lanes.old) }
    ensures ready { L.ready lanes.new }
    ensures origin { L.origin lanes.new ≡ L.origin lanes.old }
    ensures lanes { length (L.sent lanes.new) ≡ length (L.sent lanes.old) }
    ensures number { writer.new.number ≡ writer.old.number }
{
    if let Some(parcel) = lanes.try_back(q) {
        writer.unwritten = writer.unwritten || !parcel.is_empty();
    } else if lanes.out(q) >= lanes.most_out() {
        take(writer, alloc, lanes, q);
    }
}

// Takes a parcel that is out, where there is one.
fn take<L: Lanes<Parcel = Vec<u8>>>(writer: &mut Writer, alloc: Global, lanes: &mut L, q: usize)
    requires ready { L.ready lanes.old }
    requires range { q < length (L.sent lanes.old) }
    ensures ready { L.ready lanes.new }
    ensures origin { L.origin lanes.new ≡ L.origin lanes.old }
    ensures lanes { length (L.sent lanes.new) ≡ length (L.sent lanes.old) }
    ensures number { writer.new.number ≡ writer.old.number }
{
    if lanes.out(q) > 0 {
        let parcel = lanes.back(alloc, q);
        writer.unwritten = writer.unwritten || !parcel.is_empty();
    }
}

// Takes all parcels that are out.
fn take_all<L: Lanes<Parcel = Vec<u8>>>(writer: &mut Writer, alloc: Global, lanes: &mut L, q: usize)
    requires ready { L.ready lanes.old }
    requires range { q < length (L.sent lanes.old) }
    ensures ready { L.ready lanes.new }
    ensures origin { L.origin lanes.new ≡ L.origin lanes.old }
    ensures lanes { length (L.sent lanes.new) ≡ length (L.sent lanes.old) }
    ensures number { writer.new.number ≡ writer.old.number }
{
    'parcels: for _k in 0..lanes.out(q) {
        take(writer, alloc, lanes, q);
    }
}

fn writers(alloc: Global, rings: u8, rounds: u32) -> Result<Vec<Writer>, AllocError>
    ensures { IfOk result (λ w. length w.items ≡ rings) }
{
    let mut writers = Vec::with_capacity(alloc, usize::from(rings))?;
    'rings: for number in 0..rings {
        writers.push_reserved(Writer {
            number,
            rounds,
            unwritten: false,
        });
    }
    Ok(writers)
}

fn nothing(alloc: Global, squeues: u8) -> Result<Vec<Written>, AllocError>
    ensures made { IfOk result (λ w. All (IsWritten []) w.items) }
    ensures count { IfOk result (λ w. length w.items ≡ squeues) }
{
    let mut written = Vec::with_capacity(alloc, usize::from(squeues))?;
    'squeues: for _q in 0..squeues {
        written.push_reserved(Written::nothing(alloc));
    }
    Ok(written)
}

// The bytes of ring `p` stand there in its order, and each once.
fn is_in_order(bytes: &[u8], p: u8, rounds: u32) -> bool {
    let mut left = rounds;
    let mut next = 0u8;
    'pairs: for i in 0..bytes.len() / 2 {
        if bytes[2 * i] == p {
            if left == 0 || bytes[2 * i + 1] != next {
                return false;
            }
            left -= 1;
            next = next.wrapping_add(1);
        }
    }
    left == 0
}

fn runs<W: Threads + Wait + Sync + Abort>(
    rt: &W,
    alloc: Global,
    rings: u8,
    squeues: u8,
    pool: ShardPool,
    rounds: u32,
) {
    assert!(rt; pool.budget > 0 && pool.span > 0 && pool.span <= SPAN);
    assert!(rt; rings > 0 && rings < 64 && pool.parcels > 0 && pool.parcels < 1000);
    let shared = nothing(alloc, squeues).expect(rt, "what is shared");
    let writers = writers(alloc, rings, rounds).expect(rt, "writers");
    let (done, left) = run_shards(rt, alloc, &pool, shared, writers).expect(rt, "a run");
    assert_eq!(rt;
        (done.len(), left.len()),
        (usize::from(rings), usize::from(squeues))
    );
    for writer in &done {
        assert!(rt; !writer.unwritten);
    }
    for squeue in &left {
        let bytes = squeue.shared.bytes();
        assert_eq!(rt;
            bytes.len() as u64,
            u64::from(rings) * u64::from(rounds) * 2
        );
        for p in 0..rings {
            assert!(rt; is_in_order(bytes, p, rounds));
        }
    }
}

#[test]
fn all_that_rings_send_is_written(rt: HostRuntime) {
    let alloc = rt.alloc();
    for mode in [Mode::Process, Mode::NoDrain, Mode::Fill] {
        for (rings, squeues, parcels, budget, span) in [
            (1, 1, 1, 1, SPAN),
            (1, 4, 2, 64, 3),
            (4, 1, 2, 8, 7),
            (3, 2, 4, 1, 1),
            (4, 3, 3, 64, 100),
        ] {
            let pool = ShardPool {
                parcels,
                mode,
                budget,
                span,
            };
            runs(&rt, alloc, rings, squeues, pool, 300);
        }
    }
}
