//! How a stay at a squeue begins.
ghost use Rattle.std.specs.Prelude.{◌≡◌, ◌+◌, ◌≤◌, [], true};
ghost use Rattle.turn_gate.specs.Passes.{number, seen};
ghost use Rattle.perimeter_core.specs.declared.marks.SynchAct.TheVariants as Done;
ghost use Rattle.perimeter_core.specs.Deeds.{due};
ghost use Rattle.placed_parts.specs.Placing.{limits_of, origin_of};
ghost use Rattle.conn_migrate.specs.Moving.{MayCome, Moved, RingLearns};
ghost use Rattle.squeue_streams.specs.Taking.{IsStreamOf};
ghost use Rattle.stream_stays.specs.Staying.{HasLife, IsAway, IsBegun, LeavesOthers, StaysAt};

use crate::stay::{Stay, Vacant};
use perimeter_core::{Hook, Known, NoHook, Resident};
use placed_parts::Places;
use squeue_state::{Life, Pass, Squeue};
use squeue_streams::{Steps, Streams};
use std::alloc::Global;
use std::marker::Brand;
use std::sync::Wait;
use synch_enter::{put_block, synch_enter, synch_exit};

// Begins a stay: the part of the stream is put in, as one that has had no feeds. It takes one ask of the pass's life.
pub(crate) fn open<X: Steps + Drop, H: Wait + Drop, W: Wait>(
    sq: &Squeue<Places<Streams<X, H>>>,
    rt: &W,
    alloc: Global,
    pass: Pass,
    life: &mut Life,
    vacant: Vacant<X::Item, X::State>,
) -> (Pass, Stay<X::Item>)
    requires life { HasLife limits_of sq.now life.old pass }
    requires asks { 1 ≤ life.old.asks }
    requires away { IsAway limits_of sq.now pass vacant.stream vacant.leaves }
    requires part { IsStreamOf X.begins X.step (origin_of sq.now.given.first) vacant.stream vacant.part }
    ensures put { Moved limits_of sq.now (Done.In vacant.stream) [] pass result.0 }
    ensures life { HasLife limits_of sq.now life.new result.0 }
    ensures spent { (life.new.feeds ≡ life.old.feeds) × (life.old.asks ≡ life.new.asks + 1) }
    ensures stays { StaysAt limits_of sq.now result.0 result.1 }
    ensures others { LeavesOthers limits_of sq.now vacant.stream pass result.0 }
    ensures number { number result.0 ≡ number pass }
    ensures begun { IsBegun vacant result.1 }
{
    let Vacant {
        producer,
        part,
        stream,
        leaves,
    } = vacant;
    let pass = put_into(sq, rt, alloc, &NoHook, pass, stream, part.renewed());
    life.asks -= 1;
    let first = Known::of(&producer);
    let stay = Stay {
        producer,
        first,
        stream,
        leaves,
        pushed: 0,
        entered: 0,
    };
    (pass, stay)
}

// Puts a part of connection `c` in to which nothing was done, and leaves: its feeds are numbered from 0 on. It takes one ask of the
// pass's life.
fn put_into<R: Resident, H: Hook, W: Wait>(
    sq: &Squeue<R>,
    rt: &W,
    alloc: Global,
    hook: &H,
    pass: Pass,
    c: u32,
    part: R::Part,
) -> Pass
    requires may { MayCome R.limits sq.now c pass }
    requires new { R.part_stands part [] }
    requires part { R.is_part_of (R.origin sq.now.given.first) c part }
    ensures moved { Moved R.limits sq.now (Done.In c) [] pass result }
    ensures learns { RingLearns R.limits sq.now c true 0 pass result }
    ensures next { due (seen result) c ≡ 0 }
{
    let mut owner = synch_enter(sq, rt, alloc, hook, pass);
    put_block(&mut owner, c, part);
    synch_exit::<R, Brand, W>(sq, rt, owner)
}
