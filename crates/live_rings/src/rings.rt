//! Streams by several squeues, which are served beside each other: each by a ring of its squeue.

ghost use Rattle.std.specs.Prelude.{◌≡◌, ◌≤◌, ◌<◌, ℕ, All, IfOk, length, min, slice_index_or};
ghost use Rattle.live_rings.specs.declared.ending.EndedRing.{EndedRing};
ghost use Rattle.ring_groups.specs.declared.groups.Group.{Group};
ghost use Rattle.live_rings.specs.declared.ending.Ends.{Ends};
ghost use Rattle.live_rings.specs.Making.{IsInRange};
ghost use Rattle.ring_groups.specs.Groups.{HasServed, IsServedOf, MayServe, before_in};
ghost use Rattle.live_rings.specs.Served.{AllEnded, AllLived, EndedIn};
ghost use Rattle.histories.specs.Endings.{Ending};

use crate::ending::{EndedRing, EndedRings, Ends};
use crate::ring_squeue::serve_squeue;
use crate::words::Layout;
use ring_groups::{Group, deal, gather_all};
use sq_base::{Sink, Source};
use squeue_serve::run_each;
use squeue_state::Ended;
use std::alloc::{AllocError, Global};
use std::mem::replace;
use std::sync::Wait;
use std::thread::Threads;

/// Serves streams by a ring for each and by as many squeues as are asked for, or as there are streams, until all have ended: what is left
/// of each stream, by number, and of each squeue. Each ring is a server of its stream, whose connections are parts at its squeue. It fails only for want of
/// memory before a squeue begins; what went wrong later stands with each stream.
pub fn serve_rings<S: Source + Drop + Send, K: Sink + Drop + Send, W: Threads + Wait + Sync>(
    rt: &W,
    alloc: Global,
    setup: &Layout,
    ends: Vec<Ends<S, K>>,
) -> Result<EndedRings<S, K>, AllocError>
    requires setup { IsInRange setup.now }
    requires ends { length ends.items ≤ 63 }
    ensures ended { IfOk result (λ r. AllEnded S.rest S.read_faults K.contents K.write_faults setup.now ends.items r.streams.items) }
    ensures lived { IfOk result (λ r. AllLived S.rest S.read_faults K.contents K.write_faults setup.now r.squeues.items ends.items r.streams.items) }
    ensures squeues { IfOk result (λ r. length r.squeues.items ≡ min setup.now.squeues (length ends.items)) }
{
    let room = Vec::with_capacity(alloc, ends.len())?;
    let mut groups = deal(alloc, ends, setup.squeues)?;
    let ended = Vec::with_capacity(alloc, groups.len())?;
    serve_groups(rt, alloc, setup, &mut groups);
    let (streams, squeues) = gather_all(groups, room, ended)?;
    Ok(EndedRings { streams, squeues })
}

// Serves the groups beside each other.
fn serve_groups<S: Source + Drop + Send, K: Sink + Drop + Send, W: Threads + Wait + Sync>(
    rt: &W,
    alloc: Global,
    setup: &Layout,
    groups: &mut [Group<Ends<S, K>, EndedRing<S, K>, Ended>],
)
    requires setup { IsInRange setup.now }
    requires groups { All MayServe groups.old }
    ensures { (k : ℕ) (d : Group (Ends S K) (EndedRing S K) Ending) → k < length groups.old
        → HasServed (EndedIn S.rest S.read_faults K.contents K.write_faults setup.now) (slice_index_or groups.old k d) (slice_index_or groups.new k d) }
{
    run_each(
        rt,
        groups,
        &|_, group: &mut Group<Ends<S, K>, EndedRing<S, K>, Ended>|
            requires setup { IsInRange setup.now }
            requires group { MayServe group.now }
            ensures { HasServed (EndedIn S.rest S.read_faults K.contents K.write_faults setup.entry.now) group.entry.now group.exit.now }
        { serve_group(rt, alloc, setup, group) },
    );
}

fn serve_group<S: Source + Drop + Send, K: Sink + Drop + Send, W: Threads + Wait + Sync>(
    rt: &W,
    alloc: Global,
    setup: &Layout,
    group: &mut Group<Ends<S, K>, EndedRing<S, K>, Ended>,
)
    requires setup { IsInRange setup.now }
    requires group { MayServe group.old }
    ensures { HasServed (EndedIn S.rest S.read_faults K.contents K.write_faults setup.now) group.old group.new }
{
    let before = replace(group, Group::Short);
    *group = served(rt, alloc, setup, before);
}

// The group when its streams have ended.
fn served<S: Source + Drop + Send, K: Sink + Drop + Send, W: Threads + Wait + Sync>(
    rt: &W,
    alloc: Global,
    setup: &Layout,
    group: Group<Ends<S, K>, EndedRing<S, K>, Ended>,
) -> Group<Ends<S, K>, EndedRing<S, K>, Ended>
    requires setup { IsInRange setup.now }
    requires group { MayServe group }
    ensures { IsServedOf (EndedIn S.rest S.read_faults K.contents K.write_faults setup.now) (before_in group) result }
{
    let Group::Before(ends) = group else {
        return Group::Short;
    };
    match serve_squeue(rt, alloc, setup, ends) {
        Ok((ended, end)) => Group::After(ended, end),
        Err(_) => Group::Short,
    }
}
