//! Sources by several squeues, which are served beside each other: each by a ring of its squeue.

ghost use Rattle.std.specs.Prelude.{◌≡◌, ◌≤◌, ◌<◌, ◌+◌, ℕ, [], All, IfOk, length, map, min, slice_index_or, vec_capacity};
ghost use Rattle.ring_groups.specs.declared.groups.Group.{Group};
ghost use Rattle.ring_groups.specs.Groups.{AllBecame, AllOfGroups, HasServed, IsServedOf, MayServe, before_in};
ghost use Rattle.squeue_arrivals.specs.declared.served.ServedSource.{ServedSource};
ghost use Rattle.squeue_arrivals.specs.Arriving.{IsServed, IsServedIn};
ghost use Rattle.squeue_arrivals.specs.Pooling.{IsInRange};
ghost use Rattle.squeue_arrivals.specs.Seating.{lookers_of};
ghost use Rattle.squeue_arrivals.specs.Watching.{SawLast, ServedWith};
ghost use Rattle.squeue_arrivals.specs.declared.watching.WatchedEnd.{WatchedEnd};

use crate::pool::ArrivalPool;
use crate::ring_squeue::serve_squeue;
use crate::served::{Arrived, ServedSource, WatchedArrived};
use crate::source::Arrivals;
use crate::steps::KeySteps;
use crate::watching::{Nobody, WatchedEnd, Watches};
use ring_groups::{Group, deal, gather_all};
use squeue_serve::run_each;
use squeue_state::Ended;
use std::alloc::{AllocError, Global};
use std::mem::replace;
use std::sync::Wait;
use std::thread::Threads;

/// Serves what these sources give, until each is over or an item of it is refused: what was made of the items of each key, source by source,
/// and what is left of each squeue.
/// A ring brings the items of each source to a squeue, which has a worker. The steps are copied for each squeue. It fails only for want of
/// memory before a squeue begins, and where the rings of a squeue have 2^32 places or more.
///
/// A key belongs to its source: where two sources give items of one key, there are two parts. Nothing is dropped: an item that finds its
/// squeue full waits there. A source that answers `NoneYet` is asked again.
pub fn serve_arriving<
    X: KeySteps + Copy + Send + Sync,
    A: Arrivals<Item = X::Item> + Drop + Send,
    W: Threads + Wait + Sync,
>(
    rt: &W,
    alloc: Global,
    pool: &ArrivalPool,
    steps: X,
    sources: Vec<A>,
) -> Result<Arrived<A, X::Item, X::State>, AllocError>
where
    X::Item: Send,
    X::State: Send,
    requires pool { IsInRange pool.now }
    requires sources { length sources.items ≤ 63 }
    ensures served { IfOk result (λ r. AllBecame (IsServed X.begins X.step A.origin A.given A.is_over steps pool.now.places) sources.items r.sources.items) }
    ensures histories { IfOk result (λ r. AllOfGroups (IsServedIn X.begins X.step A.origin A.given A.is_over steps pool.now.places) r.squeues.items sources.items r.sources.items) }
    ensures squeues { IfOk result (λ r. length r.squeues.items ≡ min pool.now.squeues (length sources.items)) }
{
    let room = Vec::with_capacity(alloc, sources.len())?;
    let (sources, ends) = serve_with(rt, alloc, pool, steps, &Nobody, false, sources)?;
    let squeues = ends_of(room, ends);
    Ok(Arrived { sources, squeues })
}

/// Serves what these sources give, as `serve_arriving` does, while the watcher looks at each squeue as often as it says. It is
/// asked by a thread of its own for each squeue, and after its last look there the squeue may end.
pub fn serve_watched<
    X: KeySteps + Copy + Send + Sync,
    A: Arrivals<Item = X::Item> + Drop + Send,
    V: Watches<X::Item, X::State> + Sync,
    W: Threads + Wait + Sync,
>(
    rt: &W,
    alloc: Global,
    pool: &ArrivalPool,
    steps: X,
    watcher: &V,
    sources: Vec<A>,
) -> Result<WatchedArrived<A, X::Item, X::State, V::Seen>, AllocError>
where
    X::Item: Send,
    X::State: Send,
    V::Seen: Send,
    requires pool { IsInRange pool.now }
    requires sources { length sources.items ≤ 62 }
    ensures served { IfOk result (λ r. AllBecame (IsServed X.begins X.step A.origin A.given A.is_over steps pool.now.places) sources.items r.sources.items) }
    ensures histories { IfOk result (λ r. AllOfGroups (λ e. IsServedIn X.begins X.step A.origin A.given A.is_over steps pool.now.places e.end) r.squeues.items sources.items r.sources.items) }
    ensures squeues { IfOk result (λ r. length r.squeues.items ≡ min pool.now.squeues (length sources.items)) }
    ensures seen { IfOk result (λ r. All (λ e. SawLast X.begins X.step steps (V.says watcher.now) e.end.setting e.end.setting.rings (V.many watcher.now) e.end.history e.last) r.squeues.items) }
{
    let (sources, squeues) = serve_with(rt, alloc, pool, steps, watcher, true, sources)?;
    Ok(WatchedArrived { sources, squeues })
}

// Serves these sources; where they are watched, the watcher looks.
fn serve_with<
    X: KeySteps + Copy + Send + Sync,
    A: Arrivals<Item = X::Item> + Drop + Send,
    V: Watches<X::Item, X::State> + Sync,
    W: Threads + Wait + Sync,
>(
    rt: &W,
    alloc: Global,
    pool: &ArrivalPool,
    steps: X,
    watcher: &V,
    watched: bool,
    sources: Vec<A>,
) -> Result<
    (
        Vec<ServedSource<A, X::Item, X::State>>,
        Vec<WatchedEnd<V::Seen>>,
    ),
    AllocError,
>
where
    X::Item: Send,
    X::State: Send,
    V::Seen: Send,
    requires pool { IsInRange pool.now }
    requires sources { length sources.items + lookers_of watched ≤ 63 }
    ensures groups { IfOk result (λ r. AllOfGroups (ServedWith X.begins X.step A.origin A.given A.is_over steps pool.now.places (V.says watcher.now) (V.many watcher.now) watched) r.1.items sources.items r.0.items) }
    ensures many { IfOk result (λ r. length r.1.items ≡ min pool.now.squeues (length sources.items)) }
{
    let room = Vec::with_capacity(alloc, sources.len())?;
    let mut groups = deal(alloc, sources, pool.squeues)?;
    let ends = Vec::with_capacity(alloc, groups.len())?;
    serve_groups(rt, alloc, pool, steps, watcher, watched, &mut groups);
    gather_all(groups, room, ends)
}

// The ends of these squeues, in order.
fn ends_of<Z: Drop>(room: Vec<Ended>, watched: Vec<WatchedEnd<Z>>) -> Vec<Ended>
    requires { (room.items ≡ []) × (length watched.items ≤ vec_capacity room) }
    ensures { result.items ≡ map (λ e. e.end) watched.items }
{
    let mut watched = watched;
    let mut ends = room;
    'ends: while let Some(last) = watched.pop() {
        let WatchedEnd { end, .. } = last;
        ends.push_reserved(end);
    }
    ends.reverse();
    ends
}

// Serves the groups beside each other.
fn serve_groups<
    X: KeySteps + Copy + Send + Sync,
    A: Arrivals<Item = X::Item> + Drop + Send,
    V: Watches<X::Item, X::State> + Sync,
    W: Threads + Wait + Sync,
>(
    rt: &W,
    alloc: Global,
    pool: &ArrivalPool,
    steps: X,
    watcher: &V,
    watched: bool,
    groups: &mut [Group<A, ServedSource<A, X::Item, X::State>, WatchedEnd<V::Seen>>],
)
where
    X::Item: Send,
    X::State: Send,
    V::Seen: Send,
    requires pool { IsInRange pool.now }
    requires groups { All (λ g. MayServe g × (length (before_in g) + lookers_of watched ≤ 63)) groups.old }
    ensures { (k : ℕ) (d : Group A (ServedSource A X.Item X.State) (WatchedEnd V.Seen)) → k < length groups.old
        → HasServed (ServedWith X.begins X.step A.origin A.given A.is_over steps pool.now.places (V.says watcher.now) (V.many watcher.now) watched) (slice_index_or groups.old k d) (slice_index_or groups.new k d) }
{
    run_each(
        rt,
        groups,
        &|number, group: &mut Group<A, ServedSource<A, X::Item, X::State>, WatchedEnd<V::Seen>>|
            requires pool { IsInRange pool.now }
            requires group { MayServe group.now × (length (before_in group.now) + lookers_of watched ≤ 63) }
            ensures { HasServed (ServedWith X.begins X.step A.origin A.given A.is_over steps pool.entry.now.places (V.says watcher.entry.now) (V.many watcher.entry.now) watched) group.entry.now group.exit.now }
        {
            serve_group(
                rt,
                alloc,
                pool,
                number.min(u32::MAX as usize) as u32,
                steps,
                watcher,
                watched,
                group,
            )
        },
    );
}

fn serve_group<
    X: KeySteps + Copy + Send + Sync,
    A: Arrivals<Item = X::Item> + Drop + Send,
    V: Watches<X::Item, X::State> + Sync,
    W: Threads + Wait + Sync,
>(
    rt: &W,
    alloc: Global,
    pool: &ArrivalPool,
    number: u32,
    steps: X,
    watcher: &V,
    watched: bool,
    group: &mut Group<A, ServedSource<A, X::Item, X::State>, WatchedEnd<V::Seen>>,
)
where
    X::Item: Send,
    X::State: Send,
    V::Seen: Send,
    requires pool { IsInRange pool.now }
    requires group { MayServe group.old × (length (before_in group.old) + lookers_of watched ≤ 63) }
    ensures { HasServed (ServedWith X.begins X.step A.origin A.given A.is_over steps pool.now.places (V.says watcher.now) (V.many watcher.now) watched) group.old group.new }
{
    let before = replace(group, Group::Short);
    *group = served(rt, alloc, pool, number, steps, watcher, watched, before);
}

// The group when its sources are served.
fn served<
    X: KeySteps + Copy + Send + Sync,
    A: Arrivals<Item = X::Item> + Drop + Send,
    V: Watches<X::Item, X::State> + Sync,
    W: Threads + Wait + Sync,
>(
    rt: &W,
    alloc: Global,
    pool: &ArrivalPool,
    number: u32,
    steps: X,
    watcher: &V,
    watched: bool,
    group: Group<A, ServedSource<A, X::Item, X::State>, WatchedEnd<V::Seen>>,
) -> Group<A, ServedSource<A, X::Item, X::State>, WatchedEnd<V::Seen>>
where
    X::Item: Send,
    X::State: Send,
    V::Seen: Send,
    requires pool { IsInRange pool.now }
    requires group { MayServe group × (length (before_in group) + lookers_of watched ≤ 63) }
    ensures { IsServedOf (ServedWith X.begins X.step A.origin A.given A.is_over steps pool.now.places (V.says watcher.now) (V.many watcher.now) watched) (before_in group) result }
{
    let Group::Before(sources) = group else {
        return Group::Short;
    };
    match serve_squeue(rt, alloc, pool, number, steps, watcher, watched, sources) {
        Ok((ended, end)) => Group::After(ended, end),
        Err(_) => Group::Short,
    }
}
