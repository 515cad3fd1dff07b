//! Sources and sinks, served: each sink gets what its source's items are answered.
ghost use Rattle.std.specs.Prelude.{◌≡◌, ◌≤◌, [], All, IfOk, length, map, min, vec_capacity};
ghost use Rattle.ring_groups.specs.Groups.{AllBecame, AllOfGroups};
ghost use Rattle.squeue_arrivals.specs.Pooling.{IsInRange};
ghost use Rattle.squeue_answers.specs.Answering.{IsAnswered, IsAnsweredIn};
ghost use Rattle.squeue_answers.specs.Asking.{new_asking};
ghost use Rattle.squeue_answers.specs.Serving.{IsFinished, IsLeft};

use crate::answering::{KeyAnswers, Sink};
use crate::asking::Asking;
use crate::parts::{plain_parts_of, plain_refused_of};
use crate::steps::{Answerer, Answering, Asked};
use perimeter_core::Known;
use squeue_arrivals::{
    ArrivalPool, Arrivals, Arrived, KeyPart, Refused, ServedSource, serve_arriving,
};
use squeue_state::{Ended, Pass};
use std::alloc::{AllocError, Global};
use std::sync::Wait;
use std::thread::Threads;

/// What is left of a source that is served, and of its sink: `parts` has what was made of each key that came, in the order in which the keys
/// came first; `refused` is the item at which the ring stopped, where it didn't stop at the source's end. It has no answer.
#[derive(Drop)]
pub struct AnsweredSource<A, K, T, S> {
    pub source: A,
    pub sink: K,
    pub parts: Vec<KeyPart<S>>,
    pub refused: Option<Refused<T>>,
    /// The pass of its ring when that was done, for contracts alone.
    pub pass: Known<Pass>,
}

/// What is left of all sources and their sinks, by number, and of the squeues, as `Arrived` has them.
#[derive(Drop)]
pub struct Answered<A, K, T, S> {
    pub sources: Vec<AnsweredSource<A, K, T, S>>,
    pub squeues: Vec<Ended>,
}

/// Serves these sources as `serve_arriving` does, and gives each sink what the items of its source are answered, in their order.
/// Of each source `ahead` items may wait for their answers, and for each of its keys there is room for as many. While so many wait, the next
/// item waits; where `ahead` is 0 none is ever served. It fails only for want of memory before a squeue begins, and where the rings of a squeue
/// have 2^32 places or more.
///
/// # Example
///
/// ```
/// let items = [(5, 1), (6, 2), (5, 3), (7, 4), (8, 9), (5, 5)].to_vec(alloc)?;
/// let sources = vec![in alloc; (Listed::of(items), Kept::none(alloc))]?;
/// let pool = pool_of(1, Mode::Process);
/// let served = serve_answering(&rt, alloc, &pool, 1, Running, sources)?.sources;
/// assert_eq!(rt;
///     served[0].sink.answers(),
///     [(1, 1), (2, 2), (3, 4), (4, 4)].as_slice()
/// );
/// assert!(rt; served[0].refused.is_some());
/// ```
pub fn serve_answering<
    X: KeyAnswers + Copy + Send + Sync,
    A: Arrivals<Item = X::Item> + Drop + Send,
    K: Sink<Answer = X::Answer> + Drop + Send,
    W: Threads + Wait + Sync,
>(
    rt: &W,
    alloc: Global,
    pool: &ArrivalPool,
    ahead: u32,
    steps: X,
    sources: Vec<(A, K)>,
) -> Result<Answered<A, K, X::Item, X::State>, AllocError>
where
    X::Item: Send,
    X::State: Send,
    X::Answer: Send,
    requires pool { IsInRange pool.now }
    requires sources { length sources.items ≤ 63 }
    ensures served { IfOk result (λ r. AllBecame (IsAnswered X.begins X.step A.origin A.given A.is_over K.got steps pool.now.places) sources.items r.sources.items) }
    ensures histories { IfOk result (λ r. AllOfGroups (IsAnsweredIn X.begins X.step A.origin A.given A.is_over K.got steps pool.now.places) r.squeues.items sources.items r.sources.items) }
    ensures squeues { IfOk result (λ r. length r.squeues.items ≡ min pool.now.squeues (length sources.items)) }
{
    let rooms = rooms_of(alloc, sources.len(), pool.places as usize)?;
    let room = Vec::with_capacity(alloc, sources.len())?;
    let asking = asking_of(alloc, pool, ahead, sources)?;
    let arrived = serve_arriving(rt, alloc, pool, Answering { rt, steps }, asking)?;
    let Arrived {
        sources: served,
        squeues,
    } = arrived;
    let answering = Answering { rt, steps };
    let sources = finish_all(pool, &answering, served, rooms, room);
    Ok(Answered { sources, squeues })
}

// A room for so many parts, for each of so many sources.
fn rooms_of<S: Drop>(
    alloc: Global,
    sources: usize,
    places: usize,
) -> Result<Vec<Vec<KeyPart<S>>>, AllocError>
    ensures { IfOk result (λ v. (length v.items ≡ sources) × All (λ r. (r.items ≡ []) × (places ≤ vec_capacity r)) v.items) }
{
    let mut rooms = Vec::with_capacity(alloc, sources)?;
    for _k in 0..sources {
        rooms.push_reserved(Vec::with_capacity(alloc, places)?);
    }
    Ok(rooms)
}

// The sources that ask for answers.
fn asking_of<A: Arrivals + Drop, K: Sink + Drop>(
    alloc: Global,
    pool: &ArrivalPool,
    ahead: u32,
    sources: Vec<(A, K)>,
) -> Result<Vec<Asking<A, K>>, AllocError>
    ensures { IfOk result (λ v. v.items ≡ map (λ s. new_asking s.0 s.1) sources.items) }
{
    let mut sources = sources;
    let mut asking = Vec::with_capacity(alloc, sources.len())?;
    sources.reverse();
    'sources: while let Some((source, sink)) = sources.pop() {
        let next = Asking::of(alloc, source, sink, pool.places as usize, ahead as usize)?;
        asking.push_reserved(next);
    }
    Ok(asking)
}

// Finishes all sources, for each of which there is a room.
fn finish_all<
    X: KeyAnswers,
    A: Arrivals<Item = X::Item> + Drop,
    K: Sink<Answer = X::Answer> + Drop,
    W: Wait,
>(
    pool: &ArrivalPool,
    answering: &Answering<'_, X, W>,
    served: Vec<
        ServedSource<Asking<A, K>, Asked<X::Item, X::Answer>, Answerer<X::State, X::Answer>>,
    >,
    rooms: Vec<Vec<KeyPart<X::State>>>,
    room: Vec<AnsweredSource<A, K, X::Item, X::State>>,
) -> Vec<AnsweredSource<A, K, X::Item, X::State>>
    requires served { All (IsLeft (λ w. w.steps) X.begins X.step A.origin A.given A.is_over K.got answering.now pool.now.places) served.items }
    requires rooms { (length rooms.items ≡ length served.items) × All (λ r. (r.items ≡ []) × (pool.now.places ≤ vec_capacity r)) rooms.items }
    requires room { (room.items ≡ []) × (length served.items ≤ vec_capacity room) }
    ensures { AllBecame (IsFinished (λ w. w.steps) X.begins X.step A.origin A.given A.is_over K.got answering.now pool.now.places) served.items result.items }
{
    let mut served = served;
    let mut rooms = rooms;
    let mut answered = room;
    served.reverse();
    'served: while let Some(left) = served.pop() {
        let Some(room) = rooms.pop() else {
            unreachable!()
        };
        answered.push_reserved(finish(pool, answering, left, room));
    }
    answered
}

// Hands on what answers are left of a source.
fn finish<
    X: KeyAnswers,
    A: Arrivals<Item = X::Item> + Drop,
    K: Sink<Answer = X::Answer> + Drop,
    W: Wait,
>(
    pool: &ArrivalPool,
    answering: &Answering<'_, X, W>,
    left: ServedSource<Asking<A, K>, Asked<X::Item, X::Answer>, Answerer<X::State, X::Answer>>,
    room: Vec<KeyPart<X::State>>,
) -> AnsweredSource<A, K, X::Item, X::State>
    requires left { IsLeft (λ w. w.steps) X.begins X.step A.origin A.given A.is_over K.got answering.now pool.now.places left }
    requires room { (room.items ≡ []) × (pool.now.places ≤ vec_capacity room) }
    ensures { IsFinished (λ w. w.steps) X.begins X.step A.origin A.given A.is_over K.got answering.now pool.now.places left result }
{
    let ServedSource {
        source: asking,
        parts,
        refused,
        pass,
    } = left;
    let (source, sink, mut rings) = asking.finish(answering.rt, refused.is_some());
    AnsweredSource {
        source,
        sink,
        parts: plain_parts_of(&mut rings, parts, room),
        refused: plain_refused_of(refused),
        pass,
    }
}
