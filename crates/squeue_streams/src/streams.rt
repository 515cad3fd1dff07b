//! The parts: what is made of the items of each stream.
ghost use Rattle.std.specs.Prelude.{◌≡◌, ◌+◌, ◌<◌, ℕ, [], ◌∷◌, ◌++◌, IfOk, length, slice_index};
ghost use Rattle.std.proofs.Common.{Global, List};
ghost use Rattle.rtrb.specs.declared.AnyItems.{AnyItems};
ghost use Rattle.rtrb.specs.declared.consumer.Consumer.{Consumer};
ghost use Rattle.rtrb.specs.Ring.{IsPair, ProducerLooked, SameConsumer, known_items, received, sent};
ghost use Rattle.squeue_streams.specs.Taking.{HasTaken, HasTakenMore, calls_of, count_of, input_of, items_of, state_of, steps_of, streams_of};

use placed_parts::Parts;
use rtrb::{Consumer, Producer, RingBuffer};
use std::alloc::{AllocError, Global};
use std::sync::Wait;
use std::thread;

/// What is made of the items of streams.
pub trait Steps {
    /// What a stream brings.
    type Item: Drop;
    /// What is made of the items of one stream.
    type State: Drop;
    /// What the streams of one run have in common, for contracts alone.
    type Origin;

    /// What these streams have in common.
    ghost origin: { Self → Self.Origin };

    /// With which end of a ring and in which state a stream, by its number, may begin.
    ghost begins: { Self.Origin → ℕ → Consumer Self.Item Global AnyItems → Self.State → Type 0 };

    /// Which states may follow a state by an item.
    ghost step: { Self.Origin → Self.State → Self.Item → Self.State → Type 0 };

    /// The state of stream `c` before its first item, whichever ring it has.
    fn begin(&self, alloc: Global, c: u32) -> Result<Self::State, AllocError>
        ensures { IfOk result (λ s. (input : Consumer Self.Item Global AnyItems) → begins (origin self.now) c input s) };

    /// Takes the next item. Want of memory is the state's to record.
    fn take(&self, alloc: Global, state: &mut Self::State, item: Self::Item)
        ensures { step (origin self.now) state.old item state.new };
}

/// A stream at its squeue: the end of its ring that pops, what was made of the items that were popped, how many feeds it has had
/// since it was put in, and how many items were popped in all, modulo 2^64.
#[derive(Drop)]
pub struct Stream<T: Drop, S: Drop> {
    input: Consumer<T>,
    pub state: S,
    had: u32,
    count: u64,
}

impl<T: Drop, S: Drop> Stream<T, S> {
    /// A stream from which nothing was popped, in this state.
    pub fn of(input: Consumer<T>, state: S) -> Stream<T, S>
        ensures input { input_of result ≡ input }
        ensures state { state_of result ≡ state }
        ensures count { count_of result ≡ 0 }
        ensures stands { HasTaken result [] }
    {
        Stream {
            input,
            state,
            had: 0,
            count: 0,
        }
    }

    /// The same stream, as one that is put in again: its feeds begin anew, and what was made of its items stays.
    pub fn renewed(self) -> Stream<T, S>
        ensures input { input_of result ≡ input_of self }
        ensures state { state_of result ≡ state_of self }
        ensures count { count_of result ≡ count_of self }
        ensures stands { HasTaken result [] }
    {
        Stream {
            input: self.input,
            state: self.state,
            had: 0,
            count: self.count,
        }
    }

    /// What was made of the items that were popped.
    pub fn state(&self) -> &S
        ensures { result.now ≡ state_of self.now }
    {
        &self.state
    }

    /// The same, where the stream is no more.
    pub fn into_state(self) -> S
        ensures { result ≡ state_of self }
    {
        self.state
    }

    /// How many items were popped, modulo 2^64.
    pub fn count(&self) -> u64
        ensures { result ≡ count_of self.now }
    {
        self.count
    }
}

/// What all streams share: what is made of their items, and how to wait for an item that was pushed and isn't seen yet.
/// There are `count` streams, and each may have 2^32 - 1 feeds after it was put in. A call changes nothing. The calls that there
/// may be are given: `(c, j, k)` where call `k` of thread `j` is on stream `c`.
#[derive(Drop)]
pub struct Streams<X: Steps + Drop, H: Wait + Drop> {
    pub(crate) steps: X,
    pub(crate) rt: H,
    pub(crate) count: u32,
    pub(crate) calls: Vec<(u32, u32, u32)>,
}

impl<X: Steps + Drop, H: Wait + Drop> Streams<X, H> {
    /// So many streams, with what is made of their items, how to wait, and the calls that there may be.
    pub fn of(steps: X, rt: H, count: u32, calls: Vec<(u32, u32, u32)>) -> Streams<X, H>
        ensures steps { steps_of result ≡ steps }
        ensures count { streams_of result ≡ count }
        ensures calls { calls_of result ≡ calls.items }
    {
        Streams {
            steps,
            rt,
            count,
            calls,
        }
    }

    /// Takes all items that are pushed and not popped yet, where the end of the ring that pushes is at hand. It isn't for a stream with
    /// feeds on their way, which would wait for items that are taken.
    pub fn take_rest(
        &self,
        alloc: Global,
        stream: &mut Stream<X::Item, X::State>,
        producer: &mut Producer<X::Item>,
    )
        requires { IsPair producer.old (input_of stream.old) }
        ensures items { items_of stream.new ≡ sent producer.old }
        ensures producer { ProducerLooked producer.old producer.new }
        ensures taken { HasTakenMore X.begins X.step (X.origin (steps_of self.now)) stream.old stream.new }
    {
        let left = stream.input.slots_beside(producer);
        for _k in 0..left {
            self.take_known(alloc, stream);
        }
    }

    // Takes an item that the consumer has seen.
    fn take_known(&self, alloc: Global, stream: &mut Stream<X::Item, X::State>)
        requires { 0 < length (known_items (input_of stream.old)) }
        ensures left { length (known_items (input_of stream.old)) ≡ length (known_items (input_of stream.new)) + 1 }
        ensures same { items_of stream.new ++ known_items (input_of stream.new) ≡ items_of stream.old ++ known_items (input_of stream.old) }
        ensures taken { HasTakenMore X.begins X.step (X.origin (steps_of self.now)) stream.old stream.new }
    {
        let item = stream.input.pop_known();
        self.steps.take(alloc, &mut stream.state, item);
        stream.count = stream.count.wrapping_add(1);
    }

    /// The next item of a ring. It waits for it.
    fn next(&self, input: &mut Consumer<X::Item>) -> X::Item
        ensures popped { received input.new ≡ received input.old ++ result ∷ [] }
        ensures ring { SameConsumer input.old input.new }
    {
        for _ in self.rt.forever() {
            if let Ok(item) = input.pop() {
                return item;
            }
            thread::yield_now();
        }
        unreachable!()
    }
}

impl<X: Steps + Drop, H: Wait + Drop> Parts for Streams<X, H> {
    ghost use Rattle.perimeter_core.specs.declared.entries.Act.{Act};
    ghost use Rattle.perimeter_core.specs.declared.entries.Act.TheVariants as Did;
    ghost use Rattle.placed_parts.specs.Standing.{HasFed};
    ghost use Rattle.squeue_streams.specs.Taking.{IsStreamOf, TakesOne, limits_of};
    ghost use Rattle.std.proofs.Common.{sym, ◌∙◌};

    type Part = Stream<X::Item, X::State>;

    type Origin = X::Origin;

    ghost part_stands = { HasTaken };

    ghost limits = { limits_of };

    ghost origin = { λ r. X.origin r.steps };

    ghost is_part_of = { IsStreamOf X.begins X.step };

    fn fresh(&self, alloc: Global, c: u32) -> Result<Self::Part, AllocError> {
        let state = self.steps.begin(alloc, c)?;
        let (_producer, input) = RingBuffer::new(alloc, 1)?;
        Ok(Stream::of(input, state))
    }

    /// Pops the next item and takes it. It waits for it.
    fn feed(&self, alloc: Global, stream: &mut Self::Part, _c: u32, _n: u32)
        requires owner { IsStreamOf X.begins X.step (X.origin (steps_of self.now)) _c stream.old }
        requires next { HasFed (HasTaken stream.old) _n }
        requires limit { _n < slice_index (limits_of self.now).feeds _c }
        ensures owner { IsStreamOf X.begins X.step (X.origin (steps_of self.now)) _c stream.new }
        ensures stands { (had : List Act) → HasTaken stream.old had → HasTaken stream.new (had ++ Did.Feed _n ∷ []) }
        ensures one { TakesOne (X.step (X.origin (steps_of self.now))) stream.old stream.new }
    {
        let item = self.next(&mut stream.input);
        self.steps.take(alloc, &mut stream.state, item);
        stream.had += 1;
        stream.count = stream.count.wrapping_add(1);
    }

    fn call(&self, _alloc: Global, _stream: &mut Self::Part, _c: u32, _j: u32, _k: u32) {}

    ghost same_count = { λ p a b x y. x.feeds ∙ sym y.feeds };
}
