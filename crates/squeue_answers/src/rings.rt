//! Rings of answers, one for each key, and which items wait for what comes by them.
ghost use Rattle.std.specs.Prelude.{◌≡◌, ◌≢◌, ◌++◌, ◌∷◌, ◌<◌, ◌≤◌, [], ℕ, true, false, nat_eq, length, IfOk, List, None, Some};
ghost use Rattle.std.specs.HashMap.{get, spare as spare_of};
ghost use Rattle.std.specs.VecDeque.{deque_capacity, deque_len};
ghost use Rattle.std.proofs.Common.{Global};
ghost use Rattle.rtrb.specs.declared.AnyItems.{AnyItems};
ghost use Rattle.rtrb.specs.declared.consumer.Consumer.{Consumer};
ghost use Rattle.rtrb.specs.Ring.{IsPair, received, sent};
ghost use Rattle.squeue_answers.specs.Popping.{WasPopped};

use crate::answering::Sink;
use crate::steps::Asked;
use rtrb::{Consumer, Producer, RingBuffer};
use std::alloc::{AllocError, Global};
use std::collections::{HashMap, VecDeque};
use std::sync::Wait;
use std::thread;

/// The two ends of a ring of answers that no key has yet.
#[derive(Drop)]
pub(crate) struct NewRing<A: Drop> {
    out: Producer<A>,
    input: Consumer<A>,
    ghost pair: { IsPair out input },
    ghost new: { (sent out ≡ []) × (received input ≡ []) },
}

/// The end that pops of the ring of each key; rings that no key has yet; and of each item that waits for its answer the key, in the order
/// of the items. An item whose key finds no ring is not answered, and `stopped` says that one came.
#[derive(Drop)]
pub(crate) struct AnswerRings<A: Drop> {
    inputs: HashMap<u64, Consumer<A>>,
    left: Vec<NewRing<A>>,
    waiting: VecDeque<u64>,
    stopped: bool,
    ghost room: { length left.items ≤ spare_of inputs },
}

impl<A: Drop> AnswerRings<A> {
    ghost use Rattle.squeue_answers.specs.Rings.{AreAnswered, HasAsked, HasForgotten, HasHandedOn, HasOpened, HaveWays, SameInputs, input_at, is_stopped, waiting_in};

    /// Rings for so many keys, where so many items may wait. Fails only for want of memory.
    pub(crate) fn of(alloc: Global, keys: usize, ahead: usize) -> Result<AnswerRings<A>, AllocError>
        ensures new { IfOk result (λ r. HaveWays [] r × AreAnswered [] [] r) }
        ensures none { IfOk result (λ r. (waiting_in r ≡ []) × (is_stopped r ≡ false)) }
    {
        let mut left = Vec::with_capacity(alloc, keys)?;
        for _k in 0..keys {
            let (out, input) = RingBuffer::new(alloc, ahead)?;
            left.push_reserved(NewRing { out, input });
        }
        let inputs = HashMap::with_capacity(alloc, keys)?;
        let waiting = VecDeque::with_capacity(alloc, ahead)?;
        Ok(AnswerRings {
            inputs,
            left,
            waiting,
            stopped: false,
        })
    }

    /// Whether one more item may wait.
    pub(crate) fn has_room(&self) -> bool
        ensures { result ≡ true → (is_stopped self.now ≡ false) × (deque_len self.now.waiting < deque_capacity self.now.waiting) }
    {
        if self.stopped {
            return false;
        }
        self.waiting.len() < self.waiting.capacity()
    }

    /// Whether each item that came is answered.
    pub(crate) fn is_done(&self) -> bool
        ensures { result ≡ true → (is_stopped self.now ≡ false) × (waiting_in self.now ≡ []) }
    {
        if self.stopped {
            return false;
        }
        self.waiting.is_empty()
    }

    /// The next item, with what it is to carry.
    pub(crate) fn ask<T: Drop>(&mut self, key: u64, item: T) -> Asked<T, A>
        requires stopped { is_stopped self.old ≡ false }
        requires room { deque_len self.old.waiting < deque_capacity self.old.waiting }
        ensures item { result.item ≡ item }
        ensures asked { HasAsked (is_stopped self.new) key result.out self.old self.new }
    {
        let out = self.open(key);
        if !self.stopped {
            self.waiting.push_back_reserved(key);
        }
        Asked { item, out }
    }

    // The end that pushes of a key's ring, where this is its first item.
    fn open(&mut self, key: u64) -> Option<Producer<A>>
        requires { is_stopped self.old ≡ false }
        ensures { HasOpened key result self.old self.new }
    {
        if self.inputs.contains_key(&key) {
            return None;
        }
        let Some(NewRing { out, input }) = self.left.pop() else {
            self.stopped = true;
            return None;
        };
        let Ok(_) = self.inputs.insert(key, input) else {
            unreachable!()
        };
        Some(out)
    }

    /// Hands on the answers that have come, as far as they are next.
    pub(crate) fn hand_on_all<K: Sink<Answer = A>>(&mut self, sink: &mut K)
        ensures { HasHandedOn (K.got sink.old) (K.got sink.new) self.old self.new }
    {
        for _n in 0..self.waiting.len() {
            if !self.hand_on(sink) {
                return;
            }
        }
    }

    /// The same of all that are to come. It waits for them.
    pub(crate) fn hand_on_rest<K: Sink<Answer = A>, W: Wait>(&mut self, rt: &W, sink: &mut K)
        ensures answered { HasHandedOn (K.got sink.old) (K.got sink.new) self.old self.new }
        ensures none { waiting_in self.new ≡ [] }
    {
        'rest: for _ in rt.forever() {
            if self.waiting.is_empty() {
                return;
            }
            self.hand_on_all(sink);
            thread::yield_now();
        }
    }

    // Hands on the answer of the item that waits longest, if it has come.
    fn hand_on<K: Sink<Answer = A>>(&mut self, sink: &mut K) -> bool
        ensures { HasHandedOn (K.got sink.old) (K.got sink.new) self.old self.new }
    {
        let Some(key) = self.waiting.front() else {
            return false;
        };
        let Some(answer) = pop_at(&mut self.inputs, *key) else {
            return false;
        };
        sink.take(answer);
        let _ = self.waiting.pop_front();
        true
    }

    /// Looks at both ends of a key's ring: all that was pushed came, or is still to come.
    pub(crate) fn compare(&mut self, key: u64, out: &mut Producer<A>)
        requires { (input : Consumer A Global AnyItems) → input_at self.old key ≡ Some input → IsPair out.old input }
        ensures compared { (input : Consumer A Global AnyItems) → input_at self.old key ≡ Some input
            → (left : List A) × (received input ++ left ≡ sent out.old) }
        ensures same { SameInputs self.old self.new }
    {
        compare_at(&mut self.inputs, key, out);
    }

    /// Where the item that came last was refused it has no answer, and isn't waited for any more.
    pub(crate) fn forget_refused<W: Wait>(&mut self, rt: &W, refused: bool)
        ensures forgotten { HasForgotten refused (is_stopped self.old) (waiting_in self.old) (waiting_in self.new) }
        ensures inputs { self.new.inputs ≡ self.old.inputs }
    {
        if !refused {
            return;
        }
        if self.stopped {
            return;
        }
        self.forget_last(rt);
    }

    // The item that came last isn't waited for any more. It does wait, so this comes to its end at once.
    fn forget_last<W: Wait>(&mut self, rt: &W)
        ensures last { (k : ℕ) × (waiting_in self.old ≡ waiting_in self.new ++ k ∷ []) }
        ensures inputs { self.new.inputs ≡ self.old.inputs }
    {
        'turns: for _ in rt.forever() {
            if self.waiting.pop_back().is_some() {
                return;
            }
            thread::yield_now();
        }
    }
}

// The next answer that came by a key's ring, if there is one.
fn pop_at<A: Drop>(inputs: &mut HashMap<u64, Consumer<A>>, key: u64) -> Option<A>
    ensures popped { WasPopped result (get nat_eq inputs.old key) (get nat_eq inputs.new key) }
    ensures others { (k : ℕ) → k ≢ key → get nat_eq inputs.new k ≡ get nat_eq inputs.old k }
    ensures room { spare_of inputs.new ≡ spare_of inputs.old }
{
    match inputs.get_mut(&key) {
        Some(input) => input.pop().ok(),
        None => None,
    }
}

// Looks at both ends of a key's ring.
fn compare_at<A: Drop>(inputs: &mut HashMap<u64, Consumer<A>>, key: u64, out: &mut Producer<A>)
    requires { (input : Consumer A Global AnyItems) → get nat_eq inputs.old key ≡ Some input → IsPair out.old input }
    ensures compared { (input : Consumer A Global AnyItems) → get nat_eq inputs.old key ≡ Some input
        → (left : List A) × (received input ++ left ≡ sent out.old) }
    ensures looked { WasPopped None (get nat_eq inputs.old key) (get nat_eq inputs.new key) }
    ensures others { (k : ℕ) → k ≢ key → get nat_eq inputs.new k ≡ get nat_eq inputs.old k }
    ensures room { spare_of inputs.new ≡ spare_of inputs.old }
{
    if let Some(input) = inputs.get_mut(&key) {
        let _ = input.slots_beside(out);
    }
}
