//! Items that carry the way of their key's answers, and what is made of them.
ghost use Rattle.std.specs.Prelude.{◌≡◌, ◌++◌, ◌∷◌, []};
ghost use Rattle.rtrb.specs.Ring.{SameProducer, sent};

use crate::answering::KeyAnswers;
use rtrb::{Producer, PushError};
use squeue_arrivals::KeySteps;
use std::alloc::{AllocError, Global};
use std::sync::Wait;
use std::thread;

/// An item, and where it is its key's first the end of the ring into which the answers of this key go.
#[derive(Drop)]
pub(crate) struct Asked<T: Drop, A: Drop> {
    pub(crate) item: T,
    pub(crate) out: Option<Producer<A>>,
}

/// What was made of the items of a key, and where its answers go. Before the first item there is no such place.
#[derive(Drop)]
pub(crate) struct Answerer<S: Drop, A: Drop> {
    pub(crate) state: S,
    pub(crate) out: Option<Producer<A>>,
}

/// These steps, whose answers go where the state says. It knows how to wait, where an answer finds no room.
pub(crate) struct Answering<'r, X: KeyAnswers, W: Wait> {
    pub(crate) rt: &'r W,
    pub(crate) steps: X,
}

impl<X: KeyAnswers + Copy, W: Wait> Clone for Answering<'_, X, W> {
    fn clone(&self) -> Result<Self, AllocError> {
        Ok(Answering {
            rt: self.rt,
            steps: self.steps,
        })
    }
}

impl<X: KeyAnswers + Copy, W: Wait> Copy for Answering<'_, X, W> {}

impl<X: KeyAnswers, W: Wait> KeySteps for Answering<'_, X, W> {
    ghost use Rattle.squeue_answers.specs.Stepping.{Begins, Steps};

    type Item = Asked<X::Item, X::Answer>;

    type State = Answerer<X::State, X::Answer>;

    ghost begins = { λ w. Begins (X.begins w.steps) };

    ghost step = { λ w. Steps (X.step w.steps) };

    fn begin(&self, alloc: Global) -> Result<Self::State, AllocError> {
        let state = self.steps.begin(alloc)?;
        Ok(Answerer { state, out: None })
    }

    fn take(&self, alloc: Global, state: &mut Self::State, asked: Self::Item) {
        let Asked { item, out } = asked;
        if out.is_some() {
            state.out = out;
        }
        let answer = self.steps.take(alloc, &mut state.state, item);
        if let Some(output) = &mut state.out {
            hand_on(self.rt, output, answer);
        }
    }
}

// Pushes an answer. Its source asks for no more than there is room for, so it waits only until the room is seen.
fn hand_on<A: Drop, W: Wait>(rt: &W, output: &mut Producer<A>, answer: A)
    ensures ring { SameProducer output.old output.new }
    ensures sent { sent output.new ≡ sent output.old ++ answer ∷ [] }
{
    let mut answer = answer;
    'tries: for _ in rt.forever() {
        match output.push(answer) {
            Ok(()) => return,
            Err(PushError::Full(back)) => answer = back,
        }
        thread::yield_now();
    }
}
