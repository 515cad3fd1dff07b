//! Sinks: a list, and a channel.
ghost use Rattle.std.specs.Prelude.{◌≡◌, [], true, false};
ghost use Rattle.squeue_answers.specs.Getting.{got_by};

use crate::answering::Sink;
use crate::got_answers::GotAnswers;
use crossbeam_channel::Sender;
use std::alloc::Global;
use std::sync::Wait;

/// A list as a sink, which keeps all answers. For want of memory it keeps none any more, and says so.
#[derive(Drop)]
pub struct Kept<A: Drop> {
    answers: Vec<A>,
    lost: bool,
    got: GotAnswers<A>,
    ghost whole: { lost ≡ false → answers.items ≡ got_by got },
}

impl<A: Drop> Kept<A> {
    ghost use Rattle.squeue_answers.specs.Keeping.{answers_of, kept_of};

    /// Nothing was kept.
    pub fn none(alloc: Global) -> Kept<A>
        ensures { kept_of result ≡ [] }
    {
        Kept {
            answers: Vec::new(alloc),
            lost: false,
            got: GotAnswers::none(),
        }
    }

    /// The answers that are kept, the first of which came first.
    pub fn answers(&self) -> &[A]
        ensures { result.now ≡ answers_of self.now }
    {
        self.answers.as_slice()
    }

    /// Whether these are all that it got.
    pub fn is_whole(&self) -> bool
        ensures { result ≡ true → answers_of self.now ≡ kept_of self.now }
    {
        !self.lost
    }
}

impl<A: Drop> Sink for Kept<A> {
    ghost use Rattle.squeue_answers.specs.Keeping.{kept_of};

    type Answer = A;

    ghost got = { kept_of };

    fn take(&mut self, answer: A) {
        self.got = self.got.and(&answer);
        if self.lost {
            return;
        }
        if self.answers.push(answer).is_err() {
            self.lost = true;
        }
    }
}

/// Sends answers into a channel. It waits where the channel is full; once each receiver was dropped they are dropped too.
#[derive(Drop)]
pub struct Sent<'r, A: Drop, W: Wait> {
    rt: &'r W,
    output: Sender<A>,
    got: GotAnswers<A>,
}

impl<'r, A: Drop, W: Wait> Sent<'r, A, W> {
    /// This end of a channel.
    pub fn of(rt: &'r W, output: Sender<A>) -> Sent<'r, A, W>
        ensures { got_by result.got ≡ [] }
    {
        Sent {
            rt,
            output,
            got: GotAnswers::none(),
        }
    }
}

impl<A: Drop, W: Wait> Sink for Sent<'_, A, W> {
    type Answer = A;

    ghost got = { λ s. got_by s.got };

    fn take(&mut self, answer: A) {
        self.got = self.got.and(&answer);
        let _ = self.output.send(self.rt, answer);
    }
}
