//! The source that gives items with the way of their answers, and hands on what they were answered, in their order.
ghost use Rattle.std.specs.Prelude.{◌≡◌, ◌++◌, [], false, IfOk};
ghost use Rattle.squeue_arrivals.specs.Told.{told};
ghost use Rattle.squeue_answers.specs.Rings.{is_stopped, waiting_in};

use crate::answering::Sink;
use crate::rings::AnswerRings;
use crate::steps::Asked;
use perimeter_core::Known;
use squeue_arrivals::{Arrival, Arrivals, GivenItems};
use std::alloc::{AllocError, Global};
use std::marker::Model;
use std::sync::Wait;

/// A source, a sink, and rings for the answers. While as many items wait for their answers as there is room for, no other item is given. An
/// item whose key finds no ring is given without one, and nothing behind it.
#[derive(Drop)]
pub(crate) struct Asking<A: Arrivals + Drop, K: Sink + Drop> {
    source: A,
    sink: K,
    rings: AnswerRings<K::Answer>,
    over: bool,
    given: GivenItems<Asked<A::Item, K::Answer>>,
    first: Known<A>,
    quiet: Known<K>,
}

impl<A: Arrivals + Drop, K: Sink + Drop> Model for Asking<A, K> {
    ghost use Rattle.squeue_arrivals.specs.Giving.{given_by};
    ghost use Rattle.squeue_answers.specs.Asking.{AskingOf, Asks};
    ghost use Rattle.squeue_answers.specs.Rings.{is_stopped, waiting_in};

    ghost Value = { AskingOf A K A.Item K.Answer };

    ghost view = { λ s. record {
      source = s.source;
      sink = s.sink;
      first = s.first.value;
      quiet = s.quiet.value;
      given = given_by s.given;
      waiting = waiting_in s.rings;
      stopped = is_stopped s.rings;
    } };

    ghost invariant = { λ s. Asks A.given A.is_over K.got s.source s.first.value s.sink s.quiet.value (given_by s.given) s.rings s.over };
}

impl<A: Arrivals + Drop, K: Sink + Drop> Asking<A, K> {
    ghost use Rattle.std.specs.Prelude.{List, ℕ};
    ghost use Rattle.squeue_answers.specs.declared.steps.Asked.{Asked};
    ghost use Rattle.squeue_answers.specs.Asking.{HasFinished, IsBehind, new_asking, plain};

    /// This source and this sink, with rings for so many keys, where so many items may wait for their answers. Fails only for want of
    /// memory.
    pub(crate) fn of(
        alloc: Global,
        source: A,
        sink: K,
        keys: usize,
        ahead: usize,
    ) -> Result<Asking<A, K>, AllocError>
        ensures { IfOk result (λ r. r ≡ new_asking source sink) }
    {
        let rings = AnswerRings::of(alloc, keys, ahead)?;
        let first = Known::of(&source);
        let quiet = Known::of(&sink);
        Ok(Asking {
            source,
            sink,
            rings,
            over: false,
            given: GivenItems::none(),
            first,
            quiet,
        })
    }

    /// Hands on all answers that are still to come, once all items are taken but the last, where it was refused.
    pub(crate) fn finish<W: Wait>(self, rt: &W, refused: bool) -> (A, K, AnswerRings<K::Answer>)
        requires { refused ≡ false → self.stopped ≡ false }
        ensures source { result.0 ≡ self.source }
        ensures came { A.given result.0 ≡ A.given self.first ++ plain self.given }
        ensures finished { (all : List (ℕ × Asked A.Item K.Answer)) → IsBehind refused all self.given
            → HasFinished K.got all self.quiet result.1 result.2 }
    {
        let Asking {
            source,
            mut sink,
            mut rings,
            over: _,
            given: _,
            first: _,
            quiet: _,
        } = self;
        rings.forget_refused(rt, refused);
        rings.hand_on_rest(rt, &mut sink);
        (source, sink, rings)
    }
}

impl<A: Arrivals + Drop, K: Sink + Drop> Arrivals for Asking<A, K> {
    type Item = Asked<A::Item, K::Answer>;

    type Origin = (A::Origin, A, K);

    ghost origin = { λ s. (A.origin s.source, s.first, s.quiet) };

    ghost given = { λ s. s.given };

    ghost is_over = { λ s. A.is_over s.source × (s.waiting ≡ []) × (s.stopped ≡ false) };

    fn next(&mut self) -> Arrival<Asked<A::Item, K::Answer>> {
        self.rings.hand_on_all(&mut self.sink);
        if !self.rings.has_room() {
            return Arrival::NoneYet;
        }
        if self.over {
            return rest(&self.rings);
        }
        match self.source.next() {
            Arrival::Item(key, item) => {
                let asked = Arrival::Item(key, self.rings.ask(key, item));
                self.given = self.given.and(&asked);
                asked
            }
            Arrival::NoneYet => Arrival::NoneYet,
            Arrival::End => {
                self.over = true;
                rest(&self.rings)
            }
        }
    }

    fn stop(&mut self) {
        if !self.over {
            self.source.stop();
        }
    }
}

// What comes behind the last item: the end, once all are answered.
fn rest<T: Drop, A: Drop>(rings: &AnswerRings<A>) -> Arrival<Asked<T, A>>
    ensures none { told result ≡ [] }
    ensures done { result ≡ Arrival.End → (is_stopped rings.now ≡ false) × (waiting_in rings.now ≡ []) }
{
    if rings.is_done() {
        Arrival::End
    } else {
        Arrival::NoneYet
    }
}
