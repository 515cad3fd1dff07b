//! What is made of the items of one key, and the same as the parts of a squeue's resident.
ghost use Rattle.std.specs.Prelude.{◌≡◌, IfOk};

use perimeter_core::Known;
use squeue_streams::{Steps, Stream};
use std::alloc::{AllocError, Global};

/// What is made of the items of each key. All keys begin alike, so an item carries what its key needs.
pub trait KeySteps {
    /// What comes for a key.
    type Item: Drop;
    /// What is made of the items of one key.
    type State: Drop;

    /// In which states a key may begin.
    ghost begins: { Self → Self.State → Type 0 };

    /// Which states may follow a state by an item.
    ghost step: { Self → Self.State → Self.Item → Self.State → Type 0 };

    /// The state of a key before its first item. All are made before anything comes.
    fn begin(&self, alloc: Global) -> Result<Self::State, AllocError>
        ensures { IfOk result (λ s. begins self.now s) };

    /// Takes the next item of a key. Want of memory is the state's to record.
    fn take(&self, alloc: Global, state: &mut Self::State, item: Self::Item)
        ensures { step self.now state.old item state.new };
}

/// What is made of the items at each place of a squeue, and for contracts alone the streams with which a run begins, by number.
#[derive(Drop)]
pub struct Keyed<X: KeySteps + Drop> {
    pub(crate) steps: X,
    pub(crate) first: Known<Vec<Stream<X::Item, X::State>>>,
}

impl<X: KeySteps + Drop> Keyed<X> {
    ghost use Rattle.squeue_arrivals.specs.Keyed.{first_of, work_of};

    /// These steps, where the streams begin as these, by number.
    pub(crate) fn of(steps: X, streams: &Vec<Stream<X::Item, X::State>>) -> Keyed<X>
        ensures steps { work_of result ≡ steps }
        ensures first { first_of result ≡ streams.now.items }
    {
        Keyed {
            steps,
            first: Known::of(streams),
        }
    }
}

impl<X: KeySteps + Drop> Steps for Keyed<X> {
    ghost use Rattle.squeue_arrivals.specs.Keyed.{IsFirst, Tells};

    type Item = X::Item;

    type State = X::State;

    type Origin = Keyed<X>;

    ghost origin = { λ s. s };

    ghost begins = { IsFirst };

    ghost step = { Tells X.step };

    // A stream's ring is made with it, and there is no other: so none is begun here.
    fn begin(&self, _alloc: Global, _c: u32) -> Result<X::State, AllocError> {
        Err(AllocError)
    }

    fn take(&self, alloc: Global, state: &mut X::State, item: X::Item) {
        self.steps.take(alloc, state, item);
    }
}
