//! A ring as a source: another thread pushes items into it, each with its key.
ghost use Rattle.std.specs.Prelude.{◌≡◌, []};
ghost use Rattle.rtrb.specs.Ring.{known_items, received};
ghost use Rattle.squeue_arrivals.specs.Piping.{end_of};

use crate::source::{Arrival, Arrivals};
use perimeter_core::Known;
use rtrb::Consumer;

/// The end of a ring that pops. The source is over when the other end was dropped, and nothing is left in the ring. Where an item is refused this
/// end is dropped, which the other end sees (`is_abandoned`).
#[derive(Drop)]
pub struct Piped<T: Drop> {
    // None, where it was stopped.
    input: Option<Consumer<(u64, T)>>,
    last: Known<Consumer<(u64, T)>>,
}

impl<T: Drop> Piped<T> {
    /// This end of a ring.
    pub fn of(input: Consumer<(u64, T)>) -> Piped<T>
        ensures { end_of result ≡ input }
    {
        let last = Known::of(&input);
        Piped {
            input: Some(input),
            last,
        }
    }
}

impl<T: Drop> Arrivals for Piped<T> {
    type Item = T;

    type Origin = ();

    ghost origin = { λ _. tt };

    ghost given = { λ s. received (end_of s) };

    ghost is_over = { λ s. known_items (end_of s) ≡ [] };

    fn next(&mut self) -> Arrival<T> {
        let Some(input) = &mut self.input else {
            return Arrival::NoneYet;
        };
        if let Ok((key, item)) = input.pop() {
            return Arrival::Item(key, item);
        }
        if !input.is_abandoned() {
            return Arrival::NoneYet;
        }
        // What was pushed before the other end was dropped is seen now.
        match input.pop() {
            Ok((key, item)) => Arrival::Item(key, item),
            Err(_) => Arrival::End,
        }
    }

    fn stop(&mut self) {
        if let Some(input) = &self.input {
            self.last = Known::of(input);
        }
        self.input = None;
    }
}
