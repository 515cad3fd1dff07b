//! A gate that is held.

ghost use Rattle.std.specs.Prelude.{◌≡◌};

use crate::kept::Kept;
use crate::storied::Storied;
use crate::views::View;
use atomic_table::Seat;

/// A gate that is held, with the value. It must be spent, by a release.
pub struct Held<T: Storied> {
    pub(crate) seat: Seat<Option<Kept<T>>, View<T::Element>>,
    pub(crate) value: Box<T>,
    pub(crate) count: u64,
    pub(crate) number: u32,
}

impl<T: Storied> Held<T> {
    ghost use Rattle.turn_gate.specs.Helds.{held_count, held_number, held_value, held_with};
    ghost use Rattle.std.specs.Borrow.{Lends, sem};
    ghost use Rattle.turn_gate.specs.contracts.held.Held.{the_row};

    /// How many elements the history has.
    pub fn count(&self) -> u64
        ensures { result ≡ held_count self.now }
    {
        self.count
    }

    /// The number of the pass that holds the gate.
    pub fn number(&self) -> u32
        ensures { result ≡ held_number self.now }
    {
        self.number
    }

    /// The value, to be read.
    pub fn get(&self) -> &T
        ensures { result.now ≡ held_value self.now }
    {
        &*self.value
    }

    /// The value. When the borrow ends, the held gate has what was written through it.
    pub fn value(&mut self) -> &mut T
        ensures* writes_back { sem 𝓛 (Lends (the_row T.row T.Mark.row T.Element.row) T.row self.entry result (held_with self.old)) }
        ensures value { result.now ≡ held_value self.old }
    {
        &mut *self.value
    }
}
