//! The passes of a gate.

ghost use Rattle.std.specs.Prelude.{◌≡◌};

use crate::views::View;
use atomic_table::Badge;

/// A pass of one gate, whose histories hold elements of `E`. It must be spent. Contracts see it by its number, by
/// `seen`, a beginning of the gate's history, by `mine`, the elements in it that carry its number, and by its steps on
/// the lock word.
pub struct Pass<E> {
    pub(crate) badge: Badge<View<E>>,
    pub(crate) number: u32,
}

impl<E> Pass<E> {
    ghost use Rattle.turn_gate.specs.Passes.{number};

    /// Its number among the passes of its gate, counted from 0.
    pub fn number(&self) -> u32
        ensures { result ≡ number self.now }
    {
        self.number
    }
}

/// The gate was held: the lock word that a free gate would have shown, which is 256 times the ticket that was served as
/// the call loaded the word, and the word that its one exchange found. It must be spent, for the pass is in it.
pub struct Missed<E> {
    pub pass: Pass<E>,
    pub expected: u64,
    pub found: u64,
}
