//! The rule that the gate's table keeps between any two atomic steps. Word 0 of the table is the lock, word 1 the
//! number of elements of the history. The one slot has the value while no seat has taken it.

ghost use Rattle.turn_gate.specs.Rule.{Holds, dealer};

use crate::kept::{Kept, Made};
use crate::storied::Storied;
use crate::views::View;
use atomic_table::TableRule;
use std::marker::PhantomData;

/// The rule of the table behind a gate round a value of type `T`, as `TableRule` wants it. It is a type alone: nothing makes one.
pub struct GateRule<T> {
    of: PhantomData<T>,
}

impl<T: Storied> TableRule<Option<Kept<T>>, View<T::Element>, Made<T>> for GateRule<T> {
    ghost holds = { λ k. Holds (T.stands k.first.value) T.number k.passes };

    ghost first = { λ k. dealer 0 k.passes };
}
