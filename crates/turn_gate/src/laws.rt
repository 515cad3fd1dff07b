//! The laws of the gate's rule, which holds between any two atomic steps. Each is a function that does nothing, whose
//! contract is the law.
ghost use Rattle.std.specs.Prelude.{ℕ, Option};
ghost use Rattle.atomic_table.specs.Table.{State};
ghost use Rattle.turn_gate.specs.Rule.{Holds, IsFree, HasWhole};
ghost use Rattle.turn_gate.specs.declared.kept.Kept.{Kept};
ghost use Rattle.turn_gate.specs.declared.views.View.{View};

use crate::storied::Storied;

/// Where the lock is free the value is at home, and stands for the whole history.
pub fn a_free_gate_has_its_value<T: Storied>()
    ensures { (first : T) (n : ℕ) (s : State (Option (Kept T)) (View T.Element)) → Holds (T.stands first) T.number n s → IsFree s
        → HasWhole (T.stands first) T.number s }
{}
