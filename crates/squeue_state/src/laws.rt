//! The law of a squeue's gate: a function that does nothing, whose contract is the law.
ghost use Rattle.std.specs.Prelude.{ℕ, Option};
ghost use Rattle.atomic_table.specs.Table.{State};
ghost use Rattle.turn_gate.specs.Rule.{Holds, IsFree};
ghost use Rattle.turn_gate.specs.declared.kept.Kept.{Kept};
ghost use Rattle.turn_gate.specs.declared.views.View.{View};
ghost use Rattle.perimeter_core.specs.History.{Element};
ghost use Rattle.squeue_state.specs.declared.guarded.Guarded.{Guarded};
ghost use Rattle.squeue_state.specs.Behind.{StandsFor};
ghost use Rattle.histories.specs.Elements.{number_of};
ghost use Rattle.squeue_state.specs.Lawful.{LiesWhole};

use perimeter_core::Resident;

/// Whenever the gate's lock is free, its value is at home and stands for the whole history; and where something is queued, a
/// pass is owner, the perimeter is granted, or a wake is recorded.
pub fn somebody_comes_for_what_is_queued<R: Resident>()
    ensures { (f : Guarded R) (n : ℕ) (s : State (Option (Kept (Guarded R))) (View Element)) → Holds (StandsFor R.Resident f) number_of n s → IsFree s
        → LiesWhole R.Resident f s }
{}
