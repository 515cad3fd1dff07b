//! A run that is written out, of which the top promise holds: a function that does nothing, whose contract says it.

ghost use Rattle.sq_base.specs.declared.kinds.Tuple.{Tuple};
ghost use Rattle.perimeter_core.specs.Ending.{IsOver};
ghost use Rattle.perimeter_core.specs.History.{run};
ghost use Rattle.perimeter_core.specs.Legal.{Legal};
ghost use Rattle.live_chats.specs.Lived.{AreMadeOf, lives, stays_by};
ghost use Rattle.live_rings.specs.WorkedLife as Worked;

/// There is a legal history of a squeue that has ended in which a connection that begins, hears a frame and leaves had its stay.
pub fn there_is_a_life()
    ensures legal { Legal Worked.setting Worked.history }
    ensures over { IsOver Worked.setting (run Worked.setting Worked.history) }
    ensures lived { (t : Tuple) → AreMadeOf (stays_by Worked.setting 0 Worked.history) (lives (Worked.told t)) }
{}
