//! The law of the owners of one squeue: a function that does nothing, whose contract is the law.
ghost use Rattle.std.specs.Prelude.{◌≡◌, List};
ghost use Rattle.turn_gate.specs.Passes.{number};
ghost use Rattle.perimeter_core.specs.declared.entries.Act.{Act};
ghost use Rattle.perimeter_core.specs.declared.marks.Own.TheVariants as Own';
ghost use Rattle.perimeter_core.specs.History.{Element, run};
ghost use Rattle.perimeter_core.specs.Legal.{Legal};
ghost use Rattle.squeue_state.specs.Naming.{Named, setting_of};
ghost use Rattle.squeue_drain.specs.declared.owner.Owner.{Owner};
ghost use Rattle.squeue_drain.specs.Owning.{NothingSince, Owns};

use perimeter_core::Resident;

/// Whoever is owner of a squeue, and has made nothing since, has the pass that is named as owner. So two owners of one squeue
/// have one pass, and only the thread with that pass has the resident.
pub fn owners_of_one_squeue_are_one<R: Resident>()
    ensures named { (s : Named R) (H : List Element) (note : List Act) (o : Owner R) → Legal (setting_of R.limits s.given) H → Owns R.Resident s note o
        → NothingSince H o → (run (setting_of R.limits s.given) H).own ≡ Own'.Out (number o.pass) }
    ensures one { (s : Named R) (H : List Element) (note another : List Act) (o q : Owner R) → Legal (setting_of R.limits s.given) H
        → Owns R.Resident s note o → NothingSince H o → Owns R.Resident s another q → NothingSince H q → number o.pass ≡ number q.pass }
{}
