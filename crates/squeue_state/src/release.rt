//! How a turn ends with a mark.
ghost use Rattle.std.specs.Prelude.{◌≡◌, ◌<◌, ◌^◌, [], ◌∷◌, ◌++◌, length};
ghost use Rattle.turn_gate.specs.History.{IsOneOf};
ghost use Rattle.turn_gate.specs.Passes.{IsPassOf, freed_once, number, seen, mine, steps};
ghost use Rattle.turn_gate.specs.Helds.{IsHeldOf, held_number, held_seen, held_mine, held_steps, held_value};
ghost use Rattle.turn_gate.specs.Gates.{gate_id, first_of};
ghost use Rattle.squeue_state.specs.Behind.{Behind, Noted, StandsFor, given_of};
ghost use Rattle.histories.specs.Elements.{number_of, element_of};

use crate::event::{Event, Notes};
use crate::guarded::Guarded;
use crate::squeue::Pass;
use perimeter_core::{Feed, Kind, Resident};
use std::marker::Brand;
use turn_gate::{Gate, Held, Names};

// Ends a turn by the element of the kind, the feeds and the note, and keeps its mark.
pub(crate) fn end_turn<R: Resident, N: Notes>(
    gate: &Gate<Guarded<R>>,
    held: Held<Guarded<R>>,
    kind: Kind,
    es: &[Feed],
) -> Pass
    requires gate { IsHeldOf number_of (gate_id gate.now) held }
    requires value { Behind R.Resident (given_of (first_of gate.now)) (held_value held).inner
        (held_seen held ++ element_of (held_number held) kind es.now N.note ∷ []) }
    requires noted { Noted (given_of (first_of gate.now)) (held_value held).traced (held_value held).trace (held_seen held) }
    ensures gate { IsPassOf number_of (gate_id gate.now) result × (number result ≡ held_number held) }
    ensures seen { seen result ≡ held_seen held ++ element_of (held_number held) kind es.now N.note ∷ [] }
    ensures mine { mine result ≡ held_mine held ++ element_of (held_number held) kind es.now N.note ∷ [] }
    ensures steps { freed_once (held_steps held) (steps result) }
{
    let mut held = held;
    let p = held.number();
    held.value().note(p, kind, es);
    end_by::<R, Brand>(gate, held, kind, es)
}

// The same by the element that `E` names. What it is made of is passed beside it, since a pick sees the call's arguments alone.
fn end_by<R: Resident, E: Names<Event>>(
    gate: &Gate<Guarded<R>>,
    held: Held<Guarded<R>>,
    kind: Kind,
    _es: &[Feed],
) -> Pass
    requires gate { IsHeldOf number_of (gate_id gate.now) held }
    requires element { IsOneOf number_of (held_number held) E.elements }
    requires value { StandsFor R.Resident (first_of gate.now) (held_value held) (held_seen held ++ E.elements) }
    requires count { length (held_seen held) < 2 ^ 63 }
    ensures gate { IsPassOf number_of (gate_id gate.now) result × (number result ≡ held_number held) }
    ensures seen { seen result ≡ held_seen held ++ E.elements }
    ensures mine { mine result ≡ held_mine held ++ E.elements }
    ensures steps { freed_once (held_steps held) (steps result) }
{
    gate.release::<E>(held, kind)
}
