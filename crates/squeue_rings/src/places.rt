//! Passes that lie by the numbers of their squeues.
ghost use Rattle.std.specs.Prelude.{◌≡◌, ◌≢◌, ℕ, Some, None, length, slice_get};
ghost use Rattle.turn_gate.specs.declared.pass.Pass.{Pass};
ghost use Rattle.perimeter_core.specs.History.{Element};

use squeue_serve::{put_pass, take_pass};
use squeue_state::Pass;

/// Takes the pass of squeue number `q` out of its place.
pub fn take_at(places: &mut Vec<Option<Pass>>, q: usize) -> Pass
    requires { (x : Pass Element) × (slice_get places.old.items q ≡ Some (Some x)) }
    ensures taken { slice_get places.old.items q ≡ Some (Some result) }
    ensures place { slice_get places.new.items q ≡ Some None }
    ensures others { (k : ℕ) → k ≢ q → slice_get places.new.items k ≡ slice_get places.old.items k }
    ensures count { length places.new.items ≡ length places.old.items }
{
    take_pass(&mut places[q])
}

/// Puts the pass of squeue number `q` back into its place.
pub fn put_at(places: &mut Vec<Option<Pass>>, q: usize, pass: Pass)
    requires { slice_get places.old.items q ≡ Some None }
    ensures place { slice_get places.new.items q ≡ Some (Some pass) }
    ensures others { (k : ℕ) → k ≢ q → slice_get places.new.items k ≡ slice_get places.old.items k }
    ensures count { length places.new.items ≡ length places.old.items }
{
    put_pass(&mut places[q], pass);
}
