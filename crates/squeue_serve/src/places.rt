//! Passes in their places. A pass must be spent, so a thread gets it in a place of its own by `&mut`, takes it out to use it, and
//! puts it back.
ghost use Rattle.std.specs.Prelude.{◌≡◌, IsSome, Some, None};
ghost use Rattle.squeue_serve.specs.Places.{Holds, Became, AtEach, AtEachTwo, MayClose, HasClosed, MayWork, HasWorked};

use perimeter_core::{Hook, Resident};
use squeue_drain::worker;
use squeue_state::{Pass, Squeue};
use std::alloc::Global;
use std::sync::Wait;

/// Takes the pass out of its place.
pub fn take_pass(place: &mut Option<Pass>) -> Pass
    requires { IsSome place.old }
    ensures taken { place.old ≡ Some result }
    ensures place { place.new ≡ None }
{
    let taken = place.take();
    let Some(pass) = taken else { unreachable!() };
    pass
}

/// Puts the pass back into its place.
pub fn put_pass(place: &mut Option<Pass>, pass: Pass)
    requires { place.old ≡ None }
    ensures { place.new ≡ Some pass }
{
    let old = place.replace(pass);
    let None = old else { unreachable!() };
}

/// Closes the passes of all squeues, which lie by the squeues' numbers.
pub fn close_all<R: Resident, W: Wait>(
    rt: &W,
    squeues: &[Squeue<R>],
    places: &mut Vec<Option<Pass>>,
)
    requires { AtEach (λ s o. Holds (MayClose R.limits s) o) squeues.now places.old.items }
    ensures { AtEachTwo (λ s o n. Became (HasClosed R.limits s) o n) squeues.now places.old.items places.new.items }
{
    for q in 0..squeues.len() {
        close_one(rt, &squeues[q], &mut places[q]);
    }
}

// Closes the pass of one squeue.
fn close_one<R: Resident, W: Wait>(rt: &W, squeue: &Squeue<R>, place: &mut Option<Pass>)
    requires { Holds (MayClose R.limits squeue.now) place.old }
    ensures { Became (HasClosed R.limits squeue.now) place.old place.new }
{
    let pass = take_pass(place);
    put_pass(place, squeue.close_pass(rt, pass));
}

/// Works a squeue to its end, by its worker's pass.
pub fn work<R: Resident, H: Hook, W: Wait>(
    rt: &W,
    alloc: Global,
    hook: &H,
    squeue: &Squeue<R>,
    place: &mut Option<Pass>,
)
    requires { Holds (MayWork R.limits squeue.now) place.old }
    ensures { Became (HasWorked R.limits squeue.now) place.old place.new }
{
    let pass = take_pass(place);
    put_pass(place, worker(squeue, rt, alloc, hook, pass));
}
