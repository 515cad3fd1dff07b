//! An application thread: it makes its calls one after another, each at the squeue where its block is. Where the hint is old
//! it looks again.
ghost use Rattle.std.specs.Prelude.{◌≡◌, ◌<◌, ◌^◌, ℕ, List, [], ◌∷◌, ◌++◌, length};
ghost use Rattle.squeue_serve.specs.Places.{Became, Holds};
ghost use Rattle.squeue_rings.specs.Calling.{CallersAt, HasTried, MayMakeAll, MayMakeEach, MayTry, is_done};
ghost use Rattle.squeue_rings.specs.Bringing.{AllBelow};
ghost use Rattle.synch_enter.specs.Hinting.{conns_of, squeues_of};

use crate::access::Access;
use perimeter_core::{Hook, Resident};
use squeue_serve::{put_pass, take_pass};
use squeue_state::{Pass, Squeue};
use std::marker::Brand;
use std::sync::Wait;
use std::thread::yield_now;
use synch_enter::{Called, call, synch_exit, synch_try};

/// Makes call `k` of thread `j`, which is on connection `c`, at one squeue, if its block is there; tells whether it did.
pub fn try_call<R: Resident, H: Hook, W: Wait>(
    access: &Access<'_, R, H, W>,
    squeue: &Squeue<R>,
    c: u32,
    j: u32,
    k: u32,
    place: &mut Option<Pass>,
) -> bool
    requires { Holds (λ x. MayTry R.limits squeue.now c j k x) place.old }
    ensures { Became (λ x y. HasTried R.limits squeue.now result c j k x y) place.old place.new }
{
    let pass = take_pass(place);
    let (pass, made) = try_with(access, squeue, c, j, k, pass);
    put_pass(place, pass);
    made
}

fn try_with<R: Resident, H: Hook, W: Wait>(
    access: &Access<'_, R, H, W>,
    squeue: &Squeue<R>,
    c: u32,
    j: u32,
    k: u32,
    pass: Pass,
) -> (Pass, bool)
    requires { MayTry R.limits squeue.now c j k pass }
    ensures { HasTried R.limits squeue.now result.1 c j k pass result.0 }
{
    match synch_try(squeue, access.rt, access.alloc, access.hook, pass, c) {
        Err(pass) => (pass, false),
        Ok(owner) => {
            let mut owner = owner;
            let called = call(&mut owner, access.alloc, c, j, k);
            (
                synch_exit::<R, Brand, W>(squeue, access.rt, owner),
                was_made(called),
            )
        }
    }
}

fn was_made(called: Called) -> bool
    ensures { result ≡ is_done called }
{
    match called {
        Called::Done => true,
        Called::Elsewhere => false,
    }
}

/// Makes call `k` of thread `j`, which is on connection `c`, wherever its block is.
fn make_call<R: Resident, H: Hook, W: Wait>(
    access: &Access<'_, R, H, W>,
    c: u32,
    j: u32,
    k: u32,
    places: &mut Vec<Option<Pass>>,
)
    requires hints { (c < conns_of access.now.hints.now) × (squeues_of access.now.hints.now ≡ length access.now.squeues.now) }
    requires ready { (cs : List ℕ) × (length cs ≡ k) × MayMakeAll R.limits j k cs c access.now.squeues.now
        × CallersAt R.limits j cs access.now.squeues.now places.old.items }
    ensures { (cs : List ℕ) → length cs ≡ k → MayMakeAll R.limits j k cs c access.now.squeues.now
        → CallersAt R.limits j cs access.now.squeues.now places.old.items
        → CallersAt R.limits j (cs ++ c ∷ []) access.now.squeues.now places.new.items }
{
    let squeues = access.squeues;
    for _ in access.rt.forever() {
        let q = access.hints.get(c) as usize;
        if try_call(access, &squeues[q], c, j, k, &mut places[q]) {
            return;
        }
        yield_now();
    }
    unreachable!()
}

/// Makes the calls of thread `j`, in order, each once; `conns` has the connection of each.
pub fn make_calls<R: Resident, H: Hook, W: Wait>(
    access: &Access<'_, R, H, W>,
    conns: &[u32],
    j: u32,
    places: &mut Vec<Option<Pass>>,
)
    requires few { length conns.now < 2 ^ 32 }
    requires hints { (squeues_of access.now.hints.now ≡ length access.now.squeues.now) × AllBelow (conns_of access.now.hints.now) access.now.squeues.now
        × (0 < length access.now.squeues.now) }
    requires may { MayMakeEach R.limits j conns.now access.now.squeues.now }
    requires at { CallersAt R.limits j [] access.now.squeues.now places.old.items }
    ensures { CallersAt R.limits j conns.now access.now.squeues.now places.new.items }
{
    for k in 0..conns.len() {
        let c = conns[k];
        make_call(access, c, j, k as u32, places);
    }
}
