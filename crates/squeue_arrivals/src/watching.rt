//! How somebody looks at the parts of a squeue while it is served.
//!
//! Who looks has a pass of its own, by which nothing is entered. Each look is an ask of that pass: it stands behind all that was queued
//! before, and nobody else has the parts meanwhile.

ghost use Rattle.std.specs.Prelude.{◌≡◌, ◌+◌, ◌<◌, ◌^◌, IsSome, List, Option, ℕ};
ghost use Rattle.turn_gate.specs.Passes.{number, seen};
ghost use Rattle.perimeter_core.specs.Legal.{asks_by};
ghost use Rattle.placed_parts.specs.Placing.{limits_of, origin_of, parts_of};
ghost use Rattle.squeue_state.specs.Naming.{setting_of};
ghost use Rattle.squeue_serve.specs.Places.{MayEnd};
ghost use Rattle.squeue_streams.specs.declared.streams.Stream.{Stream};
ghost use Rattle.squeue_arrivals.specs.Keyed.{AreBegun, work_of};
ghost use Rattle.squeue_arrivals.specs.Watching.{HasLooked, HasWatched, MayLook};

use crate::seating::KeyParts;
use crate::steps::KeySteps;
use perimeter_core::Known;
use squeue_state::{Ended, Pass, Squeue};
use squeue_streams::Stream;
use std::alloc::Global;
use std::sync::Wait;
use synch_enter::{Reads, look};

/// Who looks at parts to which such items come, and which have such states.
pub trait Watches<T: Drop, S: Drop> {
    /// What a look has seen.
    type Seen: Drop;

    /// How often it looks at each squeue.
    ghost many: { Self → ℕ };

    /// What a look says of the parts of all places.
    ghost says: { Self → List (Option (Stream T S)) → Self.Seen → Type 0 };

    /// How often it looks at each squeue.
    fn looks(&self) -> u32
        ensures { result ≡ many self.now };

    /// Waits until it is time for this look, counted from 0. The call that serves returns after the last look at each squeue.
    fn wait(&self, look: u32);

    /// Reads the parts of all places, each of which is at its squeue or not. The squeue waits meanwhile.
    fn read(&self, parts: &[Option<Stream<T, S>>]) -> Self::Seen
        ensures { says self.now parts.now result };

    /// Tells what this look at the squeue of this number has seen. Answers whether that could be told.
    fn tell(&self, squeue: u32, look: u32, seen: &Self::Seen) -> bool;
}

/// Who never looks.
pub(crate) struct Nobody;

impl<T: Drop, S: Drop> Watches<T, S> for Nobody {
    type Seen = ();

    ghost many = { λ _. 0 };

    ghost says = { λ _ _ _. Unit {0} };

    fn looks(&self) -> u32 {
        0
    }

    fn wait(&self, _look: u32) {}

    fn read(&self, _parts: &[Option<Stream<T, S>>]) {}

    fn tell(&self, _squeue: u32, _look: u32, _seen: &()) -> bool {
        true
    }
}

/// What is left of a squeue at which somebody looked: its end, what the last look has seen, and whether all that was seen could be told.
#[derive(Drop)]
pub struct WatchedEnd<Z> {
    pub end: Ended,
    pub last: Option<Z>,
    pub told: bool,
}

/// What is left of who looked at a squeue. The pass is for contracts alone.
#[derive(Drop)]
pub(crate) struct Watched<Z: Drop> {
    pub(crate) last: Option<Z>,
    pub(crate) told: bool,
    pub(crate) pass: Known<Pass>,
}

// What is read of a squeue's resident: what is read of its parts.
#[derive(Drop)]
struct OfParts<'a, V> {
    watcher: &'a V,
}

impl<'a, X: KeySteps + Drop, H: Wait + Drop, V: Watches<X::Item, X::State>> Reads<KeyParts<X, H>>
    for OfParts<'a, V> {
    type Seen = V::Seen;

    ghost says = { λ self r seen. V.says self.watcher.now (parts_of r) seen };

    fn read(&self, resident: &KeyParts<X, H>) -> V::Seen {
        self.watcher.read(resident.parts())
    }
}

/// Looks at the parts of a squeue as often as the watcher says, and closes the pass.
pub(crate) fn watch<X: KeySteps + Drop, V: Watches<X::Item, X::State>, H: Wait + Drop, W: Wait>(
    rt: &W,
    sq: &Squeue<KeyParts<X, H>>,
    alloc: Global,
    pass: Pass,
    watcher: &V,
) -> (Pass, Watched<V::Seen>)
    requires may { MayLook limits_of sq.now (2 ^ 32) pass }
    requires begun { AreBegun X.begins (origin_of sq.now.given.first) }
    requires none { asks_by (number pass) (seen pass) ≡ 0 }
    ensures ended { MayEnd limits_of (number pass) sq.now result.0 }
    ensures watched { HasWatched X.begins X.step (work_of (origin_of sq.now.given.first)) (V.says watcher.now) (setting_of limits_of sq.now.given) (V.many watcher.now) result.1 }
    ensures knows { result.1.pass.value ≡ result.0 }
{
    let (pass, last, told) = look_all(rt, sq, alloc, pass, watcher, watcher.looks());
    let pass = sq.close_pass(rt, pass);
    let known = Known::of(&pass);
    (
        pass,
        Watched {
            last,
            told,
            pass: known,
        },
    )
}

// Looks so many times: what was seen last, and whether all that was seen could be told.
fn look_all<X: KeySteps + Drop, V: Watches<X::Item, X::State>, H: Wait + Drop, W: Wait>(
    rt: &W,
    sq: &Squeue<KeyParts<X, H>>,
    alloc: Global,
    pass: Pass,
    watcher: &V,
    looks: u32,
) -> (Pass, Option<V::Seen>, bool)
    requires may { MayLook limits_of sq.now (2 ^ 32) pass }
    requires begun { AreBegun X.begins (origin_of sq.now.given.first) }
    ensures may { MayLook limits_of sq.now 0 result.0 }
    ensures number { number result.0 ≡ number pass }
    ensures asks { asks_by (number pass) (seen result.0) ≡ asks_by (number pass) (seen pass) + looks }
    ensures some { 0 < looks → IsSome result.1 }
    ensures looked { HasLooked X.begins X.step (work_of (origin_of sq.now.given.first)) (V.says watcher.now) (setting_of limits_of sq.now.given) (seen result.0) result.1 }
{
    let reader = OfParts { watcher };
    let mut pass = pass;
    let mut last = None;
    let mut told = true;
    for n in 0..looks {
        watcher.wait(n);
        let (next, seen) = look(sq, rt, alloc, pass, &reader);
        pass = next;
        let was_told = watcher.tell(sq.number(), n, &seen);
        told = told && was_told;
        last = Some(seen);
    }
    (pass, last, told)
}
