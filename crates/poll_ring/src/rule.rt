//! The rule of a ring's queue, and what each step tells the end that makes it. These types are for contracts alone, and
//! no value of them is made.

ghost use Rattle.std.specs.Prelude.{◌≡◌, ◌+◌, ◌≤◌, length, ⊤};
ghost use Rattle.poll_ring.specs.Rule.{Keeps, feeder, poller, unsplit};

use crossbeam_queue::protocol::{Lesson, Outcome, Protocol, Split};

/// What a pass of the queue may do, and what it has done.
pub struct View {
    /// It may put numbers.
    pub feeds: bool,
    /// It may pop numbers.
    pub polls: bool,
    /// How many it put.
    pub put: u32,
    /// How many it popped.
    pub popped: u32,
}

/// The queue holds the next numbers, in order.
pub struct NextOnes;

impl Protocol<u32, View> for NextOnes {
    ghost holds = { Keeps };

    ghost first = { unsplit };
}

/// The first pass becomes those of the two ends.
pub(crate) struct TwoEnds;

impl Split<View> for TwoEnds {
    ghost left = { λ v. feeder v.put };

    ghost right = { λ v. poller v.popped };
}

/// One more number was put.
pub(crate) struct Put;

impl Outcome<u32, View> for Put {
    ghost then = { λ v n w. w ≡ feeder (v.put + 1) };
}

// The queue never holds more numbers than were put, so with room for all of them it is never full at a put.
impl Lesson<u32, View> for Put {
    ghost fact = { λ v numbers. length numbers ≤ v.put };
}

/// A number was popped, and it is the next one.
pub(crate) struct Popped;

impl Outcome<u32, View> for Popped {
    ghost then = { λ v n w. (n ≡ v.popped) × (w ≡ poller (v.popped + 1)) };
}

// A pop that finds the queue empty tells nothing of how many were put.
impl Lesson<u32, View> for Popped {
    ghost fact = { λ v numbers. ⊤ };
}
