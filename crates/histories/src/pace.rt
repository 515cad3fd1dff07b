//! How a ring enters its feeds.

ghost use Rattle.std.specs.Prelude.{◌≤◌};

use crate::homes::Homes;
use crate::mode::Mode;

/// How a ring enters its feeds: where they are at home, the mode, and how many it processes at most in one entry.
#[derive(Clone, Copy)]
pub struct Pace {
    pub homes: Homes,
    pub mode: Mode,
    pub budget: u32,
    ghost spends: { 1 ≤ budget },
}
