//! How feeds are entered.
ghost use Rattle.std.specs.Prelude.{◌≤◌};

use squeue_enter::Mode;

/// How a thread enters the feeds of its streams: the mode, and how many feeds it processes at most in one entry.
#[derive(Clone, Copy)]
pub struct SourcePace {
    pub mode: Mode,
    pub budget: u32,
    ghost spends: { 1 ≤ budget },
}
