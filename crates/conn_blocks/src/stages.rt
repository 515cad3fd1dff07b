//! How far a call of a thread has come at a block.

ghost use Rattle.std.specs.Prelude.{◌≡◌, ◌+◌, ◌*◌};

use crate::limits::CALLERS;

/// A call that didn't come yet, one that came before an earlier one of its thread and is held back, or one that was made.
#[derive(Clone, Copy, Debug, PartialEq, Eq)]
pub enum Stage {
    Unasked,
    Held,
    Made,
}

/// The place of call `k` of thread `j` in a table of all calls.
pub fn place(j: u32, k: u32) -> usize
    ensures { result ≡ 4 * k + j }
{
    CALLERS as usize * k as usize + j as usize
}
