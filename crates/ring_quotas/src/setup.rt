//! How a run is set up.

ghost use Rattle.std.specs.Prelude.{◌≡◌, ◌≤◌};

use histories::{Homes, Mode, Pace};

/// The squeues (1 to 16), the rings (1 to 8), how rings enter, the most entries that an entering thread processes (1 to
/// 65,535), after how many feeds a connection moves on (0 to 65,535; 0 never), and whether each squeue keeps the marks of its
/// history. None of it changes what is replied.
///
/// # Example
///
/// ```
/// let setup = Setup {
///     squeues: 3,
///     rings: 2,
///     mode: Mode::Process,
///     budget: 1,
///     spread: 2,
///     trace: false,
/// };
/// ```
#[derive(Clone, Copy, Debug, PartialEq, Eq)]
pub struct Setup {
    pub squeues: u32,
    pub rings: u32,
    pub mode: Mode,
    pub budget: u32,
    pub spread: u32,
    pub trace: bool,
}

impl Setup {
    /// Where connections are at home.
    pub fn homes(&self) -> Homes
        requires { 1 ≤ self.now.squeues }
        ensures squeues { result.squeues ≡ self.now.squeues }
        ensures spread { result.spread ≡ self.now.spread }
    {
        Homes {
            squeues: self.squeues,
            spread: self.spread,
        }
    }

    /// How rings enter their feeds.
    pub fn pace(&self) -> Pace
        requires squeues { 1 ≤ self.now.squeues }
        requires budget { 1 ≤ self.now.budget }
        ensures squeues { result.homes.squeues ≡ self.now.squeues }
        ensures spread { result.homes.spread ≡ self.now.spread }
        ensures mode { result.mode ≡ self.now.mode }
        ensures budget { result.budget ≡ self.now.budget }
    {
        Pace {
            homes: self.homes(),
            mode: self.mode,
            budget: self.budget,
        }
    }
}
