//! A mark as it is read.

ghost use Rattle.std.specs.Prelude.{◌≡◌, []};

use perimeter_core::{Feed, Kind};
use std::alloc::Global;

/// A mark: the pass that makes it, its kind, and the feeds that it enters. One value serves for many lines, one after another.
#[derive(Drop)]
pub struct ReadMark {
    pub p: u32,
    pub kind: Kind,
    pub feeds: Vec<Feed>,
}

impl ReadMark {
    /// A Take of pass 0, to be read into.
    pub fn make(alloc: Global) -> ReadMark
        ensures { (result.p ≡ 0) × (result.kind ≡ Kind.Take) × (result.feeds.items ≡ []) }
    {
        ReadMark {
            p: 0,
            kind: Kind::Take,
            feeds: Vec::new(alloc),
        }
    }
}
