//! What a ring does with its lanes.
ghost use Rattle.std.specs.Prelude.{◌≡◌, ◌≤◌, ◌^◌, [], ℕ, List, length, replicate};

use crate::lanes::Lanes;
use std::alloc::Global;

/// What a ring does with its lanes to all squeues.
pub trait Brings {
    /// What it sends, and gets back.
    type Parcel: Drop;

    /// It sent these by each lane, and took those back, and became so.
    ghost did: { Self → List (List Self.Parcel) → List (List Self.Parcel) → Self → Type 0 };

    /// Sends what it has to send, over lanes by which nothing was sent, and returns when it will send nothing more.
    fn bring<L: Lanes<Parcel = Self::Parcel>>(&mut self, alloc: Global, lanes: &mut L)
        requires ready { L.ready lanes.old }
        requires sent { L.sent lanes.old ≡ replicate (length (L.sent lanes.old)) [] }
        requires back { L.back lanes.old ≡ replicate (length (L.sent lanes.old)) [] }
        ensures ready { L.ready lanes.new }
        ensures origin { L.origin lanes.new ≡ L.origin lanes.old }
        ensures did { did self.old (L.sent lanes.new) (L.back lanes.new) self.new };
}
