//! A ring's lanes to all squeues, as who brings parcels sees them.
ghost use Rattle.std.specs.Prelude.{◌≡◌, ◌+◌, ◌<◌, ◌≤◌, ◌^◌, ◌++◌, ◌∷◌, [], ℕ, List, IfSome, IfNone, length, slice_set};
ghost use Rattle.shard_rings.specs.Cells.{cell};

use std::alloc::Global;

/// A ring's lanes, by the numbers of their squeues. Parcels that are sent come back in the order in which they were sent, each once.
pub trait Lanes {
    /// What is sent, and comes back.
    type Parcel: Drop;
    /// What no call changes, for contracts alone.
    type Origin;

    /// All that was sent by each lane, oldest first.
    ghost sent: { Self → List (List Self.Parcel) };

    /// All that came back by each lane, oldest first.
    ghost back: { Self → List (List Self.Parcel) };

    /// How many parcels of a lane may be out.
    ghost room: { Self → ℕ };

    /// What no call changes.
    ghost origin: { Self → Self.Origin };

    /// The lanes are as their calls leave them.
    ghost ready: { Self → Type 0 };

    /// How many lanes there are: one for each squeue.
    fn squeues(&self) -> usize
        ensures { result ≡ length (sent self.now) };

    /// How many parcels of a lane may be out.
    fn most_out(&self) -> u64
        ensures { result ≡ room self.now };

    /// How many parcels of lane `q` are out: they were sent, and weren't taken back.
    fn out(&self, q: usize) -> u64
        requires ready { ready self.now }
        requires range { q < length (sent self.now) }
        ensures { length (cell (sent self.now) q) ≡ length (cell (back self.now) q) + result };

    /// How many parcels may still be sent by lane `q`: its life is 2^50.
    fn left(&self, q: usize) -> u64
        requires ready { ready self.now }
        requires range { q < length (sent self.now) }
        ensures { length (cell (sent self.now) q) + result ≡ 2 ^ 50 };

    /// Sends a parcel by lane `q`.
    fn send(&mut self, alloc: Global, q: usize, parcel: Self::Parcel)
        requires ready { ready self.old }
        requires range { q < length (sent self.old) }
        requires room { length (cell (sent self.old) q) < length (cell (back self.old) q) + room self.old }
        requires life { length (cell (sent self.old) q) < 2 ^ 50 }
        ensures ready { ready self.new }
        ensures sent { sent self.new ≡ slice_set (sent self.old) q (cell (sent self.old) q ++ parcel ∷ []) }
        ensures back { back self.new ≡ back self.old }
        ensures room { room self.new ≡ room self.old }
        ensures origin { origin self.new ≡ origin self.old };

    /// The next parcel that is back by lane `q`, if there is one.
    fn try_back(&mut self, q: usize) -> Option<Self::Parcel>
        requires ready { ready self.old }
        requires range { q < length (sent self.old) }
        ensures ready { ready self.new }
        ensures none { IfNone result (back self.new ≡ back self.old) }
        ensures some { IfSome result
            (λ x. back self.new ≡ slice_set (back self.old) q (cell (back self.old) q ++ x ∷ [])) }
        ensures sent { sent self.new ≡ sent self.old }
        ensures room { room self.new ≡ room self.old }
        ensures origin { origin self.new ≡ origin self.old };

    /// The next parcel that is back by lane `q`. It waits for it, so one is out. While it waits it sees to it that the squeue is served.
    fn back(&mut self, alloc: Global, q: usize) -> Self::Parcel
        requires ready { ready self.old }
        requires range { q < length (sent self.old) }
        requires out { length (cell (back self.old) q) < length (cell (sent self.old) q) }
        ensures ready { ready self.new }
        ensures back { back self.new ≡ slice_set (back self.old) q (cell (back self.old) q ++ result ∷ []) }
        ensures sent { sent self.new ≡ sent self.old }
        ensures room { room self.new ≡ room self.old }
        ensures origin { origin self.new ≡ origin self.old };
}
