//! What the rings of a squeue share.
ghost use Rattle.std.specs.Prelude.{◌≡◌, ◌++◌, ◌∷◌, [], ℕ, List};

use std::alloc::Global;

/// What all rings of a squeue share. Whoever owns the squeue has it, so one parcel is taken at a time.
pub trait Shared {
    /// What a ring brings at once, and gets back.
    type Parcel: Drop;
    /// What no parcel changes, for contracts alone.
    type Origin;

    /// What no parcel changes.
    ghost origin: { Self → Self.Origin };

    /// It is made of these parcels, oldest first: each with its ring, as it came and as it went back.
    ghost is_made: { List (ℕ × (Self.Parcel × Self.Parcel)) → Self → Type 0 };

    /// Takes a parcel of a ring, and leaves in it what the ring is to get back. Want of memory is its own to record or to answer.
    fn take(&mut self, alloc: Global, ring: u32, parcel: &mut Self::Parcel)
        ensures origin { origin self.new ≡ origin self.old }
        ensures made { (log : List (ℕ × (Self.Parcel × Self.Parcel))) → is_made log self.old
            → is_made (log ++ (ring, (parcel.old, parcel.new)) ∷ []) self.new };
}
