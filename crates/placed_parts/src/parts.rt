//! What the parts of a resident have in common, and what a feed and a call make of one of them.
ghost use Rattle.std.specs.Prelude.{◌≡◌, ℕ, ◌<◌, List, [], ◌∷◌, ◌++◌, Contains, IfOk, length, slice_index};
ghost use Rattle.perimeter_core.specs.declared.entries.Act.{Act};
ghost use Rattle.perimeter_core.specs.declared.entries.Act.TheVariants as Did;
ghost use Rattle.perimeter_core.specs.History.{Limits};
ghost use Rattle.perimeter_core.specs.Deeds.{fed};
ghost use Rattle.placed_parts.specs.Standing.{HasHad, HasFed};

use std::alloc::{AllocError, Global};

/// What all parts share, and only read. A part stands for lists of acts, as a resident does for each of its blocks; it need not
/// store them.
pub trait Parts {
    /// The block of one connection.
    type Part: Drop;
    /// What the residents of one run have in common, for contracts alone.
    type Origin;

    /// The lists of acts for which a part stands.
    ghost part_stands: { Self.Part → List Act → Type 0 };

    /// How many feeds each connection may have, how often it may leave, and which calls there are.
    ghost limits: { Self → Limits };

    /// What it has in common with what other residents of the run share.
    ghost origin: { Self → Self.Origin };

    /// Which parts are those of a connection, by its number, where the residents have this origin.
    ghost is_part_of: { Self.Origin → ℕ → Self.Part → Type 0 };

    /// The part of connection `c`, to which nothing was done.
    fn fresh(&self, alloc: Global, c: u32) -> Result<Self::Part, AllocError>
        requires range { c < length (limits self.now).feeds }
        ensures stands { IfOk result (λ part. part_stands part []) }
        ensures owner { IfOk result (λ part. is_part_of (origin self.now) c part) };

    /// Does feed `n` of connection `c`, which is the next one of its part. Want of memory is the part's to record.
    fn feed(&self, alloc: Global, part: &mut Self::Part, c: u32, n: u32)
        requires owner { is_part_of (origin self.now) c part.old }
        requires next { HasFed (part_stands part.old) n }
        requires range { c < length (limits self.now).feeds }
        requires limit { n < slice_index (limits self.now).feeds c }
        ensures owner { is_part_of (origin self.now) c part.new }
        ensures stands { (had : List Act) → part_stands part.old had → part_stands part.new (had ++ Did.Feed n ∷ []) };

    /// Makes call `k` of thread `j` on connection `c`. A call that the part has had already is allowed.
    fn call(&self, alloc: Global, part: &mut Self::Part, c: u32, j: u32, k: u32)
        requires owner { is_part_of (origin self.now) c part.old }
        requires stood { HasHad (part_stands part.old) }
        requires exists { Contains (limits self.now).calls (c, j, k) }
        ensures owner { is_part_of (origin self.now) c part.new }
        ensures stands { (had : List Act) → part_stands part.old had → part_stands part.new (had ++ Did.Call j k ∷ []) };

    // Whatever a part stands for, the feeds are as many. They are numbered from 0 on.
    ghost same_count: { (p : Self.Part) (a b : List Act) → part_stands p a → part_stands p b → fed a ≡ fed b };
}
