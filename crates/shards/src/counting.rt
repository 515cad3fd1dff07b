//! How many feeds each ring has had at a squeue.
use placed_parts::Parts;
use std::alloc::{AllocError, Global};

/// How many feeds a ring has had since it was put in.
#[derive(Drop)]
pub struct Counted {
    had: u32,
}

impl Counted {
    ghost use Rattle.std.specs.Prelude.{◌≡◌};
    ghost use Rattle.shards.specs.Numbering.{had_of};

    /// No feeds: what is put in for a ring whose feeds begin anew.
    pub fn none() -> Counted
        ensures { had_of result ≡ 0 }
    {
        Counted { had: 0 }
    }
}

/// So many rings, and the calls that there may be: ring, thread and number.
#[derive(Drop)]
pub struct Counting {
    pub count: u32,
    pub calls: Vec<(u32, u32, u32)>,
}

impl Parts for Counting {
    ghost use Rattle.std.specs.Prelude.{◌≡◌};
    ghost use Rattle.std.proofs.Common.{sym, ◌∙◌};
    ghost use Rattle.perimeter_core.specs.Deeds.{fed};
    ghost use Rattle.shards.specs.Numbering.{had_of, limits_of};

    type Part = Counted;

    type Origin = ();

    ghost part_stands = { λ p acts. fed acts ≡ had_of p };

    ghost limits = { limits_of };

    ghost origin = { λ _. tt };

    ghost is_part_of = { λ _ _ _. Unit {0} };

    fn fresh(&self, _alloc: Global, _c: u32) -> Result<Counted, AllocError> {
        Ok(Counted::none())
    }

    fn feed(&self, _alloc: Global, part: &mut Counted, _c: u32, _n: u32) {
        part.had += 1;
    }

    fn call(&self, _alloc: Global, _part: &mut Counted, _c: u32, _j: u32, _k: u32) {}

    ghost same_count = { λ k a b x y. x ∙ sym y };
}
