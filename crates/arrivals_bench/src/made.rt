//! A source that makes its items itself, so that no input and no clock is measured.
ghost use Rattle.std.specs.Prelude.{◌≡◌, ◌≤◌, []};
ghost use Rattle.squeue_arrivals.specs.Giving.{given_by};

use squeue_arrivals::{Arrival, Arrivals, GivenItems};

/// So many items of so many keys. Item `n` of a source is made of the number that `mixed` gives for `n` and the number of the source: its upper half
/// decides on the key, its lowest ten bits are the amount.
#[derive(Drop)]
pub struct MadeItems {
    number: u32,
    keys: u32,
    items: u32,
    pub count: u32,
    given: GivenItems<u32>,
    ghost range: { (1 ≤ keys) × (count ≤ items) },
}

impl MadeItems {
    ghost use Rattle.arrivals_bench.specs.Making.{count_in, items_in};

    /// The source of this number, which has made nothing.
    pub fn of(number: u32, keys: u32, items: u32) -> MadeItems
        requires { 1 ≤ keys }
        ensures items { items_in result ≡ items }
        ensures given { given_by result.given ≡ [] }
    {
        MadeItems {
            number,
            keys,
            items,
            count: 0,
            given: GivenItems::none(),
        }
    }

    // The next item, where one is left.
    fn made(&mut self) -> Arrival<u32>
        ensures items { items_in self.new ≡ items_in self.old }
        ensures given { self.new.given ≡ self.old.given }
        ensures over { result ≡ Arrival.End → count_in self.new ≡ items_in self.new }
    {
        if self.count == self.items {
            return Arrival::End;
        }
        let mixed = mixed(self.number, self.count);
        self.count += 1;
        Arrival::Item((mixed >> 32) % u64::from(self.keys), (mixed & 1_023) as u32)
    }
}

// The 64-bit number of item `n` of a source: the output function of splitmix64, so that each bit depends on all of its input.
fn mixed(number: u32, n: u32) -> u64 {
    let seed = u64::from(number) << 32 | u64::from(n);
    let one = seed.wrapping_add(0x9E37_79B9_7F4A_7C15);
    let two = (one ^ one >> 30).wrapping_mul(0xBF58_476D_1CE4_E5B9);
    let three = (two ^ two >> 27).wrapping_mul(0x94D0_49BB_1331_11EB);
    three ^ three >> 31
}

impl Arrivals for MadeItems {
    ghost use Rattle.arrivals_bench.specs.Making.{count_in, items_in};

    type Item = u32;

    type Origin = u32;

    ghost origin = { items_in };

    ghost given = { λ s. given_by s.given };

    ghost is_over = { λ s. count_in s ≡ items_in s };

    fn next(&mut self) -> Arrival<u32> {
        let arrival = self.made();
        self.given = self.given.and(&arrival);
        arrival
    }

    fn stop(&mut self) {}
}
