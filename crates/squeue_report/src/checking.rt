//! The check value of a text that nobody keeps.

ghost use Rattle.std.specs.Prelude.{[], ◌≡◌, ◌∷◌, ◌++◌, ℕ, List};
ghost use Rattle.squeue_report.specs.SummaryText.{check_behind, check_of};

use perimeter_core::Known;
use sq_base::Octets;
use std::convert::Infallible;
use text_digits::TextEnd;

/// The multiplier of the 64-bit FNV hash.
const MULTIPLIER: u64 = 1_099_511_628_211;

/// Its second, third and fourth power, of which the 64 lower bits count.
const SECOND: u64 = 956575116354345;

const THIRD: u64 = 624165263380053675;

const FOURTH: u64 = 11527715348014283921;

/// The end of a text of which the check value alone is kept.
#[derive(Drop)]
pub(crate) struct Checked {
    check: u64,
    text: Known<Octets>,
    ghost is: { check ≡ check_of text.value },
}

impl Checked {
    /// The end of a text that is empty yet.
    #[tactic(auto, using(crate::proofs::CheckValues::check_none))]
    pub(crate) fn new() -> Checked
        ensures { result.text.value ≡ [] }
    {
        Checked {
            check: 0,
            text: heard_none(),
        }
    }

    /// The check value so far.
    pub(crate) fn value(&self) -> u64
        ensures { result ≡ check_of self.now.text.value }
    {
        self.check
    }
}

impl TextEnd for Checked {
    ghost use Rattle.std.specs.Prelude.{None, ⊤};

    type Fault = Infallible;

    ghost told = { λ c. record { place = 0; was = None; faults = 0; text = c.text.value } };

    ghost has_room = { λ _ _. ⊤ };

    fn reserve(&mut self, _more: usize) -> Result<(), Infallible> {
        Ok(())
    }

    #[tactic(auto, using(crate::proofs::CheckValues::check_more), unfolding(text_digits::specs::Told::more))]
    fn put(&mut self, bytes: &[u8]) -> Result<(), Infallible> {
        self.check = check_behind(self.check, bytes);
        self.text = heard_more(&self.text, bytes);
        Ok(())
    }

    ghost less = { λ _ _ _ h. h };
}

/// The check value of a text, from that of what stands before it: each byte in turn, at the multiplier of the 64-bit FNV hash.
fn check_behind(before: u64, text: &[u8]) -> u64
    ensures { result ≡ check_behind before text.now }
{
    let mut check = before;
    let mut rest = text;
    while let [a, b, c, d, behind @ ..] = rest {
        check = check_four(check, *a, *b, *c, *d);
        rest = behind;
    }
    check_each(check, rest)
}

/// The check value behind four bytes, by the powers of the multiplier: so no byte waits for the one before it.
fn check_four(before: u64, a: u8, b: u8, c: u8, d: u8) -> u64
    ensures { result ≡ check_behind before (a ∷ b ∷ c ∷ d ∷ []) }
{
    let front = before
        .wrapping_mul(FOURTH)
        .wrapping_add(u64::from(a).wrapping_mul(THIRD));
    let back = u64::from(b)
        .wrapping_mul(SECOND)
        .wrapping_add(u64::from(c).wrapping_mul(MULTIPLIER));
    front.wrapping_add(back).wrapping_add(u64::from(d))
}

/// The check value behind these bytes, one by one.
#[tactic(auto, unfolding(crate::specs::SummaryText::check_behind))]
fn check_each(before: u64, text: &[u8]) -> u64
    ensures { result ≡ check_behind before text.now }
{
    let mut check = before;
    for byte in text {
        check = check
            .wrapping_mul(MULTIPLIER)
            .wrapping_add(u64::from(*byte));
    }
    check
}

// A text, for contracts alone.
fn heard_more(text: &Known<Octets>, bytes: &[u8]) -> Known<Octets>
    ensures { result.value ≡ text.now.value ++ bytes.now }
{
    heard_as(text, bytes)
}

// What it is made of is passed beside it, since a pick sees the call's arguments alone.
fn heard_as(_text: &Known<Octets>, _bytes: &[u8]) -> Known<Octets>
    ghost picked: { List ℕ }
    ensures { result.value ≡ picked }
{
    Known::pick()
}

// No text.
fn heard_none() -> Known<Octets>
    ensures { result.value ≡ [] }
{
    Known::pick()
}
