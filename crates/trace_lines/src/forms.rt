//! Forms of lines: a text with blanks, each written `#`, in which numbers below 2^32 stand in decimal without leading zeros.

ghost use Rattle.std.specs.Prelude.{◌≡◌, ℕ, ◌^◌, ◌<◌, true, List, [], ◌∷◌, ◌++◌, length, MatchOption};
ghost use Rattle.trace_lines.specs.Forms.{filled, is_form, blank_count, AreSmall};

use crate::fields::{behind_byte, small};

/// The numbers in the form's blanks, where the text begins with the form, and what stands behind it.
pub fn by_form<'a, const N: usize>(text: &'a [u8], form: &[u8]) -> Option<([u32; N], &'a [u8])>
    requires form { is_form form.now ≡ true }
    requires blanks { blank_count form.now ≡ N }
    ensures { MatchOption result
        ((ns rest : List ℕ) → length ns ≡ N → AreSmall ns → text.entry.now ≡ filled form.now ns ++ rest → ⊥)
        (λ r. (length r.0 ≡ N) × AreSmall r.0 × (text.entry.now ≡ filled form.now r.0 ++ r.1.now)) }
{
    let mut numbers = [0; N];
    let mut count = 0;
    let mut rest = text;
    for b in form {
        if *b == b'#' {
            let Some((n, others)) = small(rest) else {
                return None;
            };
            numbers[count] = n;
            count += 1;
            rest = others;
        } else {
            let Some(others) = behind_byte(rest, *b) else {
                return None;
            };
            rest = others;
        }
    }
    Some((numbers, rest))
}

/// The number in the one blank of the form, and what stands behind the form.
pub fn lone_number<'a>(text: &'a [u8], form: &[u8]) -> Option<(u32, &'a [u8])>
    requires form { is_form form.now ≡ true }
    requires blanks { blank_count form.now ≡ 1 }
    ensures { MatchOption result
        ((p : ℕ) (rest : List ℕ) → p < 2 ^ 32 → text.entry.now ≡ filled form.now (p ∷ []) ++ rest → ⊥)
        (λ r. (r.0 < 2 ^ 32) × (text.entry.now ≡ filled form.now (r.0 ∷ []) ++ r.1.now)) }
{
    let Some(found) = by_form::<1>(text, form) else {
        return None;
    };
    let numbers = found.0;
    Some((numbers[0], found.1))
}

/// What stands behind a text without blanks.
pub fn behind_word<'a>(text: &'a [u8], word: &[u8]) -> Option<&'a [u8]>
    requires form { is_form word.now ≡ true }
    requires blanks { blank_count word.now ≡ 0 }
    ensures { MatchOption result
        ((rest : List ℕ) → text.entry.now ≡ filled word.now [] ++ rest → ⊥)
        (λ rest. text.entry.now ≡ filled word.now [] ++ rest.now) }
{
    let Some(found) = by_form::<0>(text, word) else {
        return None;
    };
    Some(found.1)
}
