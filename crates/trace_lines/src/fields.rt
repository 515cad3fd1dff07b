//! The fields of a line: numbers in decimal without leading zeros, and what ends them. Each function gives what the front of a text is, and
//! what stands behind it.

ghost use Rattle.std.specs.Prelude.{◌≡◌, ℕ, ◌+◌, ◌*◌, ◌^◌, ◌<◌, ◌≤◌, ◌-◌, true, false, List, ◌∷◌, ◌++◌, MatchOption, not};
ghost use Rattle.std.specs.Char.{is_ascii_digit};
ghost use Rattle.std.specs.Fmt.{decimal};
ghost use Rattle.trace_lines.specs.Fields.{BeginsWithNumber, ends_number};

/// What stands behind this byte, where the text begins with it.
pub fn behind_byte(text: &[u8], byte: u8) -> Option<&[u8]>
    ensures { MatchOption result ((rest : List ℕ) → text.now ≡ byte ∷ rest → ⊥) (λ rest. text.now ≡ byte ∷ rest.now) }
{
    match text {
        [first, rest @ ..] if *first == byte => Some(rest),
        _ => None,
    }
}

/// The number below 2^64 with all digits that the text begins with.
pub fn number(text: &[u8]) -> Option<(u64, &[u8])>
    ensures { MatchOption result ((n : ℕ) (rest : List ℕ) → n < 2 ^ 64 → BeginsWithNumber text.now n rest → ⊥)
        (λ r. (r.0 < 2 ^ 64) × BeginsWithNumber text.now r.0 r.1.now) }
{
    let [first, rest @ ..] = text else {
        return None;
    };
    if !first.is_ascii_digit() {
        return None;
    }
    if *first == b'0' {
        return if begins_with_digit(rest) {
            None
        } else {
            Some((0, rest))
        };
    }
    more_digits(u64::from(*first - b'0'), rest)
}

/// The number whose first digits are this value, and whose others the text begins with.
fn more_digits(value: u64, text: &[u8]) -> Option<(u64, &[u8])>
    requires { 0 < value }
    ensures { MatchOption result
        ((n : ℕ) (rest : List ℕ) → n < 2 ^ 64 → BeginsWithNumber (decimal value ++ text.now) n rest → ⊥)
        (λ r. (r.0 < 2 ^ 64) × BeginsWithNumber (decimal value ++ text.now) r.0 r.1.now) }
{
    let mut value = value;
    let mut rest = text;
    while let [digit, others @ ..] = rest {
        if !digit.is_ascii_digit() {
            break;
        }
        let Some(more) = with_digit(value, *digit) else {
            return None;
        };
        value = more;
        rest = others;
    }
    Some((value, rest))
}

/// The value with one more digit behind it.
fn with_digit(value: u64, digit: u8) -> Option<u64>
    requires { is_ascii_digit digit ≡ true }
    ensures { MatchOption result (2 ^ 64 ≤ 10 * value + (digit - 48)) (λ n. (n ≡ 10 * value + (digit - 48)) × (n < 2 ^ 64)) }
{
    value.checked_mul(10)?.checked_add(u64::from(digit - b'0'))
}

fn begins_with_digit(text: &[u8]) -> bool
    ensures { result ≡ not (ends_number text.now) }
{
    match text {
        [first, ..] => first.is_ascii_digit(),
        [] => false,
    }
}

/// The same for a number below 2^32.
pub fn small(text: &[u8]) -> Option<(u32, &[u8])>
    ensures { MatchOption result ((n : ℕ) (rest : List ℕ) → n < 2 ^ 32 → BeginsWithNumber text.now n rest → ⊥)
        (λ r. (r.0 < 2 ^ 32) × BeginsWithNumber text.now r.0 r.1.now) }
{
    let (value, rest) = number(text)?;
    match u32::try_from(value) {
        Ok(value) => Some((value, rest)),
        Err(_) => None,
    }
}

/// The number below 2^64 that the text begins with, where this byte stands behind it, and what stands behind the byte.
pub fn number_to(text: &[u8], end: u8) -> Option<(u64, &[u8])>
    requires { is_ascii_digit end ≡ false }
    ensures { MatchOption result
        ((n : ℕ) (rest : List ℕ) → n < 2 ^ 64 → text.now ≡ decimal n ++ end ∷ rest → ⊥)
        (λ r. (r.0 < 2 ^ 64) × (text.now ≡ decimal r.0 ++ end ∷ r.1.now)) }
{
    let Some((n, rest)) = number(text) else {
        return None;
    };
    let Some(others) = behind_byte(rest, end) else {
        return None;
    };
    Some((n, others))
}
