//! Numbers of the words.

ghost use Rattle.std.specs.Prelude.{◌≡◌};
ghost use Rattle.std.specs.List.{list_all};
ghost use Rattle.std.specs.Char.{is_ascii_digit};
ghost use Rattle.shell.specs.Numbers.{is_number, is_numeral, number_between, numeral};

/// Whether a text is digits and nothing else.
fn is_numeral(text: &str) -> bool
    ensures { result ≡ is_numeral text.now }
{
    !text.is_empty() && are_digits(text.as_bytes())
}

/// Whether a text is one to ten digits.
fn is_number(text: &str) -> bool
    ensures { result ≡ is_number text.now }
{
    !text.is_empty() && text.len() <= 10 && are_digits(text.as_bytes())
}

fn are_digits(bytes: &[u8]) -> bool
    ensures { result ≡ list_all is_ascii_digit bytes.now }
{
    let mut rest = bytes;
    while let [first, others @ ..] = rest {
        if !first.is_ascii_digit() {
            return false;
        }
        rest = others;
    }
    true
}

/// The number that a text of digits writes, however many they are, where it is below 2^32.
pub fn numeral(text: &str) -> Option<u32>
    ensures { result ≡ numeral text.now }
{
    if !is_numeral(text) {
        return None;
    }
    match text.parse::<u32>() {
        Ok(value) => Some(value),
        Err(_) => None,
    }
}

/// The number that a text of one to ten digits writes, where it is from `least` to `most`.
pub fn number_between(text: &str, least: u32, most: u32) -> Option<u32>
    ensures { result ≡ number_between least most text.now }
{
    if !is_number(text) {
        return None;
    }
    match text.parse::<u32>() {
        Ok(value) if least <= value && value <= most => Some(value),
        _ => None,
    }
}
