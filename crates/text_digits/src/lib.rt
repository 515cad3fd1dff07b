//! Numbers and bytes as digits, at the end of a text of bytes.
//!
//! Digits are made without any format machinery, so that a report may have millions of them. A call fails only where the text's end
//! does: one that grows in memory for want of it, and none that appends digits alone where there is room.
#![tactic(auto)]

ghost use Rattle.std.specs.Prelude.{◌≡◌, ◌<◌, slice_index, ◌+◌, ◌*◌, ◌≤◌, ◌++◌, IsOk, OnOk, if◌then◌else◌, is_ok, length};
ghost use Rattle.hex.specs.Hex.{encode_lower, lower_digits};
ghost use Rattle.text_digits.specs.Told.{more};

mod ends;
mod pieces;

pub use ends::TextEnd;
use itoa::{Buffer, Integer};
pub use pieces::Pieces;

/// Appends a number in decimal. After an error the text is as it was.
///
/// # Example
///
/// ```
/// push_decimal(&mut text, 4_294_967_296u64)?;
/// push_field(&mut text, b" port ", 65_535u16)?;
/// push_hex(&mut text, &[0, 10, 255])?;
/// ```
pub fn push_decimal<T: TextEnd, I: Integer>(text: &mut T, n: I) -> Result<(), T::Fault>
    ensures items { T.told text.new ≡ (if is_ok result then more (T.told text.old) (I.text n) else T.told text.old) }
    ensures succeeds { T.has_room text.old (length (I.text n)) → IsOk result }
{
    text.put(Buffer::new().format(n).as_bytes())
}

/// Appends a word, and behind it a number in decimal. After an error nothing is said of the text.
#[tactic(auto, using(crate::proofs::Joins::joins))]
pub fn push_field<T: TextEnd, I: Integer>(text: &mut T, word: &[u8], n: I) -> Result<(), T::Fault>
    ensures { OnOk result (T.told text.new ≡ more (T.told text.old) (word.now ++ I.text n)) }
{
    text.put(word)?;
    push_decimal(text, n)
}

/// Appends each byte as two hexadecimal digits, in lower case. After an error the text is as it was.
pub fn push_hex<T: TextEnd>(text: &mut T, bytes: &[u8]) -> Result<(), T::Fault>
    ensures items { T.told text.new ≡ (if is_ok result then more (T.told text.old) (encode_lower bytes.now) else T.told text.old) }
    ensures succeeds { T.has_room text.old (2 * length bytes.now) → IsOk result }
{
    text.reserve(2 * bytes.len())?;
    let mut rest = bytes;
    while !rest.is_empty() {
        let (part, behind) = rest.split_at(rest.len().min(64));
        text.put_hex(part)?;
        rest = behind;
    }
    Ok(())
}

/// Makes the digits of at most 64 bytes, at the front of `room`.
pub(crate) fn digits_in<'r>(room: &'r mut [u8; 128], bytes: &[u8]) -> &'r [u8]
    requires { length bytes.now ≤ 64 }
    ensures { result.now ≡ encode_lower bytes.now }
{
    let digits = &mut room[..2 * bytes.len()];
    write_digits(digits, bytes);
    digits
}

/// Makes the digits of these bytes, where there is just the room: by arithmetic and not by a table, so that many are made at once.
pub(crate) fn write_digits(digits: &mut [u8], bytes: &[u8])
    requires { length digits.old ≡ 2 * length bytes.now }
    ensures { digits.new ≡ encode_lower bytes.now }
{
    for at in 0..bytes.len() {
        digits[2 * at] = digit(bytes[at] / 16);
        digits[2 * at + 1] = digit(bytes[at] % 16);
    }
}

/// The digit of a number below 16.
fn digit(n: u8) -> u8
    requires { n < 16 }
    ensures { result ≡ slice_index lower_digits n }
{
    if n < 10 { n + b'0' } else { n - 10 + b'a' }
}
