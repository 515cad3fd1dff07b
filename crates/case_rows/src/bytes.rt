//! Bytes in hexadecimal, and texts.

ghost use Rattle.std.specs.Prelude.{◌≡◌, ◌<◌, ℕ, List, ◌++◌, map, replicate, IfOk, OnOk};
ghost use Rattle.std.specs.List.{concat};
ghost use Rattle.std.specs.String.{string_bytes};
ghost use Rattle.case_rows.specs.Spelling.{hex, hex_digit, AllSpell, LineSpells, Spells};

use crate::wrong::Wrong;
use std::alloc::{AllocError, Global};
use std::fmt::Write;

/// The value of a hexadecimal digit.
fn digit(byte: u8) -> Result<u8, Wrong>
    ensures { IfOk result (λ n. (n < 16) × (byte ≡ hex_digit n)) }
{
    match byte {
        b'0'..=b'9' => Ok(byte - b'0'),
        b'a'..=b'f' => Ok(byte - b'a' + 10),
        _ => Err(Wrong::Word),
    }
}

/// Adds the bytes of pairs of digits.
fn add_pairs(out: &mut Vec<u8>, digits: &[u8]) -> Result<(), Wrong>
    ensures { OnOk result ((bytes : List ℕ) × (digits.now ≡ hex bytes) × (out.new.items ≡ out.old.items ++ bytes)) }
{
    let mut rest = digits;
    while let [high, low, others @ ..] = rest {
        out.push(digit(*high)? * 16 + digit(*low)?)?;
        rest = others;
    }
    if rest.is_empty() {
        Ok(())
    } else {
        Err(Wrong::Word)
    }
}

/// Adds bytes so often.
fn add_often(out: &mut Vec<u8>, often: u32, bytes: &[u8]) -> Result<(), AllocError>
    ensures { OnOk result (out.new.items ≡ out.old.items ++ concat (replicate often bytes.now)) }
{
    for _ in 0..often {
        out.extend_from_slice(bytes)?;
    }
    Ok(())
}

/// Adds what a word spells: pairs of hexadecimal digits, or behind a number and a `*` so many of them.
fn add_word(out: &mut Vec<u8>, alloc: Global, word: &str) -> Result<(), Wrong>
    ensures { OnOk result ((bytes : List ℕ) × Spells word.now bytes × (out.new.items ≡ out.old.items ++ bytes)) }
{
    let Some((often, digits)) = word.split_once('*') else {
        return add_pairs(out, word.as_bytes());
    };
    let Ok(often) = often.parse::<u32>() else {
        return Err(Wrong::Word);
    };
    let mut bytes = Vec::new(alloc);
    add_pairs(&mut bytes, digits.as_bytes())?;
    Ok(add_often(out, often, bytes.as_slice())?)
}

/// Adds what words spell.
fn add_words(out: &mut Vec<u8>, alloc: Global, words: &[&str]) -> Result<(), Wrong>
    ensures { OnOk result ((bytes : List ℕ) × AllSpell (map (λ word. word.now) words.now) bytes × (out.new.items ≡ out.old.items ++ bytes)) }
{
    for word in words {
        add_word(out, alloc, word)?;
    }
    Ok(())
}

/// The bytes that the words of a line spell, each of which is pairs of hexadecimal digits, maybe behind a number and a `*`.
pub fn add_bytes(out: &mut Vec<u8>, alloc: Global, line: &str) -> Result<(), Wrong>
    ensures { OnOk result ((bytes : List ℕ) × LineSpells line.now bytes × (out.new.items ≡ out.old.items ++ bytes)) }
{
    let words: Vec<&str> = line.split(' ').collect(alloc)?;
    add_words(out, alloc, &words)
}

/// The bytes that the words of a line spell.
pub fn spelled(alloc: Global, line: &str) -> Result<Vec<u8>, Wrong>
    ensures { IfOk result (λ v. LineSpells line.now v.items) }
{
    let mut bytes = Vec::new(alloc);
    add_bytes(&mut bytes, alloc, line)?;
    Ok(bytes)
}

/// Adds bytes to a text, in hexadecimal.
pub fn add_text(out: &mut String, bytes: &[u8]) -> Result<(), AllocError>
    ensures { OnOk result (string_bytes out.new ≡ string_bytes out.old ++ hex bytes.now) }
{
    for byte in bytes {
        write!(out, "{byte:02x}")?;
    }
    Ok(())
}
