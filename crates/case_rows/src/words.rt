//! The words of a line, one after another.

ghost use Rattle.std.specs.Prelude.{◌≡◌, ◌==◌, ◌&&◌, ◌≤◌, ◌++◌, ◌/◌, ◌%◌, ◌≢◌, List, [], None, if◌then◌else◌, length, OnOk};
ghost use Rattle.std.specs.List.{list_all, list_any};
ghost use Rattle.std.specs.Option.{ok_or};
ghost use Rattle.std.specs.Str.{bytes_eq};
ghost use Rattle.std.specs.String.{string_bytes};
ghost use Rattle.case_rows.specs.Words.{behind_word, first_word, flags_in, letters, letters_of, number_in};
ghost use Rattle.case_rows.specs.declared.wrong.Wrong.TheVariants.{Word};

use crate::wrong::Wrong;
use std::alloc::AllocError;
use std::marker::Model;

/// What of a line wasn't read yet.
#[derive(Drop)]
pub struct RowWords<'a> {
    rest: &'a str,
}

impl<'a> Model for RowWords<'a> {
    ghost use Rattle.std.specs.Prelude.{ℕ, List};

    ghost Value = { List ℕ };

    ghost view = { λ w. w.rest.now };
}

/// What stands before the first blank, or all; and what stands behind it.
pub(crate) fn halves(line: &str) -> (&str, &str)
    ensures { (result.0.now ≡ first_word line.now) × (result.1.now ≡ behind_word line.now) }
{
    line.split_once(' ').unwrap_or((line, ""))
}

/// The number below 2^64 that a word writes.
pub(crate) fn number_of(word: &str) -> Option<u64>
    ensures { result ≡ number_in 64 word.now }
{
    word.parse::<u64>().ok()
}

impl<'a> RowWords<'a> {
    /// A line, of which nothing was read.
    pub fn of(line: &'a str) -> RowWords<'a>
        ensures { result ≡ line.now }
    {
        RowWords { rest: line }
    }

    /// The next word, without the space behind it; empty at the end of the line.
    pub fn word(&mut self) -> &'a str
        ensures word { result.now ≡ first_word self.old }
        ensures rest { self.new ≡ behind_word self.old }
    {
        let (word, rest) = halves(self.rest);
        self.rest = rest;
        word
    }

    /// All that wasn't read.
    pub fn rest(&self) -> &'a str
        ensures { result.now ≡ self.now }
    {
        self.rest
    }

    /// Whether all was read.
    pub fn is_done(&self) -> bool
        ensures { result ≡ (length self.now == 0) }
    {
        self.rest.is_empty()
    }

    /// The next word, a number of 64 bits.
    pub fn long(&mut self) -> Result<u64, Wrong>
        ensures number { result ≡ ok_or (number_in 64 (first_word self.old)) Word }
        ensures rest { self.new ≡ behind_word self.old }
    {
        number_of(self.word()).ok_or(Wrong::Word)
    }

    /// The next word, a number of 32 bits.
    pub fn number(&mut self) -> Result<u32, Wrong>
        ensures number { result ≡ ok_or (number_in 32 (first_word self.old)) Word }
        ensures rest { self.new ≡ behind_word self.old }
    {
        self.word().parse::<u32>().ok().ok_or(Wrong::Word)
    }

    /// The next word, a number of 16 bits.
    pub fn short(&mut self) -> Result<u16, Wrong>
        ensures number { result ≡ ok_or (number_in 16 (first_word self.old)) Word }
        ensures rest { self.new ≡ behind_word self.old }
    {
        self.word().parse::<u16>().ok().ok_or(Wrong::Word)
    }

    /// The last word, a number of 32 bits.
    pub fn last(&mut self) -> Result<u32, Wrong>
        ensures number { result ≡ ok_or (if length (behind_word self.old) == 0 then number_in 32 (first_word self.old) else None) Word }
        ensures rest { self.new ≡ behind_word self.old }
    {
        let number = self.number()?;
        if self.is_done() {
            Ok(number)
        } else {
            Err(Wrong::Word)
        }
    }

    /// Whether this is the next word.
    pub fn begin_with(&self, word: &str) -> bool
        ensures { result ≡ bytes_eq (first_word self.now) word.now }
    {
        halves(self.rest).0 == word
    }

    /// The next word, control bits.
    pub fn flags(&mut self) -> Result<u8, Wrong>
        ensures flags { result ≡ ok_or (flags_in (first_word self.old)) Word }
        ensures rest { self.new ≡ behind_word self.old }
    {
        flags_of(self.word())
    }
}

/// Whether all of these are letters of control bits.
fn are_letters(word: &[u8]) -> bool
    ensures { result ≡ list_all (λ c. list_any (λ l. l.1 == c) letters) word.now }
{
    for letter in word {
        if !b"FSRPAU".contains(letter) {
            return false;
        }
    }
    true
}

/// The bit of a letter, where the word has it.
fn bit_in(word: &[u8], bit: u8, letter: u8) -> u8
    ensures value { result ≡ (if list_any (λ c. c == letter) word.now then bit else 0) }
    ensures small { result ≤ bit }
{
    if word.contains(&letter) { bit } else { 0 }
}

/// The control bits that letters name; `-` is none.
pub fn flags_of(word: &str) -> Result<u8, Wrong>
    ensures { result ≡ ok_or (flags_in word.now) Word }
{
    if word == "-" {
        return Ok(0);
    }
    let word = word.as_bytes();
    if !are_letters(word) {
        return Err(Wrong::Word);
    }
    let first = bit_in(word, 1, b'F') + bit_in(word, 2, b'S') + bit_in(word, 4, b'R');
    Ok(first + bit_in(word, 8, b'P') + bit_in(word, 16, b'A') + bit_in(word, 32, b'U'))
}

/// Adds a letter where its bit is among these.
fn add_letter(out: &mut String, flags: u8, bit: u8, letter: &str) -> Result<(), AllocError>
    requires { bit ≢ 0 }
    ensures { OnOk result (string_bytes out.new ≡ string_bytes out.old ++ (if flags / bit % 2 == 1 then letter.now else [])) }
{
    if flags / bit % 2 == 1 {
        out.push_str(letter)?;
    }
    Ok(())
}

/// Adds the letters of control bits to a text, those of lower bits first.
pub fn add_flags(out: &mut String, flags: u8) -> Result<(), AllocError>
    ensures { OnOk result (string_bytes out.new ≡ string_bytes out.old ++ letters_of flags) }
{
    if flags == 0 {
        return out.push_str("-");
    }
    add_letter(out, flags, 1, "F")?;
    add_letter(out, flags, 2, "S")?;
    add_letter(out, flags, 4, "R")?;
    add_letter(out, flags, 8, "P")?;
    add_letter(out, flags, 16, "A")?;
    add_letter(out, flags, 32, "U")
}
