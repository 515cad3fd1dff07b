//! A row and its fields. Both are parts of the text that they were read from.

ghost use Rattle.std.specs.Prelude.{◌≡◌, ◌∷◌, [], is_some, map, option_map, true, unwrap_or, IfOk, IfSome, OnOk};
ghost use Rattle.std.specs.List.{list_all};
ghost use Rattle.std.specs.Result.{result_ok};
ghost use Rattle.std.specs.String.{string_bytes};
ghost use Rattle.case_rows.specs.Rows.{is_among, lines_named, only_line, separator_of, words_in, AreNumbers, IsNumber, WriteAll};

use crate::fault::RowFault;
use std::alloc::{AllocError, Global};

/// Lines with a name.
#[derive(Debug, Drop)]
pub struct Field<'a> {
    pub name: &'a str,
    pub lines: Vec<&'a str>,
}

/// What is given and what is wanted, field by field. No two fields have one name.
#[derive(Debug, Drop)]
pub struct Row<'a> {
    pub name: &'a str,
    /// The line of the file that begins the row, counted from 1.
    pub at: usize,
    pub fields: Vec<Field<'a>>,
}

/// The lines of the field with this name.
pub fn named<'f, 'a>(fields: &'f [Field<'a>], name: &str) -> Option<&'f [&'a str]>
    ensures { option_map (λ lines. lines.now) result ≡ lines_named fields.now name.now }
{
    for field in fields {
        if field.name == name {
            return Some(field.lines.as_slice());
        }
    }
    None
}

impl<'a> Row<'a> {
    /// Whether the row has this field.
    pub fn has(&self, name: &str) -> bool
        ensures { result ≡ is_some (lines_named self.now.fields.items name.now) }
    {
        named(&self.fields, name).is_some()
    }

    /// The lines of a field, or none where the row hasn't it.
    pub fn lines<'s>(&'s self, name: &str) -> &'s [&'a str]
        ensures { result.now ≡ unwrap_or (lines_named self.now.fields.items name.now) [] }
    {
        for field in &self.fields {
            if field.name == name {
                return field.lines.as_slice();
            }
        }
        &[]
    }

    /// The only line of a field, or `other` where the row hasn't the field. An error where the field has no line, or several.
    pub fn text(&self, alloc: Global, name: &str, other: &'a str) -> Result<&'a str, RowFault>
        ensures { option_map (λ text. text.now) (result_ok result) ≡ only_line (lines_named self.now.fields.items name.now) other.now }
    {
        match named(&self.fields, name) {
            None => Ok(other),
            Some([line]) => Ok(line),
            Some(_) => Err(RowFault::told(alloc, &[name, " isn't one line"])),
        }
    }

    /// The number that a field is, or `other` where the row hasn't the field. An error where the field is no number.
    pub fn number(&self, alloc: Global, name: &str, other: u64) -> Result<u64, RowFault>
        ensures { IfOk result (λ n. IsNumber (lines_named self.now.fields.items name.now) other n) }
    {
        if !self.has(name) {
            return Ok(other);
        }
        let text = self.text(alloc, name, "")?;
        match text.parse::<u64>() {
            Ok(number) => Ok(number),
            Err(_) => Err(RowFault::told(alloc, &[name, " isn't a number"])),
        }
    }

    /// The numbers of a field, between blanks; none where the row hasn't the field. An error where one is no number.
    pub fn numbers(&self, alloc: Global, name: &str) -> Result<Vec<u64>, RowFault>
        ensures { IfOk result (λ v. AreNumbers (lines_named self.now.fields.items name.now) v.items) }
    {
        let text = self.text(alloc, name, "")?;
        if text.is_empty() {
            return Ok(Vec::new(alloc));
        }
        let words: Vec<&str> = text.split(' ').collect(alloc)?;
        match numbers_in(alloc, &words)? {
            Some(numbers) => Ok(numbers),
            None => Err(RowFault::told(alloc, &[name, " isn't made of numbers"])),
        }
    }

    /// The two numbers of a field. An error where it isn't made of two.
    pub fn pair(&self, alloc: Global, name: &str) -> Result<(u64, u64), RowFault>
        ensures { IfOk result (λ r. AreNumbers (lines_named self.now.fields.items name.now) (r.0 ∷ r.1 ∷ [])) }
    {
        match self.numbers(alloc, name)?.as_slice() {
            [first, second] => Ok((*first, *second)),
            _ => Err(RowFault::told(alloc, &[name, " isn't two numbers"])),
        }
    }

    /// An error where the row has a field that isn't among these.
    pub fn expect_fields(&self, alloc: Global, known: &[&str]) -> Result<(), RowFault>
        ensures { OnOk result (list_all (λ f. is_among known.now f.name.now) self.now.fields.items ≡ true) }
    {
        for field in &self.fields {
            if !known.contains(&field.name) {
                let name = field.name;
                return Err(RowFault::Told(format!(in alloc; "no field is called {name}")?));
            }
        }
        Ok(())
    }
}

/// The numbers that these words are, where each is one.
fn numbers_in(alloc: Global, words: &[&str]) -> Result<Option<Vec<u64>>, AllocError>
    ensures { IfOk result (λ o. IfSome o (λ v. WriteAll (map (λ word. word.now) words.now) v.items)) }
{
    let mut numbers = Vec::new(alloc);
    for word in words {
        match word.parse::<u64>() {
            Ok(number) => numbers.push(number)?,
            Err(_) => return Ok(None),
        }
    }
    Ok(Some(numbers))
}

/// The words of a line, between blanks; or between bars where the line has any, so that words may be empty or have blanks. `none` stands
/// for no words.
pub fn words_of(alloc: Global, line: &str) -> Result<Vec<String>, AllocError>
    ensures { IfOk result (λ v. map (λ word. string_bytes word) v.items ≡ words_in line.now) }
{
    if line == "none" {
        return Ok(Vec::new(alloc));
    }
    let words: Vec<&str> = line.split(separator_of(line)).collect(alloc)?;
    owned(alloc, &words)
}

/// What stands between the words of a line.
fn separator_of(line: &str) -> char
    ensures { result ≡ separator_of line.now }
{
    if line.as_bytes().contains(&b'|') {
        '|'
    } else {
        ' '
    }
}

/// Words of one's own.
fn owned(alloc: Global, words: &[&str]) -> Result<Vec<String>, AllocError>
    ensures { IfOk result (λ v. map (λ word. string_bytes word) v.items ≡ map (λ word. word.now) words.now) }
{
    let mut all = Vec::new(alloc);
    for word in words {
        all.push(String::from_str(alloc, word)?)?;
    }
    Ok(all)
}
