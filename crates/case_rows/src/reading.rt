//! From the text of a file to its rows.

ghost use Rattle.std.specs.Prelude.{◌≡◌, ◌<◌, ◌≤◌, ◌&&◌, ◌++◌, ◌∷◌, [], drop, is_some, length, map, true, IfOk, OnOk};
ghost use Rattle.std.specs.List.{list_any, position_or_len};
ghost use Rattle.std.specs.Str.{bytes_eq};
ghost use Rattle.case_rows.specs.Files.{begins, begins_field, field_in, fields_in, fit_fields, fit_more, fit_rows, fit_section, fit_to_come, groups, in_full, is_file, is_indented, is_more};
ghost use Rattle.case_rows.specs.Files.{is_new, lines_of, more_in_full, named_of, numbered, row_of, rows_in, rows_of, said, stands, starts, to_come};
ghost use Rattle.case_rows.specs.Words.{behind_word};

use crate::rows::{Field, Row, named};
use crate::words::halves;
use std::alloc::{AllocError, AllocFailed, Global};
use std::fmt;

/// What is wrong with a line.
#[derive(Clone, Copy, Debug, PartialEq, Eq, Drop)]
pub enum BadLine {
    /// It is indented by less than four blanks, or by a tab.
    Indented,
    /// It is an indented line with no field or part above it, or a field with no row above it.
    Nowhere,
    /// It names a row or a part, and has no name.
    NoName,
    /// An earlier row, part, or field of the row has the name.
    Again,
    /// It is `@NAME`, and no part above has the name.
    NoPart,
}

impl fmt::Display for BadLine {
    fn fmt<W: fmt::Write>(&self, f: &mut fmt::Formatter<W>) -> fmt::Result {
        write!(
            f,
            "{}",
            match self {
                BadLine::Indented => "a line is indented by four blanks or by none",
                BadLine::Nowhere => "a line that belongs to no row",
                BadLine::NoName => "a name is missing",
                BadLine::Again => "this name is taken",
                BadLine::NoPart => "no part above has this name",
            }
        )
    }
}

/// Why a file has no rows.
#[derive(Clone, Copy, Debug, PartialEq, Eq, Drop)]
pub enum Broken {
    /// Memory was missing.
    NoMemory,
    /// What is wrong with which line, counted from 1.
    Line(usize, BadLine),
}

impl From<AllocError> for Broken {
    fn from(_: AllocError) -> Broken {
        Broken::NoMemory
    }
}

impl<T: Drop> From<AllocFailed<T>> for Broken {
    fn from(_: AllocFailed<T>) -> Broken {
        Broken::NoMemory
    }
}

/// A line that says something, and its number, counted from 1.
#[derive(Clone, Copy, Drop)]
struct Said<'a> {
    at: usize,
    text: &'a str,
}

/// What was read so far.
#[derive(Drop)]
struct Reader<'a> {
    alloc: Global,
    rows: Vec<Row<'a>>,
    parts: Vec<Field<'a>>,
}

/// The rows of a file, in their order.
pub fn rows_of<'a>(alloc: Global, text: &'a str) -> Result<Vec<Row<'a>>, Broken>
    ensures rows { IfOk result (λ rows. map row_of rows.items ≡ rows_of text.now) }
    ensures fits { OnOk result (is_file text.now ≡ true) }
{
    let all: Vec<&str> = text.lines().collect(alloc)?;
    let said = said_among(alloc, &all)?;
    rows_among(alloc, &said)
}

/// The lines that say something.
fn said_among<'a>(alloc: Global, all: &[&'a str]) -> Result<Vec<Said<'a>>, AllocError>
    ensures { IfOk result (λ v. map numbered v.items ≡ said 1 (map (λ line. line.now) all.now)) }
{
    let mut lines = Vec::new(alloc);
    let mut rest = all;
    while let [text, more @ ..] = rest {
        if !(text.is_empty() || text.starts_with('#')) {
            let at = all.len() - more.len();
            lines.push(Said { at, text })?;
        }
        rest = more;
    }
    Ok(lines)
}

/// The rows of these lines.
fn rows_among<'a>(alloc: Global, lines: &[Said<'a>]) -> Result<Vec<Row<'a>>, Broken>
    ensures rows { IfOk result (λ rows. map row_of rows.items ≡ rows_in [] (groups begins (map numbered lines.now))) }
    ensures fits { OnOk result ((starts begins (map numbered lines.now) && fit_rows [] [] (groups begins (map numbered lines.now))) ≡ true) }
{
    expect_first(lines, section_len(lines))?;
    let mut reader = Reader {
        alloc,
        rows: Vec::new(alloc),
        parts: Vec::new(alloc),
    };
    let mut rest = lines;
    while let [line, more @ ..] = rest {
        reader.take(*line, more)?;
        rest = more;
    }
    Ok(reader.rows)
}

/// A line that begins nothing may not be the first.
fn expect_first(lines: &[Said<'_>], before: usize) -> Result<(), Broken>
    ensures { OnOk result (0 < length lines.now → before ≡ 0) }
{
    match lines.first() {
        Some(line) if before > 0 => Err(stray(*line)),
        _ => Ok(()),
    }
}

/// Whether a line is a further one of a field or a part.
fn is_more(line: &str) -> bool
    ensures { result ≡ is_more line.now }
{
    line.starts_with("    ")
}

/// How many lines stand before the first that begins a row or a part.
fn section_len(lines: &[Said<'_>]) -> usize
    ensures value { result ≡ position_or_len begins (map numbered lines.now) }
    ensures bound { result ≤ length lines.now }
{
    let mut len = 0;
    for line in lines {
        let word = halves(line.text).0;
        if word == "row" || word == "part" {
            return len;
        }
        len += 1;
    }
    len
}

/// How many lines stand before the first that isn't a further one.
fn body_len(lines: &[Said<'_>]) -> usize
    ensures value { result ≡ position_or_len begins_field (map numbered lines.now) }
    ensures bound { result ≤ length lines.now }
{
    let mut len = 0;
    for line in lines {
        if !is_more(line.text) {
            return len;
        }
        len += 1;
    }
    len
}

/// Adds a line; or the lines of the part that it names.
fn add<'a>(
    lines: &mut Vec<&'a str>,
    parts: &[Field<'a>],
    at: usize,
    line: &'a str,
) -> Result<(), Broken>
    ensures adds { OnOk result (map (λ l. l.now) lines.new.items ≡ map (λ l. l.now) lines.old.items ++ in_full (map named_of parts.now) line.now) }
    ensures stands { OnOk result (stands (map named_of parts.now) line.now ≡ true) }
{
    let Some(name) = line.strip_prefix('@') else {
        lines.push(line)?;
        return Ok(());
    };
    let Some(more) = named(parts, name) else {
        return Err(Broken::Line(at, BadLine::NoPart));
    };
    Ok(lines.extend_from_slice(more)?)
}

/// Adds further lines.
fn add_more<'a>(
    lines: &mut Vec<&'a str>,
    parts: &[Field<'a>],
    more: &[Said<'a>],
) -> Result<(), Broken>
    ensures adds { OnOk result (map (λ l. l.now) lines.new.items ≡ map (λ l. l.now) lines.old.items ++ more_in_full (map named_of parts.now) (map numbered more.now)) }
    ensures fits { OnOk result (fit_more (map named_of parts.now) (map numbered more.now) ≡ true) }
{
    for line in more {
        add_unindented(lines, parts, *line)?;
    }
    Ok(())
}

/// Adds a further line.
fn add_unindented<'a>(
    lines: &mut Vec<&'a str>,
    parts: &[Field<'a>],
    line: Said<'a>,
) -> Result<(), Broken>
    ensures adds { OnOk result (map (λ l. l.now) lines.new.items ≡ map (λ l. l.now) lines.old.items ++ in_full (map named_of parts.now) (drop 4 line.entry.text.now)) }
    ensures fits { OnOk result ((is_more line.entry.text.now && stands (map named_of parts.now) (drop 4 line.entry.text.now)) ≡ true) }
{
    match line.text.strip_prefix("    ") {
        Some(text) => add(lines, parts, line.at, text),
        None => Err(stray(line)),
    }
}

/// A field, with the text behind its name and its further lines.
fn field_of<'a>(
    alloc: Global,
    parts: &[Field<'a>],
    line: Said<'a>,
    body: &[Said<'a>],
) -> Result<Field<'a>, Broken>
    ensures field { IfOk result (λ f. named_of f ≡ field_in (map named_of parts.now) (numbered line.entry, map numbered body.now)) }
    ensures fits { OnOk result ((stands (map named_of parts.now) (behind_word line.entry.text.now) && fit_more (map named_of parts.now) (map numbered body.now)) ≡ true) }
{
    let (name, text) = halves(line.text);
    let mut lines = Vec::new(alloc);
    if !text.is_empty() {
        add(&mut lines, parts, line.at, text)?;
    }
    add_more(&mut lines, parts, body)?;
    Ok(Field { name, lines })
}

/// Adds the field that a line begins, if it begins one.
fn add_field<'a>(
    alloc: Global,
    fields: &mut Vec<Field<'a>>,
    parts: &[Field<'a>],
    line: Said<'a>,
    more: &[Said<'a>],
) -> Result<(), Broken>
    ensures adds { OnOk result (map named_of fields.new.items ++ fields_in (map named_of parts.now) (map numbered more.now)
        ≡ map named_of fields.old.items ++ fields_in (map named_of parts.now) (numbered line.entry ∷ map numbered more.now)) }
    ensures fits { OnOk result (fit_fields (map named_of parts.now) (map named_of fields.new.items) (groups begins_field (map numbered more.now))
        ≡ fit_fields (map named_of parts.now) (map named_of fields.old.items) (groups begins_field (numbered line.entry ∷ map numbered more.now))) }
{
    if is_more(line.text) {
        return Ok(());
    }
    if is_indented(line.text) {
        return Err(stray(line));
    }
    if has_name(fields, halves(line.text).0) {
        return Err(Broken::Line(line.at, BadLine::Again));
    }
    let body = more.split_at(body_len(more)).0;
    Ok(fields.push(field_of(alloc, parts, line, body)?)?)
}

/// The fields of a row.
fn fields_of<'a>(
    alloc: Global,
    parts: &[Field<'a>],
    section: &[Said<'a>],
) -> Result<Vec<Field<'a>>, Broken>
    ensures fields { IfOk result (λ v. map named_of v.items ≡ fields_in (map named_of parts.now) (map numbered section.now)) }
    ensures fits { OnOk result (fit_section (map named_of parts.now) (map numbered section.now) ≡ true) }
{
    expect_first(section, body_len(section))?;
    let mut fields = Vec::new(alloc);
    let mut rest = section;
    while let [line, more @ ..] = rest {
        add_field(alloc, &mut fields, parts, *line, more)?;
        rest = more;
    }
    Ok(fields)
}

/// Whether a blank or a tab begins a line.
fn is_indented(line: &str) -> bool
    ensures { result ≡ is_indented line.now }
{
    line.starts_with(' ') || line.starts_with('\t')
}

/// What is wrong with a line that doesn't belong there.
fn stray(line: Said<'_>) -> Broken {
    if is_indented(line.text) && !is_more(line.text) {
        Broken::Line(line.at, BadLine::Indented)
    } else {
        Broken::Line(line.at, BadLine::Nowhere)
    }
}

/// Whether a field or a part has this name.
fn has_name(fields: &[Field<'_>], name: &str) -> bool
    ensures { result ≡ is_some (lines_of (map named_of fields.now) name.now) }
{
    named(fields, name).is_some()
}

/// Whether a row has this name.
fn is_taken(rows: &[Row<'_>], name: &str) -> bool
    ensures { result ≡ list_any (λ n. bytes_eq n name.now) (map (λ row. row.name.now) rows.now) }
{
    for row in rows {
        if row.name == name {
            return true;
        }
    }
    false
}

/// A row's or a part's name is there, and new.
fn expect_name(at: usize, name: &str, taken: bool) -> Result<(), Broken>
    ensures { OnOk result (is_new name.now taken ≡ true) }
{
    if name.is_empty() {
        return Err(Broken::Line(at, BadLine::NoName));
    }
    if taken {
        return Err(Broken::Line(at, BadLine::Again));
    }
    Ok(())
}

impl<'a> Reader<'a> {
    /// Takes the row or the part that a line begins, if it begins one.
    fn take(&mut self, line: Said<'a>, more: &[Said<'a>]) -> Result<(), Broken>
        ensures takes { OnOk result (to_come self.new (map numbered more.now) ≡ to_come self.old (numbered line.entry ∷ map numbered more.now)) }
        ensures fits { OnOk result (fit_to_come self.new (map numbered more.now) ≡ fit_to_come self.old (numbered line.entry ∷ map numbered more.now)) }
    {
        let (word, name) = halves(line.text);
        if word == "row" {
            self.add_row(line.at, name, more.split_at(section_len(more)).0)
        } else if word == "part" {
            self.add_part(line.at, name, more.split_at(section_len(more)).0)
        } else {
            Ok(())
        }
    }

    /// Adds a row with the fields of these lines.
    fn add_row(&mut self, at: usize, name: &'a str, section: &[Said<'a>]) -> Result<(), Broken>
        ensures rows { OnOk result (map row_of self.new.rows.items ≡ map row_of self.old.rows.items ++ (name.now, (at, fields_in (map named_of self.old.parts.items) (map numbered section.now))) ∷ []) }
        ensures parts { OnOk result (self.new.parts ≡ self.old.parts) }
        ensures names { OnOk result (map (λ row. row.name.now) self.new.rows.items ≡ map (λ row. row.name.now) self.old.rows.items ++ name.now ∷ []) }
        ensures fits { OnOk result ((is_new name.now (list_any (λ n. bytes_eq n name.now) (map (λ row. row.name.now) self.old.rows.items)) && fit_section (map named_of self.old.parts.items) (map numbered section.now)) ≡ true) }
    {
        expect_name(at, name, is_taken(&self.rows, name))?;
        let fields = fields_of(self.alloc, &self.parts, section)?;
        Ok(self.rows.push(Row { name, at, fields })?)
    }

    /// Adds a part with these lines.
    fn add_part(&mut self, at: usize, name: &'a str, section: &[Said<'a>]) -> Result<(), Broken>
        ensures parts { OnOk result (map named_of self.new.parts.items ≡ map named_of self.old.parts.items ++ (name.now, more_in_full (map named_of self.old.parts.items) (map numbered section.now)) ∷ []) }
        ensures rows { OnOk result (self.new.rows ≡ self.old.rows) }
        ensures fits { OnOk result ((is_new name.now (is_some (lines_of (map named_of self.old.parts.items) name.now)) && fit_more (map named_of self.old.parts.items) (map numbered section.now)) ≡ true) }
    {
        expect_name(at, name, has_name(&self.parts, name))?;
        let mut lines = Vec::new(self.alloc);
        add_more(&mut lines, &self.parts, section)?;
        Ok(self.parts.push(Field { name, lines })?)
    }
}
