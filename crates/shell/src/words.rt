//! The words of the command line, read by a table: `clap` takes them apart, and numbers and CALLs are tested here.

ghost use Rattle.std.specs.Prelude.{◌≡◌, ◌≢◌, None, Some, Err, IfOk, List, map, option_map, true};
ghost use Rattle.std.specs.String.{string_bytes};
ghost use Rattle.clap.specs.Words.{found_of, rows_of};
ghost use Rattle.shell.specs.Asked.{asked, asked_of, calls_of, given_by, given_is, given_named, givens, givens_of, is_number};
ghost use Rattle.shell.specs.Asked.{is_text, number_by, text_by, value_by, value_of};
ghost use Rattle.shell.specs.Command.{Holds, HoldsOne};
ghost use Rattle.shell.specs.Table.{is_table, option_of, options_of, table_of};
ghost use Rattle.shell.specs.Words.{Use, uses_of};

use crate::asked::{Asked, Given, ReadsCall, Value};
use crate::command::parse;
use crate::numbers::number_between;
use crate::table::{OptionRow, Table, Takes};
use clap::ArgMatches;
use clap::error::ErrorKind;
use std::alloc::Global;
use thiserror::Error;

/// Why there are no words.
#[derive(Clone, Copy, Debug, PartialEq, Eq, Error)]
pub enum WordFault {
    /// The words are none of the usage line.
    #[error("the words are none of the usage line")]
    Usage,
    #[error("out of memory")]
    NoMemory,
}

/// What the words of the command line, without the program's name, ask for. `Usage` comes only where they are refused.
///
/// # Example
///
/// ```
/// let asked = words_asked::<NoCall>(alloc, &TABLE, words.as_slice())?;
/// (asked.number("rings"), asked.text("mode"))
/// ```
pub fn words_asked<'a, C: ReadsCall>(
    alloc: Global,
    table: &Table,
    words: &'a [String],
) -> Result<Asked<'a, C>, WordFault>
    requires { is_table (table_of table.now) ≡ true }
    ensures ok { IfOk result (λ w. asked C.call_of (table_of table.now) (map (λ s. string_bytes s) words.entry.now) ≡ Some (asked_of w)) }
    ensures usage { result ≡ Err WordFault.Usage → asked C.call_of (table_of table.now) (map (λ s. string_bytes s) words.entry.now) ≡ None }
{
    let matches = matches_in(alloc, table, words)?;
    let named = matches.get_strs("calls").unwrap_or(&[]);
    if named.len() > table.most_calls {
        return Err(WordFault::Usage);
    }
    let givens = givens_in(alloc, table.options, &matches)?;
    let calls = calls_in::<C>(alloc, named)?;
    Ok(Asked { givens, calls })
}

/// The texts of the words, as clap finds them.
fn matches_in<'a>(
    alloc: Global,
    table: &Table,
    words: &'a [String],
) -> Result<ArgMatches<'a>, WordFault>
    requires { is_table (table_of table.now) ≡ true }
    ensures ok { IfOk result (λ m. (us : List Use)
        × (uses_of (options_of table.now.options.now) (map (λ s. string_bytes s) words.entry.now) ≡ Some us)
        × Holds (options_of table.now.options.now) (rows_of (found_of m)) us) }
    ensures usage { result ≡ Err WordFault.Usage → uses_of (options_of table.now.options.now) (map (λ s. string_bytes s) words.entry.now) ≡ None }
{
    match parse(alloc, table, words) {
        Ok(matches) => Ok(matches),
        Err(error) => Err(fault_of(error.kind())),
    }
}

/// Want of memory is no fault of the words.
fn fault_of(kind: ErrorKind) -> WordFault
    ensures { result ≡ WordFault.Usage → kind ≢ ErrorKind.OutOfMemory }
{
    match kind {
        ErrorKind::OutOfMemory => WordFault::NoMemory,
        _ => WordFault::Usage,
    }
}

/// What is given of each option, where all are in range.
fn givens_in<'a>(
    alloc: Global,
    options: &'static [OptionRow],
    matches: &ArgMatches<'a>,
) -> Result<Vec<Given<'a>>, WordFault>
    ensures ok { (us : List Use) → Holds (options_of options.now) (rows_of (found_of matches.now)) us
        → IfOk result (λ v. givens (options_of options.now) us ≡ Some (givens_of v.items)) }
    ensures usage { (us : List Use) → Holds (options_of options.now) (rows_of (found_of matches.now)) us
        → result ≡ Err WordFault.Usage → givens (options_of options.now) us ≡ None }
{
    let mut givens = Vec::new(alloc);
    for row in options {
        let Some(given) = given_in(row, matches) else {
            return Err(WordFault::Usage);
        };
        if givens.push(given).is_err() {
            return Err(WordFault::NoMemory);
        }
    }
    Ok(givens)
}

/// What is given of an option, where it is in range.
fn given_in<'a>(row: &OptionRow, matches: &ArgMatches<'a>) -> Option<Given<'a>>
    ensures { (us : List Use) → HoldsOne (rows_of (found_of matches.now)) us (option_of row.now)
        → option_map given_is result ≡ option_map (given_named row.now.name.now) (given_by (option_of row.now) us) }
{
    let value = value_in(row, matches)?;
    Some(Given {
        name: row.name,
        value,
    })
}

/// The value of an option, where there is one; nothing where it isn't in range.
fn value_in<'a>(row: &OptionRow, matches: &ArgMatches<'a>) -> Option<Option<Value<'a>>>
    ensures { (us : List Use) → HoldsOne (rows_of (found_of matches.now)) us (option_of row.now)
        → option_map (option_map value_of) result ≡ given_by (option_of row.now) us }
{
    match row.takes {
        Takes::Nothing => Some(set_where(matches.get_flag(row.name))),
        Takes::Number {
            least,
            most,
            default,
        } => number_in(least, most, default, matches.get_str(row.name)),
        Takes::Text { default, .. } => Some(text_in(default, matches.get_str(row.name))),
    }
}

fn set_where<'a>(is: bool) -> Option<Value<'a>>
    ensures { option_map value_of result ≡ value_by is }
{
    if is { Some(Value::Set) } else { None }
}

/// A number in its range, or its default.
fn number_in<'a>(
    least: u32,
    most: u32,
    default: Option<u32>,
    text: Option<&str>,
) -> Option<Option<Value<'a>>>
    ensures { option_map (option_map value_of) result ≡ number_by least most default (option_map (λ t. t.now) text.entry) }
{
    match text {
        Some(text) => Some(Some(Value::Number(number_between(text, least, most)?))),
        None => Some(given_number(default)),
    }
}

fn given_number<'a>(number: Option<u32>) -> Option<Value<'a>>
    ensures { option_map value_of result ≡ option_map is_number number }
{
    match number {
        Some(number) => Some(Value::Number(number)),
        None => None,
    }
}

/// A text, or its default.
fn text_in<'a>(default: Option<&'a str>, text: Option<&'a str>) -> Option<Value<'a>>
    ensures { option_map value_of result ≡ text_by (option_map (λ t. t.now) default.entry) (option_map (λ t. t.now) text.entry) }
{
    match text {
        Some(text) => Some(Value::Text(text)),
        None => given_text(default),
    }
}

fn given_text<'a>(text: Option<&'a str>) -> Option<Value<'a>>
    ensures { option_map value_of result ≡ option_map is_text (option_map (λ t. t.now) text.entry) }
{
    match text {
        Some(text) => Some(Value::Text(text)),
        None => None,
    }
}

/// The CALLs that words are, in their order.
fn calls_in<C: ReadsCall>(alloc: Global, words: &[&str]) -> Result<Vec<C>, WordFault>
    ensures ok { IfOk result (λ v. calls_of C.call_of (map (λ w. w.now) words.now) ≡ Some v.items) }
    ensures usage { result ≡ Err WordFault.Usage → calls_of C.call_of (map (λ w. w.now) words.now) ≡ None }
{
    let mut calls = Vec::new(alloc);
    for word in words {
        let Some(call) = C::read_call(word) else {
            return Err(WordFault::Usage);
        };
        if calls.push(call).is_err() {
            return Err(WordFault::NoMemory);
        }
    }
    Ok(calls)
}
