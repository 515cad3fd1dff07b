//! The line that says which words a program takes. It is written from the program's table, and takes no memory.

ghost use Rattle.sq_base.specs.Ends.{end_of};
ghost use Rattle.shell.specs.Table.{option_of, options_of, table_of, takes_of};
ghost use Rattle.shell.specs.Telling.{TellsLine, WritesAll};
ghost use Rattle.shell.specs.Usage.{calls_text, option_text, options_text, taken_text, usage_line};

use crate::table::{OptionRow, Table, Takes};
use sq_base::{Failed, Sink, put};

/// Writes the usage line of a program. Where a write fails, the rest isn't tried.
pub fn tell_usage<E: Sink>(err: &mut E, table: &Table)
    ensures { TellsLine (end_of E.contents E.write_faults err.old err.new) (usage_line (table_of table.now)) }
{
    let _ = put_usage(err, table);
}

fn put_usage<E: Sink>(err: &mut E, table: &Table) -> Result<(), Failed>
    ensures { WritesAll result (end_of E.contents E.write_faults err.old err.new) (usage_line (table_of table.now)) }
{
    put(err, b"usage: ")?;
    put(err, table.program.as_bytes())?;
    put_options(err, table.options)?;
    put_calls(err, table.most_calls)?;
    put(err, b"\n")
}

fn put_options<E: Sink>(err: &mut E, options: &[OptionRow]) -> Result<(), Failed>
    ensures { WritesAll result (end_of E.contents E.write_faults err.old err.new) (options_text (options_of options.now)) }
{
    for row in options {
        put_option(err, row)?;
    }
    Ok(())
}

fn put_option<E: Sink>(err: &mut E, row: &OptionRow) -> Result<(), Failed>
    ensures { WritesAll result (end_of E.contents E.write_faults err.old err.new) (option_text (option_of row.now)) }
{
    put(err, b" [--")?;
    put(err, row.name.as_bytes())?;
    put_taken(err, &row.takes)?;
    put(err, b"]")
}

fn put_taken<E: Sink>(err: &mut E, takes: &Takes) -> Result<(), Failed>
    ensures { WritesAll result (end_of E.contents E.write_faults err.old err.new) (taken_text (takes_of takes.now)) }
{
    match takes {
        Takes::Nothing => Ok(()),
        Takes::Number { .. } => put(err, b" N"),
        Takes::Text { shown, .. } => {
            put(err, b" ")?;
            put(err, shown.as_bytes())
        }
    }
}

fn put_calls<E: Sink>(err: &mut E, most_calls: usize) -> Result<(), Failed>
    ensures { WritesAll result (end_of E.contents E.write_faults err.old err.new) (calls_text most_calls) }
{
    if most_calls > 0 {
        put(err, b" [CALL]...")
    } else {
        Ok(())
    }
}
