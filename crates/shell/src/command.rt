//! A table as a `clap` command, which takes the words apart and tests none of their values.

ghost use Rattle.std.specs.Prelude.{◌≡◌, IfOk, map, true};
ghost use Rattle.std.specs.String.{string_bytes};
ghost use Rattle.clap.specs.Words.{FailsBy, app_of, fault_of, found_of, matches_of, rows_of, with_rule};
ghost use Rattle.shell.specs.Command.{calls_rule, command_app, rule_for};
ghost use Rattle.shell.specs.Table.{is_table, option_of, table_of};

use crate::table::{OptionRow, Table, Takes};
use clap::{Arg, ArgAction, ArgMatches, Command, Error};
use std::alloc::{AllocError, Global};

/// The values of the words, as clap finds them.
pub fn parse<'a>(alloc: Global, table: &Table, words: &'a [String]) -> Result<ArgMatches<'a>, Error>
    requires { is_table (table_of table.now) ≡ true }
    ensures fails { FailsBy (fault_of (command_app (table_of table.now)) (map (λ s. string_bytes s) words.entry.now)) result }
    ensures rows { IfOk result (λ m. rows_of (found_of m)
        ≡ matches_of (command_app (table_of table.now)) (map (λ s. string_bytes s) words.entry.now)) }
{
    let line = command(alloc, table)?;
    line.try_get_matches_from(words)
}

fn command<'a>(alloc: Global, table: &Table) -> Result<Command<'a>, AllocError>
    ensures { IfOk result (λ c. app_of c ≡ command_app (table_of table.now)) }
{
    let mut line = Command::new(alloc, table.program)
        .no_binary_name(true)
        .disable_help_flag(true)
        .disable_version_flag(true);
    for row in table.options {
        line = with_option(alloc, line, row)?;
    }
    with_calls(alloc, line)
}

/// The command with one more option. A value is a text to clap, whatever the option takes.
fn with_option<'a>(
    alloc: Global,
    command: Command<'a>,
    row: &OptionRow,
) -> Result<Command<'a>, AllocError>
    ensures { IfOk result (λ c. app_of c ≡ with_rule (app_of command.entry) (rule_for (option_of row.now))) }
{
    let action = match row.takes {
        Takes::Nothing => ArgAction::SetTrue,
        Takes::Number { .. } | Takes::Text { .. } => ArgAction::Set,
    };
    let arg = Arg::new(alloc, row.name).long(row.name).action(action);
    command.arg(arg)
}

/// The command with the CALLs. Each is a use of its own, so options may stand between them.
fn with_calls<'a>(alloc: Global, command: Command<'a>) -> Result<Command<'a>, AllocError>
    ensures { IfOk result (λ c. app_of c ≡ with_rule (app_of command.entry) calls_rule) }
{
    let calls = Arg::new(alloc, "calls").action(ArgAction::Append);
    command.arg(calls)
}
