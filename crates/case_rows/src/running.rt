//! Runs files of rows, whose names are the program's words, and counts.

use crate::fault::RowFault;
use crate::reading::{Broken, rows_of};
use crate::rows::Row;
use std::alloc::{AllocGlobal, Global};
use std::env::Env;
use std::process::ExitCode;
use std::rt::Files;
use std::{env, fs, io};

/// How many rows passed, and how many failed. A file that can't be read counts as a row that failed.
#[derive(Clone, Copy, Drop)]
struct Count {
    passed: u64,
    failed: u64,
}

/// Runs the rows of the files that the process' words name. `judge` does what a row of a file says, and compares what came with what is
/// wanted; its fault says what differs, or that the row has a field that is none there ([`Row::expect_fields`]). Prints a line for each row
/// that fails, and one with the count: `N rows passed, M failed`.
/// The status is 0 where none failed, else 1.
pub fn run_cases<
    R: Env + Files + AllocGlobal + Print,
    J: Fn(Global, &str, &Row<'_>) -> Result<(), RowFault>,
>(rt: &R, judge: &J) -> io::Result<ExitCode>
    requires { J.IsAlwaysCallable judge.now }
{
    let mut count = Count {
        passed: 0,
        failed: 0,
    };
    for file in env::args(rt)?.skip(1) {
        run_file(rt, judge, file.as_str(), &mut count)?;
    }
    let Count { passed, failed } = count;
    println!(rt; "{passed} rows passed, {failed} failed")?;
    Ok(ExitCode::from(u8::from(failed != 0)))
}

/// Runs the rows of a file.
fn run_file<R: Files + AllocGlobal + Print, J: Fn(Global, &str, &Row<'_>) -> Result<(), RowFault>>(
    rt: &R,
    judge: &J,
    file: &str,
    count: &mut Count,
) -> io::Result<()>
    requires { J.IsAlwaysCallable judge.now }
{
    let text = fs::read_to_string(rt, file)?;
    match rows_of(rt.alloc(), text.as_str()) {
        Ok(rows) => run_rows(rt, judge, file, &rows, count),
        Err(broken) => {
            count.failed = count.failed.saturating_add(1);
            tell(rt, file, broken)
        }
    }
}

/// Prints why a file isn't read.
fn tell<R: Print>(rt: &R, file: &str, broken: Broken) -> io::Result<()> {
    match broken {
        Broken::NoMemory => println!(rt; "{file}: out of memory"),
        Broken::Line(number, wrong) => println!(rt; "{file}:{number}: {wrong}"),
    }
}

/// Runs these rows.
fn run_rows<R: AllocGlobal + Print, J: Fn(Global, &str, &Row<'_>) -> Result<(), RowFault>>(
    rt: &R,
    judge: &J,
    file: &str,
    rows: &[Row<'_>],
    count: &mut Count,
) -> io::Result<()>
    requires { J.IsAlwaysCallable judge.now }
{
    for row in rows {
        match judge(rt.alloc(), file, row) {
            Ok(()) => count.passed = count.passed.saturating_add(1),
            Err(fault) => {
                count.failed = count.failed.saturating_add(1);
                tell_row(rt, file, row, &fault)?;
            }
        }
    }
    Ok(())
}

/// Prints why a row fails.
fn tell_row<R: Print>(rt: &R, file: &str, row: &Row<'_>, fault: &RowFault) -> io::Result<()> {
    let at = row.at;
    let name = row.name;
    println!(rt; "{file}:{at}: {name}: {fault}")
}
