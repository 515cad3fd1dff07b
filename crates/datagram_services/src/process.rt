//! A run as a process: its words, its standard ends, and what it ends with.

use crate::run::more_run;
use crate::words::TABLE;
use shell::{exit, refuse_words, words_of};
use sq_base::{StdSink, StdSource};
use std::alloc::AllocGlobal;
use std::env::Env;
use std::io;
use std::io::{Input, Print, Write};
use std::process::ExitCode;
use std::sync::Wait;
use std::thread::Threads;

/// Runs for the process' words, from its standard input to its standard output, and tells refusals to `err`.
pub fn run_process<E: Write + Drop>(
    rt: &(impl Env + AllocGlobal + Input + Print + Threads + Wait + Sync),
    err: E,
) -> ExitCode {
    let mut err = StdSink::over(err);
    let words = match words_of(rt) {
        Ok(words) => words,
        Err(fault) => return exit(refuse_words(&mut err, &TABLE, fault)),
    };
    let mut src = StdSource::over(rt.reader());
    let mut out = StdSink::over(io::writer(rt));
    let status = more_run(
        rt,
        rt.alloc(),
        words.as_slice(),
        &mut src,
        &mut out,
        &mut err,
    );
    exit(status)
}
