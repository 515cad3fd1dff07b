//! A replay as a process: its words, its standard ends, and what it ends with.

use crate::run::{Replayed, replay_run, told, told_usage};
use shell::{NO_MEMORY, ProgramEnd, WordFault, exit, words_of};
use sq_base::{StdSink, StdSource};
use std::alloc::AllocGlobal;
use std::env::Env;
use std::io;
use std::io::{Input, Print, Write};
use std::process::ExitCode;
use std::thread::Threads;

impl ProgramEnd for Replayed {
    ghost use Rattle.trace_replay.specs.Answers.{code_of};

    ghost code = { λ r. code_of r };

    fn exit_code(self) -> u8 {
        self.code()
    }
}

/// Replays for the process' words, from its standard input to its standard output, and tells refusals to `err`.
pub fn run_process<E: Write + Drop>(
    rt: &(impl Env + AllocGlobal + Input + Print + Threads + Sync),
    err: E,
) -> ExitCode {
    let mut src = StdSource::over(rt.reader());
    let mut out = StdSink::over(io::writer(rt));
    let mut err = StdSink::over(err);
    let words = match words_of(rt) {
        Ok(words) => words,
        // A word that isn't UTF-8 is a word too.
        Err(WordFault::Usage) => return exit(told_usage(&mut err)),
        Err(WordFault::NoMemory) => return exit(told(&mut err, NO_MEMORY, Replayed::NoMemory)),
    };
    let replayed = replay_run(
        rt,
        rt.alloc(),
        words.as_slice(),
        &mut src,
        &mut out,
        &mut err,
    );
    exit(replayed)
}
